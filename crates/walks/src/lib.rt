// Steps for proofs that walk the code of a function by hand. There is no code here: see proofs/.
#![tactic(auto)]
