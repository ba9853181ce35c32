// Definitions and laws of lists that every specification uses. There is no code here: see specs/ and proofs/.
#![tactic(auto)]
