// The worked cases that document 01 marks to be proved. There is no code here: see specs/ and proofs/.
#![tactic(auto)]
