// The theory of stores: what a store does to a file, and why the order of stores does not matter. There is no code here: see specs/ and proofs/.
#![tactic(auto)]
