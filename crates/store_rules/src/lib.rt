// What the stores of single values do, what they answer, and demand 3: that their order does not matter. There is no code here: see specs/ and proofs/.
#![tactic(auto)]
