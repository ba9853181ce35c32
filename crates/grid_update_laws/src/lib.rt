// What the calls on grids answer after a grid is deleted or added: document 02, request 5. There is no code here: see specs/ and proofs/.
#![tactic(auto)]
