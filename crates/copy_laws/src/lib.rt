// Each number that a copy writes is what the single read of the same value answers: of a line, of a grid by columns and by rows, and of a record. There is no code
// here: see proofs/.
#![tactic(auto)]
