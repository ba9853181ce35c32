// The parts of a GRID file, of a file and a layout: the header of a grid, and a whole grid by columns or by rows. There is no code here: see specs/ and
// proofs/.
#![tactic(auto)]
