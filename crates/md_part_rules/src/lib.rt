// The parts of an MD file, of a file and a layout: a complete record, and the position of a key by its name. There is no code here: see specs/ and proofs/.
#![tactic(auto)]
