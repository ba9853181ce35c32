// The parts of an AREA file, of a file and a layout: blocks, the regions of a line's prefix, the slot of a band, and one slot of one line. There is no code
// here: see specs/ and proofs/.
#![tactic(auto)]
