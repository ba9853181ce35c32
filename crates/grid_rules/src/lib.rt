// GRID files, gridded fields: the opening checks slot by slot, when a file is accepted, the layout of a grid, and where its header words and points are.
// There is no code here: see specs/ and proofs/.
#![tactic(auto)]

use endian_rules::Order;

// What opening a grid finds: the byte order in which the file was opened and its length in bytes, the number of the grid; and as raw words
// its offset, in words, and its rows and columns. "Layout" is document 01's term.
#[derive(Clone, Copy, Debug, PartialEq, Eq)]
pub struct GridLayout {
    pub order: Order,
    pub length: usize,
    pub number: u32,
    pub offset: u32,
    pub rows: u32,
    pub columns: u32,
}

// -1 as a raw word: the offset of an empty slot. A constant, since it is a word of the file.
pub const EMPTY_SLOT: u32 = 4294967295;
