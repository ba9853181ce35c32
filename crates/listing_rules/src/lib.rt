// What the listing of an AREA file says: its blocks that are present, by start, and the text of it. There is no code here: see specs/ and proofs/.
#![tactic(auto)]

use area_rules::{AreaLayout, Block};
use refusal_rules::Refusal;

// A block of a file: which one it is, where it starts, and how many bytes it has.
#[derive(Clone, Copy, Debug, PartialEq, Eq)]
pub struct Entry {
    pub block: Block,
    pub start: usize,
    pub length: usize,
}

// The blocks of a file, at most six of them: the first `count` entries. The others are blank: the directory, at 0, with no bytes.
// An array with a count and no `Vec`: the library has no heap, and its memory is fixed.
#[derive(Clone, Copy, Debug, PartialEq, Eq)]
pub struct BlockList {
    pub count: usize,
    pub entries: [Entry; 6],
}

// What a listing says of a file: what opening it answers, and its blocks, none where it is refused.
#[derive(Clone, Copy, Debug, PartialEq, Eq)]
pub struct Listing {
    pub opening: Result<AreaLayout, Refusal>,
    pub blocks: BlockList,
}

// A text that bytes are appended to: its first `count` bytes. There is room for 512, and no listing has more than 439.
// An array with a count and no `String`: the library has no heap, and its memory is fixed.
#[derive(Clone, Copy, Debug, PartialEq, Eq)]
pub struct Text {
    pub count: usize,
    pub bytes: [u8; 512],
}
