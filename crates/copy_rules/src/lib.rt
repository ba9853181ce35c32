// What all copies into a lent output share: numbers at equal distances in a file, what a copy answers and what it leaves, and what each turn of a loop that
// copies leaves. There is no code here: see specs/ and proofs/.
#![tactic(auto)]

// Numbers at equal distances: so many, the first at a byte, each so many bytes behind the one before.
#[derive(Clone, Copy, Debug, PartialEq, Eq)]
pub struct Strided {
    pub at: usize,
    pub step: usize,
    pub count: usize,
}

// Lines of words: so many lines, the first at a byte, each `across` bytes behind the one before; in a line so many words, each `along` bytes behind the
// one before.
#[derive(Clone, Copy, Debug, PartialEq, Eq)]
pub struct WordLines {
    pub at: usize,
    pub across: usize,
    pub along: usize,
    pub count: usize,
    pub words: usize,
}
