// Parts of a file that are handed back: a span of bytes, and where it lies. There is no code here: see specs/ and proofs/.
#![tactic(auto)]

// Where a part of a file lies: the byte at which it starts, and how many bytes it has.
#[derive(Clone, Copy, Debug, PartialEq, Eq)]
pub struct Span {
    pub start: usize,
    pub length: usize,
}
