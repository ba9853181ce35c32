// The free words of a GRID file, the longest runs of them, and the lowest address at which a grid has room. There is no code here: see specs/ and proofs/.
#![tactic(auto)]

// So many words of a file, from a start on, counted from 0. One of no words stands for none, as in the definitions `first_fitting` and `nth_run`.
#[derive(Clone, Copy, Debug, PartialEq, Eq)]
pub struct Extent {
    pub start: usize,
    pub length: usize,
}

// The free stretches of a file: how many they are, and the last of them.
#[derive(Clone, Copy, Debug, PartialEq, Eq)]
pub struct Survey {
    pub count: usize,
    pub last: Extent,
}

// The greatest word at which a grid may end: the next free word is a signed word.
pub const LAST_END: usize = 2147483647;
