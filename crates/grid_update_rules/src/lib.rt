// What deleting and adding a grid answer and leave, and the free stretches of a file: document 02, request 5. There is no code here: see specs/ and proofs/. The
// calls are `grid_updates::delete`, `grid_updates::add` and `grid_updates::free_stretches`.
#![tactic(auto)]

use extent_rules::Extent;

// A grid that was added: its number, which is that of its slot, counted from 1; the word at which it begins; and how many free stretches the file has now.
#[derive(Clone, Copy, Debug, PartialEq, Eq)]
pub struct Added {
    pub number: u32,
    pub address: usize,
    pub stretches: usize,
}

// The plan of an addition that its rules allow: the number of its slot, counted from 1, how many words the grid needs, how many free stretches the file has
// before the last, and the last. Only those before the last are put into the table to be searched: an addition may leave one stretch fewer, and then the place of
// the last stays as it was.
#[derive(Clone, Copy, Debug, PartialEq, Eq)]
pub struct AddPlan {
    pub number: u32,
    pub need: usize,
    pub count: usize,
    pub last: Extent,
}
