// Refusals, answers, the verdict that rules come to, tables of rules and the tests that rules are made of: see specs/ and proofs/.
#![tactic(auto)]

ghost use Rattle.std.specs.Prelude.{◌≡◌};
ghost use Rattle.refusal_rules.specs.Rules.{numbered};

use std::error::Error;
use std::fmt;

// Why a call refuses: a variant for each row of document 01's table of refusals, with those of document 02, request 5. "Refusal" is its term. A variant holds the place
// where the row gives one that depends on the file, the number of a word.
#[derive(Clone, Copy, Debug, PartialEq, Eq)]
pub enum Refusal {
    // The file is shorter than 256 (AREA), 44 (GRID) or 16,384 (MD) bytes.
    ShortFile,
    // AREA word 2 is 4 in neither byte order.
    NoByteOrder,
    // A count is outside its bounds. The place is its word.
    CountOutOfBounds(usize),
    // A word is unequal to its rule, and the place is the word; or a band map is unusable, and the place is 19.
    RuleBroken(usize),
    // Something is outside the file, or over another part. The place is its word.
    Misplaced(usize),
    // A grid slot is empty, a block is absent, or a prefix region has length 0.
    Absent,
    // There is no such line, element, slot, band, grid, point, field or key, or the layout is of another kind.
    NoSuch,
    // A sample to store does not fit the bytes of a sample.
    TooLarge,
    // The layout is stale: opening these bytes does not give it.
    Stale,
    // A lent output is too short.
    ShortOutput,
    // A word is no date, or no time of day.
    NoDate,
    // The values or the header of a grid to add are of the wrong length.
    WrongLength,
    // A grid is to be added, and the file has no empty slot.
    NoEmptySlot,
    // A grid is to be added, and the file has no room for it.
    NoRoom,
}

impl Refusal {
    // Document 01's number of a refusal.
    pub fn number(self) -> u32
        ensures { result ≡ (numbered self).number }
    {
        match self {
            Refusal::ShortFile => 1,
            Refusal::NoByteOrder => 2,
            Refusal::CountOutOfBounds(_) => 3,
            Refusal::RuleBroken(_) => 4,
            Refusal::Misplaced(_) => 5,
            Refusal::Absent => 6,
            Refusal::NoSuch => 7,
            Refusal::TooLarge => 8,
            Refusal::Stale => 9,
            Refusal::ShortOutput => 10,
            Refusal::NoDate => 11,
            Refusal::WrongLength => 12,
            Refusal::NoEmptySlot => 13,
            Refusal::NoRoom => 14,
        }
    }

    // Document 01's place of a refusal.
    pub fn place(self) -> u64
        ensures { result ≡ (numbered self).place }
    {
        match self {
            Refusal::NoByteOrder => 2,
            Refusal::CountOutOfBounds(word) => word as u64,
            Refusal::RuleBroken(word) => word as u64,
            Refusal::Misplaced(word) => word as u64,
            _ => 0,
        }
    }
}

impl fmt::Display for Refusal {
    fn fmt<W: fmt::Write>(&self, f: &mut fmt::Formatter<W>) -> fmt::Result {
        write!(f, "refused with {} at {}", self.number(), self.place())
    }
}

impl Error for Refusal {}

// Where a value lies: the byte at which it starts, and how many bytes it has. "Place" is document 01's term.
#[derive(Clone, Copy, Debug, PartialEq, Eq)]
pub struct Place {
    pub address: usize,
    pub width: usize,
}
