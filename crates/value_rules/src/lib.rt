// The values of a file by their names: where a named value lies, and what the single read of it answers. There is no code here: see specs/ and proofs/.
#![tactic(auto)]

use area_rules::SlotOrBand;

// The name of a value: a sample of an AREA file by line, element, and slot or band, line and element counted from 0; a point of a grid by row and column,
// counted from 1; a field of an MD file by its coordinates, of which 0 names the headers and the user record, and its position, counted from 1.
#[derive(Clone, Copy, Debug, PartialEq, Eq)]
pub enum ValueName {
    Sample {
        line: u32,
        element: u32,
        which: SlotOrBand,
    },
    Point {
        row: u32,
        column: u32,
    },
    Field {
        row: u32,
        column: u32,
        position: u32,
    },
}
