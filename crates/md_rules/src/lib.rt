// MD files, point records: the opening checks as a table, when a file is accepted, its layout, and where its fields are. There is no code here: see specs/
// and proofs/.
#![tactic(auto)]

use endian_rules::Order;

// What opening an MD file finds: the byte order in which it was opened and the file's length in bytes; and as raw words the rows (word 3),
// columns (word 4) and keys (word 5), of which so many are row-header keys (word 6), column-header keys (word 7) and data keys
// (word 8), and the words at which the column headers (word 28) and the data (word 29) start. "Layout" is document 01's term.
#[derive(Clone, Copy, Debug, PartialEq, Eq)]
pub struct MdLayout {
    pub order: Order,
    pub length: usize,
    pub rows: u32,
    pub columns: u32,
    pub keys: u32,
    pub row_keys: u32,
    pub column_keys: u32,
    pub data_keys: u32,
    pub column_start: u32,
    pub data_start: u32,
}
