// An example of use: points of a grid are corrected in place.
#![tactic(auto)]

ghost use Rattle.std.specs.Prelude.{◌≡◌};
ghost use Rattle.refusal_rules.specs.Answers.{says};
ghost use Rattle.grid_correction.specs.Corrections.{correct_point, two_say, correct_two};

use endian_rules::Order;
use layout::open_grid;
use layout_rules::Layout;
use reads::read_point;
use refusal_rules::Refusal;
use stores::store_point;

// A correction of a grid: a row, a column and the value that the point should have.
#[derive(Clone, Copy, Debug, PartialEq, Eq)]
pub struct Correction {
    pub row: u32,
    pub column: u32,
    pub value: i32,
}

// What two stores answer.
#[derive(Clone, Copy, Debug, PartialEq, Eq)]
pub struct TwoAnswers {
    pub first: Result<(), Refusal>,
    pub second: Result<(), Refusal>,
}

// Corrects the point of a row and a column of a grid: the file is opened, the value that the point has is read, and the value that it should have is stored in its
// place. Answers the old value. Refused as `layout::open_grid` and then as `reads::read_point`; the file is then as it was.
#[tactic(auto, using(crate::proofs::Corrections::unread_told))]
pub fn correct_point(
    file: &mut [u8],
    order: Order,
    number: u32,
    row: u32,
    column: u32,
    value: i32,
) -> Result<i32, Refusal>
    ensures { (says result, file.new) ≡ correct_point file.old order number row column value }
{
    let layout = open_grid(file, order, number)?;
    let old = read_point(file, layout, row, column)?;
    store_point(file, layout, row, column, value)?;
    Ok(old)
}

// Makes two corrections with a layout, one after the other. Each is refused as `stores::store_point`, and then changes nothing.
pub fn correct_two(
    file: &mut [u8],
    layout: Layout,
    first: Correction,
    second: Correction,
) -> TwoAnswers
    ensures { (two_say result, file.new) ≡ correct_two file.old layout first second }
{
    let one = store_point(file, layout, first.row, first.column, first.value);
    let other = store_point(file, layout, second.row, second.column, second.value);
    TwoAnswers {
        first: one,
        second: other,
    }
}
