// The stores of single values, into a file that is lent: a sample of an AREA file, a point of a grid, a field of an MD file. Each changes the bytes of its place only,
// and a refusal changes nothing. What each does is its plan; that the order of stores does not matter is shown in store_rules.
#![tactic(auto)]

ghost use Rattle.std.specs.Prelude.{◌≡◌, ◌^◌, ◌≤◌, ◌+◌, ltb, length};
ghost use Rattle.store_theory.specs.Plans.{outcome};
ghost use Rattle.store_rules.specs.Stores.{put_at, store_sample, store_point, store_field};
ghost use Rattle.store_rules.specs.Answers.{store_at};
ghost use Rattle.refusal_rules.specs.Answers.{says};

use area_rules::SlotOrBand;
use endian::unsigned;
use endian_rules::Order;
use endian_steps::write_number;
use layout::order_of;
use layout_rules::Layout;
use reads::place_in;
use refusal_rules::{Place, Refusal};
use value_rules::ValueName;

// Whether a number fits so many bytes, one to four.
fn fits_width(number: u32, width: usize) -> bool
    requires { (1 ≤ width) × (width ≤ 4) }
    ensures { result ≡ ltb number (256 ^ width) }
{
    // The bound of each width is written out: a shift that computes it needs a lemma on powers, and is no plainer.
    match width {
        1 => number < 256,
        2 => number < 65536,
        3 => number < 16777216,
        _ => true,
    }
}

// Puts a number at a place. Refused with 8 where it does not fit the place's bytes.
#[tactic(auto, unfolding(store_theory::specs::Plans::outcome, store_rules::specs::Stores::put_at))]
fn put(file: &mut [u8], order: Order, place: Place, number: u32) -> Result<(), Refusal>
    requires { ((1 ≤ place.width) × (place.width ≤ 4)) × (place.address + place.width ≤ length file.old) }
    ensures { (says result, file.new) ≡ outcome file.old (put_at order number place) }
{
    if fits_width(number, place.width) {
        write_number(order, place.width, file, place.address, number);
        Ok(())
    } else {
        Err(Refusal::TooLarge)
    }
}

// Stores the number that a value's bits are.
#[tactic(auto, using(value_rules::proofs::Reading::place_room), unfolding(store_theory::specs::Plans::outcome))]
fn store(file: &mut [u8], layout: Layout, name: ValueName, number: u32) -> Result<(), Refusal>
    ensures { (says result, file.new) ≡ store_at file.old layout name number }
{
    let place = place_in(file, layout, name)?;
    put(file, order_of(layout), place, number)
}

// Stores a number, 0 to 4,294,967,295, into the sample of a line and an element, both counted from 0, and a slot or band of an AREA file. Refused as
// `reads::read_sample`, and then with 8 where the number does not fit the bytes of a sample.
#[tactic(auto, using(store_rules::proofs::Single::store_by_place))]
pub fn store_sample(
    file: &mut [u8],
    layout: Layout,
    line: u32,
    element: u32,
    which: SlotOrBand,
    number: u32,
) -> Result<(), Refusal>
    ensures { (says result, file.new) ≡ store_sample file.old layout line element which number }
{
    let sample = ValueName::Sample {
        line,
        element,
        which,
    };
    store(file, layout, sample, number)
}

// Stores a signed word into the point of a row and a column, both counted from 1, of a grid. Refused as `reads::read_point`.
#[tactic(auto, using(store_rules::proofs::Single::store_by_place))]
pub fn store_point(
    file: &mut [u8],
    layout: Layout,
    row: u32,
    column: u32,
    value: i32,
) -> Result<(), Refusal>
    ensures { (says result, file.new) ≡ store_point file.old layout row column value }
{
    let point = ValueName::Point { row, column };
    store(file, layout, point, unsigned(value))
}

// Stores a signed word into the field at a position, counted from 1, of the part of an MD file that coordinates name. Refused as `reads::read_field`.
#[tactic(auto, using(store_rules::proofs::Single::store_by_place))]
pub fn store_field(
    file: &mut [u8],
    layout: Layout,
    row: u32,
    column: u32,
    position: u32,
    value: i32,
) -> Result<(), Refusal>
    ensures { (says result, file.new) ≡ store_field file.old layout row column position value }
{
    let field = ValueName::Field {
        row,
        column,
        position,
    };
    store(file, layout, field, unsigned(value))
}
