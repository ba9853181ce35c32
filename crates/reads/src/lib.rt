// The single read of a value of every kind, and where a named value lies in a file.
#![tactic(auto)]

ghost use Rattle.std.specs.Prelude.{◌≡◌};
ghost use Rattle.refusal_rules.specs.Answers.{says};
ghost use Rattle.value_rules.specs.Reading.{place_in, read_sample, IsWord, read_word, read_point, read_field};

use area_rules::SlotOrBand;
use endian_steps::{read_number, read_signed};
use layout::{is_fresh, order_of};
use layout_rules::Layout;
use refusal_rules::{Place, Refusal};
use value_places::place_of;
use value_rules::ValueName;

// Where a named value lies in a file. Refused with 9 where the layout is stale, then with 7 where it is of another kind than the name, then with 4 at 19 where
// a band is named and the band map is unusable, then with 7 where there is no such line, element, slot, band, point or field.
#[tactic(auto, unfolding(layout_rules::specs::Found::found))]
pub fn place_in(file: &[u8], layout: Layout, name: ValueName) -> Result<Place, Refusal>
    ensures { says result ≡ place_in file.now layout name }
{
    if is_fresh(file, layout) {
        place_of(layout, name)
    } else {
        Err(Refusal::Stale)
    }
}

// The sample of a line and an element, both counted from 0, and a slot or band of an AREA file: an unsigned number. Refused as `place_in`.
#[tactic(auto, using(value_rules::proofs::Reading::read_inside), unfolding(value_rules::specs::Reading::read_sample))]
pub fn read_sample(
    file: &[u8],
    layout: Layout,
    line: u32,
    element: u32,
    which: SlotOrBand,
) -> Result<u32, Refusal>
    ensures { says result ≡ read_sample file.now layout line element which }
{
    let sample = ValueName::Sample {
        line,
        element,
        which,
    };
    let place = place_in(file, layout, sample)?;
    let order = order_of(layout);
    Ok(read_number(order, place.width, file, place.address))
}

// The signed word of a point or a field.
// Not one function with `read_sample`: the two have only the call of `place_in` in common.
#[tactic(auto, using(value_rules::proofs::Reading::word_inside), unfolding(value_rules::specs::Reading::read_word))]
fn read_word_of(file: &[u8], layout: Layout, name: ValueName) -> Result<i32, Refusal>
    requires { IsWord name }
    ensures { says result ≡ read_word file.now layout name }
{
    let place = place_in(file, layout, name)?;
    let order = order_of(layout);
    Ok(read_signed(order, file, place.address))
}

// The point of a row and a column, both counted from 1, of a grid: a signed word. Refused as `place_in`.
pub fn read_point(file: &[u8], layout: Layout, row: u32, column: u32) -> Result<i32, Refusal>
    ensures { says result ≡ read_point file.now layout row column }
{
    read_word_of(file, layout, ValueName::Point { row, column })
}

// The field at a position, counted from 1, of the part of an MD file that coordinates name: a signed word. Refused as `place_in`.
pub fn read_field(
    file: &[u8],
    layout: Layout,
    row: u32,
    column: u32,
    position: u32,
) -> Result<i32, Refusal>
    ensures { says result ≡ read_field file.now layout row column position }
{
    let field = ValueName::Field {
        row,
        column,
        position,
    };
    read_word_of(file, layout, field)
}
