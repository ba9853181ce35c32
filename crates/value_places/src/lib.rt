// Where a named value of a file of any kind lies, by a layout alone: the samples of an AREA file, the points of a grid, the fields of an MD file.
#![tactic(auto)]

ghost use Rattle.std.specs.Prelude.{◌≡◌};
ghost use Rattle.refusal_rules.specs.Answers.{says};
ghost use Rattle.value_rules.specs.Places.{place_of};

use area_places::sample_place;
use area_rules::AreaLayout;
use grid_places::point_place;
use grid_rules::GridLayout;
use layout_rules::Layout;
use md_places::field_place;
use md_rules::MdLayout;
use refusal_rules::{Place, Refusal};
use value_rules::ValueName;

// Where a named value lies, by a layout alone. Refused with 7 where the layout is of another kind than the name, then with 4 at 19 where a band is named and
// the band map is unusable, then with 7 where there is no such line, element, slot, band, point or field, or the layout is above the bounds that opening sets.
#[tactic(auto, unfolding(value_rules::specs::Places::place_of))]
pub fn place_of(layout: Layout, name: ValueName) -> Result<Place, Refusal>
    ensures { says result ≡ place_of layout name }
{
    match name {
        ValueName::Sample {
            line,
            element,
            which,
        } => sample_place(AreaLayout::try_from(layout)?, line, element, which),
        ValueName::Point { row, column } => point_place(GridLayout::try_from(layout)?, row, column),
        ValueName::Field {
            row,
            column,
            position,
        } => field_place(MdLayout::try_from(layout)?, row, column, position),
    }
}
