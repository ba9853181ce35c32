// Where the points of a grid lie, by a layout alone. A layout may be one that a caller has made up: where a field of it is above the bounds that opening sets,
// there is no such point, and nothing is computed from it.
#![tactic(auto)]

ghost use Rattle.std.specs.Prelude.{◌≡◌};
ghost use Rattle.refusal_rules.specs.Rules.{first_fault};
ghost use Rattle.refusal_rules.specs.Answers.{says, verdict_of};
ghost use Rattle.grid_rules.specs.Places.{point_rules, point_place};
ghost use Rattle.grid_rules.specs.Points.{point_word, IsPoint};
ghost use Rattle.grid_rules.specs.Bounds.{GridBounds};

use grid_rules::GridLayout;
use refusal::{and, check, within};
use refusal_rules::{Place, Refusal};

// What the rules of a point of a row and a column say: 7 where there is no such row or column.
#[tactic(auto, unfolding(grid_rules::specs::Places::point_rules, grid_rules::specs::Bounds::grid_bounded, refusal_rules::specs::Rules::first_fault, refusal_rules::specs::Rules::first))]
fn point_verdict(layout: GridLayout, row: u32, column: u32) -> Result<(), Refusal>
    ensures { verdict_of result ≡ first_fault (point_rules layout row column) }
{
    let bounded = and(layout.rows <= 65535, layout.columns <= 65535);
    check(bounded, Refusal::NoSuch)?;
    check(within(1, layout.rows, row), Refusal::NoSuch)?;
    check(within(1, layout.columns, column), Refusal::NoSuch)
}

// The word of the point of a row and a column.
fn point_word(layout: GridLayout, row: u32, column: u32) -> usize
    requires { GridBounds layout × IsPoint layout row column }
    ensures { result ≡ point_word layout row column }
{
    let before = (column - 1) as usize * layout.rows as usize;
    layout.offset as usize + 64 + before + (row - 1) as usize
}

// The place of a point of a grid, named by row and column, both counted from 1. Refused with 7 where there is no such row or column, or the layout is above
// the bounds that opening sets.
#[tactic(auto, unfolding(grid_rules::specs::Places::point_place))]
pub fn point_place(layout: GridLayout, row: u32, column: u32) -> Result<Place, Refusal>
    ensures { says result ≡ point_place layout row column }
{
    point_verdict(layout, row, column)?;
    Ok(Place {
        address: 4 * point_word(layout, row, column),
        width: 4,
    })
}
