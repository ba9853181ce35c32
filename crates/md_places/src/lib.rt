// Where the parts and fields of an MD file lie, by a layout alone. A layout may be one that a caller has made up: where a field of it is above the bounds that
// opening sets, there is no such part or field, and nothing is computed from it.
#![tactic(auto)]

ghost use Rattle.std.specs.Prelude.{◌≡◌, ◌≤◌};
ghost use Rattle.refusal_rules.specs.Rules.{first_fault};
ghost use Rattle.refusal_rules.specs.Answers.{says, verdict_of};
ghost use Rattle.md_rules.specs.Bounds.{md_bounded, MdBounds};
ghost use Rattle.md_rules.specs.Places.{part_word, part_rules, part_start_of, field_rules, field_place};
ghost use Rattle.md_rules.specs.Fields.{fields_of, field_word, IsField};

use md_rules::MdLayout;
use refusal::{and, check, within};
use refusal_rules::{Place, Refusal};

// Whether the fields that MD addresses are computed from are within the bounds that opening sets.
#[tactic(auto, unfolding(md_rules::specs::Bounds::md_bounded))]
fn md_bounded(layout: MdLayout) -> bool
    ensures { result ≡ md_bounded layout }
{
    let headers = and(layout.column_keys <= 400, layout.data_keys <= 400);
    let keys = and(layout.row_keys <= 400, headers);
    and(layout.rows <= 65535, and(layout.columns <= 1600000, keys))
}

// The first word of the part of an MD file that coordinates name.
#[tactic(auto, unfolding(md_rules::specs::Fields::field_word))]
fn part_word(layout: MdLayout, row: u32, column: u32) -> usize
    requires { MdBounds layout × ((row ≤ layout.rows) × (column ≤ layout.columns)) }
    ensures { result ≡ part_word layout row column }
{
    if row == 0 {
        if column == 0 {
            return 64;
        }
        return layout.column_start as usize + (column - 1) as usize * layout.column_keys as usize;
    }
    if column == 0 {
        return 4096 + (row - 1) as usize * layout.row_keys as usize;
    }
    let before = (row - 1) as usize * layout.columns as usize + (column - 1) as usize;
    layout.data_start as usize + before * layout.data_keys as usize
}

// What the rules of the part that coordinates name say: 7 where there is no such row or column.
#[tactic(auto, unfolding(md_rules::specs::Places::part_rules, refusal_rules::specs::Rules::first_fault, refusal_rules::specs::Rules::first))]
fn part_verdict(layout: MdLayout, row: u32, column: u32) -> Result<(), Refusal>
    ensures { verdict_of result ≡ first_fault (part_rules layout row column) }
{
    check(md_bounded(layout), Refusal::NoSuch)?;
    check(row <= layout.rows, Refusal::NoSuch)?;
    check(column <= layout.columns, Refusal::NoSuch)
}

// The word at which the part of an MD file that coordinates name begins: the user record for (0, 0), a row header for (r, 0), a column header for
// (0, c), data for (r, c). Refused with 7 where there is no such row or column, or the layout is above the bounds that opening sets.
#[tactic(auto, unfolding(md_rules::specs::Places::part_start_of))]
pub fn part_start(layout: MdLayout, row: u32, column: u32) -> Result<usize, Refusal>
    ensures { says result ≡ part_start_of layout row column }
{
    part_verdict(layout, row, column)?;
    Ok(part_word(layout, row, column))
}

// How many fields the part of an MD file has that coordinates name.
#[tactic(auto, unfolding(md_rules::specs::Fields::fields_of))]
fn fields_of(layout: MdLayout, row: u32, column: u32) -> u32
    ensures { result ≡ fields_of layout row column }
{
    if row == 0 {
        if column == 0 { 400 } else { layout.column_keys }
    } else {
        if column == 0 {
            layout.row_keys
        } else {
            layout.data_keys
        }
    }
}

// What the rules of a field of the part that coordinates name say: 7 where there is no such row, column or field.
#[tactic(auto, using(refusal_rules::proofs::Tables::joined_faults), unfolding(md_rules::specs::Places::field_rules, refusal_rules::specs::Rules::first_fault, refusal_rules::specs::Rules::first))]
fn field_verdict(layout: MdLayout, row: u32, column: u32, position: u32) -> Result<(), Refusal>
    ensures { verdict_of result ≡ first_fault (field_rules layout row column position) }
{
    part_verdict(layout, row, column)?;
    let fields = fields_of(layout, row, column);
    check(within(1, fields, position), Refusal::NoSuch)
}

// The word of a field of the part that coordinates name.
fn field_word(layout: MdLayout, row: u32, column: u32, position: u32) -> usize
    requires { MdBounds layout × IsField layout row column position }
    ensures { result ≡ field_word layout row column position }
{
    part_word(layout, row, column) + (position - 1) as usize
}

// The place of a field of an MD file, named by its coordinates, of which 0 names the headers and the user record, and its position, counted from 1. Refused
// with 7 where there is no such row, column or position, or the layout is above the bounds that opening sets.
#[tactic(auto, unfolding(md_rules::specs::Places::field_place))]
pub fn field_place(layout: MdLayout, row: u32, column: u32, position: u32) -> Result<Place, Refusal>
    ensures { says result ≡ field_place layout row column position }
{
    field_verdict(layout, row, column, position)?;
    Ok(Place {
        address: 4 * field_word(layout, row, column, position),
        width: 4,
    })
}
