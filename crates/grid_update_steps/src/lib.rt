// Deleting and adding a grid, as far as the file goes. The answer tells how many free stretches the file has then, for the table that they are put into.
#![tactic(auto)]

ghost use Rattle.std.specs.Prelude.{◌≡◌, map, ◌<◌, ◌+◌, ◌≤◌, ◌*◌, length, Ok};
ghost use Rattle.std.proofs.lemmas.List.Edits.{sets};
ghost use Rattle.std.specs.Int.{w32};
ghost use Rattle.std.proofs.Common.{of_z};
ghost use Rattle.endian_rules.specs.Words.{word_at};
ghost use Rattle.endian_rules.specs.Files.{bytes_of};
ghost use Rattle.refusal_rules.specs.Rules.{first_fault};
ghost use Rattle.extent_rules.specs.Stretches.{first_word, highest_end};
ghost use Rattle.extent_rules.specs.Steps.{SlotsInside};
ghost use Rattle.grid_update_rules.specs.Updates.{next_free_set, delete_rules, lowest_empty, add_rules, grid_bytes};
ghost use Rattle.grid_update_rules.specs.Steps.{stretch_says, delete_step, add_plan, addition_says, add_step, Ready, ReadyPlan};
ghost use Rattle.refusal_rules.specs.Answers.{says, verdict_of};

use endian_rules::Order;
use endian_steps::{read_word, write_number, write_signed};
use extent_rules::Extent;
use extent_steps::{AcceptedFile, GridSlots, first_fitting};
use grid::file_verdict;
use grid_rules::EMPTY_SLOT;
use grid_update_rules::{AddPlan, Added};
use refusal::{check, within};
use refusal_rules::Refusal;

// Sets the next free word to the end of the highest grid, or to 12 + n where there is none. The directory must be inside the file, and each grid, and the end must
// be a signed word. Not a method of `GridSlots`, which reads a file: here the file is changed.
#[tactic(auto, unfolding(grid_update_rules::specs::Updates::next_free_set, grid_update_rules::specs::Updates::set_word))]
fn set_next_free(file: &mut [u8], order: Order)
    requires { SlotsInside (length file.old) (word_at order file.old) × (highest_end (word_at order file.old) (first_word (word_at order file.old)) (word_at order file.old 10) < 2147483648) }
    ensures { file.new ≡ next_free_set order file.old }
{
    let n = read_word(order, file, 10) as usize;
    let slots = GridSlots { file, order };
    let end = slots.highest_end();
    write_number(order, 4, file, 4 * (11 + n), end as u32);
}

// What the rules of deleting a grid say.
#[tactic(auto, using(refusal_rules::proofs::Tables::joined_faults, grid_update_rules::proofs::Deleting::count_inside), unfolding(refusal_rules::specs::Rules::first_fault, refusal_rules::specs::Rules::first, grid_rules::specs::Rules::wanted_rules, grid_update_rules::specs::Updates::delete_rules))]
fn delete_verdict(file: &[u8], order: Order, number: u32, size: usize) -> Result<(), Refusal>
    ensures { verdict_of result ≡ first_fault (delete_rules order file.now number size) }
{
    file_verdict(file, order)?;
    let n = read_word(order, file, 10);
    check(n as usize + 1 <= size, Refusal::ShortOutput)?;
    check(within(1, n, number), Refusal::NoSuch)?;
    let offset = read_word(order, file, 10 + number as usize);
    check(offset != EMPTY_SLOT, Refusal::Absent)
}

// Deletes the grid of a number, with a table of `size` pairs, and answers how many free stretches the file has now. Refused as `grid_updates::delete`.
#[tactic(auto, using(grid_update_rules::proofs::Deleting::slot_there, grid_update_rules::proofs::Deleting::emptied_next, grid_update_rules::proofs::Deleting::emptied_survey, grid_update_rules::proofs::Deleting::deleted_says), unfolding(grid_update_rules::specs::Steps::delete_step))]
pub fn delete_in(file: &mut [u8], order: Order, number: u32, size: usize) -> Result<usize, Refusal>
    ensures { (stretch_says result, file.new) ≡ delete_step order file.old number size }
{
    delete_verdict(file, order, number, size)?;
    write_number(order, 4, file, 4 * (10 + number as usize), EMPTY_SLOT);
    set_next_free(file, order);
    let accepted = AcceptedFile { file, order };
    Ok(accepted.survey_free().count)
}

// The lowest-numbered empty slot of an accepted file, counted from 0; n where there is none.
#[tactic(auto, unfolding(grid_update_rules::specs::Updates::lowest_empty))]
fn lowest_empty(accepted: AcceptedFile) -> usize
    ensures { result ≡ lowest_empty (word_at accepted.entry.order accepted.entry.file.now) }
{
    let n = read_word(accepted.order, accepted.file, 10) as usize;
    for k in 0..n {
        if read_word(accepted.order, accepted.file, 11 + k) == EMPTY_SLOT {
            return k;
        }
    }
    n
}

// What the rules of adding a grid say, for so many header bytes and values.
#[tactic(auto, using(refusal_rules::proofs::Tables::joined_faults, grid_update_rules::proofs::Deleting::count_inside), unfolding(refusal_rules::specs::Rules::first_fault, refusal_rules::specs::Rules::first, grid_update_rules::specs::Updates::add_rules))]
fn add_verdict(
    file: &[u8],
    order: Order,
    headers: usize,
    rows: u32,
    columns: u32,
    values: usize,
    size: usize,
) -> Result<(), Refusal>
    ensures { verdict_of result ≡ first_fault (add_rules order file.now headers rows columns values size) }
{
    file_verdict(file, order)?;
    let n = read_word(order, file, 10) as usize;
    let points = rows as usize * columns as usize;
    let accepted = AcceptedFile { file, order };
    let slot = lowest_empty(accepted);
    let room = accepted.has_room(64 + points);
    check(n + 1 <= size, Refusal::ShortOutput)?;
    check(within(1, 65535, rows), Refusal::CountOutOfBounds(0))?;
    check(within(1, 65535, columns), Refusal::CountOutOfBounds(0))?;
    check(values == points, Refusal::WrongLength)?;
    check(headers == 256, Refusal::WrongLength)?;
    check(slot < n, Refusal::NoEmptySlot)?;
    check(room, Refusal::NoRoom)
}

// Plans the addition of a grid, for so many header bytes and values, with a table of `size` pairs. Refused as `grid_updates::add`.
#[tactic(auto, unfolding(extent_rules::specs::Steps::survey, grid_update_rules::specs::Steps::add_plan))]
pub fn plan_add(
    file: &[u8],
    order: Order,
    headers: usize,
    rows: u32,
    columns: u32,
    values: usize,
    size: usize,
) -> Result<AddPlan, Refusal>
    ensures { says result ≡ add_plan order file.now headers rows columns values size }
{
    add_verdict(file, order, headers, rows, columns, values, size)?;
    let accepted = AcceptedFile { file, order };
    let slot = lowest_empty(accepted);
    let stretches = accepted.survey_free();
    Ok(AddPlan {
        number: slot as u32 + 1,
        need: 64 + rows as usize * columns as usize,
        count: stretches.count - 1,
        last: stretches.last,
    })
}

// Writes signed words, one after another, from the byte `at` of a file on. They must be inside it.
#[tactic(auto, unfolding(endian_rules::specs::Files::bytes_of))]
fn write_values(file: &mut [u8], order: Order, at: usize, values: &[i32])
    requires { at + 4 * length values.now ≤ length file.old }
    ensures { file.new ≡ sets file.old at (bytes_of order (map (of_z w32) values.now)) }
{
    for (i, value) in values.iter().enumerate() {
        write_signed(order, file, at + 4 * i, *value);
    }
}

// Writes a grid's bytes from word `at` of a file on: its header, of which words 1 to 3 are the size, the rows and the columns, and its values. They must be
// inside the file.
fn write_grid(
    file: &mut [u8],
    order: Order,
    header: &[u8],
    rows: u32,
    columns: u32,
    values: &[i32],
    at: usize,
)
    requires { (length header.now ≡ 256) × ((length values.now ≡ rows * columns) × ((rows * columns < 2147483648) × (4 * (at + 64 + rows * columns) ≤ length file.old))) }
    ensures { file.new ≡ sets file.old (4 * at) (grid_bytes order header.now rows columns values.now) }
{
    let size = rows as usize * columns as usize;
    write_number(order, 4, file, 4 * at, size as u32);
    write_number(order, 4, file, 4 * at + 4, rows);
    write_number(order, 4, file, 4 * at + 8, columns);
    file[4 * at + 12..4 * at + 256].copy_from_slice(&header[12..]);
    write_values(file, order, 4 * at + 256, values);
}

// Carries out the plan of an addition that its rules allow, where `found` was found among the free stretches before the last. The caller must make sure that the plan is the one for
// this file and a table of `size` pairs, and that what was found, or else the last stretch, begins at the lowest address at which the grid has room.
#[tactic(auto, using(grid_update_rules::proofs::Plans::slot_inside, grid_update_rules::proofs::Plans::may_set_next, grid_update_rules::proofs::Plans::may_survey, grid_update_rules::proofs::Plans::carried_out))]
fn carry_out(
    file: &mut [u8],
    order: Order,
    header: &[u8],
    rows: u32,
    columns: u32,
    values: &[i32],
    size: usize,
    plan: AddPlan,
    found: Extent,
) -> Added
    requires { ReadyPlan order file.old header.now rows columns values.now size plan found }
    ensures { (addition_says (Ok result), file.new) ≡ add_step order file.old header.now rows columns values.now size }
{
    let at = first_fitting(plan.need, found, plan.last).start;
    write_grid(file, order, header, rows, columns, values, at);
    write_number(order, 4, file, 4 * (10 + plan.number as usize), at as u32);
    set_next_free(file, order);
    let accepted = AcceptedFile { file, order };
    Added {
        number: plan.number,
        address: at,
        stretches: accepted.survey_free().count,
    }
}

// Carries out the plan of an addition, where `found` was found among the free stretches before the last. The caller must make sure that the plan is the one for
// this file and a table of `size` pairs, and that what was found, or else the last stretch, begins at the lowest address at which the grid has room. Nothing is
// written where the plan is refused.
#[tactic(auto, unfolding(grid_update_rules::specs::Steps::add_step))]
pub fn add_at(
    file: &mut [u8],
    order: Order,
    header: &[u8],
    rows: u32,
    columns: u32,
    values: &[i32],
    size: usize,
    plan: Result<AddPlan, Refusal>,
    found: Extent,
) -> Result<Added, Refusal>
    requires { Ready order file.old header.now rows columns values.now size plan found }
    ensures { (addition_says result, file.new) ≡ add_step order file.old header.now rows columns values.now size }
{
    let plan = plan?;
    Ok(carry_out(
        file, order, header, rows, columns, values, size, plan, found,
    ))
}
