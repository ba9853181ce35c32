// The free stretches of a file, the longest runs of words that no grid has; deleting a grid and adding one, with the room of deleted grids used again. The calls
// take the file and its byte order, and no layout; after each, a lent table holds the free stretches of the file in address order.
#![tactic(auto)]

ghost use Rattle.std.specs.Prelude.{◌≡◌};
ghost use Rattle.refusal_rules.specs.Answers.{says};
ghost use Rattle.grid_update_rules.specs.Steps.{stretch_says, tell_step};
ghost use Rattle.grid_update_rules.specs.Updates.{tell_stretches, delete_grid, add_grid};

use endian_rules::Order;
use endian_steps::read_word;
use extent_rules::Extent;
use extent_steps::AcceptedFile;
use extent_table_steps::{fill, search};
use grid::file_verdict;
use grid_update_rules::Added;
use grid_update_steps::{add_at, delete_in, plan_add};
use refusal::check;
use refusal_rules::Refusal;

// Counts the free stretches of a file, for a table of `size` pairs. Refused as `free_stretches`.
#[tactic(auto, using(refusal_rules::proofs::Tables::joined_faults, grid_update_rules::proofs::Deleting::count_inside), unfolding(refusal_rules::specs::Rules::first_fault, refusal_rules::specs::Rules::first, extent_rules::specs::Steps::survey, grid_update_rules::specs::Updates::stretch_rules, grid_update_rules::specs::Steps::tell_step))]
fn count_stretches(file: &[u8], order: Order, size: usize) -> Result<usize, Refusal>
    ensures { stretch_says result ≡ tell_step order file.now size }
{
    file_verdict(file, order)?;
    let n = read_word(order, file, 10) as usize;
    check(n + 1 <= size, Refusal::ShortOutput)?;
    let accepted = AcceptedFile { file, order };
    Ok(accepted.survey_free().count)
}

// Answers how many free stretches the file has, which then stand in the first places of the table, in address order; places past them stay.
//
// Refused by the first fault of the whole file, 1 to 5; then with 10 where the table has fewer than n + 1 places. A refusal leaves the table as it was.
pub fn free_stretches(file: &[u8], order: Order, table: &mut [Extent]) -> Result<usize, Refusal>
    ensures { (says result, table.new) ≡ tell_stretches order file.now table.old }
{
    let count = count_stretches(file, order, table.len())?;
    fill(table, file, order, count);
    Ok(count)
}

// Deletes the grid of a number, counted from 1: its slot becomes empty, and the next free word the end of the highest grid that is left. No other byte changes.
// Answers how many free stretches the file has now, which stand in the first places of the table; places past them stay.
//
// Refused by the first fault of the whole file, 1 to 5; then with 10 where the table has fewer than n + 1 places, 7 where there is no such grid, 6 where its slot
// is empty. A refusal leaves the file and the table as they were.
pub fn delete(
    file: &mut [u8],
    order: Order,
    number: u32,
    table: &mut [Extent],
) -> Result<usize, Refusal>
    ensures { (says result, (file.new, table.new)) ≡ delete_grid order file.old number table.old }
{
    let count = delete_in(file, order, number, table.len())?;
    fill(table, file, order, count);
    Ok(count)
}

// Adds a grid of so many rows and columns: its header, 256 bytes as they go into the file but for words 1 to 3, which are the size, the rows and the columns, and
// its values by columns. It takes the lowest-numbered empty slot, and begins at the lowest word, from 12 + n on, at which it lies inside the file and in no grid
// and ends by 2,147,483,647. The next free word becomes the end of the highest grid. No other byte changes. Answers the grid's number, the word at which it
// begins, and how many free stretches the file has now, which stand in the first places of the table; places past them stay.
//
// Refused by the first fault of the whole file, 1 to 5; then with 10 where the table has fewer than n + 1 places, 3 where rows or columns are not from 1 to
// 65,535, 12 where the values are not rows times columns or the header is not 256 bytes, 13 where no slot is empty, 14 where the grid has no room. A refusal
// leaves the file and the table as they were.
pub fn add(
    file: &mut [u8],
    order: Order,
    header: &[u8],
    rows: u32,
    columns: u32,
    values: &[i32],
    table: &mut [Extent],
) -> Result<Added, Refusal>
    ensures { (says result, (file.new, table.new)) ≡ add_grid order file.old header.now rows columns values.now table.old }
{
    let plan = plan_add(
        file,
        order,
        header.len(),
        rows,
        columns,
        values.len(),
        table.len(),
    )?;
    let found = search(table, file, order, plan.count, plan.need);
    let added = add_at(
        file,
        order,
        header,
        rows,
        columns,
        values,
        table.len(),
        Ok(plan),
        found,
    )?;
    fill(table, file, order, added.stretches);
    Ok(added)
}
