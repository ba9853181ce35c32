// The free stretches of a file, deleting a grid and adding one, for a caller that cannot lend a table: each call has a table of its own, or is given one by value,
// lends it to `grid_updates::free_stretches`, `grid_updates::delete` or `grid_updates::add`, and hands it back by value, with the answer.
#![tactic(auto)]

ghost use Rattle.std.specs.Prelude.{◌≡◌, replicate};
ghost use Rattle.refusal_rules.specs.Answers.{says};
ghost use Rattle.extent_rules.specs.Stretches.{no_words};
ghost use Rattle.grid_update_rules.specs.Updates.{tell_stretches, delete_grid, add_grid};

use endian_rules::Order;
use extent_rules::Extent;
use grid_update_rules::Added;
use refusal_rules::Refusal;

// How many places a table has that a call makes: one more than the most grids that a file may have, so that it is long enough for every file.
pub const PLACES: usize = 1025;

// How many places a short table has, for a caller that gives one: it is long enough for a file of at most three slots.
pub const SHORT_PLACES: usize = 4;

// What a call answers, and its table of N places. After a call that succeeds the free stretches of the file stand in the first places, as many as the answer
// tells, and the places past them are as they were before the call; after a refusal all are. The table is handed back with a refusal too, so it stands beside the
// answer and not in it.
#[derive(Clone, Copy, Debug, PartialEq, Eq)]
pub struct WithTable<Value, const N: usize> {
    pub answer: Result<Value, Refusal>,
    pub table: [Extent; N],
}

// A place of a table that a call makes: it has start 0 and length 0.
const NO_WORDS: Extent = Extent {
    start: 0,
    length: 0,
};

// Tells the free stretches of a file, as `grid_updates::free_stretches` does with a table of `PLACES` places of start 0 and length 0. It is never refused for the
// length of the table.
pub fn free_stretches_with_table(file: &[u8], order: Order) -> WithTable<usize, PLACES>
    ensures { (says result.answer, result.table) ≡ tell_stretches order file.now (replicate 1025 no_words) }
{
    let mut table = [NO_WORDS; PLACES];
    let answer = grid_updates::free_stretches(file, order, &mut table);
    WithTable { answer, table }
}

// Deletes the grid of a number, counted from 1, as `grid_updates::delete` does with a table of `PLACES` places of start 0 and length 0. It is never refused for
// the length of the table.
pub fn delete_with_table(file: &mut [u8], order: Order, number: u32) -> WithTable<usize, PLACES>
    ensures { (says result.answer, (file.new, result.table)) ≡ delete_grid order file.old number (replicate 1025 no_words) }
{
    delete_with_given_table(file, order, number, [NO_WORDS; PLACES])
}

// Adds a grid of so many rows and columns, as `grid_updates::add` does with a table of `PLACES` places of start 0 and length 0. It is never refused for the length
// of the table.
pub fn add_with_table(
    file: &mut [u8],
    order: Order,
    header: &[u8],
    rows: u32,
    columns: u32,
    values: &[i32],
) -> WithTable<Added, PLACES>
    ensures { (says result.answer, (file.new, result.table)) ≡ add_grid order file.old header.now rows columns values.now (replicate 1025 no_words) }
{
    add_with_given_table(
        file,
        order,
        header,
        rows,
        columns,
        values,
        [NO_WORDS; PLACES],
    )
}

// Deletes the grid of a number, counted from 1, as `grid_updates::delete` does with the table that is given.
pub fn delete_with_given_table<const N: usize>(
    file: &mut [u8],
    order: Order,
    number: u32,
    mut table: [Extent; N],
) -> WithTable<usize, N>
    ensures { (says result.answer, (file.new, result.table)) ≡ delete_grid order file.old number table.entry }
{
    let answer = grid_updates::delete(file, order, number, &mut table);
    WithTable { answer, table }
}

// Adds a grid of so many rows and columns, as `grid_updates::add` does with the table that is given.
pub fn add_with_given_table<const N: usize>(
    file: &mut [u8],
    order: Order,
    header: &[u8],
    rows: u32,
    columns: u32,
    values: &[i32],
    mut table: [Extent; N],
) -> WithTable<Added, N>
    ensures { (says result.answer, (file.new, result.table)) ≡ add_grid order file.old header.now rows columns values.now table.entry }
{
    let answer = grid_updates::add(file, order, header, rows, columns, values, &mut table);
    WithTable { answer, table }
}
