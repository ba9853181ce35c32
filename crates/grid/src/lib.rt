// GRID files, gridded fields: opening a grid, each slot's grid compared with all earlier ones, and comparing layouts.
#![tactic(auto)]

ghost use Rattle.std.specs.Prelude.{◌≡◌, ◌<◌, length};
ghost use Rattle.endian_rules.specs.Words.{word_at};
ghost use Rattle.refusal_rules.specs.Rules.{first_fault, Pass};
ghost use Rattle.grid_rules.specs.Opening.{same_grid, open_grid};
ghost use Rattle.grid_rules.specs.Rules.{shares, slots_rules, slot_rules, grid_file_rules};
ghost use Rattle.refusal_rules.specs.Answers.{says, verdict_of};

use endian_rules::Order;
use endian_steps::read_word;
use grid_rules::{EMPTY_SLOT, GridLayout};
use grid_steps::{Directory, head_verdict, open_wanted};
use refusal::check;
use refusal_rules::Refusal;

// Whether two GRID layouts are the same in every field.
#[tactic(auto, using(lists::proofs::Choices::and_both, lists::proofs::Choices::both_last, endian_rules::proofs::Orders::order_numbers), unfolding(grid_rules::specs::Opening::same_grid, refusal_rules::specs::Tests::same_numbers))]
pub fn same_grid(a: GridLayout, b: GridLayout) -> bool
    ensures { result ≡ same_grid a b }
{
    a == b
}

// Whether one of the first k slots of a directory has a word from `low` up to `high`. Their checks must have passed.
#[tactic(auto, unfolding(grid_rules::specs::Rules::shares))]
fn shares_word(directory: Directory, k: usize, low: usize, high: usize) -> bool
    requires { (k < directory.grids) × (first_fault (slots_rules (word_at directory.order directory.file.now) directory.grids directory.next k) ≡ Pass) }
    ensures { result ≡ shares (word_at directory.entry.order directory.entry.file.now) low high k }
{
    for j in 0..k {
        if directory.meets_slot(j, low, high) {
            return true;
        }
    }
    false
}

// What the checks of slot k say. Those of the slots before it must have passed.
#[tactic(auto, using(refusal_rules::proofs::Tables::joined_faults), unfolding(refusal_rules::specs::Rules::first_fault, refusal_rules::specs::Rules::first, grid_rules::specs::Rules::slot_rules, grid_rules::specs::Rules::overlap_rule))]
fn slot_verdict(directory: Directory, k: usize) -> Result<(), Refusal>
    requires { (k < directory.grids) × (first_fault (slots_rules (word_at directory.order directory.file.now) directory.grids directory.next k) ≡ Pass) }
    ensures { verdict_of result ≡ first_fault (slot_rules (word_at directory.entry.order directory.entry.file.now) directory.entry.grids directory.entry.next k) }
{
    let word = read_word(directory.order, directory.file, 11 + k);
    if word == EMPTY_SLOT {
        return Ok(());
    }
    directory.own_verdict(k)?;
    let low = word as usize;
    let high = low + 64 + read_word(directory.order, directory.file, low) as usize;
    let overlaps = shares_word(directory, k, low, high);
    check(!overlaps, Refusal::Misplaced(11 + k))
}

// What the checks of all slots of a directory say, slot by slot.
#[tactic(auto, unfolding(grid_rules::specs::Rules::slots_rules, refusal_rules::specs::Rules::first_fault))]
fn slots_verdict(directory: Directory) -> Result<(), Refusal>
    ensures { verdict_of result ≡ first_fault (slots_rules (word_at directory.entry.order directory.entry.file.now) directory.entry.grids directory.entry.next directory.entry.grids) }
{
    for k in 0..directory.grids {
        slot_verdict(directory, k)?;
    }
    Ok(())
}

// What the checks of a whole GRID file say, before a grid of it is asked for: 1 to 5 with document 01's places. The first fault of the lowest
// slot that has one comes first.
#[tactic(auto, using(refusal_rules::proofs::Tables::joined_faults), unfolding(grid_rules::specs::Rules::grid_file_rules, refusal_rules::specs::Rules::first))]
pub fn file_verdict(file: &[u8], order: Order) -> Result<(), Refusal>
    ensures { verdict_of result ≡ first_fault (grid_file_rules (length file.now) (word_at order file.now)) }
{
    head_verdict(file, order)?;
    let grids = read_word(order, file, 10) as usize;
    let next = read_word(order, file, 11 + grids) as usize;
    slots_verdict(Directory {
        file,
        order,
        grids,
        next,
    })
}

// Opens the grid of a number, counted from 1, in a byte order. Refused by the first fault of the whole file, then with 7 where there is no such
// grid, then with 6 where its slot is empty.
#[tactic(auto, using(refusal_rules::proofs::Tables::joined_faults), unfolding(grid_rules::specs::Opening::open_grid, grid_rules::specs::Opening::open_grid_words, grid_rules::specs::Opening::open_wanted, refusal_rules::specs::Rules::first))]
pub fn open(file: &[u8], order: Order, number: u32) -> Result<GridLayout, Refusal>
    ensures { says result ≡ open_grid order file.now number }
{
    file_verdict(file, order)?;
    open_wanted(file, order, number)
}
