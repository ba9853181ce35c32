// The opening checks of a GRID file, slot by slot: what every way of opening such a file applies, whichever way it finds grids that overlap.
// Functions that look at one slot ask of their caller that the checks before it have passed.
#![tactic(auto)]

ghost use Rattle.std.specs.Prelude.{◌≡◌, ◌+◌, ◌*◌, ◌≤◌, ◌<◌, length};
ghost use Rattle.endian_rules.specs.Words.{word_at};
ghost use Rattle.refusal_rules.specs.Rules.{first_fault, rule, judge, first, Pass};
ghost use Rattle.refusal_rules.specs.Tests.{within};
ghost use Rattle.grid_rules.specs.Rules.{grid_head_rules, size_rules, own_rules, meets, slot_rules, grid_file_rules};
ghost use Rattle.grid_rules.specs.Accepts.{GridRoom};
ghost use Rattle.grid_rules.specs.Opening.{open_wanted};
ghost use Rattle.refusal_rules.specs.Answers.{says, verdict_of};

use endian::at_least;
use endian_rules::Order;
use endian_steps::read_word;
use grid_rules::{EMPTY_SLOT, GridLayout};
use refusal::{and, check, within};
use refusal_rules::Refusal;

// What the checks before the slots say: 1 where the file is shorter than 44 bytes, 3 at 10 for the number of grids, 5 at 10 where the
// directory has no room, 5 at 11 + n for the next free word.
#[tactic(auto, unfolding(grid_rules::specs::Rules::grid_head_rules, refusal_rules::specs::Rules::first, refusal_rules::specs::Rules::first_fault, refusal_rules::specs::Rules::judge))]
pub fn head_verdict(file: &[u8], order: Order) -> Result<(), Refusal>
    ensures { verdict_of result ≡ first_fault (grid_head_rules (length file.now) (word_at order file.now)) }
{
    let len = file.len();
    if len < 44 {
        return Err(Refusal::ShortFile);
    }
    let word = read_word(order, file, 10);
    let n = word as usize;
    let fits = within(1, 1024, word);
    check(fits, Refusal::CountOutOfBounds(10))?;
    check(12 + n <= len / 4, Refusal::Misplaced(10))?;
    let next = read_word(order, file, 11 + n);
    check(at_least(12 + n, next), Refusal::Misplaced(11 + n))?;
    check(next as usize <= len / 4, Refusal::Misplaced(11 + n))
}

// Refusal 3 at a place, unless a count of rows or columns is from 1 to 65,535.
fn count(n: u32, place: usize) -> Result<(), Refusal>
    ensures { verdict_of result ≡ (judge (rule (within 1 65535 n) 3 place)) }
{
    check(within(1, 65535, n), Refusal::CountOutOfBounds(place))
}

// What the header at an offset says: rows, columns, size and end. The caller must make sure that the 64 words of the header are inside the file.
#[tactic(auto, unfolding(grid_rules::specs::Rules::size_rules, refusal_rules::specs::Rules::first_fault, refusal_rules::specs::Rules::first))]
fn size_verdict(
    file: &[u8],
    order: Order,
    next: usize,
    k: usize,
    offset: usize,
) -> Result<(), Refusal>
    requires { (4 * next ≤ length file.now) × ((next < 2147483648) × ((k < 1024) × (offset + 64 ≤ next))) }
    ensures { verdict_of result ≡ first_fault (size_rules (word_at order file.now) next k offset) }
{
    let size = read_word(order, file, offset);
    let rows = read_word(order, file, offset + 1);
    let columns = read_word(order, file, offset + 2);
    let product = rows as usize * columns as usize;
    let end = offset + 64 + size as usize;
    count(rows, offset + 1)?;
    count(columns, offset + 2)?;
    check(size < 2147483648, Refusal::RuleBroken(offset))?;
    check(size as usize == product, Refusal::RuleBroken(offset))?;
    check(end <= next, Refusal::Misplaced(11 + k))
}

// The directory of a GRID file whose checks before the slots have passed: its number of grids, and its next free word.
#[derive(Clone, Copy)]
pub struct Directory<'a> {
    pub file: &'a [u8],
    pub order: Order,
    pub grids: usize,
    pub next: usize,
    pub ghost room: { GridRoom (length file.now) grids next },
}

impl<'a> Directory<'a> {
    // What the checks of slot k's grid say that look at no other slot. The slot is one that is not empty; an empty one is a fault of its offset.
    #[tactic(auto, using(refusal_rules::proofs::Tables::joined_faults), unfolding(grid_rules::specs::Rules::header_rules, grid_rules::specs::Rules::own_rules, refusal_rules::specs::Rules::first_fault, refusal_rules::specs::Rules::first))]
    pub fn own_verdict(self, k: usize) -> Result<(), Refusal>
        requires { k < self.grids }
        ensures { verdict_of result ≡ first_fault (own_rules (word_at self.entry.order self.entry.file.now) self.entry.grids self.entry.next k) }
    {
        let word = read_word(self.order, self.file, 11 + k);
        let offset = word as usize;
        check(at_least(12 + self.grids, word), Refusal::Misplaced(11 + k))?;
        check(offset + 64 <= self.next, Refusal::Misplaced(11 + k))?;
        size_verdict(self.file, self.order, self.next, k, offset)
    }

    // Whether the grid of slot j has a word from `low` up to `high`; an empty slot has none. The caller must make sure that the checks of the slot
    // have passed.
    #[tactic(auto, unfolding(grid_rules::specs::Rules::meets))]
    pub fn meets_slot(self, j: usize, low: usize, high: usize) -> bool
        requires { (j < self.grids) × (first_fault (slot_rules (word_at self.order self.file.now) self.grids self.next j) ≡ Pass) }
        ensures { result ≡ meets (word_at self.entry.order self.entry.file.now) low high j }
    {
        let word = read_word(self.order, self.file, 11 + j);
        if word == EMPTY_SLOT {
            return false;
        }
        let offset = word as usize;
        let size = read_word(self.order, self.file, offset);
        and(low < offset + 64 + size as usize, offset < high)
    }
}

// Opens a grid of a file whose checks have passed, which the caller must make sure of. Refused with 7 for a grid number that the file does not
// have, and with 6 for an empty slot.
#[tactic(auto, unfolding(grid_rules::specs::Opening::open_wanted, grid_rules::specs::Rules::wanted_rules, refusal_rules::specs::Rules::first_fault, refusal_rules::specs::Rules::judge, refusal_rules::specs::Rules::first, grid_rules::specs::Opening::grid_layout_of))]
pub fn open_wanted(file: &[u8], order: Order, number: u32) -> Result<GridLayout, Refusal>
    requires { first_fault (grid_file_rules (length file.now) (word_at order file.now)) ≡ Pass }
    ensures { says result ≡ open_wanted order (length file.now) (word_at order file.now) number }
{
    let n = read_word(order, file, 10);
    check(within(1, n, number), Refusal::NoSuch)?;
    let offset = read_word(order, file, 10 + number as usize);
    check(offset != EMPTY_SLOT, Refusal::Absent)?;
    let rows = read_word(order, file, offset as usize + 1);
    let columns = read_word(order, file, offset as usize + 2);
    Ok(GridLayout {
        order,
        length: file.len(),
        number,
        offset,
        rows,
        columns,
    })
}
