// The free stretches of a GRID file: the longest runs of words that no grid has. They are found one after another, each from the end of the one before, by
// looking at every slot.
#![tactic(auto)]

ghost use Rattle.std.specs.Prelude.{◌≡◌, ◌<◌, ◌/◌, ◌≤◌, ◌+◌, length};
ghost use Rattle.endian_rules.specs.Words.{word_at};
ghost use Rattle.extent_rules.specs.Stretches.{slot_extent, highest_end, first_word, lowest_free, extent_end};
ghost use Rattle.extent_rules.specs.Steps.{SlotsInside, past_grid, next_grid, GridAccepted, directory_extent, run_after, survey};
ghost use Rattle.extent_rules.specs.Rooms.{fits_in, first_fitting, has_room};

use endian_rules::Order;
use endian_steps::read_word;
use extent_rules::{Extent, LAST_END, Survey};
use grid_rules::EMPTY_SLOT;

// A GRID file that has all words of its directory and of each of its grids, and the byte order in which its words are read.
#[derive(Clone, Copy)]
pub struct GridSlots<'a> {
    pub file: &'a [u8],
    pub order: Order,
    pub ghost inside: { SlotsInside (length file.now) (word_at order file.now) },
}

impl<'a> GridSlots<'a> {
    // The words of slot k's grid; no words where the slot is empty.
    #[tactic(auto, unfolding(extent_rules::specs::Stretches::slot_extent))]
    fn slot_extent(self, k: usize) -> Extent
        requires { k < word_at self.order self.file.now 10 }
        ensures { result ≡ slot_extent (word_at self.entry.order self.entry.file.now) k }
    {
        let word = read_word(self.order, self.file, 11 + k);
        if word == EMPTY_SLOT {
            return Extent {
                start: 0,
                length: 0,
            };
        }
        let offset = word as usize;
        let size = read_word(self.order, self.file, offset);
        Extent {
            start: offset,
            length: 64 + size as usize,
        }
    }

    // The end of the highest grid, or 12 + n where there is none: what the next free word is after a grid was deleted or added.
    #[tactic(auto, unfolding(extent_rules::specs::Stretches::highest_end))]
    pub fn highest_end(self) -> usize
        ensures { result ≡ highest_end (word_at self.entry.order self.entry.file.now) (first_word (word_at self.entry.order self.entry.file.now)) (word_at self.entry.order self.entry.file.now 10) }
    {
        let n = read_word(self.order, self.file, 10) as usize;
        let mut high = 12 + n;
        for k in 0..n {
            let grid = self.slot_extent(k);
            let end = grid.start + grid.length;
            if high < end {
                high = end;
            }
        }
        high
    }

    // The end of the grid that has word p; p where none has it.
    #[tactic(auto, unfolding(extent_rules::specs::Steps::past_grid))]
    fn past_grid(self, p: usize) -> usize
        ensures { result ≡ past_grid (word_at self.entry.order self.entry.file.now) p (word_at self.entry.order self.entry.file.now 10) }
    {
        let n = read_word(self.order, self.file, 10) as usize;
        let mut past = p;
        for k in 0..n {
            let grid = self.slot_extent(k);
            let end = grid.start + grid.length;
            if grid.start <= p && p < end {
                past = end;
            }
        }
        past
    }

    // The start of the next grid from word p on; `whole` where there is none.
    #[tactic(auto, unfolding(extent_rules::specs::Steps::next_grid))]
    fn next_grid(self, whole: usize, p: usize) -> usize
        ensures { result ≡ next_grid (word_at self.entry.order self.entry.file.now) whole p (word_at self.entry.order self.entry.file.now 10) }
    {
        let n = read_word(self.order, self.file, 10) as usize;
        let mut next = whole;
        for k in 0..n {
            let grid = self.slot_extent(k);
            if 0 < grid.length && p <= grid.start && grid.start < next {
                next = grid.start;
            }
        }
        next
    }
}

// The words before 12 + n, of a file that has them; no words of a shorter one. With this the free stretches are begun.
#[tactic(auto, unfolding(extent_rules::specs::Steps::directory_extent))]
pub fn directory_extent(file: &[u8], order: Order) -> Extent
    ensures { result ≡ directory_extent order file.now }
{
    if file.len() < 44 {
        return Extent {
            start: 0,
            length: 0,
        };
    }
    Extent {
        start: 0,
        length: 12 + read_word(order, file, 10) as usize,
    }
}

// Whether so many words fit into an extent, and end by 2,147,483,647.
fn fits_extent(e: Extent, need: usize) -> bool
    ensures { result ≡ fits_in need e }
{
    need <= LAST_END && need <= e.length && e.start <= LAST_END - need
}

// What was found, if something was, else the extent if so many words fit into it and end by 2,147,483,647.
#[tactic(auto, unfolding(extent_rules::specs::Rooms::first_fitting))]
pub fn first_fitting(need: usize, found: Extent, e: Extent) -> Extent
    ensures { result ≡ first_fitting need found e }
{
    if found.length == 0 && fits_extent(e, need) {
        e
    } else {
        found
    }
}

// A GRID file whose checks have all passed, and the byte order in which its words are read.
#[derive(Clone, Copy)]
pub struct AcceptedFile<'a> {
    pub file: &'a [u8],
    pub order: Order,
    pub ghost accepted: { GridAccepted order file.now },
}

impl<'a> AcceptedFile<'a> {
    // The lowest free word from p on; the number of whole words where there is none.
    #[tactic(auto, using(extent_rules::proofs::Slots::accepted_slots))]
    fn lowest_free(self, p: usize) -> usize
        requires { p ≤ length self.file.now / 4 }
        ensures { result ≡ lowest_free (word_at self.entry.order self.entry.file.now) (length self.entry.file.now / 4) p }
    {
        let slots = GridSlots {
            file: self.file,
            order: self.order,
        };
        let mut at = p;
        // No range: a step goes as far as the grid at the word does.
        let mut past = slots.past_grid(at);
        while at < past {
            at = past;
            past = slots.past_grid(at);
        }
        at
    }

    // The first run of free words behind an extent; no words, at the number of whole words, where there is none. The caller must make sure that the
    // extent is inside the file.
    #[tactic(auto, using(extent_rules::proofs::Slots::accepted_slots))]
    pub fn run_after(self, e: Extent) -> Extent
        requires { e.start + e.length ≤ length self.file.now / 4 }
        ensures { result ≡ run_after (word_at self.entry.order self.entry.file.now) (length self.entry.file.now / 4) (extent_end e) }
    {
        let whole = self.file.len() / 4;
        let start = self.lowest_free(e.start + e.length);
        let slots = GridSlots {
            file: self.file,
            order: self.order,
        };
        let end = slots.next_grid(whole, start);
        Extent {
            start,
            length: end - start,
        }
    }

    // How many free stretches the file has, and the last of them; the directory where there is none.
    #[tactic(auto, unfolding(extent_rules::specs::Steps::survey))]
    pub fn survey_free(self) -> Survey
        ensures { result ≡ survey self.entry.order self.entry.file.now }
    {
        let mut last = directory_extent(self.file, self.order);
        let mut e = self.run_after(last);
        let mut count = 0;
        // No range: how many runs there are is known at the last of them.
        while 0 < e.length {
            last = e;
            e = self.run_after(e);
            count += 1;
        }
        Survey { count, last }
    }

    // Whether so many words, at least one, have an address: inside the file, in no grid, ending by 2,147,483,647.
    pub fn has_room(self, need: usize) -> bool
        requires { 1 ≤ need }
        ensures { result ≡ has_room (word_at self.entry.order self.entry.file.now) (length self.entry.file.now / 4) need }
    {
        let start = directory_extent(self.file, self.order);
        let mut e = self.run_after(start);
        // No range: how many runs there are is known at the last of them.
        while 0 < e.length {
            if fits_extent(e, need) {
                return true;
            }
            e = self.run_after(e);
        }
        false
    }
}
