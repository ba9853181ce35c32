// A lent table of the free stretches of a GRID file, each with its start and its length: it is filled from the file, and searched first fit.
//
// What is computed is computed by value, in extent_steps.
#![tactic(auto)]

ghost use Rattle.std.specs.Prelude.{◌≡◌, ◌≤◌, ◌<◌, length};
ghost use Rattle.extent_rules.specs.Steps.{GridAccepted, runs_over, searched_over};
ghost use Rattle.extent_rules.specs.Rooms.{searched, lesser};

use endian_rules::Order;
use extent_rules::Extent;
use extent_steps::{AcceptedFile, directory_extent, first_fitting};

// Fills the first places of a table with the first free stretches of a file, in address order; places past them stay. The caller must make sure that the table
// has so many places, and that the file is accepted unless there are none to fill.
// Not an `AcceptedFile` as a parameter: it would ask that a file is accepted of which no stretch is wanted.
#[tactic(auto, unfolding(extent_rules::specs::Steps::nth_run, lists::specs::Lists::list_of))]
pub fn fill<'t, 'f>(table: &'t mut [Extent], file: &'f [u8], order: Order, count: usize)
    requires { (count ≤ length table.old) × (0 < count → GridAccepted order file.now) }
    ensures { table.new ≡ runs_over order file.now count table.old }
{
    let mut e = directory_extent(file, order);
    for place in table[..count].iter_mut() {
        let accepted = AcceptedFile { file, order };
        e = accepted.run_after(e);
        *place = e;
    }
}

// The first of a table's first `count` extents into which `need` words fit so that they end by 2,147,483,647; no words where there is none. All are searched where
// the table has fewer.
#[tactic(auto, unfolding(extent_rules::specs::Rooms::searched))]
pub fn first_fit(table: &[Extent], count: usize, need: usize) -> Extent
    ensures { result ≡ searched table.now need (lesser count (length table.now)) }
{
    let places = &table[..count.min(table.len())];
    let mut found = Extent {
        start: 0,
        length: 0,
    };
    for extent in places {
        found = first_fitting(need, found, *extent);
    }
    found
}

// Fills a table as `fill` does, and searches it as `first_fit` does.
pub fn search<'t, 'f>(
    table: &'t mut [Extent],
    file: &'f [u8],
    order: Order,
    count: usize,
    need: usize,
) -> Extent
    requires { (count ≤ length table.old) × (0 < count → GridAccepted order file.now) }
    ensures { (result, table.new) ≡ searched_over order file.now count need table.old }
{
    fill(table, file, order, count);
    first_fit(table, count, need)
}
