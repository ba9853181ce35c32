// A layout of any kind: opening a file by its kind, and whether a layout is stale.
#![tactic(auto)]

ghost use Rattle.std.specs.Prelude.{◌≡◌};
ghost use Rattle.refusal_rules.specs.Answers.{mapped, says};
ghost use Rattle.area_rules.specs.Opening.{open_area};
ghost use Rattle.grid_rules.specs.Opening.{open_grid};
ghost use Rattle.md_rules.specs.Opening.{open_md};
ghost use Rattle.layout_rules.specs.Layouts.{layout_order, is_fresh};

use area::same_area;
use endian_rules::Order;
use grid::same_grid;
use layout_rules::Layout;
use md::same_md;
use refusal_rules::Refusal;

// Opens an AREA file, which finds its byte order by itself. Refused as `area::open`.
pub fn open_area(file: &[u8]) -> Result<Layout, Refusal>
    ensures { says result ≡ mapped Layout.Area (open_area file.now) }
{
    area::open(file).map(Layout::Area)
}

// Opens the grid of a number in a GRID file. Refused as `grid::open`.
pub fn open_grid(file: &[u8], order: Order, number: u32) -> Result<Layout, Refusal>
    ensures { says result ≡ mapped Layout.Grid (open_grid order file.now number) }
{
    grid::open(file, order, number).map(Layout::Grid)
}

// Opens an MD file. Refused as `md::open`.
pub fn open_md(file: &[u8], order: Order) -> Result<Layout, Refusal>
    ensures { says result ≡ mapped Layout.Md (open_md order file.now) }
{
    md::open(file, order).map(Layout::Md)
}

// The byte order of a layout.
pub fn order_of(layout: Layout) -> Order
    ensures { result ≡ layout_order layout }
{
    match layout {
        Layout::Area(l) => l.order,
        Layout::Grid(l) => l.order,
        Layout::Md(l) => l.order,
    }
}

// Whether opening these bytes by the layout's own kind, byte order and grid number gives that very layout, in every field, the file's length
// too. A layout of which this is false is stale. Nothing is computed from a layout's fields before this.
#[tactic(auto, unfolding(layout_rules::specs::Layouts::is_fresh, layout_rules::specs::Layouts::open_as))]
pub fn is_fresh(file: &[u8], layout: Layout) -> bool
    ensures { result ≡ is_fresh file.now layout }
{
    match layout {
        Layout::Area(l) => area::open(file).is_ok_and(|found| same_area(found, l)),
        Layout::Grid(l) => grid::open(file, l.order, l.number).is_ok_and(|found| same_grid(
            found, l,
        )),
        Layout::Md(l) => md::open(file, l.order).is_ok_and(|found| same_md(found, l)),
    }
}
