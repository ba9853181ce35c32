// A layout of any kind: opening by kind, whether a layout is stale, and what every call with a file and a layout does first: see specs/ and proofs/.
#![tactic(auto)]

ghost use Rattle.std.specs.Prelude.{◌≡◌};
ghost use Rattle.layout_rules.specs.Found.{as_area, as_grid, as_md};
ghost use Rattle.refusal_rules.specs.Answers.{says};

use area_rules::AreaLayout;
use grid_rules::GridLayout;
use md_rules::MdLayout;
use refusal_rules::Refusal;

// What opening a file finds, of any of the three kinds. "Layout" is document 01's term. A caller can make one up: nothing is known of its fields
// until it is found to be the one that opening the file gives.
#[derive(Clone, Copy, Debug, PartialEq, Eq)]
pub enum Layout {
    Area(AreaLayout),
    Grid(GridLayout),
    Md(MdLayout),
}

// Three conversions and not one generic one: a variant of `Layout` cannot be a parameter.

// A layout as an AREA layout. Refused with 7 where it is of another kind.
impl TryFrom<Layout> for AreaLayout {
    type Error = Refusal;

    ghost try_from_gives = { λ layout result. says result ≡ as_area layout };

    fn try_from(layout: Layout) -> Result<AreaLayout, Refusal> {
        match layout {
            Layout::Area(l) => Ok(l),
            Layout::Grid(_) | Layout::Md(_) => Err(Refusal::NoSuch),
        }
    }
}

// A layout as a GRID layout. Refused with 7 where it is of another kind.
impl TryFrom<Layout> for GridLayout {
    type Error = Refusal;

    ghost try_from_gives = { λ layout result. says result ≡ as_grid layout };

    fn try_from(layout: Layout) -> Result<GridLayout, Refusal> {
        match layout {
            Layout::Grid(l) => Ok(l),
            Layout::Area(_) | Layout::Md(_) => Err(Refusal::NoSuch),
        }
    }
}

// A layout as an MD layout. Refused with 7 where it is of another kind.
impl TryFrom<Layout> for MdLayout {
    type Error = Refusal;

    ghost try_from_gives = { λ layout result. says result ≡ as_md layout };

    fn try_from(layout: Layout) -> Result<MdLayout, Refusal> {
        match layout {
            Layout::Md(l) => Ok(l),
            Layout::Area(_) | Layout::Grid(_) => Err(Refusal::NoSuch),
        }
    }
}
