// The layout of one kind that a call asks for: what every call with a file and a layout does first.
#![tactic(auto)]

ghost use Rattle.std.specs.Prelude.{◌≡◌, true, false};
ghost use Rattle.layout_rules.specs.Layouts.{is_fresh};
ghost use Rattle.layout_rules.specs.Found.{area_of, grid_of, md_of};
ghost use Rattle.refusal_rules.specs.Answers.{says};

use area_rules::AreaLayout;
use grid_rules::GridLayout;
use layout::is_fresh;
use layout_rules::Layout;
use md_rules::MdLayout;
use refusal_rules::Refusal;

// The layout of the kind `L` that a call asks for. Refused with 9 where the layout is stale, and then as the conversion to that kind refuses.
fn of_kind<L: TryFrom<Layout, Error = Refusal>>(file: &[u8], layout: Layout) -> Result<L, Refusal>
    ensures fresh { is_fresh file.now layout ≡ true → L.try_from_gives layout result }
    ensures stale { is_fresh file.now layout ≡ false → result ≡ Err Refusal.Stale }
{
    if is_fresh(file, layout) {
        L::try_from(layout)
    } else {
        Err(Refusal::Stale)
    }
}

// The AREA layout that a call asks for. Refused with 9 where the layout is stale, and then with 7 where it is of another kind.
#[tactic(auto, unfolding(layout_rules::specs::Found::found))]
pub fn area_of(file: &[u8], layout: Layout) -> Result<AreaLayout, Refusal>
    ensures { says result ≡ area_of file.now layout }
{
    of_kind::<AreaLayout>(file, layout)
}

// The GRID layout that a call asks for. Refused with 9 where the layout is stale, and then with 7 where it is of another kind.
#[tactic(auto, unfolding(layout_rules::specs::Found::found))]
pub fn grid_of(file: &[u8], layout: Layout) -> Result<GridLayout, Refusal>
    ensures { says result ≡ grid_of file.now layout }
{
    of_kind::<GridLayout>(file, layout)
}

// The MD layout that a call asks for. Refused with 9 where the layout is stale, and then with 7 where it is of another kind.
#[tactic(auto, unfolding(layout_rules::specs::Found::found))]
pub fn md_of(file: &[u8], layout: Layout) -> Result<MdLayout, Refusal>
    ensures { says result ≡ md_of file.now layout }
{
    of_kind::<MdLayout>(file, layout)
}
