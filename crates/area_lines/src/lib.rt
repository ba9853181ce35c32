// The lines of an AREA file: the slot of a band, and one slot of one line copied into a lent output.
#![tactic(auto)]

ghost use Rattle.std.specs.Prelude.{◌≡◌};
ghost use Rattle.refusal_rules.specs.Answers.{says};
ghost use Rattle.area_rules.specs.Samples.{AreaOf};
ghost use Rattle.copy_rules.specs.Runs.{copied};
ghost use Rattle.area_part_rules.specs.Lines.{band_slot_in, line_in, copy_line};

use area_places::sample_place;
use area_rules::{AreaLayout, SlotOrBand};
use bands::slot_of;
use copy_rules::Strided;
use fresh_layout::area_of;
use layout_rules::Layout;
use number_copy_steps::copy_numbers;
use refusal_rules::Refusal;

// The slot of a band, counted from 1, of an AREA file. Refused with 9 where the layout is stale, then with 7 where it is of another kind, then with 4 at 19 where
// the band map has not as many set bits as there are bands, then with 7 where it has no such band.
pub fn band_slot(file: &[u8], layout: Layout, band: u32) -> Result<u32, Refusal>
    ensures { says result ≡ band_slot_in file.now layout band }
{
    let l = area_of(file, layout)?;
    slot_of(l, SlotOrBand::Band(band))
}

// Copies one slot or band of one line of an accepted file.
fn copy_line_in(
    file: &[u8],
    l: AreaLayout,
    line: u32,
    which: SlotOrBand,
    out: &mut [u32],
) -> Result<usize, Refusal>
    requires { AreaOf file.now l }
    ensures { (says result, out.new) ≡ copied (line_in file.now l line which) out.old }
{
    let order = l.order;
    let place = sample_place(l, line, 0, which)?;
    let run = Strided {
        at: place.address,
        step: l.bands as usize * l.width as usize,
        count: l.elements as usize,
    };
    copy_numbers(order, place.width, file, run, out)
}

// Copies one slot, or one band, of one line, counted from 0, of an AREA file into the first places of a lent output of unsigned numbers, and answers how many
// it wrote. Refused with 9 where the layout is stale, then with 7 where it is of another kind, then with 4 at 19 where a band is named and the band map is
// unusable, then with 7 where there is no such line, slot or band, then with 10 where the output is too short. A refused copy writes nothing.
pub fn copy_line(
    file: &[u8],
    layout: Layout,
    line: u32,
    which: SlotOrBand,
    out: &mut [u32],
) -> Result<usize, Refusal>
    ensures { (says result, out.new) ≡ copy_line file.now layout line which out.old }
{
    let l = area_of(file, layout)?;
    copy_line_in(file, l, line, which, out)
}
