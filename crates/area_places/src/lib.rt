// Where the lines and samples of an AREA file lie, by a layout alone. A layout may be one that a caller has made up: where a field of it is above the bounds
// that opening sets, there is no such value, and nothing is computed from it.
#![tactic(auto)]

ghost use Rattle.std.specs.Prelude.{◌≡◌, ◌≤◌, IfOk};
ghost use Rattle.refusal_rules.specs.Answers.{says, verdict_of};
ghost use Rattle.refusal_rules.specs.Rules.{rule, judge};
ghost use Rattle.area_rules.specs.Bounds.{area_bounded, AreaBounds};
ghost use Rattle.area_rules.specs.Samples.{line_length_in, line_start, sample_address};
ghost use Rattle.area_rules.specs.Places.{length_of_line, length_of_data, line_start_of, sample_place};

use area_rules::{AreaLayout, SlotOrBand};
use area_steps::line_bytes;
use bands::slot_of;
use refusal::check;
use refusal_rules::{Place, Refusal};

// A layout whose fields that AREA addresses are computed from are within the bounds that opening sets.
#[derive(Clone, Copy)]
struct Bounded {
    layout: AreaLayout,
    ghost bounds: { AreaBounds layout },
}

impl Bounded {
    // Refused with 7 where the layout is above the bounds.
    #[tactic(auto, unfolding(refusal_rules::specs::Rules::judge, area_rules::specs::Bounds::area_bounded))]
    fn new(layout: AreaLayout) -> Result<Bounded, Refusal>
        ensures rule { verdict_of result ≡ judge (rule (area_bounded layout) 7 0) }
        ensures same { IfOk result (λ b. b.layout ≡ layout) }
    {
        if layout.lines <= 65535
            && layout.elements <= 65535
            && layout.width <= 4
            && layout.bands <= 64
        {
            Ok(Bounded { layout })
        } else {
            Err(Refusal::NoSuch)
        }
    }

    // The line length, in bytes.
    fn line_length(self) -> usize
        ensures { result ≡ line_length_in self.layout }
    {
        let l = self.layout;
        line_bytes(l.prefix, l.bands, l.elements, l.width)
    }

    // The byte at which a line begins, with its prefix.
    fn line_start(self, line: u32) -> usize
        requires { line ≤ self.layout.lines }
        ensures { result ≡ line_start self.layout line }
    {
        self.layout.data_start as usize + line as usize * self.line_length()
    }

    // The byte at which the sample of a line, an element and a slot begins.
    #[tactic(auto, using(area_rules::proofs::Sizes::lines_most, area_rules::proofs::Sizes::bytes_most))]
    fn sample_address(self, line: u32, element: u32, slot: u32) -> usize
        requires { (line ≤ self.layout.lines) × ((element ≤ self.layout.elements) × (slot ≤ self.layout.bands)) }
        ensures { result ≡ sample_address self.layout line element slot }
    {
        let l = self.layout;
        let before = element as usize * l.bands as usize + slot as usize;
        self.line_start(line) + l.prefix as usize + before * l.width as usize
    }
}

// How many bytes a line of an AREA file has, its prefix among them. Refused with 7 where the layout is above the bounds that opening sets.
#[tactic(auto, unfolding(refusal_rules::specs::Rules::first_fault, refusal_rules::specs::Rules::first, area_rules::specs::Places::length_of_line))]
pub fn line_length(layout: AreaLayout) -> Result<usize, Refusal>
    ensures { says result ≡ length_of_line layout }
{
    let bounded = Bounded::new(layout)?;
    Ok(bounded.line_length())
}

// How many bytes DATA of an AREA file has: those of all its lines. Refused as `line_length`.
#[tactic(auto, unfolding(area_rules::specs::Places::length_of_data))]
pub fn data_length(layout: AreaLayout) -> Result<usize, Refusal>
    ensures { says result ≡ length_of_data layout }
{
    let line = line_length(layout)?;
    Ok(layout.lines as usize * line)
}

// The byte at which a line of an AREA file begins, with its prefix, the line counted from 0. Refused with 7 where there is no such line, or the layout is above the
// bounds that opening sets.
#[tactic(auto, unfolding(refusal_rules::specs::Rules::first_fault, refusal_rules::specs::Rules::first, area_rules::specs::Places::line_rules, area_rules::specs::Places::line_start_of))]
pub fn line_start(layout: AreaLayout, line: u32) -> Result<usize, Refusal>
    ensures { says result ≡ line_start_of layout line }
{
    let bounded = Bounded::new(layout)?;
    check(line < layout.lines, Refusal::NoSuch)?;
    Ok(bounded.line_start(line))
}

// The place of a sample of an AREA file, named by line and element, both counted from 0, and slot or band. Refused with 4 at 19 where a band is named and the band
// map is unusable, then with 7 where there is no such line, element, slot or band, or the layout is above the bounds that opening sets.
#[tactic(auto, unfolding(refusal_rules::specs::Rules::first_fault, refusal_rules::specs::Rules::first, refusal_rules::specs::Rules::judge, area_rules::specs::Places::sample_rules, area_rules::specs::Places::sample_place))]
pub fn sample_place(
    layout: AreaLayout,
    line: u32,
    element: u32,
    which: SlotOrBand,
) -> Result<Place, Refusal>
    ensures { says result ≡ sample_place layout line element which }
{
    let slot = slot_of(layout, which)?;
    let bounded = Bounded::new(layout)?;
    if line >= layout.lines || element >= layout.elements {
        return Err(Refusal::NoSuch);
    }
    Ok(Place {
        address: bounded.sample_address(line, element, slot),
        width: layout.width as usize,
    })
}
