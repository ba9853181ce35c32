// The band map of an AREA file: the slot at which a band lies within each element.
#![tactic(auto)]

ghost use Rattle.std.specs.Prelude.{◌≡◌, ◌<◌, ◌≤◌};
ghost use Rattle.refusal_rules.specs.Answers.{says};
ghost use Rattle.area_rules.specs.Bands.{second_map, map_bit, set_below, has_band, band_slot, slot_of};

use area_rules::{AreaLayout, SlotOrBand};
use refusal::check;
use refusal_rules::Refusal;

// The second word of the band map of so many bands, as it counts: 0 unless there are more than 32.
pub fn second_map(bands: u32, map2: u32) -> u32
    ensures { result ≡ second_map bands map2 }
{
    if bands <= 32 { 0 } else { map2 }
}

// The band map of an AREA file: its two words, the second as it counts.
#[derive(Clone, Copy)]
struct BandMap {
    first: u32,
    second: u32,
}

impl BandMap {
    // Bit i of the map, that of band i + 1.
    #[tactic(auto, unfolding(area_rules::specs::Bands::map_bit))]
    fn bit(self, i: u32) -> u32
        requires { i < 64 }
        ensures { result ≡ map_bit self.first self.second i }
    {
        if i < 32 {
            (self.first >> i) & 1
        } else {
            (self.second >> (i - 32)) & 1
        }
    }

    // How many of the bits below bit n are set.
    #[tactic(auto, using(area_rules::proofs::Bands::bit_most, area_rules::proofs::Bands::below_most), unfolding(area_rules::specs::Bands::set_below))]
    fn set_below(self, n: u32) -> u32
        requires { n ≤ 64 }
        ensures { result ≡ set_below self.first self.second n }
    {
        let mut count: u32 = 0;
        for i in 0..n {
            count += self.bit(i);
        }
        count
    }

    // Whether the map has a band.
    #[tactic(auto, unfolding(refusal_rules::specs::Tests::within))]
    fn has(self, band: u32) -> bool
        ensures { result ≡ has_band self.first self.second band }
    {
        (1..=64).contains(&band) && self.bit(band - 1) == 1
    }
}

// The slot of a band of a layout. Refused with 4 at 19 where the band map has not as many set bits as there are bands, and with 7 where it has no such band.
#[tactic(auto, unfolding(area_rules::specs::Bands::band_rules, refusal_rules::specs::Rules::first_fault, refusal_rules::specs::Rules::first, area_rules::specs::Bands::band_slot))]
fn slot_of_band(layout: AreaLayout, band: u32) -> Result<u32, Refusal>
    ensures { says result ≡ band_slot layout.map layout.map2 layout.bands band }
{
    let second = second_map(layout.bands, layout.map2);
    let map = BandMap {
        first: layout.map,
        second,
    };
    check(map.set_below(64) == layout.bands, Refusal::RuleBroken(19))?;
    check(map.has(band), Refusal::NoSuch)?;
    Ok(map.set_below(band - 1))
}

// The slot that a slot or band of a layout means. Refused with 4 at 19 where a band is named and the band map is unusable, and with 7 where there is no such
// slot or band.
#[tactic(auto, unfolding(refusal_rules::specs::Rules::first_fault, refusal_rules::specs::Rules::first))]
pub fn slot_of(layout: AreaLayout, which: SlotOrBand) -> Result<u32, Refusal>
    ensures { says result ≡ slot_of layout which }
{
    match which {
        SlotOrBand::Slot(slot) => {
            check(slot < layout.bands, Refusal::NoSuch)?;
            Ok(slot)
        }
        SlotOrBand::Band(band) => slot_of_band(layout, band),
    }
}
