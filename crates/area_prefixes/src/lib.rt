// The regions of a line prefix of an AREA file, the padding among them: where each lies, and its bytes handed back.
#![tactic(auto)]

ghost use Rattle.std.specs.Prelude.{◌≡◌, ◌≤◌, sum, take};
ghost use Rattle.lists.specs.Segments.{total, segment_offset};
ghost use Rattle.area_rules.specs.Blocks.{region_lengths, region_index, region_length, region_offset};
ghost use Rattle.area_rules.specs.Samples.{AreaFits};
ghost use Rattle.span_rules.specs.Spans.{span, lent_bytes, that_part};
ghost use Rattle.area_part_rules.specs.Regions.{region_of, region_span};
ghost use Rattle.refusal_rules.specs.Answers.{says};

use area_places::line_start;
use area_rules::{AreaLayout, Region};
use fresh_layout::area_of;
use layout_rules::Layout;
use prefix_lengths::validity_length;
use refusal::check;
use refusal_rules::Refusal;
use span_rules::Span;
use span_steps::hand_back;

// The lengths of the regions of a line prefix, in their order.
fn region_lengths(l: AreaLayout) -> [usize; 5]
    ensures { result ≡ region_lengths l }
{
    [
        validity_length(l.no_validity_code),
        l.documentation as usize,
        l.calibration as usize,
        l.band_list as usize,
        l.padding as usize,
    ]
}

// The place of a region among the regions of a line prefix, counted from 0.
fn region_index(region: Region) -> usize
    ensures { (result ≡ region_index region) × (result ≤ 4) }
{
    match region {
        Region::Validity => 0,
        Region::Documentation => 1,
        Region::Calibration => 2,
        Region::BandList => 3,
        Region::Padding => 4,
    }
}

// How many bytes the first k regions of a line prefix have together, by the lengths of all its regions.
fn offset_of(lengths: &[usize; 5], k: usize) -> usize
    requires { (k ≤ 4) × (sum (take k lengths.now) ≤ 4294967295) }
    ensures { result ≡ sum (take k lengths.now) }
{
    lengths[..k].iter().sum()
}

// The span of a region of a line's prefix in an accepted file.
#[tactic(auto, using(area_rules::proofs::Bounds::area_bounded_lem, crate::proofs::Sums::sum_total), unfolding(area_rules::specs::Places::line_start_of, area_rules::specs::Places::line_rules, area_part_rules::specs::Regions::region_rules, refusal_rules::specs::Rules::first_fault, refusal_rules::specs::Rules::first, refusal_rules::specs::Rules::judge, area_part_rules::specs::Regions::region_of))]
fn region_of(l: AreaLayout, line: u32, region: Region) -> Result<Span, Refusal>
    requires { AreaFits l }
    ensures { says result ≡ region_of l line region }
{
    let start = line_start(l, line)?;
    let lengths = region_lengths(l);
    let k = region_index(region);
    check(lengths[k] != 0, Refusal::Absent)?;
    Ok(Span {
        start: start + offset_of(&lengths, k),
        length: lengths[k],
    })
}

// Where a region of the prefix of a line, counted from 0, of an AREA file lies, or its padding: start and length in bytes. Refused with 9 where the layout is stale, then with
// 7 where it is of another kind, then with 7 where there is no such line, then with 6 where the region has length 0.
pub fn region_span(file: &[u8], layout: Layout, line: u32, region: Region) -> Result<Span, Refusal>
    ensures { says result ≡ region_span file.now layout line region }
{
    let l = area_of(file, layout)?;
    region_of(l, line, region)
}

// A region of a line's prefix, handed back as that part of the file; empty where `region_span` refuses.
pub fn region_bytes(file: &[u8], layout: Layout, line: u32, region: Region) -> &[u8]
    ensures { lent_bytes result ≡ that_part file.entry (region_span file.now layout line region) }
{
    hand_back(file, region_span(file, layout, line, region))
}
