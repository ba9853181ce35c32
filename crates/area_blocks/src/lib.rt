// The blocks of an AREA file: where each lies, and its bytes handed back.
#![tactic(auto)]

ghost use Rattle.std.specs.Prelude.{◌≡◌, ◌<◌};
ghost use Rattle.area_rules.specs.Blocks.{nearer_start, next_start, block_starts};
ghost use Rattle.area_rules.specs.Samples.{AreaFits};
ghost use Rattle.span_rules.specs.Spans.{lent_bytes, that_part};
ghost use Rattle.area_part_rules.specs.Blocks.{optional_block_of, block_of, block_span};
ghost use Rattle.refusal_rules.specs.Answers.{says};

use area_places::data_length;
use area_rules::{AreaLayout, Block};
use fresh_layout::area_of;
use layout_rules::Layout;
use refusal_rules::Refusal;
use span_rules::Span;
use span_steps::hand_back;

// The start s where it is greater than x and before n, else n: one step of the search for the next greater start.
fn nearer_start(x: u32, s: u32, n: usize) -> usize
    ensures { result ≡ nearer_start x s n }
{
    if x < s && (s as usize) < n {
        s as usize
    } else {
        n
    }
}

// The byte after a block that starts at x: the next greater start, or else the end of the file.
#[tactic(auto, unfolding(area_rules::specs::Blocks::next_start))]
fn end_of(l: AreaLayout, x: u32) -> usize
    ensures { result ≡ next_start x l.length (block_starts l) }
{
    let data = nearer_start(x, l.data_start, l.length);
    let aux = nearer_start(x, l.aux, data);
    let cal = nearer_start(x, l.cal, aux);
    nearer_start(x, l.nav, cal)
}

// The span of NAV, CAL or AUX, which starts at x and is absent where x is 0.
#[tactic(auto, unfolding(area_part_rules::specs::Blocks::optional_block_of, refusal_rules::specs::Rules::first_fault, refusal_rules::specs::Rules::first, refusal_rules::specs::Rules::judge))]
fn optional_span(l: AreaLayout, x: u32) -> Result<Span, Refusal>
    requires { (x ≡ 0 → ⊥) → x < l.length }
    ensures { says result ≡ optional_block_of l x }
{
    if x == 0 {
        return Err(Refusal::Absent);
    }
    let start = x as usize;
    Ok(Span {
        start,
        length: end_of(l, x) - start,
    })
}

// The span of a block of an accepted file.
#[tactic(auto, using(area_rules::proofs::Places::data_length), unfolding(area_part_rules::specs::Blocks::block_of, area_part_rules::specs::Blocks::block_rules, refusal_rules::specs::Rules::first_fault, refusal_rules::specs::Rules::first, refusal_rules::specs::Rules::judge, area_part_rules::specs::Blocks::optional_block_of))]
fn span_of(l: AreaLayout, block: Block) -> Result<Span, Refusal>
    requires { AreaFits l }
    ensures { says result ≡ block_of l block }
{
    match block {
        Block::Dir => Ok(Span {
            start: 0,
            length: 256,
        }),
        Block::Nav => optional_span(l, l.nav),
        Block::Cal => optional_span(l, l.cal),
        Block::Aux => optional_span(l, l.aux),
        Block::Data => {
            let length = data_length(l)?;
            Ok(Span {
                start: l.data_start as usize,
                length,
            })
        }
        // Straight after DATA, and absent where there are no comment cards.
        Block::Audit => {
            if l.cards == 0 {
                return Err(Refusal::Absent);
            }
            let data = data_length(l)?;
            Ok(Span {
                start: l.data_start as usize + data,
                length: 80 * l.cards as usize,
            })
        }
    }
}

// Where a block of an AREA file lies: start and length in bytes. Refused with 9 where the layout is stale, then with 7 where it is of another kind, then with 6
// where the block is absent.
pub fn block_span(file: &[u8], layout: Layout, block: Block) -> Result<Span, Refusal>
    ensures { says result ≡ block_span file.now layout block }
{
    let l = area_of(file, layout)?;
    span_of(l, block)
}

// A block of an AREA file, handed back as that part of the file; empty where `block_span` refuses.
pub fn block_bytes(file: &[u8], layout: Layout, block: Block) -> &[u8]
    ensures { lent_bytes result ≡ that_part file.entry (block_span file.now layout block) }
{
    hand_back(file, block_span(file, layout, block))
}
