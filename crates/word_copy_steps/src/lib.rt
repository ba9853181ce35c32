// Signed words that are copied into a lent output: one line of words that fills it, or lines of words one after another, in either byte order.
//
// The callers find out where the words lie; they must make sure that these are inside the file.
#![tactic(auto)]

ghost use Rattle.std.specs.Prelude.{◌≡◌, ℕ, ◌+◌, ◌*◌, ◌≤◌, ◌<◌, ◌^◌, length};
ghost use Rattle.lists.specs.Lists.{over};
ghost use Rattle.refusal_rules.specs.Answers.{gives, says};
ghost use Rattle.copy_rules.specs.Runs.{words_at, lines_at, copied};

use copy_rules::WordLines;
use copy_steps::{fill_by_fours, fill_singly};
use endian_rules::Order;
use endian_steps::read_signed;
use refusal_rules::Refusal;

// Fills the whole of a lent output with signed words: the first at the byte `at`, and each `step` bytes behind the one before. Nothing is refused. The caller
// must make sure that the words are inside the file.
pub fn fill_words(order: Order, file: &[u8], at: usize, step: usize, out: &mut [i32])
    requires { (i : ℕ) → i < length out.old → at + i * step + 4 ≤ length file.now }
    ensures { out.new ≡ words_at order file.now at step (length out.old) }
{
    match order {
        Order::Big => fill_by_fours(
            move |byte| read_signed(Order::Big, file, byte),
            at,
            step,
            out,
        ),
        Order::Little => fill_singly(
            move |byte| read_signed(Order::Little, file, byte),
            at,
            step,
            out,
        ),
    }
}

// Fills the first places of an output with lines of signed words, line by line.
fn fill_lines(order: Order, file: &[u8], lines: WordLines, out: &mut [i32])
    requires { (lines.count * lines.words ≤ length out.old) × ((1 ≤ lines.words) × ((k i : ℕ) → k < lines.count → i < lines.words → lines.at + k * lines.across + i * lines.along + 4 ≤ length file.now)) }
    ensures { out.new ≡ over (lines_at order file.now lines.at lines.across lines.along lines.count lines.words) out.old }
{
    let words = lines.words;
    for k in 0..lines.count {
        let start = k * words;
        let at = lines.at + k * lines.across;
        fill_words(order, file, at, lines.along, &mut out[start..start + words]);
    }
}

// Copies lines of signed words into the first places of a lent output, line by line, and answers how many places it wrote. Refused with 10 at 0 where the
// output is too short, and then nothing is written. The caller must make sure that a line has a word, that the words of all lines are fewer than 2 ^ 64, and
// that they are inside the file.
pub fn copy_lines(
    order: Order,
    file: &[u8],
    lines: WordLines,
    out: &mut [i32],
) -> Result<usize, Refusal>
    requires { (lines.count * lines.words < 2 ^ 64) × ((1 ≤ lines.words) × ((k i : ℕ) → k < lines.count → i < lines.words → lines.at + k * lines.across + i * lines.along + 4 ≤ length file.now)) }
    ensures { (says result, out.new) ≡ copied (gives (lines_at order file.now lines.at lines.across lines.along lines.count lines.words)) out.old }
{
    let total = lines.count * lines.words;
    if out.len() < total {
        return Err(Refusal::ShortOutput);
    }
    fill_lines(order, file, lines, out);
    Ok(total)
}
