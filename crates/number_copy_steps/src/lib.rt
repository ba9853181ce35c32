// Runs of unsigned numbers, of at most four bytes each and in either byte order, that are copied into a lent output.
//
// The callers find out where the numbers lie; they must make sure that these are inside the file.
#![tactic(auto)]

ghost use Rattle.std.specs.Prelude.{◌≡◌, ℕ, ◌+◌, ◌*◌, ◌≤◌, ◌<◌, length};
ghost use Rattle.refusal_rules.specs.Answers.{gives, says};
ghost use Rattle.copy_rules.specs.Runs.{numbers_at, copied};

use copy_rules::Strided;
use copy_steps::{fill_by_fours, fill_singly};
use endian_rules::Order;
use endian_steps::read_number;
use refusal_rules::Refusal;

// Fills an output with unsigned numbers. The width and the order are settled here, once for the whole output: the compiler makes a loop for each, which reads a
// number as a whole and not byte by byte. Big order, in which the bytes of a number are swapped, goes four numbers a turn.
fn fill_numbers(order: Order, width: usize, file: &[u8], at: usize, step: usize, out: &mut [u32])
    requires { (width ≤ 4) × ((i : ℕ) → i < length out.old → at + i * step + width ≤ length file.now) }
    ensures { out.new ≡ numbers_at order width file.now at step (length out.old) }
{
    match width {
        1 => fill_singly(move |byte| read_number(order, 1, file, byte), at, step, out),
        2 => match order {
            Order::Big => fill_by_fours(
                move |byte| read_number(Order::Big, 2, file, byte),
                at,
                step,
                out,
            ),
            Order::Little => fill_singly(
                move |byte| read_number(Order::Little, 2, file, byte),
                at,
                step,
                out,
            ),
        },
        4 => match order {
            Order::Big => fill_by_fours(
                move |byte| read_number(Order::Big, 4, file, byte),
                at,
                step,
                out,
            ),
            Order::Little => fill_singly(
                move |byte| read_number(Order::Little, 4, file, byte),
                at,
                step,
                out,
            ),
        },
        _ => fill_singly(
            move |byte| read_number(order, width, file, byte),
            at,
            step,
            out,
        ),
    }
}

// Copies a run of unsigned numbers of `width` bytes each, at most four, into the first places of a lent output, and answers how many places it wrote.
// Refused with 10 at 0 where the output is too short, and then nothing is written. The caller must make sure that the numbers are inside the file.
pub fn copy_numbers(
    order: Order,
    width: usize,
    file: &[u8],
    run: Strided,
    out: &mut [u32],
) -> Result<usize, Refusal>
    requires { (width ≤ 4) × ((i : ℕ) → i < run.count → run.at + i * run.step + width ≤ length file.now) }
    ensures { (says result, out.new) ≡ copied (gives (numbers_at order width file.now run.at run.step run.count)) out.old }
{
    let count = run.count;
    if out.len() < count {
        return Err(Refusal::ShortOutput);
    }
    fill_numbers(order, width, file, run.at, run.step, &mut out[..count]);
    Ok(count)
}
