// Loops that fill a lent output with what is read at equal distances, whatever is read there.
#![tactic(auto)]

ghost use Rattle.std.specs.Prelude.{◌≡◌, ℕ, ◌+◌, ◌*◌, length};
ghost use Rattle.lists.specs.Lists.{list_of};
ghost use Rattle.copy_steps.specs.Fills.{AtEach, Readable, Reads};

// Fills an output, one place a turn: place i takes what is read at the byte at + i * step. The caller must make sure that it can be read there.
pub fn fill_singly<T: Copy, F: Fn(usize) -> T>(read: F, at: usize, step: usize, out: &mut [T])
    requires { AtEach (Readable (F.pre read)) at step (length out.old) }
    ensures { (value : ℕ → T) → AtEach (Reads (F.post read) value) at step (length out.old) → out.new ≡ list_of (λ i. value (at + i * step)) (length out.old) }
{
    for (i, place) in out.iter_mut().enumerate() {
        *place = read(at + i * step);
    }
}

// Fills an output of four places.
fn fill_four<T: Copy, F: Fn(usize) -> T>(read: &F, at: usize, step: usize, out: &mut [T])
    requires { (length out.old ≡ 4) × AtEach (Readable (F.pre read.now)) at step 4 }
    ensures { (value : ℕ → T) → AtEach (Reads (F.post read.now) value) at step 4 → out.new ≡ list_of (λ i. value (at + i * step)) 4 }
{
    let a = read(at);
    let b = read(at + step);
    let c = read(at + 2 * step);
    let d = read(at + 3 * step);
    out[0] = a;
    out[1] = b;
    out[2] = c;
    out[3] = d;
}

// Fills an output, four places a turn, and the last ones singly: place i takes what is read at the byte at + i * step. The caller must make sure that it can
// be read there.
pub fn fill_by_fours<T: Copy, F: Fn(usize) -> T>(read: F, at: usize, step: usize, out: &mut [T])
    requires { AtEach (Readable (F.pre read)) at step (length out.old) }
    ensures { (value : ℕ → T) → AtEach (Reads (F.post read) value) at step (length out.old) → out.new ≡ list_of (λ i. value (at + i * step)) (length out.old) }
{
    let turns = out.len() / 4;
    for turn in 0..turns {
        let start = 4 * turn;
        fill_four(&read, at + start * step, step, &mut out[start..start + 4]);
    }
    let done = 4 * turns;
    fill_singly(read, at + done * step, step, &mut out[done..]);
}
