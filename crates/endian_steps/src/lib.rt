// Numbers read from the bytes of a file and written into them, in either byte order. The callers must make sure that the bytes are inside the file.
//
// A number is the sum of its bytes, each times its power of 256. That the code reads it in either order and at every width rests on this one fact,
// `number-sum` of endian_rules/proofs/Places.antt.
#![tactic(auto)]

ghost use Rattle.std.specs.Prelude.{◌≡◌, ◌+◌, ◌<◌, ◌^◌, ◌≤◌, ◌*◌, length, get_or};
ghost use Rattle.std.proofs.lemmas.List.Edits.{sets};
ghost use Rattle.endian_rules.specs.Numbers.{ordered, position, number_at, encode};
ghost use Rattle.endian_rules.specs.declared.Order.TheVariants.{Big, Little};
ghost use Rattle.endian_rules.specs.Words.{signed_at, encode_signed, word_at};

use endian::{signed, unsigned};
use endian_rules::Order;

// Where the digit k of a number of `width` bytes at `at` stands. Digit 0 is the least significant.
fn digit_position(order: Order, width: usize, at: usize, k: usize) -> usize
    requires { (k < width) × (at + width < 2 ^ 64) }
    ensures { result ≡ at + position order width k }
{
    match order {
        Order::Big => at + (width - 1 - k),
        Order::Little => at + k,
    }
}

// The unsigned number of `width` bytes, at most four, at the byte `at`. The caller must make sure that the bytes are inside the file.
#[tactic(auto, unfolding(endian_rules::proofs::Numbers::sum_of_powers))]
pub fn read_number(order: Order, width: usize, file: &[u8], at: usize) -> u32
    requires { (width ≤ 4) × (at + width ≤ length file.now) }
    ensures { result ≡ number_at order width file.now at }
{
    let end = at + width;
    let bytes = &file[at..end];
    // A sum for each order, and a function for the bytes of each: with one function of order and place a copy in little order takes up to twice as many
    // instructions. Each byte is multiplied by its power of 256. A byte that is not there, since the number has fewer than four, counts 0.
    match order {
        // The first byte is the most significant, and the last one is multiplied by 1.
        Order::Big => byte_from_end(bytes, 3) * 16777216
            + byte_from_end(bytes, 2) * 65536
            + byte_from_end(bytes, 1) * 256
            + byte_from_end(bytes, 0),
        // The last byte is the most significant, and the first one is multiplied by 1.
        Order::Little => byte_from_start(bytes, 3) * 16777216
            + byte_from_start(bytes, 2) * 65536
            + byte_from_start(bytes, 1) * 256
            + byte_from_start(bytes, 0),
    }
}

// The byte k, counted from 0 at the last one, as a number below 256; 0 where there is none. In big order it is the digit k.
fn byte_from_end(bytes: &[u8], k: usize) -> u32
    ensures { (result ≡ get_or (ordered Big bytes.now) k 0) × (result < 256) }
{
    if k < bytes.len() {
        let i = bytes.len() - 1 - k;
        bytes[i] as u32
    } else {
        0
    }
}

// The byte k, counted from 0 at the first one, as a number below 256; 0 where there is none. In little order it is the digit k.
fn byte_from_start(bytes: &[u8], k: usize) -> u32
    ensures { (result ≡ get_or (ordered Little bytes.now) k 0) × (result < 256) }
{
    if k < bytes.len() { bytes[k] as u32 } else { 0 }
}

// The signed word at the byte `at`. The caller must make sure that its four bytes are inside the file.
pub fn read_signed(order: Order, file: &[u8], at: usize) -> i32
    requires { at + 4 ≤ length file.now }
    ensures { result ≡ signed_at order file.now at }
{
    let sum = read_number(order, 4, file, at);
    // The sign is settled last: from 2147483648 on the word is negative, 4294967296 less than the sum.
    signed(sum)
}

// The raw word k, counted from 0: the unsigned number that its 32 bits are. The caller must make sure that its four bytes are inside the
// file.
#[tactic(auto, unfolding(endian_rules::specs::Words::word_at))]
pub fn read_word(order: Order, file: &[u8], k: usize) -> u32
    requires { 4 * k + 4 ≤ length file.now }
    ensures { result ≡ word_at order file.now k }
{
    read_number(order, 4, file, 4 * k)
}

// Writes the low `width` bytes of n at the byte `at`. The caller must make sure that the bytes are inside the file. No other byte changes.
pub fn write_number(order: Order, width: usize, file: &mut [u8], at: usize, n: u32)
    requires { at + width ≤ length file.old }
    ensures { file.new ≡ sets file.old at (encode order width n) }
{
    let mut left = n;
    for k in 0..width {
        let i = digit_position(order, width, at, k);
        file[i] = (left % 256) as u8;
        left /= 256;
    }
}

// Writes the signed word v at the byte `at`. The caller must make sure that its four bytes are inside the file. No other byte changes.
pub fn write_signed(order: Order, file: &mut [u8], at: usize, v: i32)
    requires { at + 4 ≤ length file.old }
    ensures { file.new ≡ sets file.old at (encode_signed order v) }
{
    write_number(order, 4, file, at, unsigned(v));
}
