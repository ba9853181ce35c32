// Signed words and byte orders: a word's 32 bits as a signed and as an unsigned number, a bound on a signed word, and a number for each byte order.
#![tactic(auto)]

ghost use Rattle.std.specs.Prelude.{◌≡◌};
ghost use Rattle.std.specs.Int.{w32};
ghost use Rattle.std.proofs.Common.{to_z, of_z};
ghost use Rattle.endian_rules.specs.Words.{at_least, order_number};

use endian_rules::Order;

// The two's-complement word that 32 bits, as an unsigned number, stand for.
pub fn signed(n: u32) -> i32
    ensures { result ≡ to_z w32 n }
{
    n.cast_signed()
}

// The 32 bits of a two's-complement word, as an unsigned number.
pub fn unsigned(v: i32) -> u32
    ensures { result ≡ of_z w32 v }
{
    v.cast_unsigned()
}

// Whether a raw word is, as the signed word that it is, at least `low`. A negative word never is.
#[tactic(auto, unfolding(endian_rules::specs::Words::at_least))]
pub fn at_least(low: usize, n: u32) -> bool
    ensures { result ≡ at_least low n }
{
    low <= n as usize && n < 2147483648
}

// A number for each byte order: 0 for big, 1 for little.
// A number, since the definitions of equal layouts compare byte orders by it.
pub fn order_number(order: Order) -> u32
    ensures { result ≡ order_number order }
{
    match order {
        Order::Big => 0,
        Order::Little => 1,
    }
}
