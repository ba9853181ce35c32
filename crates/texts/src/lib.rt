// Texts that bytes and numbers are appended to, in room for 512 bytes.
#![tactic(auto)]

ghost use Rattle.std.specs.Prelude.{◌≡◌};
ghost use Rattle.listing_rules.specs.Page.{labelled};
ghost use Rattle.listing_rules.specs.Steps.{append_byte, append_bytes};

use listing_rules::Text;

// A text with a byte behind it, which is left out where there is no room.
#[tactic(auto, unfolding(listing_rules::specs::Steps::append_byte))]
fn append_byte(text: Text, byte: u8) -> Text
    ensures { result ≡ append_byte text byte }
{
    let at = text.count;
    let mut bytes = text.bytes;
    if at < 512 {
        bytes[at] = byte;
        Text {
            count: at + 1,
            bytes: bytes,
        }
    } else {
        text
    }
}

// A text with bytes behind it; those are left out for which there is no room.
pub fn append_bytes(text: Text, more: &[u8]) -> Text
    ensures { result ≡ append_bytes text more.now }
{
    let mut t = text;
    for byte in more {
        t = append_byte(t, *byte);
    }
    t
}

// A text with a word behind it, and behind the word the decimal digits of a number; bytes are left out for which there is no room.
#[tactic(auto, unfolding(listing_rules::specs::Page::labelled))]
pub fn append_number(text: Text, word: &[u8], n: u64) -> Text
    ensures { result ≡ append_bytes text (labelled word.now n) }
{
    let mut digits = [0u8; 20];
    let count = io::decimal(n, &mut digits);
    append_bytes(append_bytes(text, word), &digits[..count])
}

// A text with two numbers behind it, each behind a word; bytes are left out for which there is no room.
pub fn append_two(text: Text, word: &[u8], n: u64, other: &[u8], m: u64) -> Text
    ensures { result ≡ append_bytes (append_bytes text (labelled word.now n)) (labelled other.now m) }
{
    append_number(append_number(text, word, n), other, m)
}
