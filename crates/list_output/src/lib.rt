// The listing of an AREA file, written to standard output.
#![tactic(auto)]

ghost use Rattle.std.specs.Prelude.{◌≡◌, IfOk, OnOk, length};
ghost use Rattle.std.specs.Io.KnownBytes.{Appends};
ghost use Rattle.listing_rules.specs.Page.{listing_text};

use listing_text::list_text;
use std::io;
use std::io::Write;

// Hands bytes to a writer, all of them, and answers how many they are. A write that fails is the only error, and the writer may have the first bytes then.
fn hand_over<W: Write>(writer: &mut W, bytes: &[u8]) -> io::Result<usize>
    ensures written { OnOk result (Appends (W.contents writer.old) (W.contents writer.new) bytes.now) }
    ensures counted { IfOk result (λ n. n ≡ length bytes.now) }
{
    writer.write_all(bytes)?;
    Ok(bytes.len())
}

// Writes the listing of an AREA file to standard output, and answers how many bytes it has handed to the write: all of the listing's. A write that fails is
// the only error: nothing that is lent changes, and standard output may have the first bytes of the listing.
pub fn print_listing(rt: &impl Print, file: &[u8]) -> io::Result<usize>
    ensures { IfOk result (λ n. n ≡ length (listing_text file.now)) }
{
    let mut text = [0u8; 512];
    match list_text(file, &mut text) {
        Ok(count) => hand_over(&mut io::writer(rt), &text[..count]),
        Err(_) => Ok(0),
    }
}
