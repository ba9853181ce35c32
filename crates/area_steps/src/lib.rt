// The bytes of a line of an AREA file, for functions that know the bounds of the counts.
#![tactic(auto)]

ghost use Rattle.std.specs.Prelude.{◌≡◌, ◌≤◌};
ghost use Rattle.area_rules.specs.Lines.{line_length};

// How many bytes a line has, of so many bytes of prefix, bands, elements and bytes of a sample. The caller must make sure that the last three are within the bounds of
// opening, so that the product fits.
pub fn line_bytes(prefix: u32, bands: u32, elements: u32, width: u32) -> usize
    requires { (bands ≤ 64) × ((elements ≤ 65535) × (width ≤ 4)) }
    ensures { result ≡ line_length prefix bands elements width }
{
    prefix as usize + bands as usize * elements as usize * width as usize
}
