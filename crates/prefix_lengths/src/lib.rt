// How long the prefix of a line of an AREA file is, and how long the padding at its end, by what the directory gives of the regions before the padding: whether W36
// is 0, where there is no validity code, and the bytes of documentation (W49), calibration (W50) and band list (W51).
#![tactic(auto)]

ghost use Rattle.std.specs.Prelude.{◌≡◌, ◌≤◌, eqb};
ghost use Rattle.lists.specs.Segments.{total};
ghost use Rattle.area_rules.specs.Lines.{validity_length, given_regions, rounded_up, prefix_length, padding_length};

// How many bytes the validity code of a line prefix has, none where W36 is 0.
pub fn validity_length(no_code: bool) -> usize
    ensures { result ≡ validity_length no_code }
{
    if no_code { 0 } else { 4 }
}

// How many bytes the regions before the padding have: those of the validity code, at most four, and three words, whatever they are.
fn given_length(no_code: bool, documentation: u32, calibration: u32, band_list: u32) -> usize
    ensures { (result ≡ total (given_regions no_code documentation calibration band_list)) × (result ≤ 12884901889) }
{
    validity_length(no_code) + documentation as usize + calibration as usize + band_list as usize
}

// The least multiple of four that is not below n.
fn rounded_up(n: usize) -> usize
    requires { n ≤ 12884901889 }
    ensures { result ≡ rounded_up n }
{
    (n + 3) / 4 * 4
}

// Whether a line prefix has so many bytes, as W15 says: those of the regions before the padding, rounded up to a multiple of four.
pub fn is_prefix_length(
    prefix: u32,
    no_code: bool,
    documentation: u32,
    calibration: u32,
    band_list: u32,
) -> bool
    ensures { result ≡ eqb prefix (prefix_length no_code documentation calibration band_list) }
{
    prefix as usize == rounded_up(given_length(no_code, documentation, calibration, band_list))
}

// How many bytes of padding a line prefix has: what rounding up adds to the bytes of the regions before it.
pub fn padding_length(no_code: bool, documentation: u32, calibration: u32, band_list: u32) -> u32
    ensures { result ≡ padding_length no_code documentation calibration band_list }
{
    let given = given_length(no_code, documentation, calibration, band_list);
    let padding = rounded_up(given) - given;
    padding as u32
}
