// AREA files, images: opening a file, and comparing layouts.
#![tactic(auto)]

ghost use Rattle.std.specs.Prelude.{◌≡◌, ◌≤◌, length};
ghost use Rattle.area_rules.specs.Rules.{directory_of, word_in};
ghost use Rattle.area_rules.specs.Opening.{area_layout_of, open_area_words, open_area_told, open_area, same_area};
ghost use Rattle.refusal_rules.specs.Answers.{says};

use area_directory::word_verdict;
use area_rules::AreaLayout;
use bands::second_map;
use endian_rules::Order;
use endian_steps::read_word;
use prefix_lengths::padding_length;
use refusal_rules::Refusal;

// The 64 words of a directory, read once in a byte order. Every rule is applied to them, and not to the file. W k, counted from 1, is
// words[k - 1].
#[tactic(auto, unfolding(area_rules::specs::Rules::directory_of, lists::specs::Lists::list_of))]
fn read_directory(order: Order, file: &[u8]) -> [u32; 64]
    requires { 256 ≤ length file.now }
    ensures { result ≡ directory_of order file.now }
{
    let mut words = [0u32; 64];
    for (i, word) in words.iter_mut().enumerate() {
        *word = read_word(order, file, i);
    }
    words
}

// The layout that the words of a file of `told` bytes give.
#[tactic(auto, unfolding(area_rules::specs::Opening::area_layout_of, area_rules::specs::Rules::word_in))]
fn layout_of_words(told: usize, order: Order, words: &[u32; 64]) -> AreaLayout
    ensures { result ≡ area_layout_of order told (word_in words.now) }
{
    let map2 = second_map(words[13], words[19]);
    let padding = padding_length(words[35] == 0, words[48], words[49], words[50]);
    AreaLayout {
        order,
        length: told,
        lines: words[8],
        elements: words[9],
        width: words[10],
        bands: words[13],
        prefix: words[14],
        map: words[18],
        map2,
        data_start: words[33],
        nav: words[34],
        documentation: words[48],
        calibration: words[49],
        band_list: words[50],
        padding,
        aux: words[59],
        cal: words[62],
        cards: words[63],
        no_validity_code: words[35] == 0,
    }
}

// Opens by the words of a directory, where W2 reads 4 in this order.
#[tactic(auto, unfolding(area_rules::specs::Opening::open_area_words))]
fn open_words(told: usize, order: Order, words: &[u32; 64]) -> Result<AreaLayout, Refusal>
    ensures { says result ≡ open_area_words order told (word_in words.now) }
{
    word_verdict(told, words)?;
    Ok(layout_of_words(told, order, words))
}

// Opens by the bytes of a directory, where W2 reads 4 in this order.
fn open_ordered(told: usize, order: Order, bytes: &[u8]) -> Result<AreaLayout, Refusal>
    requires { 256 ≤ length bytes.now }
    ensures { says result ≡ open_area_words order told (word_in (directory_of order bytes.now)) }
{
    let words = read_directory(order, bytes);
    open_words(told, order, &words)
}

// Opens a file of `told` bytes, of which only the first have to be at hand: no byte after the first 256 is read. Refused, with document 01's number
// and place, by the first rule that fails: 1 where the file, or what is at hand, is shorter than 256 bytes, 2 at 2 where word 2 reads 4 in neither
// order, 3 at a count outside its bounds, 4 at a word unequal to its rule, 5 at the start of a part that would be outside the file or over another
// part.
#[tactic(auto, using(area_rules::proofs::Directory::short_file, area_rules::proofs::Directory::short_directory, area_rules::proofs::Directory::opens_big, area_rules::proofs::Directory::opens_little, area_rules::proofs::Directory::opens_neither))]
pub fn open_told(told: usize, directory: &[u8]) -> Result<AreaLayout, Refusal>
    ensures { says result ≡ open_area_told told directory.now }
{
    if told < 256 || directory.len() < 256 {
        return Err(Refusal::ShortFile);
    }
    if read_word(Order::Big, directory, 1) == 4 {
        return open_ordered(told, Order::Big, directory);
    }
    if read_word(Order::Little, directory, 1) == 4 {
        return open_ordered(told, Order::Little, directory);
    }
    Err(Refusal::NoByteOrder)
}

// Opens an AREA file, in the byte order in which word 2 reads 4. Refused as `open_told` at the file's own length.
#[tactic(auto, unfolding(area_rules::specs::Opening::open_area))]
pub fn open(file: &[u8]) -> Result<AreaLayout, Refusal>
    ensures { says result ≡ open_area file.now }
{
    open_told(file.len(), file)
}

// Whether two AREA layouts are the same in every field.
pub fn same_area(a: AreaLayout, b: AreaLayout) -> bool
    ensures { result ≡ same_area a b }
{
    a == b
}
