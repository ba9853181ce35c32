// The text of the listing of an AREA file, in bytes, as the listing program prints it.
#![tactic(auto)]

ghost use Rattle.std.specs.Prelude.{◌≡◌, ◌≤◌, length, take};
ghost use Rattle.refusal_rules.specs.Answers.{gives, says};
ghost use Rattle.copy_rules.specs.Runs.{copied};
ghost use Rattle.listing_rules.specs.Page.{order_line, layout_lines, block_name, block_line, block_lines, listing_text};
ghost use Rattle.listing_rules.specs.Steps.{empty_text, append_bytes};

use area_rules::{AreaLayout, Block};
use endian_rules::Order;
use listing::list_area;
use listing_rules::{BlockList, Entry, Text};
use refusal_rules::Refusal;
use texts::{append_bytes, append_number, append_two};

// ---- the lines

// A text with the line of a byte order behind it.
fn append_order(text: Text, order: Order) -> Text
    ensures { result ≡ append_bytes text (order_line order) }
{
    match order {
        Order::Big => append_bytes(text, b"AREA big\n"),
        Order::Little => append_bytes(text, b"AREA little\n"),
    }
}

// A text with the two lines of a layout behind it: the byte order, and the numbers.
#[tactic(auto, unfolding(listing_rules::specs::Page::layout_lines))]
fn append_layout(text: Text, layout: AreaLayout) -> Text
    ensures { result ≡ append_bytes text (layout_lines layout) }
{
    let order = layout.order;
    let lines = layout.lines as u64;
    let elements = layout.elements as u64;
    let bands = layout.bands as u64;
    let width = layout.width as u64;
    let prefix = layout.prefix as u64;
    let area = append_order(text, order);
    let size = append_two(area, b"lines ", lines, b" elements ", elements);
    let samples = append_two(size, b" bands ", bands, b" bytes ", width);
    append_bytes(append_number(samples, b" prefix ", prefix), b"\n")
}

// A text with the name of a block behind it.
fn append_name(text: Text, block: Block) -> Text
    ensures { result ≡ append_bytes text (block_name block) }
{
    match block {
        Block::Dir => append_bytes(text, b"DIR"),
        Block::Aux => append_bytes(text, b"AUX"),
        Block::Nav => append_bytes(text, b"NAV"),
        Block::Cal => append_bytes(text, b"CAL"),
        Block::Data => append_bytes(text, b"DATA"),
        Block::Audit => append_bytes(text, b"AUDIT"),
    }
}

// A text with the line of a block behind it: its name, start and length.
#[tactic(auto, unfolding(listing_rules::specs::Page::block_line))]
fn append_block(text: Text, entry: Entry) -> Text
    ensures { result ≡ append_bytes text (block_line entry) }
{
    let block = entry.block;
    let name = append_name(text, block);
    let extent = append_two(name, b" ", entry.start as u64, b" ", entry.length as u64);
    append_bytes(extent, b"\n")
}

// A text with the lines of blocks behind it.
fn append_blocks(text: Text, blocks: BlockList) -> Text
    requires { (blocks.count ≤ 6) × (length blocks.entries ≡ 6) }
    ensures { result ≡ append_bytes text (block_lines (take blocks.count blocks.entries)) }
{
    let mut t = text;
    for entry in &blocks.entries[..blocks.count] {
        t = append_block(t, *entry);
    }
    t
}

// ---- the whole

// The text of the listing of a file: the lines of the layout and of the blocks, the line of the refusal, or that the file is too long.
#[tactic(auto, unfolding(listing_rules::specs::Steps::empty_text, listing_rules::specs::Page::refusal_line))]
fn text_of(file: &[u8]) -> Text
    ensures { result ≡ append_bytes empty_text (listing_text file.now) }
{
    let empty = Text {
        count: 0,
        bytes: [0; 512],
    };
    if 65536 < file.len() {
        return append_bytes(empty, b"TOO LONG\n");
    }
    let listing = list_area(file);
    match listing.opening {
        Ok(layout) => append_blocks(append_layout(empty, layout), listing.blocks),
        Err(refusal) => {
            let number = refusal.number() as u64;
            let line = append_two(empty, b"REFUSED ", number, b" at ", refusal.place());
            append_bytes(line, b"\n")
        }
    }
}

// Writes the listing of an AREA file into the first places of a lent output, and answers how many bytes it has: the byte order, the numbers of the layout and
// the blocks that are present by start; the line of the refusal where the file is refused; `TOO LONG` where it has more than 65,536 bytes. Refused with 10
// where the output is too short, and then nothing is written; 512 places are enough for every file.
pub fn list_text(file: &[u8], out: &mut [u8]) -> Result<usize, Refusal>
    ensures { (says result, out.new) ≡ copied (gives (listing_text file.now)) out.old }
{
    let text = text_of(file);
    let count = text.count;
    if out.len() < count {
        return Err(Refusal::ShortOutput);
    }
    let listing = &text.bytes[..count];
    out[..count].copy_from_slice(listing);
    Ok(count)
}
