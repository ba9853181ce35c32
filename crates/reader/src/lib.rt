// A file and a layout carried together as one thing, and the calls that read through it.
#![tactic(auto)]

ghost use Rattle.std.specs.Prelude.{◌≡◌};
ghost use Rattle.refusal_rules.specs.Answers.{says};
ghost use Rattle.span_rules.specs.Spans.{lent_bytes, that_part};
ghost use Rattle.area_part_rules.specs.Blocks.{block_span};
ghost use Rattle.area_part_rules.specs.Lines.{copy_line};
ghost use Rattle.grid_part_rules.specs.Grids.{copy_by_rows};
ghost use Rattle.value_rules.specs.Reading.{read_sample, read_point, read_field};

use area_blocks::block_bytes;
use area_rules::{Block, SlotOrBand};
use layout_rules::Layout;
use reads::{read_field, read_point, read_sample};
use refusal_rules::Refusal;

// The bytes of a file, with a layout. Document 01: "Display code carries file bytes and layout together as one thing and reads through it, with the same
// answers." A caller can make the layout up: nothing is known of its fields until a call finds it to be the one that opening the file gives.
#[derive(Clone, Copy, Debug, PartialEq, Eq)]
pub struct Reader<'a> {
    file: &'a [u8],
    layout: Layout,
}

impl<'a> Reader<'a> {
    // Puts lent bytes and a layout together. It refuses nothing: whether the layout is stale is found by each call that reads through the reader.
    pub fn new(file: &'a [u8], layout: Layout) -> Reader<'a>
        ensures { result ≡ record { file = file.entry; layout = layout } }
    {
        Reader { file, layout }
    }

    // The sample of a line and an element, both counted from 0, and a slot or band of an AREA file: an unsigned number. Refused as
    // `reads::read_sample`.
    pub fn sample(self, line: u32, element: u32, which: SlotOrBand) -> Result<u32, Refusal>
        ensures { says result ≡ read_sample self.entry.file.now self.entry.layout line element which }
    {
        read_sample(self.file, self.layout, line, element, which)
    }

    // The point of a row and a column, both counted from 1, of a grid: a signed word. Refused as `reads::read_point`.
    pub fn point(self, row: u32, column: u32) -> Result<i32, Refusal>
        ensures { says result ≡ read_point self.entry.file.now self.entry.layout row column }
    {
        read_point(self.file, self.layout, row, column)
    }

    // The field at a position, counted from 1, of the part of an MD file that coordinates name: a signed word. Refused as
    // `reads::read_field`.
    pub fn field(self, row: u32, column: u32, position: u32) -> Result<i32, Refusal>
        ensures { says result ≡ read_field self.entry.file.now self.entry.layout row column position }
    {
        read_field(self.file, self.layout, row, column, position)
    }

    // A block of an AREA file, handed back as that part of the file; empty where `area_blocks::block_span` refuses.
    pub fn block(self, block: Block) -> &'a [u8]
        ensures { lent_bytes result ≡ that_part self.entry.file (block_span self.entry.file.now self.entry.layout block) }
    {
        block_bytes(self.file, self.layout, block)
    }

    // Copies one slot, or one band, of one line, counted from 0, of an AREA file into the first places of a lent output of unsigned numbers, and answers how many
    // it wrote. Refused as `area_lines::copy_line`. A refused copy writes nothing.
    pub fn copy_line(self, line: u32, which: SlotOrBand, out: &mut [u32]) -> Result<usize, Refusal>
        ensures { (says result, out.new) ≡ copy_line self.entry.file.now self.entry.layout line which out.old }
    {
        area_lines::copy_line(self.file, self.layout, line, which, out)
    }

    // Copies a grid, row by row, into the first places of a lent output of signed words, and answers how many it wrote. Refused as `grid_copies::copy_by_rows`. A
    // refused copy writes nothing.
    pub fn copy_by_rows(self, out: &mut [i32]) -> Result<usize, Refusal>
        ensures { (says result, out.new) ≡ copy_by_rows self.entry.file.now self.entry.layout out.old }
    {
        grid_copies::copy_by_rows(self.file, self.layout, out)
    }
}

// The sample of a line and an element, both counted from 0, and a slot or band of an AREA file, read through a reader that is made for this one call: for a caller
// that has the two apart. Refused as `reads::read_sample`.
pub fn read_through(
    file: &[u8],
    layout: Layout,
    line: u32,
    element: u32,
    which: SlotOrBand,
) -> Result<u32, Refusal>
    ensures { says result ≡ read_sample file.now layout line element which }
{
    Reader::new(file, layout).sample(line, element, which)
}
