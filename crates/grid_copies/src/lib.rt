// The header of a grid handed back, and a whole grid copied by columns or by rows into a lent output.
#![tactic(auto)]

ghost use Rattle.std.specs.Prelude.{◌≡◌};
ghost use Rattle.refusal_rules.specs.Answers.{says};
ghost use Rattle.span_rules.specs.Spans.{lent_bytes, that_part};
ghost use Rattle.grid_part_rules.specs.Grids.{header_span, copy_by_columns, copy_by_rows};

use copy_rules::WordLines;
use fresh_layout::grid_of;
use layout_rules::Layout;
use refusal_rules::Refusal;
use span_rules::Span;
use span_steps::hand_back;
use word_copy_steps::copy_lines;

// Where the header of a grid lies: start and length in bytes. Refused with 9 where the layout is stale, then with 7 where it is of another kind.
pub fn header_span(file: &[u8], layout: Layout) -> Result<Span, Refusal>
    ensures { says result ≡ header_span file.now layout }
{
    let l = grid_of(file, layout)?;
    Ok(Span {
        start: 4 * l.offset as usize,
        length: 256,
    })
}

// The header of a grid, handed back as that part of the file; empty where `header_span` refuses.
pub fn header_bytes(file: &[u8], layout: Layout) -> &[u8]
    ensures { lent_bytes result ≡ that_part file.entry (header_span file.now layout) }
{
    hand_back(file, header_span(file, layout))
}

// Copies a grid, column by column, into the first places of a lent output of signed words, and answers how many it wrote. Refused with 9 where the layout is
// stale, then with 7 where it is of another kind, then with 10 where the output is too short. A refused copy writes nothing.
pub fn copy_by_columns(file: &[u8], layout: Layout, out: &mut [i32]) -> Result<usize, Refusal>
    ensures { (says result, out.new) ≡ copy_by_columns file.now layout out.old }
{
    let l = grid_of(file, layout)?;
    // A line is a column, its points one word apart.
    let columns = WordLines {
        at: 4 * (l.offset as usize + 64),
        across: 4 * l.rows as usize,
        along: 4,
        count: l.columns as usize,
        words: l.rows as usize,
    };
    copy_lines(l.order, file, columns, out)
}

// Copies a grid, row by row, into the first places of a lent output of signed words, and answers how many it wrote. Refused as `copy_by_columns`.
pub fn copy_by_rows(file: &[u8], layout: Layout, out: &mut [i32]) -> Result<usize, Refusal>
    ensures { (says result, out.new) ≡ copy_by_rows file.now layout out.old }
{
    let l = grid_of(file, layout)?;
    // A line is a row, its points one column apart.
    let rows = WordLines {
        at: 4 * (l.offset as usize + 64),
        across: 4,
        along: 4 * l.rows as usize,
        count: l.rows as usize,
        words: l.columns as usize,
    };
    copy_lines(l.order, file, rows, out)
}
