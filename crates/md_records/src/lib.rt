// Complete records of an MD file, copied into a lent output.
#![tactic(auto)]

ghost use Rattle.std.specs.Prelude.{◌≡◌, ◌≤◌, length};
ghost use Rattle.lists.specs.Lists.{over};
ghost use Rattle.refusal_rules.specs.Rules.{first_fault};
ghost use Rattle.refusal_rules.specs.Answers.{says, verdict_of};
ghost use Rattle.copy_rules.specs.Runs.{copied};
ghost use Rattle.md_rules.specs.Accepts.{MdOf};
ghost use Rattle.md_rules.specs.Fields.{fields_of};
ghost use Rattle.md_part_rules.specs.Records.{record_rules, part_fields, record_fields, IsRecord, record_in, copy_record};

use fresh_layout::md_of;
use layout_rules::Layout;
use md_places::part_start;
use md_rules::MdLayout;
use refusal::{check, within};
use refusal_rules::Refusal;
use word_copy_steps::fill_words;

// What the rules of a record of a row and a column say: 7 where there is no such record.
#[tactic(auto, unfolding(md_part_rules::specs::Records::record_rules, refusal_rules::specs::Rules::first_fault, refusal_rules::specs::Rules::first))]
fn record_verdict(l: MdLayout, row: u32, column: u32) -> Result<(), Refusal>
    ensures { verdict_of result ≡ first_fault (record_rules l row column) }
{
    check(within(1, l.rows, row), Refusal::NoSuch)?;
    check(within(1, l.columns, column), Refusal::NoSuch)
}

// An accepted MD file with the layout that opening it gives.
#[derive(Clone, Copy)]
struct OpenedFile<'a> {
    file: &'a [u8],
    layout: MdLayout,
    ghost opened: { MdOf layout.order file.now layout },
}

impl<'a> OpenedFile<'a> {
    // Fills an output with the fields of the part of the file that coordinates name; it has a place for each of them. The part may have none. An accepted file has
    // the part, so its start is not refused.
    fn fill_part(&self, row: u32, column: u32, out: &mut [i32])
        requires { (row ≤ self.now.layout.rows) × ((column ≤ self.now.layout.columns) × (length out.old ≡ fields_of self.now.layout row column)) }
        ensures { out.new ≡ part_fields self.now.file.now self.now.layout row column }
    {
        if let Ok(word) = part_start(self.layout, row, column) {
            fill_words(self.layout.order, self.file, 4 * word, 4, out);
        }
    }

    // Fills the first places of an output with a record: row header, column header and data.
    fn fill_record(&self, row: u32, column: u32, out: &mut [i32])
        requires { IsRecord self.now.layout row column × (self.now.layout.keys ≤ length out.old) }
        ensures { out.new ≡ over (record_fields self.now.file.now self.now.layout row column) out.old }
    {
        let row_end = self.layout.row_keys as usize;
        let column_end = row_end + self.layout.column_keys as usize;
        let data_end = column_end + self.layout.data_keys as usize;
        self.fill_part(row, 0, &mut out[..row_end]);
        self.fill_part(0, column, &mut out[row_end..column_end]);
        self.fill_part(row, column, &mut out[column_end..data_end]);
    }

    // Copies a record. Refused with 7 where there is no such record, then with 10 where the output is too short.
    #[tactic(auto, unfolding(md_part_rules::specs::Records::record_in))]
    fn copy(&self, row: u32, column: u32, out: &mut [i32]) -> Result<usize, Refusal>
        ensures { (says result, out.new) ≡ copied (record_in self.now.file.now self.now.layout row column) out.old }
    {
        let keys = self.layout.keys as usize;
        record_verdict(self.layout, row, column)?;
        if out.len() < keys {
            return Err(Refusal::ShortOutput);
        }
        self.fill_record(row, column, out);
        Ok(keys)
    }
}

// Copies a complete record, that of a row and a column, both counted from 1, of an MD file into the first places of a lent output of signed words: its row
// header, column header and data. Answers how many words it wrote. Refused with 9 where the layout is stale, then with 7 where it is of another kind, then with 7
// where there is no such record, then with 10 where the output is too short. A refused copy writes nothing.
pub fn copy_record(
    file: &[u8],
    layout: Layout,
    row: u32,
    column: u32,
    out: &mut [i32],
) -> Result<usize, Refusal>
    ensures { (says result, out.new) ≡ copy_record file.now layout row column out.old }
{
    let layout = md_of(file, layout)?;
    OpenedFile { file, layout }.copy(row, column, out)
}
