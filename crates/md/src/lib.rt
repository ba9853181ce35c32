// MD files, point records: opening a file, and comparing layouts.
#![tactic(auto)]

ghost use Rattle.std.specs.Prelude.{◌≡◌, ◌<◌, ◌≤◌, ◌++◌, length};
ghost use Rattle.endian_rules.specs.Words.{word_at};
ghost use Rattle.refusal_rules.specs.Rules.{judge, first, first_fault, Pass};
ghost use Rattle.md_rules.specs.Rules.{md_count, md_equal, md_count_rules, md_sum_rules, md_fixed_rules, md_end_rules, md_rules};
ghost use Rattle.md_rules.specs.Opening.{md_layout_of, open_md, same_md};
ghost use Rattle.refusal_rules.specs.Answers.{says, verdict_of};

use endian::at_least;
use endian_rules::Order;
use endian_steps::read_word;
use md_rules::MdLayout;
use refusal::{check, within};
use refusal_rules::Refusal;

// A file that has the 16,384 bytes that an MD file has at least, and the byte order in which its words are read.
#[derive(Clone, Copy)]
struct LongFile<'a> {
    file: &'a [u8],
    order: Order,
    ghost long: { 16384 ≤ length file.now },
}

impl<'a> LongFile<'a> {
    // The raw word k.
    fn word(&self, k: usize) -> u32
        requires { k < 4096 }
        ensures { result ≡ word_at self.now.order self.now.file.now k }
    {
        read_word(self.order, self.file, k)
    }

    // Refusal 3 at word k, unless the word is from `low` to `high`.
    fn count(&self, k: usize, low: u32, high: u32) -> Result<(), Refusal>
        requires { k < 4096 }
        ensures { verdict_of result ≡ judge (md_count (word_at self.now.order self.now.file.now) k low high) }
    {
        check(
            within(low, high, self.word(k)),
            Refusal::CountOutOfBounds(k),
        )
    }

    // Refusal 4 at word k, unless the word is n.
    fn equal(&self, k: usize, n: usize) -> Result<(), Refusal>
        requires { k < 4096 }
        ensures { verdict_of result ≡ judge (md_equal (word_at self.now.order self.now.file.now) k n) }
    {
        check(self.word(k) as usize == n, Refusal::RuleBroken(k))
    }

    // What the rules of the counts say.
    #[tactic(auto, unfolding(md_rules::specs::Rules::md_count_rules, refusal_rules::specs::Rules::first_fault, refusal_rules::specs::Rules::first))]
    fn count_verdict(&self) -> Result<(), Refusal>
        ensures { verdict_of result ≡ first_fault (md_count_rules (word_at self.now.order self.now.file.now)) }
    {
        self.count(3, 1, 65535)?;
        self.count(4, 1, 1600000)?;
        self.count(5, 1, 400)?;
        self.count(6, 0, 400)?;
        self.count(7, 0, 400)?;
        self.count(8, 1, 400)
    }

    // What the rules of the words that follow from the counts say, where the counts are within their bounds.
    #[tactic(auto, unfolding(md_rules::specs::Rules::md_sum_rules, refusal_rules::specs::Rules::first_fault, refusal_rules::specs::Rules::first))]
    fn sum_verdict(&self) -> Result<(), Refusal>
        requires { first_fault (md_count_rules (word_at self.now.order self.now.file.now)) ≡ Pass }
        ensures { verdict_of result ≡ first_fault (md_sum_rules (word_at self.now.order self.now.file.now)) }
    {
        let rows = self.word(3) as usize;
        let columns = self.word(4) as usize;
        let row_keys = self.word(6) as usize;
        let column_keys = self.word(7) as usize;
        let data_keys = self.word(8) as usize;
        let column_start = self.word(28) as usize;
        self.equal(5, row_keys + column_keys + data_keys)?;
        self.equal(9, row_keys + 1)?;
        self.equal(10, row_keys + column_keys + 1)?;
        self.equal(27, 4096)?;
        self.equal(28, 4096 + rows * row_keys)?;
        self.equal(29, column_start + columns * column_keys)
    }

    // What the rules of the words that are the same in every file say.
    #[tactic(auto, unfolding(md_rules::specs::Rules::md_fixed_rules, refusal_rules::specs::Rules::first_fault, refusal_rules::specs::Rules::first))]
    fn fixed_verdict(&self) -> Result<(), Refusal>
        ensures { verdict_of result ≡ first_fault (md_fixed_rules (word_at self.now.order self.now.file.now)) }
    {
        self.equal(31, 64)?;
        self.equal(32, 464)?;
        self.equal(33, 864)?;
        self.equal(34, 1264)
    }

    // What the rules of word 30 say, where the counts are within their bounds.
    #[tactic(auto, unfolding(md_rules::specs::Rules::md_end_rules, refusal_rules::specs::Rules::first_fault, refusal_rules::specs::Rules::first))]
    fn end_verdict(&self) -> Result<(), Refusal>
        requires { first_fault (md_count_rules (word_at self.now.order self.now.file.now)) ≡ Pass }
        ensures { verdict_of result ≡ first_fault (md_end_rules (length self.now.file.now) (word_at self.now.order self.now.file.now)) }
    {
        let rows = self.word(3) as usize;
        let columns = self.word(4) as usize;
        let data_keys = self.word(8) as usize;
        let data_start = self.word(29) as usize;
        let end = self.word(30);
        let data_end = data_start + rows * columns * data_keys;
        check(at_least(data_end, end), Refusal::RuleBroken(30))?;
        check(end as usize <= self.file.len() / 4, Refusal::Misplaced(30))
    }

    // What all rules but that of the length say.
    #[tactic(auto, using(refusal_rules::proofs::Tables::joined_faults), unfolding(refusal_rules::specs::Rules::first))]
    fn verdict(&self) -> Result<(), Refusal>
        ensures { verdict_of result ≡ first_fault (md_count_rules (word_at self.now.order self.now.file.now) ++ (md_sum_rules (word_at self.now.order self.now.file.now) ++ (md_fixed_rules (word_at self.now.order self.now.file.now) ++ md_end_rules (length self.now.file.now) (word_at self.now.order self.now.file.now)))) }
    {
        self.count_verdict()?;
        self.sum_verdict()?;
        self.fixed_verdict()?;
        self.end_verdict()
    }

    // The layout that the words give.
    #[tactic(auto, unfolding(md_rules::specs::Opening::md_layout_of))]
    fn layout(&self) -> MdLayout
        ensures { result ≡ md_layout_of self.now.order (length self.now.file.now) (word_at self.now.order self.now.file.now) }
    {
        MdLayout {
            order: self.order,
            length: self.file.len(),
            rows: self.word(3),
            columns: self.word(4),
            keys: self.word(5),
            row_keys: self.word(6),
            column_keys: self.word(7),
            data_keys: self.word(8),
            column_start: self.word(28),
            data_start: self.word(29),
        }
    }
}

// Opens an MD file in a byte order. Refused, with document 01's number and place, by the first of its rules that fails: 1 where the file is shorter
// than 16,384 bytes, 3 at a count outside its bounds, 4 at a word unequal to its rule, 5 at 30 where word 30 only passes the file's end.
#[tactic(auto, unfolding(md_rules::specs::Opening::open_md, md_rules::specs::Opening::open_md_words, md_rules::specs::Rules::md_rules, refusal_rules::specs::Rules::first_fault, refusal_rules::specs::Rules::first, refusal_rules::specs::Rules::judge))]
pub fn open(file: &[u8], order: Order) -> Result<MdLayout, Refusal>
    ensures { says result ≡ open_md order file.now }
{
    check(16384 <= file.len(), Refusal::ShortFile)?;
    let long = LongFile { file, order };
    long.verdict()?;
    Ok(long.layout())
}

// Whether two MD layouts are the same in every field.
#[tactic(auto, using(lists::proofs::Choices::and_both, lists::proofs::Choices::both_last, endian_rules::proofs::Orders::order_numbers), unfolding(md_rules::specs::Opening::same_md, refusal_rules::specs::Tests::same_numbers))]
pub fn same_md(a: MdLayout, b: MdLayout) -> bool
    ensures { result ≡ same_md a b }
{
    a == b
}
