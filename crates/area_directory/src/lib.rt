// The rules of the words of an AREA directory, as functions over its 64 words. W k, counted from 1, is words[k - 1].
#![tactic(auto)]

ghost use Rattle.std.specs.Prelude.{◌≡◌, ◌≤◌, leb, ltb, eqb, IfOk};
ghost use Rattle.lists.specs.Choices.{both, either};
ghost use Rattle.refusal_rules.specs.Rules.{judge, first_fault, Pass};
ghost use Rattle.refusal_rules.specs.Answers.{verdict_of};
ghost use Rattle.area_rules.specs.Rules.{word_in, area_count, is_width, area_count_rules, line_length_of, area_shape_rules, audit_end_of, area_place_rules, area_described_rules, area_word_rules};
ghost use Rattle.area_rules.specs.Lines.{audit_end};

use area_steps::line_bytes;
use endian::at_least;
use prefix_lengths::is_prefix_length;
use refusal::{and, check, or, within};
use refusal_rules::Refusal;

// Refusal 3 at word k, unless the word is from `low` to `high`.
#[tactic(auto, unfolding(area_rules::specs::Rules::word_in))]
fn count(words: &[u32; 64], k: usize, low: u32, high: u32) -> Result<(), Refusal>
    requires { (1 ≤ k) × (k ≤ 64) }
    ensures { verdict_of result ≡ judge (area_count (word_in words.now) k low high) }
{
    check(
        within(low, high, words[k - 1]),
        Refusal::CountOutOfBounds(k),
    )
}

// Whether a sample may have n bytes.
fn is_width(n: u32) -> bool
    ensures { result ≡ is_width n }
{
    or(n == 1, or(n == 2, n == 4))
}

// What the rules of the counts say.
#[tactic(auto, unfolding(area_rules::specs::Rules::word_in, area_rules::specs::Rules::area_count_rules, refusal_rules::specs::Rules::first_fault, refusal_rules::specs::Rules::first))]
fn count_verdict(words: &[u32; 64]) -> Result<(), Refusal>
    ensures { verdict_of result ≡ first_fault (area_count_rules (word_in words.now)) }
{
    count(words, 9, 1, 65535)?;
    count(words, 10, 1, 65535)?;
    check(is_width(words[10]), Refusal::CountOutOfBounds(11))?;
    count(words, 14, 1, 64)?;
    count(words, 49, 0, 65535)?;
    count(words, 50, 0, 65535)?;
    count(words, 51, 0, 65535)?;
    count(words, 61, 0, 65535)?;
    count(words, 64, 0, 65535)
}

// The byte after AUDIT. The bounds are those of the counts, and of a line: 196,612 bytes of prefix and 16,776,960 of samples.
fn end_of_audit(start: u32, lines: u32, line: usize, cards: u32) -> usize
    requires { (lines ≤ 65535) × ((line ≤ 16973572) × (cards ≤ 65535)) }
    ensures { result ≡ audit_end start lines line cards }
{
    start as usize + lines as usize * line + 80 * cards as usize
}

// Whether a block may start at x, in a file of `told` bytes with DATA and AUDIT from `start` to `end`. `after` is whether x, as a signed word, is at
// least 256, and `unequal` whether x is unequal to the earlier starts.
fn block_start_fits(told: usize, start: u32, end: usize, x: u32, after: bool, unequal: bool) -> bool
    ensures { result ≡ either (eqb x 0) (both after (both (ltb x told) (both (either (ltb x start) (leb end x)) unequal))) }
{
    let outside = or(x < start, end <= x as usize);
    let apart = and((x as usize) < told, and(outside, unequal));
    or(x == 0, and(after, apart))
}

// The 64 words of a directory of which the rules of the counts hold.
#[derive(Clone, Copy)]
struct Counted<'a> {
    words: &'a [u32; 64],
    ghost counted: { first_fault (area_count_rules (word_in words.now)) ≡ Pass },
}

impl<'a> Counted<'a> {
    // The words of a directory, or what the rules of the counts refuse.
    fn new(words: &'a [u32; 64]) -> Result<Counted<'a>, Refusal>
        ensures rules { verdict_of result ≡ first_fault (area_count_rules (word_in words.now)) }
        ensures same { IfOk result (λ counted. counted.words.now ≡ words.now) }
    {
        count_verdict(words)?;
        Ok(Counted { words })
    }

    // The line length that the words give.
    #[tactic(auto, unfolding(area_rules::specs::Rules::word_in))]
    fn line_length(&self) -> usize
        ensures { result ≡ line_length_of (word_in self.now.words.now) }
    {
        line_bytes(
            self.words[14],
            self.words[13],
            self.words[9],
            self.words[10],
        )
    }

    // What the rules of the words that follow from others say.
    #[tactic(auto, unfolding(area_rules::specs::Rules::word_in, area_rules::specs::Rules::area_shape_rules, refusal_rules::specs::Rules::first_fault, refusal_rules::specs::Rules::first))]
    fn shape_verdict(&self) -> Result<(), Refusal>
        ensures { verdict_of result ≡ first_fault (area_shape_rules (word_in self.now.words.now)) }
    {
        let words = self.words;
        let prefix_fits = is_prefix_length(
            words[14],
            words[35] == 0,
            words[48],
            words[49],
            words[50],
        );
        check(prefix_fits, Refusal::RuleBroken(15))?;
        check(self.line_length() % 4 == 0, Refusal::RuleBroken(10))?;
        check(words[59] != 0 || words[60] == 0, Refusal::RuleBroken(61))
    }

    // The byte after AUDIT that the words give, where those that follow from others passed.
    #[tactic(auto, unfolding(area_rules::specs::Rules::word_in))]
    fn audit_end(&self) -> usize
        requires { first_fault (area_shape_rules (word_in self.now.words.now)) ≡ Pass }
        ensures { result ≡ audit_end_of (word_in self.now.words.now) }
    {
        end_of_audit(
            self.words[33],
            self.words[8],
            self.line_length(),
            self.words[63],
        )
    }

    // What the rules of the places say, in a file of `told` bytes, where the words that follow from others passed.
    #[tactic(auto, unfolding(area_rules::specs::Rules::word_in, area_rules::specs::Rules::area_place_rules, refusal_rules::specs::Rules::first_fault, refusal_rules::specs::Rules::first))]
    fn place_verdict(&self, told: usize) -> Result<(), Refusal>
        requires { first_fault (area_shape_rules (word_in self.now.words.now)) ≡ Pass }
        ensures { verdict_of result ≡ first_fault (area_place_rules told (word_in self.now.words.now)) }
    {
        let end = self.audit_end();
        let start = self.words[33];
        let nav = self.words[34];
        let cal = self.words[62];
        let aux = self.words[59];
        check(
            and(at_least(256, start), end <= told),
            Refusal::Misplaced(34),
        )?;
        let nav_fits = block_start_fits(told, start, end, nav, at_least(256, nav), true);
        check(nav_fits, Refusal::Misplaced(35))?;
        let cal_fits = block_start_fits(told, start, end, cal, at_least(256, cal), cal != nav);
        check(cal_fits, Refusal::Misplaced(63))?;
        let unequal = and(aux != nav, aux != cal);
        let aux_fits = block_start_fits(told, start, end, aux, at_least(256, aux), unequal);
        check(aux_fits, Refusal::Misplaced(60))
    }
}

// What the rules of counts and of the words that follow from them say of a directory's 64 words: 3 and 4 with document 01's places. These rules
// look neither at a file nor at a start, but for whether W60 is 0.
#[tactic(auto, using(refusal_rules::proofs::Tables::joined_faults), unfolding(area_rules::specs::Rules::area_described_rules, refusal_rules::specs::Rules::first))]
pub fn described_verdict(words: &[u32; 64]) -> Result<(), Refusal>
    ensures { verdict_of result ≡ first_fault (area_described_rules (word_in words.now)) }
{
    Counted::new(words)?.shape_verdict()
}

// What all rules of the words but W2 say of a directory's 64 words and a file of `told` bytes: 3, 4 and 5 with document 01's places.
#[tactic(auto, using(refusal_rules::proofs::Tables::joined_faults), unfolding(area_rules::specs::Rules::area_described_rules, area_rules::specs::Rules::area_word_rules, refusal_rules::specs::Rules::first))]
pub fn word_verdict(told: usize, words: &[u32; 64]) -> Result<(), Refusal>
    ensures { verdict_of result ≡ first_fault (area_word_rules told (word_in words.now)) }
{
    let counted = Counted::new(words)?;
    counted.shape_verdict()?;
    counted.place_verdict(told)
}
