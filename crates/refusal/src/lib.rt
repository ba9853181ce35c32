// One rule of a table applied after another, and the tests that rules are made of.
#![tactic(auto)]

ghost use Rattle.std.specs.Prelude.{◌≡◌, eqb};
ghost use Rattle.lists.specs.Choices.{both, either};
ghost use Rattle.refusal_rules.specs.Rules.{rule, judge, first, numbered};
ghost use Rattle.refusal_rules.specs.Answers.{verdict_of};
ghost use Rattle.refusal_rules.specs.Tests.{within};
ghost use Rattle.refusal.specs.Numbered.{numbered_verdict};

use refusal_rules::Refusal;

// One rule: where it does not hold, it refuses as it says.
#[tactic(auto, unfolding(refusal_rules::specs::Rules::judge))]
pub fn check(holds: bool, refusal: Refusal) -> Result<(), Refusal>
    ensures { verdict_of result ≡ judge (rule holds (numbered refusal).number (numbered refusal).place) }
{
    if holds { Ok(()) } else { Err(refusal) }
}

// A refusal of any number and place, for rules that are no rows of document 01's table.
#[derive(Clone, Copy, Debug, PartialEq, Eq)]
pub struct NumberedRefusal {
    pub number: u32,
    pub place: u64,
}

// One rule more, of any number and place: a refusal before it stays as it is, and after a pass a rule that does not hold is refused with its own number and
// place. `check` is for the rows of document 01's table, this for rules of a caller's own.
#[tactic(auto, unfolding(refusal_rules::specs::Rules::first, refusal_rules::specs::Rules::judge))]
pub fn check_numbered(
    before: Result<(), NumberedRefusal>,
    holds: bool,
    number: u32,
    place: usize,
) -> Result<(), NumberedRefusal>
    ensures { numbered_verdict result ≡ first (numbered_verdict before) (judge (rule holds number place)) }
{
    before?;
    if holds {
        Ok(())
    } else {
        Err(NumberedRefusal {
            number,
            place: place as u64,
        })
    }
}

// Whether a number is at least `low` and at most `high`.
#[tactic(auto, unfolding(refusal_rules::specs::Tests::within))]
pub fn within(low: u32, high: u32, n: u32) -> bool
    ensures { result ≡ within low high n }
{
    low <= n && n <= high
}

// Whether both tests hold. Both have been made when it is called.
pub fn and(a: bool, b: bool) -> bool
    ensures { result ≡ both a b }
{
    a && b
}

// Whether one of two tests holds, or both do. Both have been made when it is called.
pub fn or(a: bool, b: bool) -> bool
    ensures { result ≡ either a b }
{
    a || b
}

// Whether two numbers are equal and a test holds, which has been made when it is called. It stays as a public call with a contract of its own, though layouts
// are compared by `==`.
pub fn equal_and(x: u32, y: u32, rest: bool) -> bool
    ensures { result ≡ both (eqb x y) rest }
{
    and(x == y, rest)
}
