//! The two ways of a test, and what is known on each.
ghost use Rattle.std.specs.Prelude.{◌≡◌, ◌≤◌, FitsSigned, IfOk, neg_ℤ, option_map};
ghost use Rattle.std.specs.Int.{w64};
ghost use Rattle.teco_base.specs.declared.TheConstants.{LIMIT};
ghost use Rattle.teco_facts.specs.Numbers.{IsNear};
ghost use Rattle.teco_check.specs.Seen.{seen};
ghost use Rattle.teco_verifier.specs.facts.Ways as ways;

use crate::transfer::deletion::positive;
use std::alloc::AllocError;
use teco_facts::{Answer, Facts, Margins, Number, Position, Range};
use teco_model::kind::Test;

/// Which numbers take a way: all, where the class of a character is asked.
#[derive(Clone, Copy)]
pub enum Numbers {
    Zero,
    NotZero,
    Negative,
    NotNegative,
    Positive,
    NotPositive,
    All,
}

impl Numbers {
    /// Those with which a test holds.
    pub fn holding(test: Test) -> Numbers
        ensures { seen result ≡ ways.holding test }
    {
        match test {
            Test::Zero => Numbers::Zero,
            Test::NotZero => Numbers::NotZero,
            Test::Negative => Numbers::Negative,
            Test::Positive => Numbers::Positive,
            _ => Numbers::All,
        }
    }

    /// The others.
    pub fn other(self) -> Numbers
        ensures { seen result ≡ ways.other (seen self) }
    {
        match self {
            Numbers::Zero => Numbers::NotZero,
            Numbers::NotZero => Numbers::Zero,
            Numbers::Negative => Numbers::NotNegative,
            Numbers::NotNegative => Numbers::Negative,
            Numbers::Positive => Numbers::NotPositive,
            Numbers::NotPositive => Numbers::Positive,
            Numbers::All => Numbers::All,
        }
    }

    // Which take the way on the other side of 0.
    fn opposite(self) -> Numbers
        ensures { seen result ≡ ways.opposite (seen self) }
    {
        match self {
            Numbers::Negative => Numbers::Positive,
            Numbers::NotNegative => Numbers::NotPositive,
            Numbers::Positive => Numbers::Negative,
            Numbers::NotPositive => Numbers::NotNegative,
            numbers => numbers,
        }
    }

    /// Whether a number of a range may take the way.
    pub fn may_take(self, range: Range) -> bool
        ensures { result ≡ ways.may_take (seen self) range }
    {
        match self {
            Numbers::Zero => range.lo <= 0 && 0 <= range.hi,
            Numbers::NotZero => !(0 <= range.lo && range.hi <= 0),
            Numbers::Negative => range.lo <= -1,
            Numbers::NotNegative => 0 <= range.hi,
            Numbers::Positive => 1 <= range.hi,
            Numbers::NotPositive => range.lo <= 0,
            Numbers::All => true,
        }
    }

    // The least distance, not below one, with which it and a number together take the way.
    fn least_taking(self, least: u64, k: i64) -> Option<u64>
        requires near { IsNear k }
        requires within { least ≤ LIMIT }
        ensures { result ≡ ways.least_taking (seen self) least k }
    {
        let sum = least as i64 + k;
        match self {
            Numbers::Zero => if sum <= 0 { Some(positive(-k)) } else { None },
            Numbers::NotZero => Some(if sum == 0 { least + 1 } else { least }),
            Numbers::Negative => if sum <= -1 { Some(least) } else { None },
            Numbers::NotNegative => Some(least.max(positive(-k))),
            Numbers::Positive => Some(least.max(positive(1 - k))),
            Numbers::NotPositive => if sum <= 0 { Some(least) } else { None },
            Numbers::All => Some(least),
        }
    }
}

// The number on the other side of 0.
fn negated(n: i64) -> i64
    requires { FitsSigned w64 (neg_ℤ n) }
    ensures { result ≡ neg_ℤ n }
{
    -n
}

// The distance from the end is at least what takes the way.
fn with_fore_taking(numbers: Numbers, k: i64, margins: Margins) -> Option<Margins>
    requires { IsNear k }
    ensures { result ≡ option_map (ways.with_fore margins) (ways.least_taking (seen numbers)
        margins.fore k) }
{
    let least = numbers.least_taking(margins.fore, k)?;
    Some(Margins::capped(margins.back, least))
}

// The distance from the begin is at least what takes the way.
fn with_back_taking(numbers: Numbers, k: i64, margins: Margins) -> Option<Margins>
    requires { IsNear k }
    ensures { result ≡ option_map (ways.with_back margins) (ways.least_taking (seen numbers)
        margins.back k) }
{
    let least = numbers.least_taking(margins.back, k)?;
    Some(Margins::capped(least, margins.fore))
}

// The least of the distance that a number is, plus or minus, is raised.
fn raised_by(numbers: Numbers, ahead: i64, behind: i64, k: i64, margins: Margins) -> Option<Margins>
    requires { IsNear k }
    ensures { result ≡ ways.raised_by (seen numbers) ahead behind k margins }
{
    if ahead == 1 && behind == 0 {
        with_fore_taking(numbers, k, margins)
    } else if ahead == -1 && behind == 0 {
        with_fore_taking(numbers.opposite(), negated(k), margins)
    } else if ahead == 0 && behind == 1 {
        with_back_taking(numbers, k, margins)
    } else if ahead == 0 && behind == -1 {
        with_back_taking(numbers.opposite(), negated(k), margins)
    } else {
        Some(margins)
    }
}

// The distances on the way of a linear number are raised; those of any other stay.
fn raised(numbers: Numbers, number: Number, margins: Margins) -> Option<Margins>
    ensures { result ≡ ways.raised (seen numbers) number margins }
{
    let n = number.value;
    if n.hi <= n.lo {
        raised_by(numbers, n.ahead, n.behind, n.lo, margins)
    } else {
        Some(margins)
    }
}

// The position on the way of a number, where that may take it.
fn position_on(numbers: Numbers, number: Number, here: &Position) -> Option<Position>
    ensures { result ≡ ways.position_on (seen numbers) number here.now }
{
    if !numbers.may_take(number.range(here.margins)) {
        return None;
    }
    let margins = raised(numbers, number, here.margins)?;
    let mut position = here.copied();
    position.margins = margins;
    Some(position)
}

// The position on the way of what is tested: of a search's answer, or of a number.
fn position_by(
    numbers: Numbers,
    answer: &Option<Answer>,
    number: Number,
    facts: &Facts,
) -> Option<Position>
    ensures { result ≡ ways.position_by (seen numbers) answer.now number facts.now.position }
{
    let Some(answer) = answer else {
        return position_on(numbers, number, facts.position());
    };
    match numbers {
        Numbers::Zero | Numbers::NotNegative => Some(answer.failed().copied()),
        Numbers::NotZero | Numbers::Negative => Some(answer.found().copied()),
        Numbers::Positive => None,
        Numbers::NotPositive | Numbers::All => Some(facts.position().copied()),
    }
}

/// The facts on the way of some numbers and on that of the others, where each is reached, if there
/// is memory: only facts for both are copied.
pub fn both_ways(
    numbers: Numbers,
    answer: &Option<Answer>,
    number: Number,
    facts: Facts,
) -> Result<(Option<Facts>, Option<Facts>), AllocError>
    ensures { IfOk result (λ both. both ≡ (
      ways.way (seen numbers) answer.now number facts,
      ways.way (ways.other (seen numbers)) answer.now number facts,
    )) }
{
    let one = position_by(numbers, answer, number, &facts);
    let two = position_by(numbers.other(), answer, number, &facts);
    match (one, two) {
        (Some(one), Some(two)) => {
            let copy = facts.copied_at(one)?;
            Ok((Some(copy), Some(facts.at_position(two))))
        }
        (Some(one), None) => Ok((Some(facts.at_position(one)), None)),
        (None, Some(two)) => Ok((None, Some(facts.at_position(two)))),
        (None, None) => Ok((None, None)),
    }
}
