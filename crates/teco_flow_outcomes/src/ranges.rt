//! Ways of an element by the number that it takes: the ranges that the number may be in.
ghost use Rattle.std.specs.Prelude.{◌≡◌, ℤ, IfOk, true, false, slice_index_or, [], neg_ℤ, ◌∷◌, pos, negsuc};
ghost use Rattle.teco_model.specs.Condition.{holds};
ghost use Rattle.teco_rows.specs.Commands.{IsAtLevel};
ghost use Rattle.teco_flow_outcomes.specs.Ranges.{AreBehindIn, IsBehindIn, IsInOne, Says};

use std::alloc::Global;
use teco_linear::Form;
use teco_model::kind::Test;
use teco_rows::case::Case;
use teco_rows::commands::{Way, command};
use teco_rows::fault::RowFault;
use teco_rows::levels::NO;
use teco_rows::row::{Clause, Of, Places};

/// A range of numbers.
#[derive(Clone, Copy)]
pub enum NumberRange {
    /// All numbers.
    Any,
    /// Those from one on.
    From(i32),
    /// Those up to one.
    UpTo(i32),
    /// Those from one up to another.
    Between(i32, i32),
}

/// One range, or two.
#[derive(Clone, Copy)]
pub struct Ranges {
    pub one: NumberRange,
    pub other: Option<NumberRange>,
}

/// One range alone.
pub fn only(one: NumberRange) -> Ranges
    ensures { result ≡ record { one = one; other = None } }
{
    Ranges { one, other: None }
}

/// The ranges of the numbers of which a test holds.
pub fn where_it_holds(test: Test) -> Ranges
    ensures { (x : ℤ) → holds test x ≡ true → IsInOne result x }
{
    match test {
        Test::Zero => only(NumberRange::Between(0, 0)),
        Test::NotZero => Ranges {
            one: NumberRange::From(1),
            other: Some(NumberRange::UpTo(-1)),
        },
        Test::Negative => only(NumberRange::UpTo(-1)),
        Test::Positive => only(NumberRange::From(1)),
        Test::Letter => only(NumberRange::Between(65, 122)),
        Test::Symbol => only(NumberRange::Between(36, 122)),
        Test::Digit => only(NumberRange::Between(48, 57)),
        Test::LetterOrDigit => only(NumberRange::Between(48, 122)),
        Test::Lower => only(NumberRange::Between(97, 122)),
        Test::Upper => only(NumberRange::Between(65, 90)),
    }
}

/// The ranges of the numbers of which it does not.
pub fn where_it_fails(test: Test) -> Ranges
    ensures { (x : ℤ) → holds test x ≡ false → IsInOne result x }
{
    match test {
        Test::Zero => where_it_holds(Test::NotZero),
        Test::NotZero => where_it_holds(Test::Zero),
        Test::Negative => only(NumberRange::From(0)),
        Test::Positive => only(NumberRange::UpTo(0)),
        Test::Digit => Ranges {
            one: NumberRange::UpTo(47),
            other: Some(NumberRange::From(58)),
        },
        _ => only(NumberRange::Any),
    }
}

// The number that is given is at least this.
fn at_least(least: i32) -> Clause
    ensures { result ≡ Clause.Wants (neg_ℤ least) ((pos 1, Of.Given 0), NO, NO, NO) }
{
    Clause::Wants(-i64::from(least), ((1, Of::Given(0)), NO, NO, NO))
}

// The number is at most this.
fn at_most(most: i32) -> Clause
    ensures { result ≡ Clause.Wants most ((negsuc 0, Of.Given 0), NO, NO, NO) }
{
    Clause::Wants(i64::from(most), ((-1, Of::Given(0)), NO, NO, NO))
}

/// The row that says that the number that is given is in a range.
pub fn row_in(range: NumberRange, alloc: Global) -> Result<Vec<Clause>, RowFault>
    ensures { IfOk result (λ row. Says range row.items) }
{
    let mut row = Vec::new(alloc);
    match range {
        NumberRange::Any => Ok(row),
        NumberRange::From(least) => {
            row.push(at_least(least))?;
            Ok(row)
        }
        NumberRange::UpTo(most) => {
            row.push(at_most(most))?;
            Ok(row)
        }
        NumberRange::Between(least, most) => {
            row.push(at_least(least))?;
            row.push(at_most(most))?;
            Ok(row)
        }
    }
}

// The case behind a command that took its arguments, where the number is in a range.
fn case_in(
    case: &Case,
    range: NumberRange,
    number: &[Form],
    here: Places,
    alloc: Global,
) -> Result<Case, RowFault>
    requires level { IsAtLevel here case.now }
    ensures { IfOk result (λ made. IsBehindIn case.now range (slice_index_or number.now 0 []) made) }
{
    let row = row_in(range, alloc)?;
    let way = Way {
        answers: &[],
        does: &row,
    };
    command(case, &way, number, here, alloc)
}

/// The cases behind it, where the number is in one of the ranges.
pub fn cases_in(
    case: &Case,
    ranges: Ranges,
    number: &[Form],
    here: Places,
    alloc: Global,
) -> Result<Vec<Case>, RowFault>
    requires level { IsAtLevel here case.now }
    ensures { IfOk result (λ cases.
        AreBehindIn case.now ranges (slice_index_or number.now 0 []) cases.items) }
{
    let one = case_in(case, ranges.one, number, here, alloc)?;
    let mut cases = Vec::new(alloc);
    cases.push(one)?;
    match ranges.other {
        Some(other) => {
            let second = case_in(case, other, number, here, alloc)?;
            cases.push(second)?;
            Ok(cases)
        }
        None => Ok(cases),
    }
}
