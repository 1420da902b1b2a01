//! What is known where ways meet.
ghost use Rattle.std.specs.Prelude.{IsTrue};
ghost use Rattle.teco_changes.specs.Arguments.{Implies};
ghost use Rattle.teco_changes.specs.declared.argument.NumericArgument.TheVariants as known;

use teco_changes::NumericArgument;

// Is a number pending where that is known?
fn is_number(known: NumericArgument) -> bool {
    matches!(
        known,
        NumericArgument::Number | NumericArgument::Value | NumericArgument::Exactly(_)
    )
}

// Does no operator wait where that is known?
fn is_complete(known: NumericArgument) -> bool {
    matches!(
        known,
        NumericArgument::Complete | NumericArgument::Value | NumericArgument::Exactly(_)
    )
}

// Is all that is known of a value known of the other?
#[tactic(auto, using(crate::proofs::Weaker::itself, crate::proofs::Weaker::number, crate::proofs::Weaker::complete))]
fn value_implies(other: NumericArgument) -> bool
    ensures { IsTrue result → Implies known.Value other }
{
    matches!(
        other,
        NumericArgument::Value | NumericArgument::Number | NumericArgument::Complete
    )
}

// Is all that is known of this number?
#[tactic(auto, using(crate::proofs::Weaker::same, crate::proofs::Weaker::through))]
fn exactly_implies(number: i32, other: NumericArgument) -> bool
    ensures { IsTrue result → Implies (known.Exactly number) other }
{
    match other {
        NumericArgument::Exactly(n) => number == n,
        _ => value_implies(other),
    }
}

/// Is all that is known of one known of the other? `false` where it is not.
#[tactic(auto, using(crate::proofs::Weaker::unreached, crate::proofs::Weaker::unknown, crate::proofs::Weaker::itself))]
pub(crate) fn implies(one: NumericArgument, other: NumericArgument) -> bool
    ensures { IsTrue result → Implies one other }
{
    match (one, other) {
        (NumericArgument::Unreached, _) | (_, NumericArgument::Unknown) => true,
        (NumericArgument::Complete, NumericArgument::Complete) => true,
        (NumericArgument::Number, NumericArgument::Number) => true,
        (NumericArgument::Value, _) => value_implies(other),
        (NumericArgument::Exactly(number), _) => exactly_implies(number, other),
        _ => false,
    }
}

/// What is known where both may be so.
pub(crate) fn joined(one: NumericArgument, other: NumericArgument) -> NumericArgument {
    if implies(one, other) {
        return other;
    }
    if implies(other, one) {
        return one;
    }
    let number = is_number(one) && is_number(other);
    let complete = is_complete(one) && is_complete(other);
    match (number, complete) {
        (true, true) => NumericArgument::Value,
        (true, false) => NumericArgument::Number,
        (false, true) => NumericArgument::Complete,
        (false, false) => NumericArgument::Unknown,
    }
}
