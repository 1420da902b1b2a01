//! What comes of elements that ask for a value.
ghost use Rattle.std.specs.Prelude.{◌≡◌, ◌&&◌, ℕ, IfOk, is_none, is_some, true};
ghost use Rattle.teco_query_outcomes.specs.Queries.{Asks, Stands};

use crate::conversions::convert;
use std::alloc::Global;
use teco_base::Reg;
use teco_linear::Form;
use teco_model::Operator;
use teco_model::kind::Query;
use teco_rows::case::Case;
use teco_rows::commands::{Way, command};
use teco_rows::fault::RowFault;
use teco_rows::forms::{length, number};
use teco_rows::levels::{NO, VALUE, at_level, give, give_any, one, pending, waiting};
use teco_rows::measure::Family;
use teco_rows::outcomes::Outcomes;
use teco_rows::row::{Clause, Of};

// A character or -1 is answered.
const CHARACTER: [Clause; 3] = [
    Clause::Sets(VALUE, 0, ((1, Of::Unknown(0)), NO, NO, NO)),
    Clause::Wants(1, ((1, Of::Unknown(0)), NO, NO, NO)),
    Clause::Wants(255, ((-1, Of::Unknown(0)), NO, NO, NO)),
];

// Whether a value is there with no operator behind it.
fn is_alone(operator: Option<Operator>, value: &Option<Form>) -> bool
    ensures { result ≡ is_none operator && is_some value.now }
{
    operator.is_none() && value.is_some()
}

// Whether a value stands.
fn stands(case: &Case, alloc: Global) -> Result<bool, RowFault>
    ensures { IfOk result (λ answer. Stands answer case.now) }
{
    let value = pending(case, Family::Value, alloc)?;
    Ok(is_alone(waiting(case), &value))
}

// The code of a character of a register's text is answered.
fn character(case: &Case, register: Reg, alloc: Global) -> Result<Outcomes, RowFault>
    requires { Stands true case.now }
    ensures { IfOk result (λ all. Asks (Query.Number register) 0 case.now all) }
{
    let here = at_level(case)?;
    let answers = Way {
        answers: &CHARACTER,
        does: &[],
    };
    let after = command(case, &answers, &[], here, alloc)?;
    one(after, Vec::new(alloc), alloc)
}

// The number of a register is given, or a character of its text.
fn ask_number(
    case: &Case,
    register: Reg,
    may_wrap: bool,
    alloc: Global,
) -> Result<Outcomes, RowFault>
    ensures { IfOk result (λ all. Asks (Query.Number register) 0 case.now all) }
{
    if stands(case, alloc)? {
        return character(case, register, alloc);
    }
    give(case, number(case, register, alloc)?, may_wrap, alloc)
}

// The search mode is set.
fn set_mode(case: &Case, alloc: Global) -> Result<Outcomes, RowFault>
    requires { Stands true case.now }
    ensures { IfOk result (λ all. (colons : ℕ) → Asks Query.Mode colons case.now all) }
{
    let here = at_level(case)?;
    let nothing = Way {
        answers: &[],
        does: &[],
    };
    let after = command(case, &nothing, &[], here, alloc)?;
    one(after, Vec::new(alloc), alloc)
}

// The search mode, which is not known, is given, or it is set.
fn ask_mode(case: &Case, alloc: Global) -> Result<Outcomes, RowFault>
    ensures { IfOk result (λ all. (colons : ℕ) → Asks Query.Mode colons case.now all) }
{
    if stands(case, alloc)? {
        return set_mode(case, alloc);
    }
    give_any(case, alloc)
}

/// `Q` gives the number of a register, `:Q` the length of its text, and `nQ` a character of that;
/// `^X` gives or sets the search mode, and `\` reads or writes a number.
pub fn ask(
    case: &Case,
    query: Query,
    colons: u8,
    may_wrap: bool,
    alloc: Global,
) -> Result<Outcomes, RowFault>
    ensures { IfOk result (λ all. Asks query colons case.now all) }
{
    match query {
        Query::Number(register) => {
            if colons == 0 {
                ask_number(case, register, may_wrap, alloc)
            } else {
                give(case, length(case, register, alloc)?, may_wrap, alloc)
            }
        }
        Query::Mode => ask_mode(case, alloc),
        Query::Conversion => convert(case, alloc),
    }
}
