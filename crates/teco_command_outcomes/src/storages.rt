//! What comes of the commands on registers.
ghost use Rattle.std.specs.Prelude.{◌≡◌, ◌<◌, IfOk};
ghost use Rattle.teco_base.specs.declared.TheConstants.{REGISTERS};
ghost use Rattle.teco_model.specs.Element.{Element};
ghost use Rattle.teco_model.specs.Storage.{storage};
ghost use Rattle.teco_model.specs.declared.kind.Storage.TheVariants.{SetNumber, Add};
ghost use Rattle.teco_rows.specs.Commands.{IsAtLevel, Performs};

use std::alloc::Global;
use teco_base::Reg;
use teco_motion_outcomes::motions::NUMBER;
use teco_rows::case::Case;
use teco_rows::commands::{TakenForms, Way, argument, command};
use teco_rows::fault::RowFault;
use teco_rows::forms::{number, within_32_bits};
use teco_rows::levels::{NO, VALUE, at_level, one};
use teco_rows::outcomes::Outcomes;
use teco_rows::row::{Clause, Of, Places};

// The number is stored.
const STORES: [Clause; 1] = [Clause::Sets(NUMBER, 0, ((1, Of::Given(0)), NO, NO, NO))];

// The sum is stored and answered.
const ADDS: [Clause; 2] = [
    Clause::Sets(NUMBER, 0, ((1, Of::Given(0)), NO, NO, NO)),
    Clause::Sets(VALUE, 0, ((1, Of::Given(0)), NO, NO, NO)),
];

// So it is where it is some number of 32 bits.
const ADDS_WRAPPED: [Clause; 4] = [
    Clause::Sets(NUMBER, 0, ((1, Of::Unknown(0)), NO, NO, NO)),
    Clause::Sets(VALUE, 0, ((1, Of::Unknown(0)), NO, NO, NO)),
    Clause::Wants(1 << 31, ((1, Of::Unknown(0)), NO, NO, NO)),
    Clause::Wants((1 << 31) - 1, ((-1, Of::Unknown(0)), NO, NO, NO)),
];

/// The places at hand where an element names a register.
pub fn at_register(case: &Case, register: Reg) -> Result<Places, RowFault>
    ensures level { IfOk result (λ here. IsAtLevel here case.now) }
    ensures register { IfOk result (λ here. here.register ≡ register) }
    ensures within { IfOk result (λ here. here.register < REGISTERS) }
{
    let here = at_level(case)?;
    Ok(Places {
        register: register.index() as u32,
        iteration: here.iteration,
        push: here.push,
        level: here.level,
    })
}

/// `U` stores a number.
pub fn set_number(
    case: &Case,
    register: Reg,
    taken: TakenForms,
    alloc: Global,
) -> Result<Outcomes, RowFault>
    ensures { IfOk result (λ all. (e : Element) → Performs (storage (SetNumber register) e) taken case.now all) }
{
    let here = at_register(case, register)?;
    let TakenForms {
        first: _first,
        value,
    } = taken;
    match value {
        Some(value) => {
            let after = command(
                case,
                &Way {
                    answers: &[],
                    does: &STORES,
                },
                &[value],
                here,
                alloc,
            )?;
            one(after, Vec::new(alloc), alloc)
        }
        None => Err(RowFault::Argument),
    }
}

/// `%` adds to a number, and answers the sum.
pub fn add_number(
    case: &Case,
    register: Reg,
    taken: TakenForms,
    may_wrap: bool,
    alloc: Global,
) -> Result<Outcomes, RowFault>
    ensures { IfOk result (λ all. (e : Element) → Performs (storage (Add register) e) taken case.now all) }
{
    let here = at_register(case, register)?;
    if may_wrap {
        let after = command(
            case,
            &Way {
                answers: &[],
                does: &ADDS_WRAPPED,
            },
            &[],
            here,
            alloc,
        )?;
        return one(after, Vec::new(alloc), alloc);
    }
    let TakenForms {
        first: _first,
        value,
    } = taken;
    let addend = argument(value, 1, alloc)?;
    let sum = number(case, register, alloc)?.add(&addend, alloc)?;
    let conditions = within_32_bits(&sum, alloc)?;
    let after = command(
        case,
        &Way {
            answers: &[],
            does: &ADDS,
        },
        &[sum],
        here,
        alloc,
    )?;
    one(after, conditions, alloc)
}
