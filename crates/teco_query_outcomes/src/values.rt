//! What comes of elements that give a value of the machine's.
ghost use Rattle.std.specs.Prelude.{IfOk};
ghost use Rattle.teco_model.specs.Step.{after_value};
ghost use Rattle.teco_rows.specs.Foretold.{Foretells};

use std::alloc::Global;
use teco_flow_outcomes::pairs::give_pair;
use teco_linear::Form;
use teco_model::kind::MachineValue;
use teco_rows::case::Case;
use teco_rows::fault::RowFault;
use teco_rows::forms::single;
use teco_rows::levels::give;
use teco_rows::measure::Single;
use teco_rows::outcomes::Outcomes;

/// `B`, `Z`, `.` and `^S` give a number, and `H` and `^Y` a pair of them.
pub fn give_value(
    case: &Case,
    value: MachineValue,
    may_wrap: bool,
    alloc: Global,
) -> Result<Outcomes, RowFault>
    ensures { IfOk result (λ all. Foretells (λ s. after_value value s.kept s.arguments) case.now all) }
{
    match value {
        MachineValue::Begin => give(case, Form::zero(alloc), may_wrap, alloc),
        MachineValue::Size => give(case, single(case, Single::Size, alloc)?, may_wrap, alloc),
        MachineValue::Pointer => give(case, single(case, Single::Pointer, alloc)?, may_wrap, alloc),
        MachineValue::LastLength => {
            let length = single(case, Single::LastLength, alloc)?;
            let minus = Form::zero(alloc).sub(&length, alloc)?;
            give(case, minus, may_wrap, alloc)
        }
        MachineValue::Whole => {
            let begin = Form::zero(alloc);
            let size = single(case, Single::Size, alloc)?;
            give_pair(case, &begin, size, alloc)
        }
        MachineValue::LastText => {
            let pointer = single(case, Single::Pointer, alloc)?;
            let length = single(case, Single::LastLength, alloc)?;
            let begin = pointer.sub(&length, alloc)?;
            give_pair(case, &begin, pointer, alloc)
        }
    }
}
