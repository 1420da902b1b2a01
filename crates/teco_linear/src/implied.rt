// Whether constraints imply a target, by multipliers that were found elsewhere.
ghost use Rattle.std.specs.Prelude.{◌≡◌, ◌<◌, ◌*◌, ◌^◌, ℕ, pos, neg_ℤ, IfOk};
ghost use Rattle.std.specs.Bool.{OnTrue};
ghost use Rattle.teco_linear.specs.Form.{scale_value};
ghost use Rattle.teco_linear.specs.Implied.{Implies, IsRest, Judges};

use crate::fault::LinearFault;
use crate::form::Form;
use crate::term::Scale;
use std::alloc::Global;

/// How often a constraint is taken: `factor`, which is never below 0, times a power of N.
#[derive(Clone, Copy)]
pub struct Multiplier {
    /// The constraint, by its index.
    pub constraint: usize,
    pub factor: u64,
    pub power: u32,
}

impl Multiplier {
    // The multiplier with a minus.
    fn negated(&self) -> Scale
        ensures { (n : ℕ) → scale_value result n ≡ neg_ℤ (pos (self.now.factor * n ^ self.now.power)) }
    {
        Scale {
            factor: -i128::from(self.factor),
            power: self.power,
        }
    }
}

/// Whether the multipliers show that the target is at least 0 wherever all constraints are, for
/// whole values of the symbols and each N from 0 on. They do where `divisor` times the target and
/// `divisor` - 1, which rounds up, less each constraint times its multiplier, has no symbol and no
/// negative coefficient. That a path cannot be taken is the same with the target -1.
///
/// It is refused where the divisor is 0, where a multiplier names no constraint, and where a number
/// passes 128 bits, a power `MAX_POWER` or a form `MAX_TERMS` on the way.
pub fn is_implied(
    constraints: &[Form],
    multipliers: &[Multiplier],
    divisor: u64,
    target: &Form,
    alloc: Global,
) -> Result<bool, LinearFault>
    ensures sound { IfOk result (λ answer. OnTrue answer (Implies constraints.now target.now)) }
    ensures exact { IfOk result (λ answer.
        Judges constraints.now multipliers.now divisor target.now answer) }
    ensures divisor { divisor ≡ 0 → result ≡ Err LinearFault.ZeroDivisor }
{
    if divisor == 0 {
        return Err(LinearFault::ZeroDivisor);
    }
    let rest = rest(constraints, multipliers, divisor, target, alloc)?;
    Ok(rest.is_harmless())
}

// What is left of `divisor` times the target and `divisor` - 1 without the constraints as often as
// they are taken.
fn rest(
    constraints: &[Form],
    multipliers: &[Multiplier],
    divisor: u64,
    target: &Form,
    alloc: Global,
) -> Result<Form, LinearFault>
    requires { 0 < divisor }
    ensures { IfOk result (λ rest.
        IsRest constraints.now multipliers.now divisor target.now rest) }
{
    let times = Scale {
        factor: i128::from(divisor),
        power: 0,
    };
    let rounding = Form::constant(i128::from(divisor - 1), alloc)?;
    let multiple = target.scaled(&times, alloc)?;
    let mut rest = rounding.add(&multiple, alloc)?;
    for multiplier in multipliers {
        let Some(constraint) = constraints.get(multiplier.constraint) else {
            return Err(LinearFault::UnknownConstraint);
        };
        let taken = constraint.scaled(&multiplier.negated(), alloc)?;
        rest = rest.add(&taken, alloc)?;
    }
    Ok(rest)
}
