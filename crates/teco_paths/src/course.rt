//! What paths are followed by.
ghost use Rattle.std.specs.Prelude.{◌≡◌, ◌+ℤ◌, ◌*◌, ◌^◌, ℕ, pos, IfOk};
ghost use Rattle.teco_linear.specs.Form.{Valuation, value};
ghost use Rattle.teco_poly.specs.Polynomial as poly;

use crate::cut::CutState;
use std::alloc::Global;
use std::marker::Model;
use teco_expansion::Nodes;
use teco_linear::{Form, LinearFault, Term};
use teco_model::Needs;

/// The nodes of a macro, the lengths of the library's texts by the places of their registers, the
/// files that are open, which measures the macro uses, by their places, the cut points, how many
/// commands a run may take and how much it may hold, and, if that is claimed, how much longer its text
/// may get and how many bytes it may type: polynomials in N, each by its coefficients, that of the
/// constant first.
#[derive(Drop)]
pub struct MacroGraph<'a> {
    pub nodes: &'a Nodes<'a>,
    pub lengths: &'a [Option<usize>],
    pub needs: Needs,
    pub used: &'a [bool],
    pub cuts: &'a [CutState],
    pub commands: &'a [u64],
    pub size: &'a [u64],
    pub grows: Option<&'a [u64]>,
    pub types: Option<&'a [u64]>,
}

impl<'a> Model for MacroGraph<'a> {
    ghost use Rattle.std.specs.Prelude.{option_map};
    ghost use Rattle.teco_paths.specs.Paths as model;

    ghost Value = { model.Course };

    ghost view = { λ c. record {
      nodes = c.nodes.now;
      lengths = c.lengths.now;
      needs = c.needs;
      cuts = c.cuts.now;
      commands = c.commands.now;
      size = c.size.now;
      grows = option_map (λ t. t.now) c.grows;
      types = option_map (λ t. t.now) c.types;
    } };
}

// One more term of a polynomial.
fn with_term(form: Form, power: usize, coefficient: u64, alloc: Global) -> Result<Form, LinearFault>
    ensures { IfOk result (λ sum. (n : ℕ) (v : Valuation)
        → value sum n v ≡ value form n v +ℤ pos (coefficient * n ^ power)) }
{
    let Ok(power) = u32::try_from(power) else {
        return Err(LinearFault::PowerTooHigh);
    };
    let term = Term {
        symbol: None,
        power,
        coefficient: i128::from(coefficient),
    };
    form.add(&Form::term(term, alloc)?, alloc)
}

/// The form that a polynomial in N is.
pub fn form_of(polynomial: &[u64], alloc: Global) -> Result<Form, LinearFault>
    ensures { IfOk result (λ form. (n : ℕ) (v : Valuation)
        → value form n v ≡ pos (poly.value polynomial.now n)) }
{
    let mut form = Form::zero(alloc);
    for at in 0..polynomial.len() {
        form = with_term(form, at, polynomial[at], alloc)?;
    }
    Ok(form)
}
