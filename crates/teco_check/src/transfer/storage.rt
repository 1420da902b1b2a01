//! Registers and the push-down list.
ghost use Rattle.std.specs.Prelude.{◌≡◌, [], IfOk, false};
ghost use Rattle.teco_model.specs.declared.kind.Storage.TheVariants as kind;
ghost use Rattle.teco_verifier.specs.facts.Storages as storages;
ghost use Rattle.teco_facts.specs.Does.{Gives};
ghost use Rattle.teco_facts.specs.Numbers.{AreSmall};
ghost use Rattle.teco_check.specs.Allowed as allowed;

use crate::transfer::{Placed, count_of, needed_value, part_named};
use std::alloc::AllocError;
use teco_base::Reg;
use teco_facts::{FactFault, Facts, Foreseen, Number, Shift, TakenFacts, sum_of};
use teco_model::Element;
use teco_model::kind::Storage;
use teco_poly::Poly;
use teco_verifier::RefusalReason;

// A text of the library is not written.
fn not_of_library(library: bool) -> Result<(), RefusalReason>
    ensures { result ≡ storages.not_of_library library }
{
    if library {
        Err(RefusalReason::Written)
    } else {
        Ok(())
    }
}

// A text at most so long is stored, or with a colon appended, if there is memory.
fn text_storage(
    colons: u8,
    register: Reg,
    length: Poly,
    facts: Facts,
) -> Result<Foreseen, FactFault>
    ensures { Gives (storages.text_storage colons register length facts) result }
{
    if colons == 0 {
        return Ok(Foreseen::silent(facts.with_text(register, length)?));
    }
    let sum = sum_of(&facts.text_of(register), &length)?;
    Ok(Foreseen::silent(facts.with_text(register, sum)?))
}

// A number is set, and saved where it is a place of the buffer.
fn set_number(register: Reg, taken: TakenFacts, facts: Facts) -> Result<Foreseen, FactFault>
    ensures { Gives (storages.storage (kind.SetNumber register) false 0 [] taken facts) result }
{
    let n = needed_value(taken.value)?;
    let margins = facts.margins();
    let saved = n.value.saved || Shift::to(n.place(), margins).is_ok();
    Ok(Foreseen::silent(facts.with_number(register, n.range(margins), saved)?))
}

// A number is added, and the sum answered.
fn add(register: Reg, value: Option<Number>, facts: Facts) -> Result<Foreseen, AllocError>
    ensures { IfOk result (λ known. known ≡ storages.addition register value facts) }
{
    let n = count_of(value, facts.margins());
    let sum = facts.number_of(register).sum(n);
    let facts = facts.with_number(register, sum, false)?;
    Ok(Foreseen::giving(sum, facts))
}

// A part of the buffer is named, and the register's text is none of the library's.
fn may_copy(library: bool, taken: TakenFacts, facts: &Facts) -> Result<(), RefusalReason>
    ensures { result ≡ allowed.may_copy library taken facts.now }
{
    part_named(taken, facts.margins())?;
    not_of_library(library)
}

// There is no argument, and the register's text is none of the library's.
fn may_store(library: bool, value: Option<Number>) -> Result<(), RefusalReason>
    ensures { result ≡ allowed.may_store library value }
{
    match value {
        None => not_of_library(library),
        Some(_) => Err(RefusalReason::Argument),
    }
}

// A text is inserted, or with a colon typed.
fn retrieval(colons: u8, register: Reg, facts: Facts) -> Result<Foreseen, RefusalReason>
    requires { AreSmall facts.position.falls }
    ensures { result ≡ storages.retrieval colons register facts }
{
    if colons == 0 {
        let shift = Shift::inserting(0, facts.text_of(register), facts.margins());
        Foreseen::behind(&shift, facts)
    } else {
        Ok(Foreseen::silent(facts))
    }
}

/// What is done with a register: its number is set, or a number added to it; a part of the buffer
/// is copied to it, or its own text stored; its text is inserted, or with a colon typed. It is done
/// if there is memory.
pub fn storage(
    storage: Storage,
    placed: &Placed<'_>,
    taken: TakenFacts,
    facts: Facts,
) -> Result<Foreseen, FactFault>
    requires { AreSmall facts.position.falls }
    ensures { let element = placed.now.element in
        Gives (storages.storage storage placed.now.library element.colons element.text.now taken
        facts) result }
{
    let Element { colons, text, .. } = placed.element;
    match storage {
        Storage::SetNumber(register) => set_number(register, taken, facts),
        Storage::Add(register) => Ok(add(register, taken.value, facts)?),
        Storage::Copy(register) => {
            may_copy(placed.library, taken, &facts)?;
            text_storage(colons, register, facts.held(), facts)
        }
        Storage::SetText(register) => {
            may_store(placed.library, taken.value)?;
            text_storage(colons, register, Poly::number(text.len() as u64), facts)
        }
        Storage::Get(register) => Ok(retrieval(colons, register, facts)?),
    }
}
