//! Which measures a macro uses. Nothing is promised of what is found.
ghost use Rattle.std.specs.Prelude.{◌<◌, ◌≤◌, length};

use crate::entry::PLACES;
use crate::fault::PathFault;
use std::alloc::Global;
use teco_base::REGISTERS;
use teco_claims::{ClaimMeasure, Claims};
use teco_expansion::Nodes;
use teco_model::Kind;
use teco_model::kind::{Command, Query, Stack, Storage};

// The register that a command on registers names.
fn named_by_storage(storage: &Storage) -> usize {
    match storage {
        Storage::SetNumber(register) => register.index(),
        Storage::Add(register) => register.index(),
        Storage::Copy(register) => register.index(),
        Storage::SetText(register) => register.index(),
        Storage::Get(register) => register.index(),
    }
}

// The register that an element names, but for those that it calls.
fn named_by(kind: &Kind) -> Option<usize> {
    match kind {
        Kind::Query(Query::Number(register)) => Some(register.index()),
        Kind::Stack(Stack::Push(register)) => Some(register.index()),
        Kind::Stack(Stack::Pop(register)) => Some(register.index()),
        Kind::Command(Command::Storage(storage)) => Some(named_by_storage(storage)),
        _ => None,
    }
}

// Marks the number and the length of a register.
fn mark(used: &mut [bool], register: usize) {
    if register < REGISTERS {
        for place in [11 + 7 * register, 12 + 7 * register] {
            if let Some(slot) = used.get_mut(place) {
                *slot = true;
            }
        }
    }
}

// Marks the registers that elements name.
fn mark_named(used: &mut [bool], nodes: &Nodes<'_>) {
    for at in 0..nodes.len() {
        if let Some(element) = nodes.element(at + 1) {
            if let Some(register) = named_by(&element.kind) {
                mark(used, register);
            }
        }
    }
}

// The register that a claim speaks of.
fn claimed_of(measure: ClaimMeasure) -> Option<usize> {
    match measure {
        ClaimMeasure::Number(register) => Some(register.index()),
        ClaimMeasure::Length(register) => Some(register.index()),
        _ => None,
    }
}

// Marks the register that a term speaks of.
fn mark_claimed(used: &mut [bool], measure: Option<ClaimMeasure>) {
    if let Some(measure) = measure {
        if let Some(register) = claimed_of(measure) {
            mark(used, register);
        }
    }
}

// Marks the registers that claims speak of.
fn mark_all_claimed(used: &mut [bool], claimed: &Claims) {
    for cut in &claimed.cuts {
        for claim in &cut.claims {
            for term in &claim.terms {
                mark_claimed(used, term.measure);
            }
        }
    }
}

// Marks the places of all measures but those of registers.
fn without_registers(alloc: Global) -> Result<Vec<bool>, PathFault> {
    let mut used = Vec::new(alloc);
    for place in 0..PLACES {
        used.push(place < 11 || (place - 11) % 7 > 1)?;
    }
    Ok(used)
}

/// Marks the places of all measures but those of registers that neither an element nor a claim
/// names.
pub fn used(nodes: &Nodes<'_>, claimed: &Claims, alloc: Global) -> Result<Vec<bool>, PathFault> {
    let mut used = without_registers(alloc)?;
    mark_named(&mut used, nodes);
    mark_all_claimed(&mut used, claimed);
    Ok(used)
}
