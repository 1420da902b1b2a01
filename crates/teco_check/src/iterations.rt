//! Where iterations end, and what their bodies change.
ghost use Rattle.std.specs.Prelude.{◌≡◌, ◌<◌, ◌≤◌, length, IfSome};
ghost use Rattle.teco_base.specs.declared.TheConstants.{REGISTERS};
ghost use Rattle.teco_verifier.specs.expansion.Ends as ends;
ghost use Rattle.teco_verifier.specs.table.Written as rules;
ghost use Rattle.teco_check.specs.Here.{node_at};
ghost use Rattle.teco_check.specs.Writes as writes;

use crate::node::{element, iteration};
use teco_base::REGISTERS;
use teco_expansion::Nodes;
use teco_facts::Changes;
use teco_model::kind::{Command, Flow, Kind, Page, Search, Stack, Storage};

// Whether the innermost iteration began at a number.
#[tactic(auto, using(crate::proofs::Numbered::innermost_is))]
fn is_innermost(nodes: &Nodes<'_>, number: usize, begin: usize) -> bool
    requires one { 0 < number }
    requires last { number ≤ length nodes.now }
    ensures { result ≡ ends.is_innermost begin (node_at nodes.now number).stand.iterations }
{
    match iteration(nodes, number, 0) {
        None => false,
        Some(open) => open == begin,
    }
}

// Whether a node ends the iteration that began at a number.
fn ends(nodes: &Nodes<'_>, number: usize, begin: usize) -> bool
    requires one { 0 < number }
    requires last { number ≤ length nodes.now }
    ensures { result ≡ ends.ends begin (node_at nodes.now number) }
{
    match element(nodes, number) {
        Some(element) => {
            matches!(element.kind, Kind::Flow(Flow::EndTurn)) && is_innermost(nodes, number, begin)
        }
        None => false,
    }
}

/// The number of the > of an iteration, from the number of its <; where none ends it, that.
#[tactic(auto, using(crate::proofs::Further::ends_on, crate::proofs::Further::ends_at, crate::proofs::Further::no_end))]
pub fn end_of(nodes: &Nodes<'_>, begin: usize) -> usize
    ensures value { result ≡ ends.end_of nodes.now begin }
    ensures from { begin ≤ result }
    ensures ahead { begin < result → result ≤ length nodes.now }
{
    for at in begin..nodes.len() {
        if ends(nodes, at + 1, begin) {
            return at + 1;
        }
    }
    begin
}

// The register whose number a command on registers writes.
fn set_by_storage(storage: &Storage) -> Option<usize>
    ensures value { result ≡ rules.set_by_storage storage.now }
    ensures within { IfSome result (λ r. r < REGISTERS) }
{
    match storage {
        Storage::SetNumber(register) => Some(register.index()),
        Storage::Add(register) => Some(register.index()),
        _ => None,
    }
}

// The register whose number an element writes: U, % and ] do.
fn set_by(kind: &Kind) -> Option<usize>
    ensures value { result ≡ rules.set_by kind.now }
    ensures within { IfSome result (λ r. r < REGISTERS) }
{
    match kind {
        Kind::Stack(Stack::Pop(register)) => Some(register.index()),
        Kind::Command(Command::Storage(storage)) => set_by_storage(storage),
        _ => None,
    }
}

// The register whose number the element at a node writes.
fn set_at(nodes: &Nodes<'_>, number: usize) -> Option<usize>
    requires one { 0 < number }
    requires last { number ≤ length nodes.now }
    ensures value { result ≡ writes.set_at (node_at nodes.now number).element }
    ensures within { IfSome result (λ r. r < REGISTERS) }
{
    match element(nodes, number) {
        Some(element) => set_by(&element.kind),
        None => None,
    }
}

// Which registers' numbers the body of a < writes.
fn written(nodes: &Nodes<'_>, begin: usize) -> [bool; REGISTERS]
    ensures value { result ≡ rules.written nodes.now begin }
    ensures all { length result ≡ REGISTERS }
{
    let mut written = [false; REGISTERS];
    for at in begin..end_of(nodes, begin) {
        if let Some(register) = set_at(nodes, at + 1) {
            written[register] = true;
        }
    }
    written
}

// Whether an element ends all that is saved: D, K, FS, N, FN and P do.
fn ends_by(kind: &Kind) -> bool
    ensures { result ≡ rules.ends_by kind.now }
{
    match kind {
        Kind::Command(Command::Deletion(_)) => true,
        Kind::Page(Page::Next) => true,
        Kind::Search(search) => !matches!(search, Search::Find),
        _ => false,
    }
}

// Whether the element at a node ends all that is saved.
fn ends_saved(nodes: &Nodes<'_>, number: usize) -> bool
    requires one { 0 < number }
    requires last { number ≤ length nodes.now }
    ensures { result ≡ rules.ends_saved (node_at nodes.now number).element }
{
    match element(nodes, number) {
        Some(element) => ends_by(&element.kind),
        None => false,
    }
}

// Whether the body of a < ends all that is saved.
fn ends_in(nodes: &Nodes<'_>, begin: usize) -> bool
    ensures { result ≡ rules.ends_in nodes.now begin }
{
    let mut ended = false;
    for at in begin..end_of(nodes, begin) {
        if ends_saved(nodes, at + 1) {
            ended = true;
        }
    }
    ended
}

/// What the body of a < changes.
pub fn changes_in(nodes: &Nodes<'_>, begin: usize) -> Changes
    ensures { result ≡ rules.changes_in nodes.now begin }
{
    Changes {
        written: written(nodes, begin),
        ends: ends_in(nodes, begin),
    }
}
