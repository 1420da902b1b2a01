//! Which registers a part of the nodes names.
ghost use Rattle.std.specs.Prelude.{◌<◌, ◌≤◌, length};

use teco_base::REGISTERS;
use teco_expansion::Nodes;
use teco_model::kind::{Command, Kind, Query, Stack, Storage};

// The register that a command on registers names.
fn named_by_storage(storage: &Storage) -> usize {
    match storage {
        Storage::SetNumber(register) => register.index(),
        Storage::Add(register) => register.index(),
        Storage::Copy(register) => register.index(),
        Storage::SetText(register) => register.index(),
        Storage::Get(register) => register.index(),
    }
}

// The register that an element names.
fn named_by(kind: &Kind) -> Option<usize> {
    match kind {
        Kind::Query(Query::Number(register)) => Some(register.index()),
        Kind::Stack(Stack::Push(register)) => Some(register.index()),
        Kind::Stack(Stack::Pop(register)) => Some(register.index()),
        Kind::Call(call) => Some(call.register.index()),
        Kind::Command(Command::Storage(storage)) => Some(named_by_storage(storage)),
        _ => None,
    }
}

// The register that is named at a node.
fn named_at(nodes: &Nodes<'_>, number: usize) -> Option<usize>
    requires one { 0 < number }
    requires last { number ≤ length nodes.now }
{
    match nodes.element(number) {
        Some(element) => named_by(&element.kind),
        None => None,
    }
}

/// Which registers are named behind a node, up to another one.
pub fn named_between(nodes: &Nodes<'_>, begin: usize, end: usize) -> [bool; REGISTERS] {
    let mut named = [false; REGISTERS];
    for at in begin..end.min(nodes.len()) {
        if let Some(register) = named_at(nodes, at + 1) {
            if let Some(slot) = named.get_mut(register) {
                *slot = true;
            }
        }
    }
    named
}
