//! First arguments.
ghost use Rattle.std.specs.Prelude.{◌≡◌, ◌<◌, ◌≤◌, length, Some, false};
ghost use Rattle.teco_law_changes.specs.Runs.{NoneGivesFirst};
ghost use Rattle.teco_law_changes.specs.Steps as model;
ghost use Rattle.teco_verifier.specs.expansion.Node.{Node, numbered};

use teco_expansion::Nodes;
use teco_model::kind::{Argument, Kind, MachineValue};

// Does an element of this kind give a first argument?
fn gives_first(kind: Kind) -> bool
    ensures { result ≡ model.gives_first kind }
{
    matches!(
        kind,
        Kind::Argument(Argument::Comma) | Kind::Value(MachineValue::Whole | MachineValue::LastText)
    )
}

// Does what is read at a node?
fn gives_first_at(nodes: &Nodes<'_>, number: usize) -> bool
    requires one { 0 < number }
    requires last { number ≤ length nodes.now }
    ensures { (node : Node) → numbered nodes.now number ≡ Some node → result ≡ model.gives_first_in node.element }
{
    match nodes.element(number) {
        Some(element) => gives_first(element.kind),
        None => false,
    }
}

/// Does some node's element give a first argument?
pub(crate) fn some_gives_first(nodes: &Nodes<'_>) -> bool
    ensures { result ≡ false → NoneGivesFirst nodes.now }
{
    for before in 0..nodes.len() {
        if gives_first_at(nodes, before + 1) {
            return true;
        }
    }
    false
}
