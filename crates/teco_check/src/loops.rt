//! The loop lines of a table.
ghost use Rattle.std.specs.Prelude.{◌≡◌, ◌<◌, ◌≤◌, ◌++◌, length, IfOk, OnOk};
ghost use Rattle.std.specs.List.{list_any};
ghost use Rattle.teco_base.specs.declared.TheConstants.{REGISTERS};
ghost use Rattle.teco_check.specs.Here.{node_at};
ghost use Rattle.teco_verifier.specs.table.Loops as rules;

use crate::bodies::begins_iteration;
use crate::node::element;
use crate::table::Table;
use std::alloc::{AllocError, Global};
use teco_base::{REGISTERS, Reg};
use teco_expansion::Nodes;
use teco_facts::{Choice, Facts};
use teco_poly::Poly;
use teco_verifier::{LongerText, LoopLine};

/// The register at a place, 0 to 35.
pub fn register_at(place: usize) -> Reg
    requires { place < REGISTERS }
    ensures { result ≡ place }
{
    let name = if place < 26 {
        b'A' + place as u8
    } else {
        b'0' + (place - 26) as u8
    };
    Reg::of(name).unwrap_or_default()
}

// The texts whose polynomials differ from those at the <.
fn longer_texts(
    alloc: Global,
    before: &[Poly; REGISTERS],
    chosen: &[Poly; REGISTERS],
) -> Result<Vec<LongerText>, AllocError>
    ensures { IfOk result (λ longer. longer.items ≡ rules.longer_from 0 before.now chosen.now) }
{
    let mut longer = Vec::new(alloc);
    for place in 0..REGISTERS {
        let text = chosen[place];
        if before[place] != text {
            longer.push(LongerText {
                register: register_at(place),
                text,
            })?;
        }
    }
    Ok(longer)
}

/// The line of a `<`, from what is known there and what is chosen for its body.
pub fn line_of(
    alloc: Global,
    number: usize,
    facts: &Facts,
    choice: &Choice,
) -> Result<LoopLine, AllocError>
    ensures { IfOk result (λ line. line ≡ rules.line_of number facts.now choice.now) }
{
    Ok(LoopLine {
        number,
        held: choice.held,
        kept: choice.kept,
        longer: longer_texts(alloc, &facts.texts(), &choice.texts)?,
    })
}

// The line of a node, if it has one.
fn line_at(
    alloc: Global,
    nodes: &Nodes<'_>,
    table: &Table,
    number: usize,
) -> Result<Option<LoopLine>, AllocError>
    requires one { 0 < number }
    requires last { number ≤ length nodes.now }
    ensures { IfOk result (λ line. rules.lines_in line
        ≡ rules.lines_at table.now number (node_at nodes.now number)) }
{
    if !begins_iteration(&element(nodes, number)) || table.facts_behind(number).is_none() {
        return Ok(None);
    }
    match (table.facts(number), table.choice(number)) {
        (Some(facts), Some(choice)) => Ok(Some(line_of(alloc, number, facts, &choice)?)),
        _ => Ok(None),
    }
}

// Puts a line behind the others, if there is one.
fn add_line(loops: &mut Vec<LoopLine>, line: Option<LoopLine>) -> Result<(), AllocError>
    ensures { OnOk result (loops.new.items ≡ loops.old.items ++ rules.lines_in line) }
{
    if let Some(line) = line {
        loops.push(line)?;
    }
    Ok(())
}

/// Whether an iteration begins at a node.
pub fn has_iterations(nodes: &Nodes<'_>) -> bool
    ensures { result ≡ list_any rules.begins nodes.now }
{
    for at in 0..nodes.len() {
        if begins_iteration(&element(nodes, at + 1)) {
            return true;
        }
    }
    false
}

/// The loop lines of a table: what is chosen for each `<` whose body is reached.
pub fn loops_of(
    alloc: Global,
    nodes: &Nodes<'_>,
    table: &Table,
) -> Result<Vec<LoopLine>, AllocError>
    ensures { IfOk result (λ loops. loops.items ≡ rules.loops_of nodes.now table.now) }
{
    let mut loops = Vec::new(alloc);
    for at in 0..nodes.len() {
        add_line(&mut loops, line_at(alloc, nodes, table, at + 1)?)?;
    }
    Ok(loops)
}
