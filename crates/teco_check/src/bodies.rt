//! What enters the body of an iteration, and what is chosen for it.
ghost use Rattle.std.specs.Prelude.{◌≡◌, option_map, option_copied, IfOk, Some, Ok};
ghost use Rattle.teco_model.specs.Element as elements;
ghost use Rattle.teco_verifier.specs.table.Closed as rules;

use crate::iterations::{changes_in, end_of};
use crate::same::say_same;
use crate::table::Table;
use crate::transfer::turns;
use std::alloc::AllocError;
use teco_expansion::Nodes;
use teco_facts::{Changes, Choice, Facts, body_start};
use teco_model::Element;
use teco_model::kind::{Flow, Kind};
use teco_poly::Poly;
use teco_verifier::RefusalReason;

/// Whether an element is a <.
pub fn begins_iteration(read: &Option<Element<'_>>) -> bool
    ensures { result ≡ rules.begins_iteration (option_map elements.seen read.now) }
{
    match read {
        Some(element) => matches!(element.kind, Kind::Flow(Flow::Iterate)),
        None => false,
    }
}

// What an iteration's body changes, and what is known at its end.
#[derive(Clone, Copy)]
struct BodyChanges<'a> {
    changes: &'a Changes,
    end: Option<&'a Facts>,
}

// Whether the start of a body is what a choice makes of what enters it, and the choice stands; told
// if there is memory.
fn start_stands(
    body: &BodyChanges<'_>,
    entering: Facts,
    start: &Facts,
    choice: &Choice,
    most: &Poly,
) -> Result<bool, AllocError>
    ensures { IfOk result (λ yes. yes ≡ rules.body_stands body.now.changes.now
        (option_copied body.now.end) entering (Some start.now) (Some choice.now) (Ok most.now)) }
{
    let stands = choice.stands(body.changes, most, &entering, body.end);
    let begun = body_start(choice, body.changes, entering)?;
    Ok(say_same(start, &begun) && stands)
}

// Whether the body stands, where the choice or one of the facts may be absent; told if there is
// memory.
fn body_stands(
    body: &BodyChanges<'_>,
    entering: Facts,
    start: Option<&Facts>,
    choice: &Option<Choice>,
    most: &Result<Poly, RefusalReason>,
) -> Result<bool, AllocError>
    ensures { IfOk result (λ yes. yes ≡ rules.body_stands body.now.changes.now
        (option_copied body.now.end) entering (option_copied start.entry) choice.now most.now) }
{
    match (start, choice, most) {
        (Some(start), Some(choice), Ok(most)) => {
            start_stands(body, entering, start, choice, most)
        }
        _ => Ok(false),
    }
}

/// Whether what enters the body of a < is so; where nothing does, nothing is known at its start. It
/// is told if there is memory.
pub fn is_entered(
    nodes: &Nodes<'_>,
    table: &Table,
    number: usize,
    facts: &Facts,
    entering: Option<Facts>,
) -> Result<bool, AllocError>
    ensures { IfOk result (λ yes. yes ≡ rules.is_entered nodes.now table.now number facts.now
        entering) }
{
    let start = table.facts_behind(number);
    match entering {
        None => Ok(start.is_none()),
        Some(entering) => {
            let end = table.facts(end_of(nodes, number));
            let changes = changes_in(nodes, number);
            let body = BodyChanges {
                changes: &changes,
                end,
            };
            let most = turns(facts);
            body_stands(&body, entering, start, &table.choice(number), &most)
        }
    }
}
