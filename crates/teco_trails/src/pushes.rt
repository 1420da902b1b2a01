//! Whether what iterations push is popped.
use crate::cuts::kind_at;
use teco_bounds::workspace::{Stop, Workspace};
use teco_expansion::Nodes;
use teco_model::Kind;
use teco_model::kind::Stack;

// What an element does with the push-down list.
#[derive(Clone, Copy)]
enum PushChange {
    None,
    Push,
    Pop,
}

// What the element of each node does with the push-down list, from that of number 0 on.
fn changes(nodes: &Nodes<'_>, space: &mut Workspace) -> Vec<PushChange> {
    let mut changes = Vec::new(space.alloc);
    for number in 0..nodes.len().saturating_add(1) {
        let change = match kind_at(nodes, number) {
            Some(Kind::Stack(Stack::Push(_))) => PushChange::Push,
            Some(Kind::Stack(Stack::Pop(_))) => PushChange::Pop,
            _ => PushChange::None,
        };
        space.push(&mut changes, change);
    }
    changes
}

// How many pushes there are behind an element; none where a pop finds nothing.
fn behind(change: PushChange, pushes: usize) -> Option<usize> {
    match change {
        PushChange::None => Some(pushes),
        PushChange::Push => Some(pushes.saturating_add(1)),
        PushChange::Pop => pushes.checked_sub(1),
    }
}

// Raises the pushes of a node; says whether it did.
fn raise(most: &mut [Option<usize>], number: usize, pushes: usize) -> bool {
    match most.get_mut(number) {
        Some(slot) if slot.is_none_or(|known| known < pushes) => {
            *slot = Some(pushes);
            true
        }
        _ => false,
    }
}

// Raises the pushes of the nodes that an element leads to; says whether it did.
fn pass(nodes: &Nodes<'_>, most: &mut [Option<usize>], number: usize, change: PushChange) -> bool {
    if number == 0 || number > nodes.len() {
        return false;
    }
    let known = most.get(number).copied().unwrap_or(None);
    let Some(pushes) = known.and_then(|pushes| behind(change, pushes)) else {
        return false;
    };
    let mut is_raised = false;
    for at in 0..nodes.ways(number) {
        if let Some(next) = nodes.way(number, at) {
            is_raised = raise(most, next, pushes) || is_raised;
        }
    }
    is_raised
}

// The node of a push that finds more pushes than there are in the macro.
fn excess(changes: &[PushChange], most: &[Option<usize>], count: usize) -> Option<usize> {
    changes.iter().zip(most.iter()).position(|(change, known)| {
        *change == PushChange::Push && known.is_some_and(|pushes| pushes >= count)
    })
}

// Raises the pushes of all nodes by one step of paths; says whether some were raised.
fn pass_all(nodes: &Nodes<'_>, most: &mut [Option<usize>], changes: &[PushChange]) -> bool {
    let mut is_raised = false;
    for (number, change) in changes.iter().enumerate() {
        is_raised = pass(nodes, most, number, *change) || is_raised;
    }
    is_raised
}

// How many elements push.
fn pushes_in(changes: &[PushChange]) -> usize {
    let mut count = 0usize;
    for change in changes {
        if *change == PushChange::Push {
            count = count.saturating_add(1);
        }
    }
    count
}

// Refuses where paths, whatever numbers are, may push ever more: on a path that comes to no node twice
// no push finds as many pushes as there are in the macro.
pub fn check_pushes(nodes: &Nodes<'_>, space: &mut Workspace) {
    let changes = changes(nodes, space);
    let count = pushes_in(&changes);
    if count == 0 {
        return;
    }
    let mut most = space.repeated(None, changes.len());
    let mut is_raised = raise(&mut most, 1, 0);
    for _ in 0..changes.len() {
        if !is_raised {
            break;
        }
        is_raised = pass_all(nodes, &mut most, &changes);
        if let Some(number) = excess(&changes, &most, count) {
            space.stop(Stop::Condition(number));
            return;
        }
    }
}
