//! Iterations that nothing leaves.
use crate::around::DEPTH;
use crate::places::element_at;
use arrayvec::ArrayVec;
use teco_model::kind::{Argument, Flow, Page};
use teco_model::{Element, Kind};

// An iteration that is open.
#[derive(Clone, Copy, Default)]
struct OpenIteration {
    // where its first element begins
    begin: usize,
    has_count: bool,
}

// May an element be the count of an iteration behind it, or the end of one?
fn is_count(kind: &Kind) -> bool {
    match kind {
        Kind::Argument(Argument::DropAll) => false,
        Kind::Argument(_) | Kind::Value(_) | Kind::Query(_) | Kind::Page(Page::Append) => true,
        _ => false,
    }
}

// The innermost iteration about a place, if there is one and not too many are open before.
fn iteration_at(text: &[u8], place: usize) -> Option<OpenIteration> {
    let mut open: ArrayVec<OpenIteration, DEPTH> = ArrayVec::new();
    let mut at = 0;
    let mut has_count = false;
    for _ in 0..text.len() {
        let Some(found) = element_at(text, at) else {
            return None;
        };
        if found.next > place {
            return open.pop();
        }
        match found.kind {
            Kind::Flow(Flow::Iterate) => {
                let begin = found.next;
                if open.try_push(OpenIteration { begin, has_count }).is_err() {
                    return None;
                }
            }
            Kind::Flow(Flow::EndTurn) => {
                let _closed = open.pop();
            }
            _ => {}
        }
        has_count = is_count(&found.kind);
        at = found.next;
    }
    None
}

// May an element leave the iteration that it is in? A search without a colon leaves it where it
// finds nothing.
fn leaves(found: &Element<'_>) -> bool {
    match found.kind {
        Kind::Flow(Flow::Leave | Flow::GoTo) => true,
        Kind::Search(_) => found.colons == 0,
        _ => false,
    }
}

// May an element leave the iteration whose elements begin at a place?
fn is_left(text: &[u8], begin: usize) -> bool {
    let mut at = begin;
    let mut inner: usize = 0;
    for _ in 0..text.len() {
        let Some(found) = element_at(text, at) else {
            return true;
        };
        match found.kind {
            Kind::Flow(Flow::Iterate) => inner = inner.saturating_add(1),
            Kind::Flow(Flow::EndTurn) if inner == 0 => return false,
            Kind::Flow(Flow::EndTurn) => inner = inner.saturating_sub(1),
            _ if inner == 0 && leaves(&found) => return true,
            _ => {}
        }
        at = found.next;
    }
    true
}

/// Has the innermost iteration about a place no count, and nothing in it that leaves it? It takes
/// time by the length of the text.
pub fn is_endless(text: &[u8], place: usize) -> bool {
    match iteration_at(text, place) {
        None => false,
        Some(iteration) => !iteration.has_count && !is_left(text, iteration.begin),
    }
}
