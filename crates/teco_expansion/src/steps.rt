//! What is visited on the walk through the texts.
ghost use Rattle.std.specs.Prelude.{◌≡◌, ◌<◌, ◌≤◌, length, option_map, get_or};
ghost use Rattle.teco_model.specs.Element.{seen};
ghost use Rattle.teco_verifier.specs.expansion.Expansion as model;
ghost use Rattle.teco_expansion.specs.Few.{listed};
ghost use Rattle.teco_expansion.specs.Refused.{Gives, reason_seen, refusal_seen};
ghost use Rattle.teco_expansion.specs.Room.{HasRoom};
ghost use Rattle.teco_expansion.specs.Seen.{visit_seen};
ghost use Rattle.teco_expansion.specs.Texts.{library_of};
ghost use Rattle.teco_expansion.specs.Walks.{limited};
ghost use Rattle.teco_expansion.specs.declared.few.TheConstants.{ROOM};
ghost use Rattle.teco_expansion.specs.declared.texts.Texts.{Texts};

use crate::few::OpenList;
use crate::order::stand_behind;
use crate::overlap::overlaps;
use crate::reading::read_at;
use crate::refusal::{ExpandReason, PlacedReason};
use crate::spot::{Spot, Stand, TextPosition};
use crate::texts::Texts;
use crate::visit::Visit;
use crate::ways::ways_at;
use teco_model::Element;
use teco_model::kind::Kind;

/// How many elements there are at most.
pub const MOST_ELEMENTS: usize = 4096;

/// How many calls may be open, and how many iterations.
pub const MOST_OPEN: usize = 6;

// The registers whose texts are open behind what is read.
fn open_behind(read: &Option<Element<'_>>, registers: OpenList<usize>) -> OpenList<usize>
    requires { length (listed registers) < ROOM }
    ensures { listed result ≡ model.open_behind (option_map seen read.now) (listed registers) }
{
    match read {
        None => registers.without(1),
        Some(element) => match element.kind {
            Kind::Call(call) => registers.with(call.register.index()),
            _ => registers,
        },
    }
}

// The visit that follows.
fn visit_behind(
    texts: &Texts<'_>,
    number: usize,
    read: &Option<Element<'_>>,
    visit: &Visit,
) -> Visit
    requires { HasRoom visit.now }
    ensures { visit_seen texts.now result
        ≡ model.visit_behind (library_of texts.now) number (option_map seen read.now)
        (visit_seen texts.now visit.now) }
{
    Visit {
        stand: stand_behind(texts, number, read, &visit.stand),
        registers: open_behind(read, visit.registers),
    }
}

// Is the text of a register open?
#[tactic(auto, using(crate::proofs::Any::any_from, crate::proofs::Any::open_at))]
fn is_open(register: usize, registers: &OpenList<usize>) -> bool
    ensures { result ≡ model.is_open register (listed registers.now) }
{
    for at in 0..registers.len() {
        if let Some(open) = registers.get(at) {
            if open == register {
                return true;
            }
        }
    }
    false
}

// A call of a register whose text is open is a recursion.
fn is_recursion(read: &Option<Element<'_>>, registers: &OpenList<usize>) -> bool
    ensures { result ≡ model.is_recursion (option_map seen read.now) (listed registers.now) }
{
    match read {
        Some(element) => match element.kind {
            Kind::Call(call) => is_open(call.register.index(), registers),
            _ => false,
        },
        None => false,
    }
}

// An element counts with what it opens.
fn is_within(number: usize, next: &Visit) -> bool
    ensures { (texts : Texts) → result ≡ model.is_within number (visit_seen texts next.now) }
{
    number <= MOST_ELEMENTS
        && next.registers.len() <= MOST_OPEN
        && next.stand.iterations.len() <= MOST_OPEN
}

// A visit that is within what there may be.
fn limited(texts: &Texts<'_>, number: usize, next: Visit) -> Result<Visit, ExpandReason>
    ensures { Gives (visit_seen texts.now) result (limited number (visit_seen texts.now next)) }
{
    if is_within(number, &next) {
        Ok(next)
    } else {
        Err(ExpandReason::TooLarge)
    }
}

/// The visit that follows one of a number, or why it is refused.
#[tactic(auto, unfolding(teco_verifier::specs::expansion::Expansion::next_visit))]
pub fn next_visit(texts: &Texts<'_>, number: usize, visit: &Visit) -> Result<Visit, ExpandReason>
    requires { HasRoom visit.now }
    ensures { Gives (visit_seen texts.now) result
        (model.next_visit (library_of texts.now) number (visit_seen texts.now visit.now)) }
{
    let position = &visit.stand.position;
    let read = match read_at(texts, position) {
        Ok(read) => read,
        Err(reason) => return Err(reason),
    };
    let ways = ways_at(texts, &read, position)?;
    if overlaps(texts, &read, &ways, position) {
        return Err(ExpandReason::Unpaired);
    }
    if is_recursion(&read, &visit.registers) {
        return Err(ExpandReason::Recursion);
    }
    limited(texts, number, visit_behind(texts, number, &read, visit))
}

/// The visit of the call of the entry.
pub fn first_visit(texts: &Texts<'_>) -> Visit
    ensures { visit_seen texts.now result ≡ model.first_visit texts.now.entry }
{
    let start = Spot::beginning(texts, None);
    Visit {
        stand: Stand {
            position: TextPosition {
                running: start,
                callers: OpenList::empty(start),
            },
            iterations: OpenList::empty(0),
        },
        registers: OpenList::empty(texts.entry),
    }
}

/// The register whose text it is; the call of the entry counts to the entry.
pub fn register_at(texts: &Texts<'_>, visit: &Visit) -> usize
    ensures { result ≡ model.register_at texts.now.entry (visit_seen texts.now visit.now) }
{
    match visit.registers.get(0) {
        None => texts.entry,
        Some(register) => register,
    }
}

/// A reason with the place of a visit.
pub fn refusal_at(texts: &Texts<'_>, visit: &Visit, reason: ExpandReason) -> PlacedReason
    ensures { refusal_seen result ≡ model.refusal_at texts.now.entry
        (visit_seen texts.now visit.now) (reason_seen reason) }
{
    PlacedReason {
        reason,
        register: register_at(texts, visit),
        place: visit.stand.position.running.place,
    }
}
