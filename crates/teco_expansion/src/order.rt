//! What follows in the order of the texts.
ghost use Rattle.std.specs.Prelude.{◌≡◌, ◌<◌, length, map, option_map};
ghost use Rattle.teco_model.specs.Element.{seen};
ghost use Rattle.teco_model.specs.Macros.{macro};
ghost use Rattle.teco_verifier.specs.expansion.Order as order;
ghost use Rattle.teco_expansion.specs.Few.{listed};
ghost use Rattle.teco_expansion.specs.Seen.{spot_seen, position_seen, stand_seen};
ghost use Rattle.teco_expansion.specs.Texts.{library_of};
ghost use Rattle.teco_expansion.specs.declared.few.TheConstants.{ROOM};
ghost use Rattle.teco_expansion.specs.declared.texts.Texts.{Texts};

use crate::spot::{Stand, TextPosition};
use crate::texts::Texts;
use crate::ways::{called, past};
use teco_model::Element;
use teco_model::kind::{Flow, Kind};

// The stand of another position.
fn stand_with(position: TextPosition, from: &Stand) -> Stand
    ensures { (texts : Texts) → stand_seen texts result
        ≡ record (stand_seen texts from.now) { position = position_seen texts position } }
{
    Stand {
        position,
        iterations: from.iterations,
    }
}

// `<` is followed by its body.
fn stand_inside(texts: &Texts<'_>, number: usize, element: &Element<'_>, from: &Stand) -> Stand
    requires starts { length (listed from.now.position.running.starts) < ROOM }
    requires iterations { length (listed from.now.iterations) < ROOM }
    ensures { stand_seen texts.now result
        ≡ order.stand_inside number (seen element.now) (stand_seen texts.now from.now) }
{
    let starts = from.position.running.starts.with(element.next);
    Stand {
        position: from.position.moved_to(texts, element.next, starts),
        iterations: from.iterations.with(number),
    }
}

// `>` is followed by what is outside of its iteration.
fn stand_outside(texts: &Texts<'_>, element: &Element<'_>, from: &Stand) -> Stand
    ensures { stand_seen texts.now result
        ≡ order.stand_outside (seen element.now) (stand_seen texts.now from.now) }
{
    let starts = from.position.running.starts.without(1);
    Stand {
        position: from.position.moved_to(texts, element.next, starts),
        iterations: from.iterations.without(1),
    }
}

// A call is followed by its text, if there is one.
fn position_in_text(
    register: usize,
    texts: &Texts<'_>,
    element: &Element<'_>,
    position: &TextPosition,
) -> TextPosition
    requires { length (listed position.now.callers) < ROOM }
    ensures { position_seen texts.now result
        ≡ order.position_in_text (macro (library_of texts.now) register) (seen element.now)
        (position_seen texts.now position.now) }
{
    if texts.contains(register) {
        called(register, texts, element, position)
    } else {
        past(texts, element, position)
    }
}

// A return is followed by what stands behind the call.
fn position_behind_call(position: &TextPosition) -> TextPosition
    ensures { (texts : Texts) → position_seen texts result
        ≡ order.position_behind_call (map (spot_seen texts) (listed position.now.callers))
        (position_seen texts position.now) }
{
    match position.callers.get(0) {
        None => *position,
        Some(caller) => TextPosition {
            running: caller,
            callers: position.callers.without(1),
        },
    }
}

// The stand that follows an element.
fn stand_behind_element(
    texts: &Texts<'_>,
    number: usize,
    element: &Element<'_>,
    from: &Stand,
) -> Stand
    requires starts { length (listed from.now.position.running.starts) < ROOM }
    requires calls { length (listed from.now.position.callers) < ROOM }
    requires iterations { length (listed from.now.iterations) < ROOM }
    ensures { stand_seen texts.now result
        ≡ order.stand_behind_kind (library_of texts.now) number element.now.kind (seen element.now)
        (stand_seen texts.now from.now) }
{
    match element.kind {
        Kind::Call(call) => {
            let position = position_in_text(call.register.index(), texts, element, &from.position);
            stand_with(position, from)
        }
        Kind::Flow(Flow::Iterate) => stand_inside(texts, number, element, from),
        Kind::Flow(Flow::EndTurn) => stand_outside(texts, element, from),
        _ => stand_with(past(texts, element, &from.position), from),
    }
}

/// The stand that follows what is read.
pub fn stand_behind(
    texts: &Texts<'_>,
    number: usize,
    read: &Option<Element<'_>>,
    from: &Stand,
) -> Stand
    requires starts { length (listed from.now.position.running.starts) < ROOM }
    requires calls { length (listed from.now.position.callers) < ROOM }
    requires iterations { length (listed from.now.iterations) < ROOM }
    ensures { stand_seen texts.now result
        ≡ order.stand_behind (library_of texts.now) number (option_map seen read.now)
        (stand_seen texts.now from.now) }
{
    match read {
        None => stand_with(position_behind_call(&from.position), from),
        Some(element) => stand_behind_element(texts, number, element, from),
    }
}
