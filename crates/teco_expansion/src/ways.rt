//! The ways from a position.
ghost use Rattle.std.specs.Prelude.{◌≡◌, ◌<◌, ◌∷◌, length, map, option_map, Ok, Some};
ghost use Rattle.teco_model.specs.Element.{element_at, seen};
ghost use Rattle.teco_model.specs.Ahead.{Whole};
ghost use Rattle.teco_model.specs.Skip.{skip_of};
ghost use Rattle.teco_model.specs.Searching as searching;
ghost use Rattle.teco_model.specs.State.{frame_of};
ghost use Rattle.teco_model.specs.Macros.{macro};
ghost use Rattle.teco_verifier.specs.expansion.Ways as model;
ghost use Rattle.teco_expansion.specs.Few.{listed};
ghost use Rattle.teco_expansion.specs.Refused.{Gives};
ghost use Rattle.teco_expansion.specs.declared.few.TheConstants.{ROOM};
ghost use Rattle.teco_expansion.specs.Seen.{spot_seen, position_seen, ways_seen};
ghost use Rattle.teco_expansion.specs.Texts.{library_of, text_of};
ghost use Rattle.teco_expansion.specs.declared.texts.Texts.{Texts};

use crate::few::OpenList;
use crate::reading::{has_colon, skip_from};
use crate::refusal::ExpandReason;
use crate::spot::{Spot, TextPosition};
use crate::texts::Texts;
use teco_model::kind::{Flow, Goal, Kind};
use teco_model::{Element, Skip};

/// Where the machine may stand next: nowhere behind the command string, and else at one of two
/// positions at the most.
#[derive(Clone, Copy)]
pub enum Ways {
    End,
    One(TextPosition),
    Two(TextPosition, TextPosition),
}

/// Behind an element.
pub fn past(texts: &Texts<'_>, element: &Element<'_>, position: &TextPosition) -> TextPosition
    ensures { position_seen texts.now result
        ≡ model.past (seen element.now) (position_seen texts.now position.now) }
{
    position.moved_to(texts, element.next, position.running.starts)
}

/// The skip of an element that is read at a spot.
pub fn skip_at(texts: &Texts<'_>, element: &Element<'_>, spot: &Spot) -> Skip
    requires { element_at (text_of texts.now spot.now.register) spot.now.place
        ≡ Ok (Some (seen element.now)) }
    ensures { result ≡ skip_of (text_of texts.now spot.now.register) (Whole (seen element.now)) }
{
    match texts.skip(spot.register, spot.place) {
        Some(skip) => skip,
        None => skip_from(texts.text(spot.register), spot.place),
    }
}

// Where it jumps ahead.
fn jumped(
    texts: &Texts<'_>,
    element: &Element<'_>,
    position: &TextPosition,
) -> Result<TextPosition, ExpandReason>
    requires { element_at (text_of texts.now position.now.running.register)
        position.now.running.place ≡ Ok (Some (seen element.now)) }
    ensures { Gives (position_seen texts.now) result
        (model.jumped (seen element.now) (position_seen texts.now position.now)) }
{
    let skip = skip_at(texts, element, &position.running);
    match skip.to {
        None => Err(ExpandReason::Unpaired),
        Some(place) => {
            let starts = position.running.starts.without(skip.leaves as usize);
            Ok(position.moved_to(texts, place, starts))
        }
    }
}

// The ways of what goes on, or jumps.
fn way_or_jump(
    texts: &Texts<'_>,
    first: TextPosition,
    element: &Element<'_>,
    position: &TextPosition,
) -> Result<Ways, ExpandReason>
    requires { element_at (text_of texts.now position.now.running.register)
        position.now.running.place ≡ Ok (Some (seen element.now)) }
    ensures { Gives (ways_seen texts.now) result
        (model.way_or_jump
        (position_seen texts.now first) (seen element.now) (position_seen texts.now position.now)) }
{
    let jump = jumped(texts, element, position)?;
    Ok(Ways::Two(first, jump))
}

// `>` goes back to the start of its iteration, or on.
fn end_ways(
    texts: &Texts<'_>,
    element: &Element<'_>,
    position: &TextPosition,
) -> Result<Ways, ExpandReason>
    ensures { Gives (ways_seen texts.now) result
        (model.end_ways (listed position.now.running.starts) (seen element.now)
        (position_seen texts.now position.now)) }
{
    let starts = position.running.starts;
    match starts.get(0) {
        None => Err(ExpandReason::Unpaired),
        Some(start) => Ok(Ways::Two(
            position.moved_to(texts, start, starts),
            position.moved_to(texts, element.next, starts.without(1)),
        )),
    }
}

// `;` stands in an iteration of its own text.
fn leave_ways(
    texts: &Texts<'_>,
    element: &Element<'_>,
    position: &TextPosition,
) -> Result<Ways, ExpandReason>
    requires { element_at (text_of texts.now position.now.running.register)
        position.now.running.place ≡ Ok (Some (seen element.now)) }
    ensures { Gives (ways_seen texts.now) result
        (model.leave_ways (listed position.now.running.starts) (seen element.now)
        (position_seen texts.now position.now)) }
{
    if position.running.starts.len() == 0 {
        return Err(ExpandReason::Unpaired);
    }
    way_or_jump(texts, past(texts, element, position), element, position)
}

// `F>` stands in an iteration of its own text.
fn ahead_ways(
    goal: Goal,
    texts: &Texts<'_>,
    element: &Element<'_>,
    position: &TextPosition,
) -> Result<Ways, ExpandReason>
    requires { element_at (text_of texts.now position.now.running.register)
        position.now.running.place ≡ Ok (Some (seen element.now)) }
    ensures { Gives (ways_seen texts.now) result
        (model.ahead_ways goal (listed position.now.running.starts) (seen element.now)
        (position_seen texts.now position.now)) }
{
    if matches!(goal, Goal::EndTurn) && position.running.starts.len() == 0 {
        return Err(ExpandReason::Unpaired);
    }
    Ok(Ways::One(jumped(texts, element, position)?))
}

#[tactic(auto, unfolding(teco_verifier::specs::expansion::Ways::flow_ways))]
fn flow_ways(
    flow: Flow,
    texts: &Texts<'_>,
    element: &Element<'_>,
    position: &TextPosition,
) -> Result<Ways, ExpandReason>
    requires read { element_at (text_of texts.now position.now.running.register)
        position.now.running.place ≡ Ok (Some (seen element.now)) }
    requires room { length (listed position.now.running.starts) < ROOM }
    ensures { Gives (ways_seen texts.now) result
        (model.flow_ways flow (seen element.now) (position_seen texts.now position.now)) }
{
    match flow {
        Flow::Iterate => {
            let starts = position.running.starts.with(element.next);
            let body = position.moved_to(texts, element.next, starts);
            way_or_jump(texts, body, element, position)
        }
        Flow::EndTurn => end_ways(texts, element, position),
        Flow::Leave => leave_ways(texts, element, position),
        Flow::Test(_) => way_or_jump(texts, past(texts, element, position), element, position),
        Flow::Otherwise | Flow::GoTo => Ok(Ways::One(jumped(texts, element, position)?)),
        Flow::EndTest | Flow::Comment => Ok(Ways::One(past(texts, element, position))),
        Flow::GoAhead(goal) => ahead_ways(goal, texts, element, position),
    }
}

// A search without a colon that misses leaves the innermost iteration of its text, if one is open.
fn search_ways(
    texts: &Texts<'_>,
    element: &Element<'_>,
    position: &TextPosition,
) -> Result<Ways, ExpandReason>
    requires { element_at (text_of texts.now position.now.running.register)
        position.now.running.place ≡ Ok (Some (seen element.now)) }
    ensures { Gives (ways_seen texts.now) result (model.search_ways
        (searching.has_colon (seen element.now)
        (frame_of (text_of texts.now position.now.running.register)))
        (listed position.now.running.starts) (seen element.now)
        (position_seen texts.now position.now)) }
{
    let spot = &position.running;
    let behind = texts.behind_blanks(spot.register, element.next);
    if has_colon(element, texts.text(spot.register), behind) || spot.starts.len() == 0 {
        return Ok(Ways::One(past(texts, element, position)));
    }
    way_or_jump(texts, past(texts, element, position), element, position)
}

/// The beginning of a register's text, with what stands behind the element that calls it waiting.
pub fn called(
    register: usize,
    texts: &Texts<'_>,
    element: &Element<'_>,
    position: &TextPosition,
) -> TextPosition
    requires { length (listed position.now.callers) < ROOM }
    ensures { position_seen texts.now result
        ≡ model.called (text_of texts.now (Some register)) (seen element.now)
        (position_seen texts.now position.now) }
{
    let waiting = past(texts, element, position).running;
    TextPosition {
        running: Spot::beginning(texts, Some(register)),
        callers: position.callers.with(waiting),
    }
}

// `M` goes to the beginning of its text.
fn call_ways(
    register: usize,
    texts: &Texts<'_>,
    element: &Element<'_>,
    position: &TextPosition,
) -> Result<Ways, ExpandReason>
    requires { length (listed position.now.callers) < ROOM }
    ensures { Gives (ways_seen texts.now) result
        (model.call_ways (macro (library_of texts.now) register) (seen element.now)
        (position_seen texts.now position.now)) }
{
    if !texts.contains(register) {
        return Err(ExpandReason::NoMacro);
    }
    Ok(Ways::One(called(register, texts, element, position)))
}

// The end of a text goes back to the text that waits, if there is one.
fn return_ways(position: &TextPosition) -> Result<Ways, ExpandReason>
    ensures { (texts : Texts) → Gives (ways_seen texts) result
        (model.return_ways (listed position.now.running.starts)
        (map (spot_seen texts) (listed position.now.callers))) }
{
    if position.running.starts.len() > 0 {
        return Err(ExpandReason::Unpaired);
    }
    match position.callers.get(0) {
        None => Ok(Ways::End),
        Some(caller) => Ok(Ways::One(TextPosition {
            running: caller,
            callers: position.callers.without(1),
        })),
    }
}

fn element_ways(
    texts: &Texts<'_>,
    element: &Element<'_>,
    position: &TextPosition,
) -> Result<Ways, ExpandReason>
    requires read { element_at (text_of texts.now position.now.running.register)
        position.now.running.place ≡ Ok (Some (seen element.now)) }
    requires room { length (listed position.now.running.starts) < ROOM }
    requires calls { length (listed position.now.callers) < ROOM }
    ensures { Gives (ways_seen texts.now) result
        (model.element_ways (library_of texts.now) element.now.kind (seen element.now)
        (position_seen texts.now position.now)) }
{
    match element.kind {
        Kind::Call(call) => call_ways(call.register.index(), texts, element, position),
        Kind::Flow(flow) => flow_ways(flow, texts, element, position),
        Kind::Search(_) => search_ways(texts, element, position),
        _ => Ok(Ways::One(past(texts, element, position))),
    }
}

/// The ways from a position where this is read.
#[tactic(auto, unfolding(teco_verifier::specs::expansion::Ways::ways_at))]
pub fn ways_at(
    texts: &Texts<'_>,
    read: &Option<Element<'_>>,
    position: &TextPosition,
) -> Result<Ways, ExpandReason>
    requires read { element_at (text_of texts.now position.now.running.register)
        position.now.running.place ≡ Ok (option_map seen read.now) }
    requires room { length (listed position.now.running.starts) < ROOM }
    requires calls { length (listed position.now.callers) < ROOM }
    ensures { Gives (ways_seen texts.now) result
        (model.ways_at (library_of texts.now) (option_map seen read.now)
        (position_seen texts.now position.now)) }
{
    match read {
        None => return_ways(position),
        Some(element) => element_ways(texts, element, position),
    }
}
