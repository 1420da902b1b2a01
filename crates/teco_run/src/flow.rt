//! Iterations, conditionals and tags: which way the running text goes on.
ghost use Rattle.std.specs.Prelude.{◌≡◌, ◌≤◌, false, length, IfOk, IsTrue};
ghost use Rattle.teco_model.specs.Arguments.{no_arguments};
ghost use Rattle.teco_model.specs.Condition as condition;
ghost use Rattle.teco_model.specs.Element.{seen};
ghost use Rattle.teco_model.specs.Flow as model;
ghost use Rattle.teco_model.specs.Memory.{flow_grows, taken_at};
ghost use Rattle.teco_model.specs.declared.kind.Flow.TheVariants as flow_kind;
ghost use Rattle.teco_run.specs.Ways.{IsRead, Goes, GoesAlways, Turns, FitsIn, is_into};

use crate::frames::Frames;
use crate::way::{self, Continuation};
use teco_base::Code;
use teco_base::bytes::{is_digit, is_letter, is_letter_or_digit, is_lower, is_symbol, is_upper};
use teco_editor::Stuck;
use teco_expr::Args;
use teco_model::kind::{Flow, Goal, Test};
use teco_model::{Element, Loop};

/// The way that the skip of an element leads; `code` where it leads nowhere.
#[inline(always)]
pub fn jump(element: &Element<'_>, frames: &Frames<'_>, code: Code) -> Result<Continuation, Code>
    requires { IsRead element.now frames.now }
    ensures way { GoesAlways frames.now.running (λ arguments.
        model.jump code (seen element.now) arguments frames.now.running) result }
    ensures fits { IfOk result (FitsIn frames.now.running) }
    ensures out { IfOk result (λ way. is_into way ≡ false) }
{
    let skip = frames.skip();
    match skip.to {
        Some(place) => Ok(Continuation::To {
            place,
            leaves: skip.leaves,
        }),
        None => Err(code),
    }
}

// Whether the test holds of a number.
fn holds(test: Test, n: i32) -> bool
    ensures { result ≡ condition.holds test n }
{
    let character = u8::try_from(n).ok();
    match test {
        Test::Zero => n == 0,
        Test::NotZero => n != 0,
        Test::Negative => n < 0,
        Test::Positive => n > 0,
        Test::Letter => character.is_some_and(is_letter),
        Test::Symbol => character.is_some_and(is_symbol),
        Test::Digit => character.is_some_and(is_digit),
        Test::LetterOrDigit => character.is_some_and(is_letter_or_digit),
        Test::Lower => character.is_some_and(is_lower),
        Test::Upper => character.is_some_and(is_upper),
    }
}

/// Whether `;` leaves its iteration, or `:;`.
pub fn leaves(colons: u8, n: i32) -> bool
    ensures { result ≡ model.leaves colons n }
{
    (colons == 0) == (n >= 0)
}

// How many turns come after the first of `n`, if there is one.
fn later_turns(n: i32) -> Option<u32>
    ensures { result ≡ model.later_turns n }
{
    u32::try_from(n).ok()?.checked_sub(1)
}

// `<` begins an iteration, or skips it.
#[inline(always)]
fn iterate(element: &Element<'_>, frames: &Frames<'_>, n: Option<i32>) -> Result<Continuation, Code>
    requires { IsRead element.now frames.now }
    ensures way { GoesAlways frames.now.running (λ arguments.
        model.iteration (seen element.now) n arguments frames.now.running) result }
    ensures fits { IfOk result (FitsIn frames.now.running) }
    ensures into { IfOk result (λ way. IsTrue (is_into way)
        → IsTrue (flow_grows flow_kind.Iterate n)) }
{
    let start = element.next;
    let Some(n) = n else {
        return Ok(Continuation::Into(Loop { start, turns: None }));
    };
    match later_turns(n) {
        None => jump(element, frames, Code::Utc),
        turns => Ok(Continuation::Into(Loop { start, turns })),
    }
}

/// `>` goes back to the start of the iteration while turns are left, and else on.
#[inline(always)]
pub fn end_turn(element: &Element<'_>, frames: &Frames<'_>) -> Result<Continuation, Code>
    requires { IsRead element.now frames.now }
    ensures way { Goes frames.now.running no_arguments
        (model.turn_end (seen element.now) frames.now.running.loops frames.now.running) result }
    ensures fits { IfOk result (FitsIn frames.now.running) }
    ensures out { IfOk result (λ way. is_into way ≡ false) }
{
    let innermost = frames.innermost().ok_or(Code::Bni)?;
    Ok(match innermost.turns {
        None => Continuation::Back(innermost),
        Some(0) => Continuation::To {
            place: element.next,
            leaves: 1,
        },
        Some(turns) => Continuation::Back(Loop {
            start: innermost.start,
            turns: Some(turns - 1),
        }),
    })
}

// `;` leaves the iteration, or goes on.
#[inline(always)]
fn leave_iteration(
    element: &Element<'_>,
    frames: &Frames<'_>,
    arguments: &mut Args,
) -> Result<Continuation, Stuck>
    requires { IsRead element.now frames.now }
    ensures way { Turns frames.now.running arguments.new
        (model.leaving (seen element.now) frames.now.running.loops arguments.old
        frames.now.running) result }
    ensures fits { IfOk result (FitsIn frames.now.running) }
    ensures out { IfOk result (λ way. is_into way ≡ false) }
{
    if frames.innermost().is_none() {
        return Err(Stuck::Code(Code::Sni));
    }
    let n = arguments.take()?.value.ok_or(Code::Arg)?;
    if leaves(element.colons, n) {
        arguments.drop_all();
        Ok(jump(element, frames, Code::Utc)?)
    } else {
        Ok(way::to(element.next))
    }
}

// A conditional goes on where its test holds, and else skips its first branch.
#[inline(always)]
fn decide(
    test: Test,
    element: &Element<'_>,
    frames: &Frames<'_>,
    arguments: &mut Args,
) -> Result<Continuation, Stuck>
    requires { IsRead element.now frames.now }
    ensures way { Turns frames.now.running arguments.new
        (model.turn_of (flow_kind.Test test) (seen element.now) arguments.old
        frames.now.running) result }
    ensures fits { IfOk result (FitsIn frames.now.running) }
    ensures out { IfOk result (λ way. is_into way ≡ false) }
{
    let n = arguments.take()?.value.ok_or(Code::Arg)?;
    if holds(test, n) {
        Ok(way::to(element.next))
    } else {
        Ok(jump(element, frames, Code::Utc)?)
    }
}

// `F>` goes to the `>` of its iteration.
#[inline(always)]
fn to_turn_end(element: &Element<'_>, frames: &Frames<'_>) -> Result<Continuation, Code>
    requires { IsRead element.now frames.now }
    ensures way { GoesAlways frames.now.running (λ arguments.
        model.to_turn_end (seen element.now) frames.now.running.loops arguments
        frames.now.running) result }
    ensures fits { IfOk result (FitsIn frames.now.running) }
    ensures out { IfOk result (λ way. is_into way ≡ false) }
{
    if frames.innermost().is_none() {
        return Err(Code::Bni);
    }
    jump(element, frames, Code::Utc)
}

// `O` goes to a tag.
fn go_to(
    element: &Element<'_>,
    frames: &Frames<'_>,
    arguments: &mut Args,
) -> Result<Continuation, Stuck>
    requires { IsRead element.now frames.now }
    ensures way { Turns frames.now.running arguments.new
        (model.turn_of flow_kind.GoTo (seen element.now) arguments.old frames.now.running) result }
    ensures fits { IfOk result (FitsIn frames.now.running) }
    ensures out { IfOk result (λ way. is_into way ≡ false) }
{
    let taken = arguments.take()?;
    let way = jump(element, frames, Code::Tag)?;
    if taken.value.is_some() {
        return Err(Stuck::Code(Code::Arg));
    }
    arguments.drop_all();
    Ok(way)
}

/// The way that the text goes behind a flow element.
#[inline(always)]
pub fn steer(
    flow: Flow,
    element: &Element<'_>,
    frames: &Frames<'_>,
    arguments: &mut Args,
) -> Result<Continuation, Stuck>
    requires { IsRead element.now frames.now }
    ensures way { Turns frames.now.running arguments.new
        (model.turn_of flow (seen element.now) arguments.old frames.now.running) result }
    ensures fits { IfOk result (FitsIn frames.now.running) }
    ensures into { IfOk result (λ way. IsTrue (is_into way)
        → IsTrue (flow_grows flow (taken_at arguments.old.level).value)) }
{
    match flow {
        Flow::Iterate => {
            let taken = arguments.take()?;
            Ok(iterate(element, frames, taken.value)?)
        }
        Flow::EndTurn => {
            let way = end_turn(element, frames)?;
            arguments.drop_all();
            Ok(way)
        }
        Flow::Leave => leave_iteration(element, frames, arguments),
        Flow::Test(test) => decide(test, element, frames, arguments),
        Flow::GoAhead(Goal::EndTurn) => Ok(to_turn_end(element, frames)?),
        Flow::Otherwise | Flow::GoAhead(Goal::EndTest | Goal::Otherwise) => {
            Ok(jump(element, frames, Code::Utc)?)
        }
        Flow::EndTest | Flow::Comment => Ok(way::to(element.next)),
        Flow::GoTo => go_to(element, frames, arguments),
    }
}
