//! What becomes of searches that miss.
ghost use Rattle.std.specs.Prelude.{◌≡◌, false};
ghost use Rattle.std.specs.Option.{option_map_or};
ghost use Rattle.teco_model.specs.Element.{seen};
ghost use Rattle.teco_model.specs.Searching as model;
ghost use Rattle.teco_run.specs.Misses.{HasNoColon, MissFits, miss_seen};
ghost use Rattle.teco_run.specs.Ways.{IsRead};

use crate::flow::jump;
use crate::frames::Frames;
use crate::way::Continuation;
use teco_base::Code;
use teco_model::kind::Flow;
use teco_model::{Element, Kind};

/// What a search types that misses and leaves its iteration.
pub const MESSAGE: &[u8] = b"%SRH\r\n";

/// What becomes of a search that misses.
#[derive(Clone, Copy)]
pub enum Miss {
    /// The answer is 0.
    Answers,
    /// The iteration is left.
    Leaves(Continuation),
    /// UTC: the iteration has no end.
    Unended,
    /// SRH: no iteration is open.
    Fails,
}

// Is it `;` or `:;`?
fn is_leave(kind: Option<Kind>) -> bool
    ensures { result ≡ option_map_or model.is_leave_kind kind false }
{
    matches!(kind, Some(Kind::Flow(Flow::Leave)))
}

/// Whether a search counts as having a colon.
#[inline(always)]
pub fn has_colon(element: &Element<'_>, frames: &Frames<'_>) -> bool
    requires { IsRead element.now frames.now }
    ensures { result ≡ model.has_colon (seen element.now) frames.now.running }
{
    element.colons > 0 || is_leave(frames.kind_behind())
}

// What becomes of a miss that does not answer.
fn silent_miss(element: &Element<'_>, frames: &Frames<'_>) -> Miss
    requires { IsRead element.now frames.now }
    ensures miss { miss_seen frames.now.running result
        ≡ model.miss_where false (seen element.now) frames.now.running }
    ensures fits { MissFits frames.now.running result }
{
    if frames.innermost().is_none() {
        return Miss::Fails;
    }
    match jump(element, frames, Code::Utc) {
        Ok(way) => Miss::Leaves(way),
        Err(_) => Miss::Unended,
    }
}

/// What becomes of a search, if it misses.
pub fn miss_of(element: &Element<'_>, frames: &Frames<'_>) -> Miss
    requires { IsRead element.now frames.now }
    ensures miss { miss_seen frames.now.running result
        ≡ model.miss_of (seen element.now) frames.now.running }
    ensures fits { MissFits frames.now.running result }
    ensures silent { HasNoColon result element.now.colons }
{
    if has_colon(element, frames) {
        Miss::Answers
    } else {
        silent_miss(element, frames)
    }
}
