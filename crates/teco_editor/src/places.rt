//! Places and parts that numbers name.
ghost use Rattle.std.specs.Prelude.{◌≡◌, ◌≤◌, length, min, max, IfOk};
ghost use Rattle.teco_base.specs.declared.TheConstants.{LIMIT};
ghost use Rattle.teco_model.specs.Places.{place_in, range_span, line_span, part_of};

use crate::editor::Editor;
use teco_base::Code;
use teco_model::{Span, Taken};
use teco_text::{TextStore, line_place};

// The part between two places, in either order.
fn span_between(a: usize, b: usize) -> Span
    ensures start { result.start ≡ min a b }
    ensures end { result.end ≡ max a b }
{
    Span {
        start: a.min(b),
        end: a.max(b),
    }
}

impl<T: TextStore> Editor<T> {
    /// The place that a number names, if it is in the text.
    pub(crate) fn place(&self, n: i32) -> Option<usize>
        ensures { result ≡ place_in self.now.text n }
    {
        usize::try_from(n)
            .ok()
            .filter(|place| *place <= self.size())
    }

    /// The part between the places that two numbers name.
    pub(crate) fn range(&self, m: i32, n: i32) -> Result<Span, Code>
        ensures value { result ≡ range_span self.now.text m n }
        ensures ordered { IfOk result (λ part. part.start ≤ part.end) }
        ensures within_text { IfOk result (λ part. part.end ≤ length self.now.text) }
    {
        let from = self.place(m).ok_or(Code::Pop)?;
        let to = self.place(n).ok_or(Code::Pop)?;
        Ok(span_between(from, to))
    }

    /// The part between the pointer and the line place of a number.
    pub(crate) fn lines(&self, n: i64) -> Span
        ensures value { result ≡ line_span self.now.text self.now.pointer n }
        ensures ordered { result.start ≤ result.end }
        ensures within_text { result.end ≤ length self.now.text }
        ensures within_limit { result.end ≤ LIMIT }
    {
        span_between(self.dot(), line_place(self.screen.store(), n))
    }

    /// The part that two numbers name, or the lines that one does.
    pub(crate) fn part(&self, taken: Taken) -> Result<Span, Code>
        ensures value { result ≡ part_of taken self.now }
        ensures ordered { IfOk result (λ part. part.start ≤ part.end) }
        ensures within_text { IfOk result (λ part. part.end ≤ length self.now.text) }
    {
        match (taken.first, taken.value) {
            (Some(m), Some(n)) => self.range(m, n),
            (_, value) => Ok(self.lines(i64::from(value.unwrap_or(1)))),
        }
    }
}
