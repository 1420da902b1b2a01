//! How a run goes on behind an element.
ghost use Rattle.std.specs.Prelude.{◌≡◌};
ghost use Rattle.teco_run.specs.Replies.{course_by};

use crate::way::Continuation;
use teco_base::Reg;
use teco_filing::Halt;

/// How a run goes on behind an element.
#[derive(Clone, Copy)]
pub enum Course {
    /// Behind the element.
    Behind,
    /// At the element again, which has more to do.
    Again,
    /// In the running text, a way.
    Along(Continuation),
    /// In the text of a register, and then behind the element.
    Into(Reg),
    /// The session ends.
    Quit,
}

/// The course behind what is done, or why it is not.
pub fn then(done: Result<(), Halt>, course: Course) -> Result<Course, Halt>
    ensures { result ≡ course_by course done }
{
    done?;
    Ok(course)
}
