//! Commands that move the pointer.
ghost use Rattle.std.specs.Prelude.{◌≡◌, ◌≤◌, length, is_some, MatchOption};
ghost use Rattle.teco_base.specs.declared.TheConstants.{LIMIT};
ghost use Rattle.teco_base.specs.Does.{Does, code_cause, codes_alone};
ghost use Rattle.teco_model.specs.Element.{seen};
ghost use Rattle.teco_model.specs.Motion as model;
ghost use Rattle.teco_model.specs.Effect.{no_answer};
ghost use Rattle.teco_model.specs.Places.{place_in};
ghost use Rattle.teco_editor.specs.Commands.{effect_seen};

use crate::editor::Editor;
use teco_base::Code;
use teco_model::kind::Motion;
use teco_model::{Element, Taken};
use teco_text::{TextStore, line_place};

// The place that an argument names, as a whole number.
fn target(motion: Motion, pointer: usize, n: Option<i32>) -> i64
    requires { pointer ≤ LIMIT }
    ensures { result ≡ model.target motion pointer n }
{
    let pointer = pointer as i64;
    match motion {
        Motion::Forward => pointer + i64::from(n.unwrap_or(1)),
        Motion::Backward => pointer - i64::from(n.unwrap_or(1)),
        Motion::To => i64::from(n.unwrap_or(0)),
        Motion::Lines => pointer,
    }
}

impl<T: TextStore> Editor<T> {
    /// Moves the pointer to a place of the text.
    pub fn set_dot(&mut self, place: usize)
        requires { place ≤ length self.old.text }
        ensures { self.new ≡ record self.old { pointer = place } }
    {
        // the text has the place, so it is not refused
        let _ = self.screen.set_dot(place);
    }

    // Moves the pointer to a place, if the text has it, and says whether it does.
    fn go_to(&mut self, place: i64) -> bool
        ensures answer { result ≡ is_some (place_in self.old.text place) }
        ensures moved { MatchOption (place_in self.old.text place)
            (self.new ≡ self.old) (λ p. self.new ≡ record self.old { pointer = p }) }
    {
        let Ok(place) = usize::try_from(place) else {
            return false;
        };
        self.screen.set_dot(place).is_ok()
    }

    // Moves the pointer to the line place of a number.
    #[inline(never)]
    fn go_lines(&mut self, n: i32)
        ensures { model.line_motion n self.old ≡ no_answer self.new }
    {
        let place = line_place(self.screen.store(), i64::from(n));
        self.set_dot(place);
    }

    /// `C`, `R`, `J` and `L` move the pointer; with a colon the first three answer whether it was
    /// moved.
    #[inline(always)]
    pub fn motion(
        &mut self,
        motion: Motion,
        element: &Element<'_>,
        taken: Taken,
    ) -> Result<Option<i32>, Code>
        ensures { Does code_cause codes_alone effect_seen self.old self.new
            (model.motion motion (seen element.now) taken self.old)
            result }
    {
        if let Motion::Lines = motion {
            self.go_lines(taken.value.unwrap_or(1));
            return Ok(None);
        }
        let place = target(motion, self.dot(), taken.value);
        match (self.go_to(place), element.colons) {
            (true, 0) => Ok(None),
            (false, 0) => Err(Code::Pop),
            (true, _) => Ok(Some(-1)),
            (false, _) => Ok(Some(0)),
        }
    }
}
