//! Commands that delete.
ghost use Rattle.teco_base.specs.Does.{Does, code_cause, codes_alone};
ghost use Rattle.teco_model.specs.Deletion as model;
ghost use Rattle.teco_editor.specs.Commands.{effect_seen};

use crate::editor::Editor;
use teco_base::Code;
use teco_model::kind::Unit;
use teco_model::{Span, Taken};
use teco_text::TextStore;

impl<T: TextStore> Editor<T> {
    // Deletes characters after the pointer, or before it where the number is negative.
    fn delete_characters(&mut self, n: i32) -> Result<Option<i32>, Code>
        ensures { Does code_cause codes_alone effect_seen self.old self.new
            (model.character_deletion n self.old) result }
    {
        let dot = self.dot();
        let count = n.unsigned_abs() as usize;
        let (begin, end) = if n >= 0 {
            (dot, dot + count)
        } else if count <= dot {
            (dot - count, dot)
        } else {
            return Err(Code::Dtb);
        };
        match self.screen.delete(begin, end) {
            Ok(()) => Ok(None),
            Err(_) => Err(Code::Dtb),
        }
    }

    // Deletes lines or a range, and puts the pointer where they began.
    fn delete_part(&mut self, taken: Taken) -> Result<Option<i32>, Code>
        ensures { Does code_cause codes_alone effect_seen self.old self.new
            (model.part_deletion taken.first taken.value self.old)
            result }
    {
        let Span { start, end } = self.part(taken)?;
        // the text has the part, so neither is refused
        let _ = self.screen.delete(start, end);
        let _ = self.screen.set_dot(start);
        Ok(None)
    }

    /// `D` deletes characters, `K` lines, and both a range.
    #[inline(never)]
    pub fn deletion(&mut self, unit: Unit, taken: Taken) -> Result<Option<i32>, Code>
        ensures { Does code_cause codes_alone effect_seen self.old self.new
            (model.deletion unit taken self.old) result }
    {
        match (unit, taken.first, taken.value) {
            (Unit::Characters, None, value) => self.delete_characters(value.unwrap_or(1)),
            (Unit::Characters, Some(_), None) => self.delete_characters(1),
            (Unit::Characters, Some(_), Some(_)) | (Unit::Lines, ..) => self.delete_part(taken),
        }
    }
}
