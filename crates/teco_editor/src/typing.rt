//! Commands that type.
ghost use Rattle.std.specs.Prelude.{◌≡◌, ◌++◌, IsOk, Ok};
ghost use Rattle.teco_base.specs.Does.{Does, memory_where};
ghost use Rattle.teco_model.specs.Element.{seen};
ghost use Rattle.teco_model.specs.Typing as model;
ghost use Rattle.teco_editor.specs.Commands.{effect_seen, stuck_cause};

use crate::editor::Editor;
use crate::stuck::Stuck;
use teco_base::arithmetic::byte_of;
use teco_base::{Code, NumberText, decimal, hex, octal};
use teco_model::kind::{Radix, Typing};
use teco_model::{Element, Taken};
use teco_text::TextStore;

// A number as it is typed.
fn number_text(radix: Radix, n: i32) -> NumberText
    ensures { result ≡ model.number_text radix n }
{
    match radix {
        Radix::Decimal => decimal(n),
        Radix::Octal => octal(n),
        Radix::Hexadecimal => hex(n),
    }
}

impl<T: TextStore> Editor<T> {
    // Types bytes.
    fn type_bytes(&mut self, bytes: &[u8]) -> Result<Option<i32>, Stuck>
        ensures { Does stuck_cause (memory_where IsOk) effect_seen self.old self.new
            (Ok (model.typing_of bytes.now self.old)) result }
    {
        self.keep_typed_cap(bytes.len())?;
        self.screen.type_bytes(bytes)?;
        Ok(None)
    }

    // Types a number and, without a colon, the end of its line.
    fn type_number(&mut self, radix: Radix, n: i32, colons: u8) -> Result<Option<i32>, Stuck>
        ensures { Does stuck_cause (memory_where IsOk) effect_seen self.old self.new
            (Ok (model.typing_of (model.number_text radix n ++ model.line_end colons) self.old))
            result }
    {
        let text = number_text(radix, n);
        let end: &[u8] = if colons == 0 { b"\r\n" } else { b"" };
        self.keep_typed_cap(text.as_bytes().len() + end.len())?;
        self.screen
            .reserve_typed(text.as_bytes().len() + end.len())?;
        self.screen.type_reserved(text.as_bytes());
        self.screen.type_reserved(end);
        Ok(None)
    }

    // Types lines or a range of the buffer.
    fn type_part(&mut self, taken: Taken) -> Result<Option<i32>, Stuck>
        ensures { Does stuck_cause (memory_where IsOk) effect_seen self.old self.new
            (model.part_typing taken self.old) result }
    {
        let part = self.part(taken)?;
        self.keep_typed_cap(part.end - part.start)?;
        self.screen.type_part(part)?;
        Ok(None)
    }

    // Types the lines round the pointer.
    fn view(&mut self, n: i32) -> Result<Option<i32>, Stuck>
        ensures { Does stuck_cause (memory_where IsOk) effect_seen self.old self.new
            (Ok (model.view_typing n self.old)) result }
    {
        let first = self.lines(1 - i64::from(n));
        let second = self.lines(i64::from(n));
        self.keep_typed_cap((first.end - first.start) + (second.end - second.start))?;
        self.screen.type_both(first, second)?;
        Ok(None)
    }

    /// `T` types a part of the buffer, `V` the lines round the pointer, `^A` its text, `^T` a byte,
    /// and `=` a number.
    #[inline(never)]
    pub fn typing(
        &mut self,
        typing: Typing,
        element: &Element<'_>,
        taken: Taken,
    ) -> Result<Option<i32>, Stuck>
        ensures { Does stuck_cause (memory_where IsOk) effect_seen self.old self.new
            (model.typing typing (seen element.now) taken self.old) result }
    {
        match typing {
            Typing::Part => self.type_part(taken),
            Typing::View => self.view(taken.value.unwrap_or(1)),
            Typing::Message => self.type_bytes(element.text),
            Typing::Byte => self.type_bytes(&[byte_of(taken.value.ok_or(Code::Arg)?)]),
            Typing::Number(radix) => {
                self.type_number(radix, taken.value.ok_or(Code::Arg)?, element.colons)
            }
        }
    }
}
