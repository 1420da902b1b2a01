//! Commands on registers.
ghost use Rattle.std.specs.Prelude.{◌≡◌, IsOk};
ghost use Rattle.teco_base.specs.Does.{Does, Updates, memory_where};
ghost use Rattle.teco_model.specs.Effect.{with_answer};
ghost use Rattle.teco_model.specs.Element.{seen};
ghost use Rattle.teco_model.specs.Memory.{command_grows, stack_grows};
ghost use Rattle.teco_model.specs.Storage as model;
ghost use Rattle.teco_model.specs.declared.kind.Command.TheVariants as command;
ghost use Rattle.teco_editor.specs.Commands.{effect_seen, growing_if, stuck_cause};

use crate::editor::Editor;
use crate::stuck::Stuck;
use teco_base::{Code, Reg, arithmetic};
use teco_model::kind::{Stack, Storage};
use teco_model::{Element, Span, Taken};
use teco_text::{TextStore, pieces};

impl<T: TextStore> Editor<T> {
    /// Sets the number of a register.
    #[inline(always)]
    pub fn set_number(&mut self, reg: Reg, n: i32)
        ensures { self.new ≡ model.kept_with_number reg n self.old }
    {
        self.regs.set_number(reg, n);
    }

    /// Adds to the number of a register, and answers the sum.
    #[inline(always)]
    pub fn add_number(&mut self, reg: Reg, n: i32) -> i32
        ensures { model.addition reg n self.old ≡ with_answer result self.new }
    {
        let sum = arithmetic::add(self.regs.number(reg), n);
        self.set_number(reg, sum);
        sum
    }

    // Stores a text in a register, or with a colon appends it.
    #[inline(never)]
    fn store_text(&mut self, colons: u8, reg: Reg, text: &[u8]) -> Result<Option<i32>, Stuck>
        ensures { Does stuck_cause (memory_where IsOk) effect_seen self.old self.new
            (model.text_storage colons reg text.now self.old) result }
    {
        if colons == 0 {
            self.regs.set_text(reg, text)?;
        } else {
            self.regs.append_text(reg, text)?;
        }
        Ok(None)
    }

    // Copies lines or a range of the buffer into a register.
    #[inline(never)]
    fn copy(&mut self, colons: u8, reg: Reg, taken: Taken) -> Result<Option<i32>, Stuck>
        ensures { Does stuck_cause (memory_where IsOk) effect_seen self.old self.new
            (model.copy colons reg taken self.old) result }
    {
        let Span { start, end } = self.part(taken)?;
        let (first, second) = pieces(self.screen.store(), start, end);
        if colons == 0 {
            self.regs.set_pieces(reg, first, second)?;
        } else {
            self.regs.append_pieces(reg, first, second)?;
        }
        Ok(None)
    }

    // Inserts the text of a register, or with a colon types it.
    #[inline(never)]
    fn get(&mut self, colons: u8, reg: Reg) -> Result<Option<i32>, Stuck>
        ensures { Does stuck_cause (memory_where IsOk) effect_seen self.old self.new
            (model.retrieval colons reg self.old) result }
    {
        if colons > 0 {
            self.keep_typed_cap(self.regs.text(reg).len())?;
            self.screen.type_bytes(self.regs.text(reg))?;
            return Ok(None);
        }
        let text = self.regs.text(reg);
        self.screen.insert(text)?;
        self.last_length = text.len();
        Ok(None)
    }

    /// `[` puts the number and text of a register on the push-down list; `]` takes the newest of
    /// them off into a register.
    #[inline(never)]
    pub fn stack(&mut self, stack: Stack) -> Result<(), Stuck>
        ensures { Updates stuck_cause (growing_if (stack_grows stack)) self.old self.new
            (model.stack stack self.old) result }
    {
        match stack {
            Stack::Push(reg) => self.regs.push(reg)?,
            Stack::Pop(reg) => self.regs.pop(reg)?,
        }
        Ok(())
    }

    /// `U` and `%` set and add to the number of a register, `X` and `^U` set the text, and `G`
    /// inserts or types it.
    #[inline(always)]
    pub fn storage(
        &mut self,
        storage: Storage,
        element: &Element<'_>,
        taken: Taken,
    ) -> Result<Option<i32>, Stuck>
        ensures { Does stuck_cause (growing_if (command_grows (command.Storage storage)))
            effect_seen self.old self.new (model.storage storage (seen element.now) taken self.old) result }
    {
        match storage {
            Storage::SetNumber(reg) => {
                self.set_number(reg, taken.value.ok_or(Code::Arg)?);
                Ok(None)
            }
            Storage::Add(reg) => Ok(Some(self.add_number(reg, taken.value.unwrap_or(1)))),
            Storage::Copy(reg) => self.copy(element.colons, reg, taken),
            Storage::SetText(reg) => match taken.value {
                None => self.store_text(element.colons, reg, element.text),
                Some(_) => Err(Stuck::Code(Code::Arg)),
            },
            Storage::Get(reg) => self.get(element.colons, reg),
        }
    }
}
