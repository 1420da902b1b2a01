//! Commands that insert.
ghost use Rattle.std.specs.Prelude.{◌∷◌, IsOk};
ghost use Rattle.teco_base.specs.Does.{Does, memory_where};
ghost use Rattle.teco_model.specs.Insertion as model;
ghost use Rattle.teco_editor.specs.Commands.{effect_seen, stuck_cause};

use crate::editor::Editor;
use crate::stuck::Stuck;
use teco_base::Code;
use teco_base::arithmetic::byte_of;
use teco_base::bytes::TAB;
use teco_model::Taken;
use teco_model::kind::Insertion;
use teco_text::TextStore;

impl<T: TextStore> Editor<T> {
    // Inserts before the pointer.
    pub(crate) fn insert(&mut self, new: &[u8]) -> Result<Option<i32>, Stuck>
        ensures { Does stuck_cause (memory_where IsOk) effect_seen self.old self.new
            (model.insertion_of new.now self.old) result }
    {
        self.screen.insert(new)?;
        self.last_length = new.len();
        Ok(None)
    }

    // Inserts a byte and then a text, both or none.
    fn insert_behind(&mut self, byte: u8, text: &[u8]) -> Result<Option<i32>, Stuck>
        ensures { Does stuck_cause (memory_where IsOk) effect_seen self.old self.new
            (model.insertion_of (byte ∷ text.now) self.old) result }
    {
        let length = self.size() + 1 + text.len();
        self.screen.reserve(length)?;
        self.screen.insert(&[byte])?;
        self.screen.insert(text)?;
        self.last_length = text.len() + 1;
        Ok(None)
    }

    /// `I` inserts its text, or the byte that its argument is; TAB inserts itself and its text.
    #[inline(never)]
    pub fn insertion(
        &mut self,
        insertion: Insertion,
        text: &[u8],
        taken: Taken,
    ) -> Result<Option<i32>, Stuck>
        ensures { Does stuck_cause (memory_where IsOk) effect_seen self.old self.new
            (model.insertion_with insertion text.now taken.value self.old) result }
    {
        match (insertion, taken.value) {
            (Insertion::Text, None) => self.insert(text),
            (Insertion::Text, Some(n)) if text.is_empty() => self.insert(&[byte_of(n)]),
            (Insertion::Tab, None) => self.insert_behind(TAB, text),
            _ => Err(Stuck::Code(Code::Iia)),
        }
    }
}
