//! What searches leave.
ghost use Rattle.std.specs.Prelude.{◌≡◌, ◌≤◌, ◌++◌, ⊤, length, OnOk, OnErr, vec_capacity};
ghost use Rattle.teco_base.specs.Does.{Updates, memory_where};
ghost use Rattle.teco_model.specs.Search as model;
ghost use Rattle.teco_editor.specs.Commands.{stuck_cause};
ghost use Rattle.teco_text.specs.Answers.{IsPart};

use crate::editor::Editor;
use crate::stuck::Stuck;
use std::alloc::AllocError;
use teco_model::Span;
use teco_text::TextStore;

// Makes room for a text of this length in the place of one.
pub(crate) fn make_room(kept: &mut Vec<u8>, len: usize) -> Result<(), AllocError>
    ensures items { kept.new.items ≡ kept.old.items }
    ensures room { OnOk result (len ≤ vec_capacity kept.new) }
{
    kept.reserve(len.saturating_sub(kept.len()))
}

// Writes a text in the place of one.
#[inline(never)]
fn write_text(kept: &mut Vec<u8>, text: &[u8])
    requires { length text.now ≤ vec_capacity kept.old }
    ensures { kept.new.items ≡ text.now }
{
    kept.clear();
    // there is room for it, so it is not refused
    let _ = kept.extend_from_slice(text);
}

// Puts a text in the place of one; an empty text changes nothing. What stands there already is not
// written again.
#[inline(always)]
pub(crate) fn put_text(kept: &mut Vec<u8>, text: &[u8])
    requires { length text.now ≤ vec_capacity kept.old }
    ensures { kept.new.items ≡ model.text_or text.now kept.old.items }
{
    if text.is_empty() || kept.as_slice() == text {
        return;
    }
    write_text(kept, text);
}

impl<T: TextStore> Editor<T> {
    /// The last search text, as it was written.
    pub fn search_text(&self) -> &[u8]
        ensures { result.now ≡ self.now.search_text }
    {
        &self.search_text
    }

    /// The search mode: 0 where letters match in either case.
    pub fn mode(&self) -> i32
        ensures { result ≡ self.now.mode }
    {
        self.mode
    }

    /// A search text becomes the last one; an empty one means that, and changes nothing.
    pub fn keep_search_text(&mut self, text: &[u8]) -> Result<(), AllocError>
        ensures kept { OnOk result (self.new ≡
            record self.old { search_text = model.search_text_of text.now self.old }) }
        ensures err { OnErr result (self.new ≡ self.old) }
    {
        make_room(&mut self.search_text, text.len())?;
        put_text(&mut self.search_text, text);
        Ok(())
    }

    /// A search that missed goes to the start of the buffer, and its search text is kept; a message
    /// of it is typed. All of that or nothing.
    pub fn miss(&mut self, text: &[u8], message: &[u8]) -> Result<(), AllocError>
        ensures missed { OnOk result (self.new ≡ record self.old {
          pointer = 0;
          search_text = model.search_text_of text.now self.old;
          typed = self.old.typed ++ message.now;
        }) }
        ensures err { OnErr result (self.new ≡ self.old) }
    {
        make_room(&mut self.search_text, text.len())?;
        self.keep_typed_cap(message.len())?;
        self.screen.type_bytes(message)?;
        put_text(&mut self.search_text, text);
        self.set_dot(0);
        Ok(())
    }

    /// The pointer goes behind a match, whose length is the last length.
    pub fn go_behind(&mut self, found: Span)
        requires { IsPart self.old.text found.start found.end }
        ensures { self.new ≡ model.kept_at found self.old }
    {
        // the size tells that no part of the text is too long
        let _size = self.size();
        self.set_dot(found.end);
        self.last_length = found.end - found.start;
    }

    /// Puts a text in the place of a match, and goes behind it; the search text is kept as the last
    /// one.
    #[inline(always)]
    pub fn replace(&mut self, found: Span, new: &[u8], text: &[u8]) -> Result<(), Stuck>
        requires { IsPart self.old.text found.start found.end }
        ensures { Updates stuck_cause (memory_where (λ _. ⊤)) self.old self.new
            (model.replacement found new.now (record self.old {
              search_text = model.search_text_of text.now self.old;
            })) result }
    {
        make_room(&mut self.search_text, text.len())?;
        self.screen.replace(found.start, found.end, new)?;
        self.last_length = new.len();
        put_text(&mut self.search_text, text);
        Ok(())
    }
}
