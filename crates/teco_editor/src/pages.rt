//! Pages that come into the buffer.
ghost use Rattle.std.specs.Prelude.{◌≡◌, ◌≤◌, ◌++◌, [], length, IsOk, Ok, Err, MatchResult};
ghost use Rattle.teco_base.specs.Does.{Updates, memory_where};
ghost use Rattle.teco_base.specs.declared.TheConstants.{LIMIT};
ghost use Rattle.teco_model.specs.Paging.{kept_with_page, page_added};
ghost use Rattle.teco_model.specs.Places.{text_between};
ghost use Rattle.teco_editor.specs.Commands.{stuck_cause};

use crate::editor::Editor;
use crate::stuck::Stuck;
use teco_base::Code;
use teco_model::Span;
use teco_text::{TextStore, pieces};

impl<T: TextStore> Editor<T> {
    /// Did a form feed end the last page in the buffer?
    pub fn form_feed(&self) -> bool
        ensures { result ≡ self.now.form_feed }
    {
        self.form_feed
    }

    /// The characters between the places that two numbers name, in two pieces of which either may
    /// be empty.
    pub fn range_text(&self, m: i32, n: i32) -> Result<(&[u8], &[u8]), Code>
        ensures { MatchResult result
            (λ lent. text_between m n self.now ≡ Ok (lent.0.now ++ lent.1.now))
            (λ c. text_between m n self.now ≡ Err c) }
    {
        let Span { start, end } = self.range(m, n)?;
        Ok(pieces(self.screen.store(), start, end))
    }

    /// A page becomes the buffer, with the pointer at its start. It is not copied, and the memory
    /// of the buffer before is handed back, with nothing in it.
    pub fn take_page(&mut self, page: Vec<u8>, form_feed: bool) -> Vec<u8>
        requires { length page.items ≤ LIMIT }
        ensures taken { self.new ≡ kept_with_page
            (record { text = page.items; ff = form_feed }) self.old }
        ensures spare { result.items ≡ [] }
    {
        self.form_feed = form_feed;
        self.screen.exchange(page)
    }

    /// A page comes behind the buffer, and the pointer stays. A buffer that would be longer than
    /// `LIMIT` is FUL.
    pub fn add_page(&mut self, page: &[u8], form_feed: bool) -> Result<(), Stuck>
        ensures { Updates stuck_cause (memory_where IsOk) self.old self.new
            (page_added (record { text = page.now; ff = form_feed }) self.old) result }
    {
        let dot = self.dot();
        let end = self.size();
        self.screen.replace(end, end, page)?;
        // the text still has the place
        let _ = self.screen.set_dot(dot);
        self.form_feed = form_feed;
        Ok(())
    }
}
