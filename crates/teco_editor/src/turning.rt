//! Pages that go out.
ghost use Rattle.std.specs.Prelude.{◌≡◌, ◌++◌, [], OnOk, OnErr};
ghost use Rattle.teco_model.specs.Pages.{first_page, written_page};
ghost use Rattle.teco_model.specs.Paging.{kept_with_page, page_of_buffer};
ghost use Rattle.teco_model.specs.Search.{search_text_of};
ghost use Rattle.teco_hosts.specs.Noting.{Touches};
ghost use Rattle.teco_editor.specs.Turning.{GoesOut};

use crate::editor::Editor;
use crate::finding::{make_room, put_text};
use teco_hosts::{Fault, Host, Pages};
use teco_text::TextStore;

impl<T: TextStore> Editor<T> {
    /// The buffer becomes empty, and no form feed is remembered. Takes no memory.
    pub fn leave_page(&mut self)
        ensures { self.new ≡ kept_with_page (first_page []) self.old }
    {
        // the text has a start and an end
        let end = self.size();
        let _ = self.screen.delete(0, end);
        let _ = self.screen.set_dot(0);
        self.form_feed = false;
    }

    /// The buffer is written as a page, and stays; the search text becomes the last one, unless it
    /// is empty. Memory is refused before the host is called.
    pub fn write_page<H: Host>(
        &mut self,
        text: &[u8],
        pages: &Pages,
        host: &mut H,
    ) -> Result<(), Fault>
        ensures out { GoesOut (written_page (page_of_buffer self.old)) result
            (H.files host.old) (H.files host.new) (H.failures host.old) (H.failures host.new) }
        ensures written { OnOk result (self.new ≡
            record self.old { search_text = search_text_of text.now self.old }) }
        ensures noted { Touches [] pages.now.end pages.now.end
            (H.files host.old) (H.files host.new) }
        ensures err { OnErr result (self.new ≡ self.old) }
    {
        make_room(&mut self.search_text, text.len())?;
        let (first, second) = self.text();
        if let Err(fault) = pages.write_page(first, second, self.form_feed, host) {
            return Err(fault);
        }
        put_text(&mut self.search_text, text);
        Ok(())
    }

    /// The buffer is written as a page, and becomes empty; the search text becomes the last one,
    /// unless it is empty, and a message is typed. Memory is refused before the host is called.
    pub fn look_through<H: Host>(
        &mut self,
        text: &[u8],
        message: &[u8],
        pages: &Pages,
        host: &mut H,
    ) -> Result<(), Fault>
        ensures out { GoesOut (written_page (page_of_buffer self.old)) result
            (H.files host.old) (H.files host.new) (H.failures host.old) (H.failures host.new) }
        ensures through { OnOk result (self.new ≡ kept_with_page (first_page []) (record self.old {
          search_text = search_text_of text.now self.old;
          typed = self.old.typed ++ message.now;
        })) }
        ensures noted { Touches [] pages.now.end pages.now.end
            (H.files host.old) (H.files host.new) }
        ensures err { OnErr result (self.new ≡ self.old) }
    {
        make_room(&mut self.search_text, text.len())?;
        self.keep_typed_cap(message.len())?;
        self.screen.reserve_typed(message.len())?;
        let (first, second) = self.text();
        if let Err(fault) = pages.write_page(first, second, self.form_feed, host) {
            return Err(fault);
        }
        // there is room for the message
        self.screen.type_reserved(message);
        put_text(&mut self.search_text, text);
        self.leave_page();
        Ok(())
    }
}
