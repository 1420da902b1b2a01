//! Pages that are read and written.
ghost use Rattle.std.specs.Prelude.{◌≡◌, ◌++◌, [], Ok, None, IsSome};
ghost use Rattle.teco_base.specs.Does.{Updates};
ghost use Rattle.teco_model.specs.Pages.{written_page};
ghost use Rattle.teco_model.specs.Paging as model;
ghost use Rattle.teco_model.specs.State.{Kept};
ghost use Rattle.teco_hosts.specs.Noting.{Touches};
ghost use Rattle.teco_filing.specs.Failures.{reading, turning, writing};
ghost use Rattle.teco_filing.specs.Halts.{Counts, halt_cause};
ghost use Rattle.teco_filing.specs.Worlds.{PutsOut, Together, TellsUnread, with_typed};

use crate::halt::Halt;
use teco_base::Code;
use teco_editor::Editor;
use teco_hosts::{Host, Pages};
use teco_text::TextStore;

/// `Y`: the next page of the input becomes the buffer.
pub fn yank<T: TextStore, H: Host>(
    editor: &mut Editor<T>,
    pages: &mut Pages,
    host: &mut H,
) -> Result<(), Halt>
    ensures reads { Together (λ old new. Updates halt_cause reading old new (model.yank old) result)
        editor.old pages.old editor.new pages.new (H.files host.old) (H.files host.new) }
    ensures counted { Counts result (H.failures host.old) (H.failures host.new) }
    ensures noted { Touches [] pages.old.end pages.new.end
        (H.files host.old) (H.files host.new) }
{
    if pages.input_name().is_none() {
        return Err(Halt::Code(Code::Nfi));
    }
    if pages.output_name().is_some() && editor.size() > 0 {
        return Err(Halt::Code(Code::Yca));
    }
    pages.next_page(host)?;
    let Some((page, form_feed)) = pages.take_page() else {
        unreachable!()
    };
    pages.take_over(editor.take_page(page, form_feed));
    Ok(())
}

/// `A`: the next page of the input comes behind the buffer, if there is one.
pub fn append<T: TextStore, H: Host>(
    editor: &mut Editor<T>,
    pages: &mut Pages,
    host: &mut H,
) -> Result<(), Halt>
    ensures reads { Together (λ old new. Updates halt_cause reading old new
        (model.append old) result)
        editor.old pages.old editor.new pages.new (H.files host.old) (H.files host.new) }
    ensures counted { Counts result (H.failures host.old) (H.failures host.new) }
    ensures noted { Touches [] pages.old.end pages.new.end
        (H.files host.old) (H.files host.new) }
{
    if pages.input_name().is_none() {
        return Err(Halt::Code(Code::Nfi));
    }
    pages.next_page(host)?;
    let Some((page, form_feed)) = pages.page() else {
        unreachable!()
    };
    if page.is_empty() && !form_feed {
        return Ok(());
    }
    editor.add_page(page, form_feed)?;
    pages.accept_page();
    Ok(())
}

/// Is input unread? Its first page is made ready then.
pub fn has_unread<H: Host>(pages: &mut Pages, host: &mut H) -> Result<bool, Halt>
    ensures tells { (kept : Kept) → Together (λ old new. TellsUnread old new result)
        kept pages.old kept pages.new (H.files host.old) (H.files host.new) }
    ensures output { pages.new.output ≡ pages.old.output }
    ensures counted { Counts result (H.failures host.old) (H.failures host.new) }
    ensures noted { Touches [] pages.old.end pages.new.end
        (H.files host.old) (H.files host.new) }
{
    if pages.input_name().is_none() {
        return Ok(false);
    }
    pages.next_page(host)?;
    let Some((page, form_feed)) = pages.page() else {
        unreachable!()
    };
    Ok(form_feed || !page.is_empty())
}

// Where no input is open the next page is an empty one.
fn turn_to_nothing<T: TextStore, H: Host>(
    editor: &mut Editor<T>,
    pages: &Pages,
    text: &[u8],
    host: &mut H,
) -> Result<(), Halt>
    requires output { IsSome pages.now.output }
    requires input { pages.now.input ≡ None }
    ensures turns { Together (λ old new. Updates halt_cause turning old new
        (model.page_turned (model.world_seeking text.now old)) result)
        editor.old pages.now editor.new pages.now (H.files host.old) (H.files host.new) }
    ensures counted { Counts result (H.failures host.old) (H.failures host.new) }
    ensures noted { Touches [] pages.now.end pages.now.end
        (H.files host.old) (H.files host.new) }
{
    look_through(editor, pages, text, &[], host)
}

/// `P`: the buffer is written, and the next page of the input comes in its place; a search text,
/// unless it is empty, becomes the last one.
pub fn turn_page<T: TextStore, H: Host>(
    editor: &mut Editor<T>,
    pages: &mut Pages,
    text: &[u8],
    host: &mut H,
) -> Result<(), Halt>
    requires { IsSome pages.old.output }
    ensures turns { Together (λ old new. Updates halt_cause turning old new
        (model.page_turned (model.world_seeking text.now old)) result)
        editor.old pages.old editor.new pages.new (H.files host.old) (H.files host.new) }
    ensures counted { Counts result (H.failures host.old) (H.failures host.new) }
    ensures noted { Touches [] pages.old.end pages.new.end
        (H.files host.old) (H.files host.new) }
{
    if pages.input_name().is_none() {
        return turn_to_nothing(editor, pages, text, host);
    }
    pages.next_page(host)?;
    editor.write_page(text, pages, host)?;
    let Some((page, form_feed)) = pages.take_page() else {
        unreachable!()
    };
    pages.take_over(editor.take_page(page, form_feed));
    Ok(())
}

/// Where no input is unread the buffer is written, and becomes empty; a search text, unless it is
/// empty, becomes the last one, and a message is typed.
pub fn look_through<T: TextStore, H: Host>(
    editor: &mut Editor<T>,
    pages: &Pages,
    text: &[u8],
    message: &[u8],
    host: &mut H,
) -> Result<(), Halt>
    requires { IsSome pages.now.output }
    ensures looks { Together (λ old new. Updates halt_cause turning old new
        (Ok (with_typed message.now (model.looked_through (model.world_seeking text.now old))))
        result)
        editor.old pages.now editor.new pages.now (H.files host.old) (H.files host.new) }
    ensures counted { Counts result (H.failures host.old) (H.failures host.new) }
    ensures noted { Touches [] pages.now.end pages.now.end
        (H.files host.old) (H.files host.new) }
{
    Ok(editor.look_through(text, message, pages, host)?)
}

// Writes a page in two parts.
fn put_out<H: Host>(
    pages: &Pages,
    first: &[u8],
    second: &[u8],
    form_feed: bool,
    host: &mut H,
) -> Result<(), Halt>
    ensures put_out { PutsOut (written_page (record { text = first.now ++ second.now; ff = form_feed }))
        result
        (H.files host.old) (H.files host.new) (H.failures host.old) (H.failures host.new) }
    ensures noted { Touches [] pages.now.end pages.now.end
        (H.files host.old) (H.files host.new) }
{
    Ok(pages.write_page(first, second, form_feed, host)?)
}

// Writes a text in two parts.
#[tactic(auto, using(crate::proofs::Ends::ends))]
fn put_text_out<H: Host>(
    pages: &Pages,
    first: &[u8],
    second: &[u8],
    host: &mut H,
) -> Result<(), Halt>
    ensures put_out { PutsOut (first.now ++ second.now) result
        (H.files host.old) (H.files host.new) (H.failures host.old) (H.failures host.new) }
    ensures noted { Touches [] pages.now.end pages.now.end
        (H.files host.old) (H.files host.new) }
{
    put_out(pages, first, second, false, host)
}

/// `PW`: the buffer is written, and a form feed.
pub fn write_page<T: TextStore, H: Host>(
    editor: &Editor<T>,
    pages: &Pages,
    host: &mut H,
) -> Result<(), Halt>
    requires { IsSome pages.now.output }
    ensures writes { Together (λ old new. Updates halt_cause writing old new
        (model.page_written old) result)
        editor.now pages.now editor.now pages.now (H.files host.old) (H.files host.new) }
    ensures counted { Counts result (H.failures host.old) (H.failures host.new) }
    ensures noted { Touches [] pages.now.end pages.now.end
        (H.files host.old) (H.files host.new) }
{
    let (first, second) = editor.text();
    put_out(pages, first, second, true, host)
}

/// `m,nP` and `m,nPW`: a range of the buffer is written.
pub fn write_range<T: TextStore, H: Host>(
    editor: &Editor<T>,
    pages: &Pages,
    m: i32,
    n: i32,
    host: &mut H,
) -> Result<(), Halt>
    requires { IsSome pages.now.output }
    ensures writes { Together (λ old new. Updates halt_cause writing old new
        (model.range_written m n old) result)
        editor.now pages.now editor.now pages.now (H.files host.old) (H.files host.new) }
    ensures counted { Counts result (H.failures host.old) (H.failures host.new) }
    ensures noted { Touches [] pages.now.end pages.now.end
        (H.files host.old) (H.files host.new) }
{
    let (first, second) = editor.range_text(m, n)?;
    put_text_out(pages, first, second, host)
}
