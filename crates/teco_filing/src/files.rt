//! Files that are opened, closed and copied.
ghost use Rattle.std.specs.Prelude.{◌≡◌, [], Ok, None, Some, IsSome, option_copied};
ghost use Rattle.teco_base.specs.Does.{Does, Updates};
ghost use Rattle.teco_model.specs.Filing as model;
ghost use Rattle.teco_model.specs.State.{Kept};
ghost use Rattle.teco_model.specs.declared.kind.File.TheVariants as file;
ghost use Rattle.teco_hosts.specs.HostFiles.{Told};
ghost use Rattle.teco_hosts.specs.Noting.{Touches};
ghost use Rattle.teco_hosts.specs.PageCalls.{OkOrInOut};
ghost use Rattle.teco_filing.specs.Failures.{copying, letting_go, opening_input, opening_output};
ghost use Rattle.teco_filing.specs.Files.{ClosesAll, WritesAll};
ghost use Rattle.teco_filing.specs.Files.{WritesUnread};
ghost use Rattle.teco_filing.specs.Halts.{Counts, halt_cause};
ghost use Rattle.teco_filing.specs.Touched.{touched_by_writing, touched_in};
ghost use Rattle.teco_filing.specs.Worlds.{Together};

use crate::halt::Halt;
use teco_base::Code;
use teco_editor::Editor;
use teco_hosts::{Fault, Host, Pages};
use teco_text::TextStore;

// A name is not empty, nor that of the other open file.
fn check_name(name: &[u8], other: Option<&[u8]>) -> Result<(), Code>
    ensures { result ≡ model.name_apart_from (option_copied other.entry) name.now }
{
    if name.is_empty() || other == Some(name) {
        return Err(Code::Arg);
    }
    Ok(())
}

/// `ER`: the file of a name becomes the input.
pub fn open_input<H: Host>(pages: &mut Pages, name: &[u8], host: &mut H) -> Result<(), Halt>
    ensures opens { (kept : Kept) → Together
        (λ old new. Does halt_cause opening_input (λ new _. Some new) old new
        (model.open_input name.now old) result)
        kept pages.old kept pages.new (H.files host.old) (H.files host.new) }
    ensures counted { Counts result (H.failures host.old) (H.failures host.new) }
    ensures noted { Touches (touched_in file.Read name.now pages.old.output result) pages.old.end pages.new.end
        (H.files host.old) (H.files host.new) }
{
    check_name(name, pages.output_name())?;
    Ok(pages.open_in(name, host)?)
}

/// `EW`: an output of a name is opened.
pub fn open_output<H: Host>(pages: &mut Pages, name: &[u8], host: &mut H) -> Result<(), Halt>
    ensures opens { (kept : Kept) → Together
        (λ old new. Updates halt_cause opening_output old new
        (model.open_output name.now old) result)
        kept pages.old kept pages.new (H.files host.old) (H.files host.new) }
    ensures counted { Counts result (H.failures host.old) (H.failures host.new) }
    ensures noted { Touches (touched_in file.Write name.now pages.old.output result) pages.old.end pages.new.end
        (H.files host.old) (H.files host.new) }
{
    if pages.output_name().is_some() {
        return Err(Halt::Code(Code::Ofo));
    }
    check_name(name, pages.input_name())?;
    Ok(pages.open_out(name, host)?)
}

/// `EF`: the output takes its name.
pub fn close_output<H: Host>(pages: &mut Pages, host: &mut H) -> Result<(), Halt>
    ensures closes { (kept : Kept) → Together
        (λ old new. Updates halt_cause letting_go old new (model.close_output old) result)
        kept pages.old kept pages.new (H.files host.old) (H.files host.new) }
    ensures counted { Counts result (H.failures host.old) (H.failures host.new) }
    ensures noted { Touches (touched_in file.Close [] pages.old.output result) pages.old.end pages.new.end
        (H.files host.old) (H.files host.new) }
{
    if pages.output_name().is_none() {
        return Err(Halt::Code(Code::Nfo));
    }
    Ok(pages.close_out(host)?)
}

/// `EK`: the output is abandoned, if one is open.
pub fn abandon_output<H: Host>(pages: &mut Pages, host: &mut H) -> Result<(), Halt>
    ensures abandons { (kept : Kept) → Together
        (λ old new. Updates halt_cause letting_go old new (Ok (model.abandon_output old)) result)
        kept pages.old kept pages.new (H.files host.old) (H.files host.new) }
    ensures counted { Counts result (H.failures host.old) (H.failures host.new) }
    ensures noted { Touches (touched_in file.Abandon [] pages.old.output result) pages.old.end pages.new.end
        (H.files host.old) (H.files host.new) }
{
    if pages.output_name().is_none() {
        return Ok(());
    }
    Ok(pages.drop_out(host)?)
}

// Writes all that is unread.
#[tactic(auto, using(crate::proofs::Written::nothing))]
fn write_unread<H: Host>(pages: &mut Pages, host: &mut H) -> Result<(), Fault>
    ensures written { Told (WritesUnread result pages.old) (H.files host.old) (H.files host.new) }
    ensures answer { OkOrInOut result (H.failures host.old) (H.failures host.new) }
    ensures noted { Touches [] pages.old.end pages.new.end
        (H.files host.old) (H.files host.new) }
    ensures input { pages.new.input ≡ pages.old.input }
    ensures output { pages.new.output ≡ pages.old.output }
{
    if pages.input_name().is_none() {
        return Ok(());
    }
    pages.write_rest(host)
}

// Writes the buffer as a page and all that is unread.
fn write_all<T: TextStore, H: Host>(
    editor: &Editor<T>,
    pages: &mut Pages,
    host: &mut H,
) -> Result<(), Fault>
    ensures written { Told (WritesAll result editor.now pages.old)
        (H.files host.old) (H.files host.new) }
    ensures answer { OkOrInOut result (H.failures host.old) (H.failures host.new) }
    ensures noted { Touches [] pages.old.end pages.new.end
        (H.files host.old) (H.files host.new) }
    ensures input { pages.new.input ≡ pages.old.input }
    ensures output { pages.new.output ≡ pages.old.output }
{
    let (first, second) = editor.text();
    match pages.write_page(first, second, editor.form_feed(), host) {
        Ok(()) => write_unread(pages, host),
        Err(fault) => Err(fault),
    }
}

// Writes all and closes the output. With a fault no output is open.
fn write_and_close<T: TextStore, H: Host>(
    editor: &Editor<T>,
    pages: &mut Pages,
    host: &mut H,
) -> Result<(), Fault>
    requires { IsSome pages.old.output }
    ensures closed { Told (ClosesAll result editor.now pages.old)
        (H.files host.old) (H.files host.new) }
    ensures answer { OkOrInOut result (H.failures host.old) (H.failures host.new) }
    ensures noted { Touches (touched_by_writing result) pages.old.end pages.new.end
        (H.files host.old) (H.files host.new) }
    ensures output { pages.new.output ≡ None }
{
    match write_all(editor, pages, host) {
        Ok(()) => pages.close_out(host),
        Err(fault) => {
            // a second fault changes nothing of what is left
            let _ = pages.drop_out(host);
            Err(fault)
        }
    }
}

/// `EC`: the buffer and all that is unread are written, both files are closed, and the buffer
/// becomes empty. With a fault of the host both files are closed all the same, the output is
/// abandoned, and the buffer stays.
pub fn copy_all<T: TextStore, H: Host>(
    editor: &mut Editor<T>,
    pages: &mut Pages,
    host: &mut H,
) -> Result<(), Halt>
    ensures copies { Together (λ old new. Updates halt_cause copying old new
        (model.copy_all old) result)
        editor.old pages.old editor.new pages.new (H.files host.old) (H.files host.new) }
    ensures counted { Counts result (H.failures host.old) (H.failures host.new) }
    ensures noted { Touches (touched_in file.Copy [] pages.old.output result) pages.old.end pages.new.end
        (H.files host.old) (H.files host.new) }
{
    if pages.output_name().is_none() {
        return Err(Halt::Code(Code::Nfo));
    }
    let done = write_and_close(editor, pages, host);
    pages.close_in();
    done?;
    editor.leave_page();
    Ok(())
}

/// `EX`: does so if an output is open.
pub fn exit<T: TextStore, H: Host>(
    editor: &mut Editor<T>,
    pages: &mut Pages,
    host: &mut H,
) -> Result<(), Halt>
    ensures exits { Together (λ old new. Updates halt_cause copying old new
        (Ok (model.exit old)) result)
        editor.old pages.old editor.new pages.new (H.files host.old) (H.files host.new) }
    ensures counted { Counts result (H.failures host.old) (H.failures host.new) }
    ensures noted { Touches (touched_in file.Exit [] pages.old.output result) pages.old.end pages.new.end
        (H.files host.old) (H.files host.new) }
{
    if pages.output_name().is_none() {
        return Ok(());
    }
    copy_all(editor, pages, host)
}
