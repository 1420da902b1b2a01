//! The commands of pages.
ghost use Rattle.std.specs.Prelude.{◌≡◌, ◌≤◌, ⊤, true, None, IsSome, IfOk, MatchOption, MatchResult, []};
ghost use Rattle.teco_base.specs.declared.code.Code.TheVariants as code;
ghost use Rattle.teco_model.specs.Memory.{reads_page, taken_at};
ghost use Rattle.teco_model.specs.Outside.{in_pages, page_reply, pages_reply};
ghost use Rattle.teco_model.specs.Paging as model;
ghost use Rattle.teco_model.specs.State.{Frame};
ghost use Rattle.teco_model.specs.declared.kind.Kind.TheVariants as kind;
ghost use Rattle.teco_model.specs.declared.kind.Page.TheVariants as page_kind;
ghost use Rattle.teco_filing.specs.Halts.{Counts};
ghost use Rattle.teco_run.specs.Holdings.{Joined};
ghost use Rattle.teco_run.specs.Replies.{Answers, IsNoRange, IsStraight, IsWritten, Works, page_done, reads_one};
ghost use Rattle.teco_run.specs.Touched.{TouchesBetween};

use crate::course::{Course, then};
use crate::desk::Desk;
use crate::pending::Pending;
use teco_base::Code;
use teco_filing::{self as filing, Halt};
use teco_hosts::{Host, Pages};
use teco_model::Taken;
use teco_model::kind::Page;
use teco_text::TextStore;

/// How many pages or matches there are to be, one at least.
pub fn count(n: i32) -> Result<u32, Code>
    ensures value { result ≡ model.page_count n }
    ensures some { IfOk result (λ n. 1 ≤ n) }
{
    match u32::try_from(n) {
        Ok(n) if n > 0 => Ok(n),
        _ => Err(Code::Arg),
    }
}

/// What is written needs an output.
pub fn need_output(pages: &Pages) -> Result<(), Code>
    ensures some { IfOk result (λ _. IsSome pages.now.output) }
    ensures none { MatchResult result (λ _. ⊤) (λ c. (c ≡ code.Nfo) × (pages.now.output ≡ None)) }
{
    match pages.output_name() {
        Some(_) => Ok(()),
        None => Err(Code::Nfo),
    }
}

// Reads a page, turns one or writes one.
fn one_page<T: TextStore, H: Host>(desk: &mut Desk<T>, page: Page, host: &mut H) -> Result<(), Halt>
    requires { IsWritten page → IsSome desk.old.held.output }
    ensures works { Joined (λ old new. Works (kind.Page page) (reads_one page)
        (page_done page old) old new result)
        desk.old desk.new (H.files host.old) (H.files host.new) }
    ensures counted { Counts result (H.failures host.old) (H.failures host.new) }
    ensures noted { TouchesBetween [] desk.old desk.new (H.files host.old) (H.files host.new) }
{
    match page {
        Page::Yank => filing::yank(&mut desk.editor, &mut desk.pages, host),
        Page::Append => filing::append(&mut desk.editor, &mut desk.pages, host),
        Page::Next => filing::turn_page(&mut desk.editor, &mut desk.pages, &[], host),
        Page::Write => filing::write_page(&desk.editor, &desk.pages, host),
    }
}

// `Y` reads the next page.
fn yank<T: TextStore, H: Host>(
    desk: &mut Desk<T>,
    pending: &mut Pending,
    host: &mut H,
) -> Result<Course, Halt>
    ensures answers { (frame : Frame) → Joined (λ old new. Answers
        (kind.Page page_kind.Yank) true frame pending.new
        (page_reply page_kind.Yank pending.old.left pending.old.arguments old) old new result)
        desk.old desk.new (H.files host.old) (H.files host.new) }
    ensures counted { Counts result (H.failures host.old) (H.failures host.new) }
    ensures noted { TouchesBetween [] desk.old desk.new (H.files host.old) (H.files host.new) }
    ensures straight { IfOk result IsStraight }
{
    pending.take()?;
    then(one_page(desk, Page::Yank, host), Course::Behind)
}

// `nA` gives the code of a character, and `A` alone appends the next page.
fn append<T: TextStore, H: Host>(
    desk: &mut Desk<T>,
    pending: &mut Pending,
    host: &mut H,
) -> Result<Course, Halt>
    ensures answers { (frame : Frame) → Joined (λ old new. Answers (kind.Page page_kind.Append)
        (reads_page page_kind.Append pending.old.left (taken_at pending.old.arguments.level))
        frame pending.new
        (page_reply page_kind.Append pending.old.left pending.old.arguments old) old new result)
        desk.old desk.new (H.files host.old) (H.files host.new) }
    ensures counted { Counts result (H.failures host.old) (H.failures host.new) }
    ensures noted { TouchesBetween [] desk.old desk.new (H.files host.old) (H.files host.new) }
    ensures straight { IfOk result IsStraight }
{
    let Some(n) = pending.take()?.value else {
        return then(one_page(desk, Page::Append, host), Course::Behind);
    };
    pending.arguments.answer(desk.editor.character(n));
    Ok(Course::Behind)
}

// Does one of so many pages.
fn one_of<T: TextStore, H: Host>(
    desk: &mut Desk<T>,
    page: Page,
    n: u32,
    pending: &mut Pending,
    host: &mut H,
) -> Result<Course, Halt>
    requires some { 1 ≤ n }
    ensures answers { (frame : Frame) → Joined (λ old new. Answers (kind.Page page) (reads_one page)
        frame pending.new
        (in_pages pending.old.arguments (model.one_page_of (page_done page) n old)) old new result)
        desk.old desk.new (H.files host.old) (H.files host.new) }
    ensures counted { Counts result (H.failures host.old) (H.failures host.new) }
    ensures noted { TouchesBetween [] desk.old desk.new (H.files host.old) (H.files host.new) }
    ensures straight { IfOk result IsStraight }
{
    need_output(&desk.pages)?;
    let done = one_page(desk, page, host);
    then(done, pending.leave(n - 1))
}

// The range of two values, if both are taken.
fn range(taken: Taken) -> Option<(i32, i32)>
    ensures { MatchOption result (IsNoRange taken)
        (λ places. (taken.first ≡ Some places.0) × (taken.value ≡ Some places.1)) }
{
    Some((taken.first?, taken.value?))
}

// The first step of `P` and `PW`, with the arguments that it took. It may write a range.
fn first_of<T: TextStore, H: Host>(
    desk: &mut Desk<T>,
    page: Page,
    taken: Taken,
    pending: &mut Pending,
    host: &mut H,
) -> Result<Course, Halt>
    requires written { IsWritten page }
    requires output { IsSome desk.old.held.output }
    ensures answers { (frame : Frame) → Joined (λ old new. Answers (kind.Page page)
        (reads_page page None taken) frame pending.new
        (in_pages pending.old.arguments
        (model.pages_of (page_done page) taken.first taken.value old)) old new result)
        desk.old desk.new (H.files host.old) (H.files host.new) }
    ensures counted { Counts result (H.failures host.old) (H.failures host.new) }
    ensures noted { TouchesBetween [] desk.old desk.new (H.files host.old) (H.files host.new) }
    ensures straight { IfOk result IsStraight }
{
    if let Some((m, n)) = range(taken) {
        let done = filing::write_range(&desk.editor, &desk.pages, m, n, host);
        return then(done, pending.leave(0));
    }
    let n = count(taken.value.unwrap_or(1))?;
    one_of(desk, page, n, pending, host)
}

// `P` and `PW`: the first step, or a further one.
fn write_pages<T: TextStore, H: Host>(
    desk: &mut Desk<T>,
    page: Page,
    pending: &mut Pending,
    host: &mut H,
) -> Result<Course, Halt>
    requires { IsWritten page }
    ensures answers { (frame : Frame) → Joined (λ old new. Answers (kind.Page page)
        (reads_page page pending.old.left (taken_at pending.old.arguments.level)) frame pending.new
        (pages_reply (page_done page) pending.old.left pending.old.arguments old) old new result)
        desk.old desk.new (H.files host.old) (H.files host.new) }
    ensures counted { Counts result (H.failures host.old) (H.failures host.new) }
    ensures noted { TouchesBetween [] desk.old desk.new (H.files host.old) (H.files host.new) }
    ensures straight { IfOk result IsStraight }
{
    if let Some(n) = pending.left() {
        return one_of(desk, page, n, pending, host);
    }
    let taken = pending.take()?;
    need_output(&desk.pages)?;
    first_of(desk, page, taken, pending, host)
}

/// A command of pages. `P` and `PW` stay at their element while pages are left.
#[inline(never)]
pub fn turn_pages<T: TextStore, H: Host>(
    desk: &mut Desk<T>,
    page: Page,
    pending: &mut Pending,
    host: &mut H,
) -> Result<Course, Halt>
    ensures answers { (frame : Frame) → Joined (λ old new. Answers (kind.Page page)
        (reads_page page pending.old.left (taken_at pending.old.arguments.level)) frame pending.new
        (page_reply page pending.old.left pending.old.arguments old) old new result)
        desk.old desk.new (H.files host.old) (H.files host.new) }
    ensures counted { Counts result (H.failures host.old) (H.failures host.new) }
    ensures noted { TouchesBetween [] desk.old desk.new (H.files host.old) (H.files host.new) }
    ensures straight { IfOk result IsStraight }
{
    match page {
        Page::Yank => yank(desk, pending, host),
        Page::Append => append(desk, pending, host),
        Page::Next => write_pages(desk, Page::Next, pending, host),
        Page::Write => write_pages(desk, Page::Write, pending, host),
    }
}
