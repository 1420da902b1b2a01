//! Editing a file by a verified macro, by pages.
ghost use Rattle.std.specs.Prelude.{◌≡◌, ◌≤◌, ◌<◌, ◌↔◌, Err, length};
ghost use Rattle.teco_apply.specs.Apply.{LineCounts};
ghost use Rattle.teco_apply.specs.ByPages.{AllPages, EachPage, EditsPages, EditsText, FileCounts, FileEdited};
ghost use Rattle.teco_apply.specs.ByPages.{FromStart, Gathers, Once, PagesCount, is_dropped, order_by};
ghost use Rattle.teco_apply.specs.Sure.{PromisedCall, IsTaken, TakesArgument};
ghost use Rattle.teco_apply.specs.Touched.{EditTouches, TouchesByParts, TouchesOpening};
ghost use Rattle.teco_base.specs.declared.TheConstants.{LIMIT};
ghost use Rattle.teco_run.specs.Holdings.{Joined};
ghost use Rattle.teco_session.specs.declared.fault.SessionFault.TheVariants as fault;

use crate::editing::{Heard, answer_text, drop_if_coded, opening, tell};
use crate::guard::{Guard, Observer, Order};
use crate::run::{PromisedCall, takes};
use crate::stages::{Ran, Tally, Turned, close, not_begun, run_admitted, turn};
use std::alloc::Global;
use std::io::Write;
use teco_base::bytes::ESC;
use teco_hosts::Host;
use teco_hosts::laws::notes_fit;
use teco_model::Stop;
use teco_options::{NAME, PageChoice};
use teco_promise::Promise;
use teco_run::Machine;
use teco_session::{Listener, SessionFault};
use teco_text::TextStore;

/// How many pages an edit takes; more are answered with `LIM`.
pub const PAGES: u64 = 4_294_967_296;

/// How a file is edited.
#[derive(Drop)]
pub struct Edit<'a, G: Guard> {
    /// What the memory of its first command string comes from.
    pub alloc: Global,
    /// What is promised of the macro that edits it.
    pub promise: &'a Promise<'a>,
    /// The name of the file.
    pub source: &'a [u8],
    /// The name of the file that is made.
    pub target: &'a [u8],
    /// The macro's argument.
    pub given: Option<i32>,
    /// The pages that are edited.
    pub pages: PageChoice,
    /// What is asked before each run.
    pub guard: &'a G,
}

/// What came of an edit.
#[derive(Clone, Copy)]
pub struct Edited {
    /// Was a code line written?
    pub coded: bool,
    /// Did the guard refuse a run?
    pub refused: bool,
    /// On how many pages the macro came to its end.
    pub pages: u64,
    /// In how many steps together, or the greatest number if it took more.
    pub steps: u64,
}

// Runs the macro on what is read, and closes the output.
fn edit_once<T: TextStore, H: Host, W: Write, G: Guard, O: Observer<H>>(
    machine: &mut Machine<T>,
    order: &Order<'_, G>,
    host: &mut H,
    writer: &mut W,
    observer: &mut O,
) -> Result<Edited, SessionFault>
    requires { TakesArgument order.now.call.now }
    ensures edits { Joined (λ old new. Once (order_by (G.answers order.now.guard.now) order.now.call.now) old new
        (H.failures host.old) (H.failures host.new)
        (W.contents writer.old) (W.contents writer.new) result)
        machine.old machine.new (H.files host.old) (H.files host.new) }
    ensures touches { TouchesByParts order.now.call.now
        machine.old machine.new (H.files host.old) (H.files host.new) }
    ensures counted { PagesCount result (H.failures host.old) (H.failures host.new) }
{
    let done = Tally::new();
    match run_admitted(machine, order, host, writer, observer) {
        Ok(Ran::On { steps }) => close(machine, done.after(steps), host, writer, observer),
        Ok(Ran::Coded) => Ok(done.edited(true, false)),
        Ok(Ran::Refused) => Ok(done.edited(false, true)),
        Err(fault) => Err(fault),
    }
}

// Runs the macro on each page in turn, as long as bytes are unread behind it, and closes the
// output.
fn edit_each<T: TextStore, H: Host, W: Write, G: Guard, O: Observer<H>>(
    machine: &mut Machine<T>,
    order: &Order<'_, G>,
    host: &mut H,
    writer: &mut W,
    observer: &mut O,
) -> Result<Edited, SessionFault>
    requires { TakesArgument order.now.call.now }
    ensures edits { Joined (λ old new. EachPage
        (order_by (G.answers order.now.guard.now) order.now.call.now) old new
        (H.failures host.old) (H.failures host.new)
        (W.contents writer.old) (W.contents writer.new) result)
        machine.old machine.new (H.files host.old) (H.files host.new) }
    ensures touches { TouchesByParts order.now.call.now
        machine.old machine.new (H.files host.old) (H.files host.new) }
    ensures counted { PagesCount result (H.failures host.old) (H.failures host.new) }
{
    let mut done = Tally::new();
    for _ in 0..PAGES {
        match run_admitted(machine, order, host, writer, observer) {
            Ok(Ran::On { steps }) => done = done.after(steps),
            Ok(Ran::Coded) => return Ok(done.edited(true, false)),
            Ok(Ran::Refused) => return Ok(done.edited(false, true)),
            Err(fault) => return Err(fault),
        }
        match turn(machine, b"P", host, writer, observer) {
            Ok(Turned::On) => {}
            Ok(Turned::Through) => return close(machine, done, host, writer, observer),
            Ok(Turned::Coded) => return Ok(done.edited(true, false)),
            Err(fault) => return Err(fault),
        }
    }
    let stopped = not_begun(Stop::Limit);
    let heard = Heard {
        text: b"P",
        stopped: &stopped,
    };
    done.ended(tell(machine, &heard, host, writer, observer))
}

// Reads all pages behind the first, as long as bytes are unread. Says whether there is a code.
fn gather<T: TextStore, H: Host, W: Write, L: Listener<H>>(
    machine: &mut Machine<T>,
    host: &mut H,
    writer: &mut W,
    listener: &mut L,
) -> Result<bool, SessionFault>
    ensures gathers { Joined (λ old new. Gathers old new
        (H.failures host.old) (H.failures host.new)
        (W.contents writer.old) (W.contents writer.new) result)
        machine.old machine.new (H.files host.old) (H.files host.new) }
    ensures touches { (call : PromisedCall) →
        TouchesByParts call machine.old machine.new (H.files host.old) (H.files host.new) }
    ensures counted { LineCounts result (H.failures host.old) (H.failures host.new) }
{
    let next = &[b'Z', b'J', b'1', b'2', b'I', ESC, b'A'];
    for _ in 0..PAGES {
        match turn(machine, next, host, writer, listener) {
            Ok(Turned::On) => {}
            Ok(Turned::Through) => return Ok(false),
            Ok(Turned::Coded) => return Ok(true),
            Err(fault) => return Err(fault),
        }
    }
    let stopped = not_begun(Stop::Limit);
    let heard = Heard {
        text: next,
        stopped: &stopped,
    };
    tell(machine, &heard, host, writer, listener)
}

// Goes to the start of what is read, runs the macro, and closes the output.
fn edit_from_start<T: TextStore, H: Host, W: Write, G: Guard, O: Observer<H>>(
    machine: &mut Machine<T>,
    order: &Order<'_, G>,
    host: &mut H,
    writer: &mut W,
    observer: &mut O,
) -> Result<Edited, SessionFault>
    requires { TakesArgument order.now.call.now }
    ensures edits { Joined (λ old new. FromStart
        (order_by (G.answers order.now.guard.now) order.now.call.now) old new
        (H.failures host.old) (H.failures host.new)
        (W.contents writer.old) (W.contents writer.new) result)
        machine.old machine.new (H.files host.old) (H.files host.new) }
    ensures touches { TouchesByParts order.now.call.now
        machine.old machine.new (H.files host.old) (H.files host.new) }
    ensures counted { PagesCount result (H.failures host.old) (H.failures host.new) }
{
    match answer_text(machine, b"J", host, writer, observer) {
        Ok(false) => edit_once(machine, order, host, writer, observer),
        Ok(true) => Ok(Tally::new().edited(true, false)),
        Err(fault) => Err(fault),
    }
}

// Reads all pages, and runs the macro on them as one.
fn edit_whole<T: TextStore, H: Host, W: Write, G: Guard, O: Observer<H>>(
    machine: &mut Machine<T>,
    order: &Order<'_, G>,
    host: &mut H,
    writer: &mut W,
    observer: &mut O,
) -> Result<Edited, SessionFault>
    requires { TakesArgument order.now.call.now }
    ensures edits { Joined (λ old new. AllPages
        (order_by (G.answers order.now.guard.now) order.now.call.now) old new
        (H.failures host.old) (H.failures host.new)
        (W.contents writer.old) (W.contents writer.new) result)
        machine.old machine.new (H.files host.old) (H.files host.new) }
    ensures touches { TouchesByParts order.now.call.now
        machine.old machine.new (H.files host.old) (H.files host.new) }
    ensures counted { PagesCount result (H.failures host.old) (H.failures host.new) }
{
    match gather(machine, host, writer, observer) {
        Ok(false) => edit_from_start(machine, order, host, writer, observer),
        Ok(true) => Ok(Tally::new().edited(true, false)),
        Err(fault) => Err(fault),
    }
}

// What is run on which pages, and the command string that opens the files.
#[derive(Drop)]
struct Plan<'a, G: Guard> {
    order: &'a Order<'a, G>,
    pages: PageChoice,
    opening: &'a [u8],
}

// Edits pages once the first is read.
fn edit_pages<T: TextStore, H: Host, W: Write, G: Guard, O: Observer<H>>(
    machine: &mut Machine<T>,
    plan: &Plan<'_, G>,
    host: &mut H,
    writer: &mut W,
    observer: &mut O,
) -> Result<Edited, SessionFault>
    requires { TakesArgument plan.now.order.now.call.now }
    ensures edits { Joined (λ old new. EditsPages plan.now.pages
        (order_by (G.answers plan.now.order.now.guard.now) plan.now.order.now.call.now) old new
        (H.failures host.old) (H.failures host.new)
        (W.contents writer.old) (W.contents writer.new) result)
        machine.old machine.new (H.files host.old) (H.files host.new) }
    ensures touches { TouchesByParts plan.now.order.now.call.now
        machine.old machine.new (H.files host.old) (H.files host.new) }
    ensures counted { PagesCount result (H.failures host.old) (H.failures host.new) }
{
    match plan.pages {
        PageChoice::First => edit_once(machine, plan.order, host, writer, observer),
        PageChoice::Each => edit_each(machine, plan.order, host, writer, observer),
        PageChoice::Whole => edit_whole(machine, plan.order, host, writer, observer),
    }
}

// Opens the files, and edits the pages.
fn edit_opened<T: TextStore, H: Host, W: Write, G: Guard, O: Observer<H>>(
    machine: &mut Machine<T>,
    plan: &Plan<'_, G>,
    host: &mut H,
    writer: &mut W,
    observer: &mut O,
) -> Result<Edited, SessionFault>
    requires taken { TakesArgument plan.now.order.now.call.now }
    requires opening { length plan.now.opening.now ≤ LIMIT }
    ensures edits { Joined (λ old new. EditsText plan.now.pages
        (order_by (G.answers plan.now.order.now.guard.now) plan.now.order.now.call.now)
        plan.now.opening.now old new
        (H.failures host.old) (H.failures host.new)
        (W.contents writer.old) (W.contents writer.new) result)
        machine.old machine.new (H.files host.old) (H.files host.new) }
    ensures touches { TouchesOpening plan.now.order.now.call.now plan.now.opening.now
        machine.old machine.new (H.files host.old) (H.files host.new) }
    ensures counted { PagesCount result (H.failures host.old) (H.failures host.new) }
{
    match answer_text(machine, plan.opening, host, writer, observer) {
        Ok(false) => edit_pages(machine, plan, host, writer, observer),
        Ok(true) => Ok(Tally::new().edited(true, false)),
        Err(fault) => Err(fault),
    }
}

/// Is the output dropped?
pub fn dropped(edited: Result<Edited, SessionFault>) -> Result<bool, SessionFault>
    ensures { result ≡ is_dropped edited }
{
    match edited {
        Ok(edited) => Ok(edited.coded || edited.refused),
        Err(fault) => Err(fault),
    }
}

/// Edits a file by a verified macro into another file, over the files of a host: both are opened
/// and the first page is read; the macro is run on the pages that the edit names, and before each
/// run the guard is asked; then the rest is copied and the output closed. The library's texts are
/// loaded anew before each run. What each of these runs types is written behind it, and its code
/// line. After the first code, and after a refusal of the guard, no more is run, and the output is
/// dropped.
///
/// An argument, the first command string's memory, and a fault of writing are as with `apply`.
///
/// # Errors
///
/// A fault of the writer, or `Memory` for the first command string.
///
/// # Examples
///
/// ```
/// let promise = verified.promise();
/// let edit = Edit {
///     alloc,
///     promise: &promise,
///     source: b"in",
///     target: b"out",
///     given: None,
///     pages,
///     guard: &Refusing(refused),
/// };
/// match edit_file(machine, &edit, host, written, &mut seen) {
/// ```
pub fn edit_file<T: TextStore, H: Host, W: Write, G: Guard, O: Observer<H>>(
    machine: &mut Machine<T>,
    edit: &Edit<'_, G>,
    host: &mut H,
    writer: &mut W,
    observer: &mut O,
) -> Result<Edited, SessionFault>
    requires source { length edit.now.source.now ≤ NAME }
    requires target { length edit.now.target.now ≤ NAME }
    ensures edits { Joined (λ old new. FileEdited edit.now.pages
        (order_by (G.answers edit.now.guard.now)
        (record { promise = edit.now.promise.now; given = edit.now.given }))
        edit.now.source.now edit.now.target.now old new
        (H.failures host.old) (H.failures host.new)
        (W.contents writer.old) (W.contents writer.new) result)
        machine.old machine.new (H.files host.old) (H.files host.new) }
    ensures touches { EditTouches (record { promise = edit.now.promise.now; given = edit.now.given })
        edit.now.source.now edit.now.target.now result
        machine.old machine.new (H.files host.old) (H.files host.new) }
    ensures argument { (result ≡ Err fault.Argument)
        ↔ (¬ IsTaken edit.now.promise.now.argument edit.now.given) }
    ensures counted { FileCounts result (H.failures host.old) (H.failures host.new) }
{
    notes_fit();
    if !takes(edit.promise, edit.given) {
        return Err(SessionFault::Argument);
    }
    let opening = opening(edit.alloc, edit.source, edit.target)?;
    let call = PromisedCall {
        promise: edit.promise,
        given: edit.given,
    };
    let order = Order {
        call: &call,
        guard: edit.guard,
    };
    let plan = Plan {
        order: &order,
        pages: edit.pages,
        opening: opening.as_slice(),
    };
    let edited = edit_opened(machine, &plan, host, writer, observer);
    drop_if_coded(machine, dropped(edited), host);
    edited
}
