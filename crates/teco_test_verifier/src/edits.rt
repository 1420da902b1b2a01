//! Edits by hosts that fail at the nth call, and runs of macros that are not ready. Cases say what edits make.
ghost use Rattle.std.specs.Prelude.{⊤};

use crate::subjects::{TableRow, expect_all, library_of};
use std::alloc::Global;
use std::process::Abort;
use std::test::*;
use teco_apply::*;
use teco_base::bytes::ESC;
use teco_base::{Code, LIMIT, Reg};
use teco_hosts::{Host, HostCall, MemHost, TestHost};
use teco_library::Library;
use teco_model::Stop;
use teco_run::{Machine, Stopped};
use teco_session::Listener;
use teco_text::{TextStore, VecText};
use teco_verified_runs::*;
use teco_verify::{Refusal, Verified, check_certificate, verify};

/// Puts a mark behind each `foo`.
const MARKS: &[u8] = b"@^UA/J<Sfoo\x1b;I!\x1b>/";

/// Changes nothing, in three steps: the call, the command and the return.
const STAYS: &[u8] = b"@^UA/J/";

/// Types the page.
const TYPES: &[u8] = b"@^UA/HT/";

/// Two pages, each with a word to be marked.
const TWO: &[u8] = b"xfoo\x0cfoo";

// Refuses a run where so many characters are held.
#[derive(Clone, Copy)]
struct Refusing(u128);

impl Guard for Refusing {
    ghost answers = { λ _ _ _ _. ⊤ };

    fn admits(&self, held: u128, _unread: Option<u64>) -> bool {
        held != self.0
    }
}

// Counts what a guard is asked and what is heard.
#[derive(Clone, Copy, Default)]
struct GuardCounts {
    asked: u64,
    heard: u64,
    held: u128,
    unread: Option<u64>,
}

impl<H: Host> Listener<H> for GuardCounts {
    fn stopped<T: TextStore>(
        &mut self,
        _text: &[u8],
        _stopped: &Stopped,
        _machine: &Machine<T>,
        _host: &H,
    ) {
        self.heard = self.heard.saturating_add(1);
    }

    fn rest(&mut self, _code: Option<Code>) {}
}

impl<H: Host> Observer<H> for GuardCounts {
    fn asked(&mut self, asked: Asked, _host: &H) {
        self.asked = self.asked.saturating_add(1);
        self.held = asked.held;
        self.unread = asked.unread;
    }
}

/// Which call of a host fails, and the how manieth, if one does.
type Failing = (HostCall, u64);

const NONE: Failing = (HostCall::Read, 0);

// A host with a file `in` of this text that fails so. One that fails moves a byte in a call.
fn failing_host(alloc: Global, input: &[u8], (call, nth): Failing) -> Option<TestHost> {
    let mut mem = MemHost::new(alloc);
    mem.put(b"in", input).ok()?;
    let piece = if nth == 0 { 4096 } else { 1 };
    Some(TestHost::new(mem, piece, call, nth))
}

// Did a code end an edit, or a guard or neither, behind how many pages and in how many steps?
type EndedEdit = (bool, bool, u64, u64);

// A machine with no text. None where memory for it is refused.
fn new_machine(alloc: Global) -> Option<Box<Machine<VecText>>> {
    Box::new(alloc, Machine::new(alloc, VecText::new(alloc))).ok()
}

// Edits pages of the file `in` of a host into the file `out`. None where there is no end, or an output is left open.
fn edited_on(
    machine: &mut Machine<VecText>,
    (alloc, verified): (Global, &Verified<'_>),
    (pages, refused): (PageChoice, u128),
    host: &mut TestHost,
    written: &mut Vec<u8>,
) -> Option<(EndedEdit, GuardCounts)> {
    let mut seen = GuardCounts::default();
    let promise = verified.promise();
    let edit = Edit {
        alloc,
        promise: &promise,
        source: b"in",
        target: b"out",
        given: None,
        pages,
        guard: &Refusing(refused),
    };
    match edit_file(machine, &edit, host, written, &mut seen) {
        Ok(done) if !machine.has_output() => {
            Some(((done.coded, done.refused, done.pages, done.steps), seen))
        }
        _ => None,
    }
}

fn edited_by(
    alloc: Global,
    verified: &Verified<'_>,
    choice: (PageChoice, u128),
    host: &mut TestHost,
    written: &mut Vec<u8>,
) -> Option<(EndedEdit, GuardCounts)> {
    let mut machine = new_machine(alloc)?;
    edited_on(machine.as_mut(), (alloc, verified), choice, host, written)
}

// Edits the first page alone, and tells no pages and no steps.
fn edited_first_alone(
    alloc: Global,
    verified: &Verified<'_>,
    host: &mut TestHost,
    written: &mut Vec<u8>,
) -> Option<(EndedEdit, GuardCounts)> {
    let mut machine = new_machine(alloc)?;
    let on = machine.as_mut();
    match apply(alloc, on, verified, None, b"in", b"out", host, written) {
        Ok(done) if !done.exit && !machine.as_ref().has_output() => {
            Some(((done.coded, false, 0, 0), GuardCounts::default()))
        }
        _ => None,
    }
}

// How many steps a verified macro takes on the first of two pages of three characters, if it comes to its end.
fn edited_first(alloc: Global, verified: &Verified<'_>) -> Option<u64> {
    let mut host = failing_host(alloc, b"foo\x0cbar", NONE)?;
    let mut written = Vec::new(alloc);
    match edited_by(
        alloc,
        verified,
        (PageChoice::First, 0),
        &mut host,
        &mut written,
    )? {
        ((false, false, 1, steps), _) => Some(steps),
        _ => None,
    }
}

// A file, if it is there.
type FileThere = Option<&'static [u8]>;

// Edits the file `TWO` by the macro A: pages, or the first alone. Is this written, too, and the file `out` this?
fn edited(
    alloc: Global,
    file: &[u8],
    (pages, refused): (Option<PageChoice>, u128),
    failing: Failing,
    (wanted, out): (&[u8], FileThere),
) -> Option<(EndedEdit, GuardCounts, bool)> {
    let library = library_of(alloc, file)?;
    let verified = verify(alloc, &library, Reg::default()).ok()?;
    let mut host = failing_host(alloc, TWO, failing)?;
    let mut written = Vec::new(alloc);
    let (files, to) = (&mut host, &mut written);
    let (ended, seen) = match pages {
        Some(pages) => edited_by(alloc, &verified, (pages, refused), files, to)?,
        None => edited_first_alone(alloc, &verified, files, to)?,
    };
    let is_left = written.as_slice() == wanted && host.mem().file(b"out") == out;
    Some((ended, seen, is_left))
}

// Where how many characters held are refused, how the edit ends, if that is said, of how many runs the guard was
// asked, how much was held and unread at the last, how many strings were heard, if that is said, and the file `out`.
struct GuardedEdit(
    u128,
    Option<EndedEdit>,
    (u64, u128, u64),
    Option<u64>,
    FileThere,
);

// The first run is refused, and the second. Or none is, and heard are what opens the files, two runs,
// what turns to the second page, and what closes the output; the page and the 12 characters of the
// macro are held, and all has been read.
const GUARDED: &[GuardedEdit] = &[
    GuardedEdit(16, Some((false, true, 0, 0)), (1, 16, 3), None, None),
    GuardedEdit(15, None, (2, 15, 0), None, None),
    GuardedEdit(0, None, (2, 15, 0), Some(5), Some(b"xfoo!\x0cfoo!")),
];

impl TableRow for GuardedEdit {
    fn holds(&self, alloc: Global) -> Option<bool> {
        let how = (Some(PageChoice::Each), self.0);
        let (ended, seen, is_left) = edited(alloc, MARKS, how, NONE, (b"", self.4))?;
        let (asked, held, unread) = self.2;
        let is_seen = (seen.asked, seen.held, seen.unread) == (asked, held, Some(unread));
        let is_heard = self.3.is_none() || self.3 == Some(seen.heard);
        let is_ended = self.1.is_none() || self.1 == Some(ended);
        Some(is_seen && is_heard && is_ended && is_left)
    }
}

// Which call fails, which pages are edited, what is written, and the pages and steps before the output is dropped.
struct Dropped(HostCall, u64, PageChoice, &'static [u8], u64, u64);

const DROPPED: &[Dropped] = &[
    Dropped(HostCall::OpenIn, 1, PageChoice::Each, b"?FNF\r\n", 0, 0),
    Dropped(HostCall::Read, 6, PageChoice::Each, b"?INP\r\n", 1, 3),
    Dropped(HostCall::Write, 1, PageChoice::Each, b"?OUT\r\n", 1, 3),
    Dropped(HostCall::CloseOut, 1, PageChoice::Each, b"?OUT\r\n", 2, 6),
    Dropped(HostCall::Read, 6, PageChoice::Whole, b"?INP\r\n", 0, 0),
    Dropped(HostCall::Write, 1, PageChoice::Whole, b"?OUT\r\n", 1, 3),
];

impl TableRow for Dropped {
    fn holds(&self, alloc: Global) -> Option<bool> {
        let (how, failing) = ((Some(self.2), 0), (self.0, self.1));
        let (ended, _, is_left) = edited(alloc, STAYS, how, failing, (self.3, None))?;
        Some(is_left && ended == (true, false, self.4, self.5))
    }
}

// Which close of an output fails, so that it is dropped, what is written, and the file `out`.
struct FirstPage(u64, &'static [u8], FileThere);

const FIRST_PAGES: &[FirstPage] = &[
    FirstPage(2, b"xfoo", Some(TWO)),
    FirstPage(1, b"xfoo?OUT\r\n", None),
];

impl TableRow for FirstPage {
    fn holds(&self, alloc: Global) -> Option<bool> {
        let failing = (HostCall::CloseOut, self.0);
        let (ended, _, is_left) = edited(alloc, TYPES, (None, 0), failing, (self.1, self.2))?;
        Some(is_left && ended == (self.2.is_none(), false, 0, 0))
    }
}

#[test]
fn files_are_edited_or_outputs_dropped(rt: HostRuntime) {
    expect_all(&rt, rt.alloc(), GUARDED);
    expect_all(&rt, rt.alloc(), DROPPED);
    expect_all(&rt, rt.alloc(), FIRST_PAGES);
}

// What the run of a macro on an empty machine comes to, with an argument where one is given.
fn stop_of(alloc: Global, verified: &Verified<'_>, given: Option<i32>) -> Result<Stop, NotReady> {
    let mut machine = new_machine(alloc).ok_or(NotReady::Memory)?;
    let (on, host) = (machine.as_mut(), &mut MemHost::new(alloc));
    match given {
        Some(n) => run_verified_with(on, verified, n, host),
        None => run_verified(on, verified, host),
    }
}

// What is asked for first, if anything is.
fn asked_for(stop: Result<Stop, NotReady>) -> Option<&'static str> {
    match stop {
        Ok(Stop::Ended { .. }) => Some("nothing"),
        Ok(_) => Some("another end"),
        Err(NotReady::NoInput) => Some("an input"),
        Err(NotReady::NoOutput) => Some("an output"),
        Err(NotReady::Argument) => Some("an argument"),
        Err(NotReady::Memory) => None,
    }
}

/// A text is put in as often as an argument from 1 to 10 says, or three times.
const REPEATS: &[u8] = b"!TECO-LIB 2 A 1 10!@^UA/<Ia\x1b>/";

const THRICE: &[u8] = b"@^UA/3<Ia\x1b>/";

/// A library, an argument, and what is asked for.
struct Asking(&'static [u8], Option<i32>, &'static str);

// Files are asked for, and before an argument.
const ASKING: &[Asking] = &[
    Asking(b"!TECO-LIB 2 A 1 10!@^UA/<A>/", Some(0), "an input"),
    Asking(b"!TECO-LIB 2 A 1 10!@^UA/<P>/", Some(0), "an output"),
    Asking(b"@^UA/AP/", None, "an input"),
    Asking(b"@^UA/<Nfoo\x1b;I!\x1b>/", None, "an output"),
    Asking(REPEATS, Some(10), "nothing"),
    Asking(REPEATS, Some(11), "an argument"),
    Asking(REPEATS, Some(i32::MIN), "an argument"),
    Asking(REPEATS, None, "an argument"),
    Asking(THRICE, Some(3), "an argument"),
    Asking(THRICE, None, "nothing"),
];

impl TableRow for Asking {
    fn holds(&self, alloc: Global) -> Option<bool> {
        let library = library_of(alloc, self.0)?;
        let verified = verify(alloc, &library, Reg::default()).ok()?;
        let found = asked_for(stop_of(alloc, &verified, self.1))?;
        Some(found == self.2)
    }
}

#[test]
fn runs_ask_for_files_and_arguments(rt: HostRuntime) {
    expect_all(&rt, rt.alloc(), ASKING);
}

// Does the checker accept a text as the certificate of a macro, and is it that of the macro?
fn is_accepted(alloc: Global, verified: &Verified<'_>, text: &[u8]) -> bool {
    if text.len() > LIMIT {
        return false;
    }
    match check_certificate(alloc, verified.library(), text) {
        Ok(checked) => matches!(checked.certificate(alloc), Ok(own) if own.as_slice() == text),
        Err(_) => false,
    }
}

// Does the checker accept the certificate of a macro?
fn is_certified(alloc: Global, verified: &Verified<'_>) -> bool {
    matches!(verified.certificate(alloc), Ok(text) if is_accepted(alloc, verified, &text))
}

// Does a macro end on the first of two pages, of three characters each, in no more steps than it may?
fn keeps_its_word(alloc: Global, verified: &Verified<'_>) -> bool {
    let length = match verified.text(verified.entry()) {
        Some(text) => text.len() as u64,
        None => 0,
    };
    let most = verified.commands().at(length.saturating_add(6));
    match (edited_first(alloc, verified), most) {
        (Some(steps), Some(most)) => steps <= most,
        _ => false,
    }
}

// Does the macro that is two bytes keep its word, or is it refused at a register? A file that is no library has none.
fn has_verdict(alloc: Global, [a, b]: [u8; 2]) -> bool {
    let Ok(library) = Library::read(alloc, &[b'^', b'U', b'A', a, b, ESC]) else {
        return true;
    };
    match verify(alloc, &library, Reg::default()) {
        Ok(verified) => is_certified(alloc, &verified) && keeps_its_word(alloc, &verified),
        Err(Refusal::No { register, .. }) => register.is_some(),
        Err(Refusal::Memory) => false,
    }
}

// Macros of two bytes have verdicts, from one number of them to before another.
fn expect_verdicts(rt: &(impl Abort + AllocGlobal), from: u16, to: u16) {
    for number in from..to {
        assert!(rt;
            has_verdict(rt.alloc(), number.to_be_bytes()),
            "macro {number}"
        );
    }
}

#[test]
fn two_bytes_up_to_a_question_mark_are_refused_or_keep_their_word(rt: HostRuntime) {
    expect_verdicts(&rt, 0x2000, 0x4000);
}

#[test]
fn two_bytes_from_an_at_sign_on_are_refused_or_keep_their_word(rt: HostRuntime) {
    expect_verdicts(&rt, 0x4000, 0x6000);
}
