//! Sessions over memory and both stores. One that is refused a growth is run once more, so that each row holds then.
use std::alloc::Global;
use std::process::Abort;
use teco_base::LIMIT;
use teco_hosts::{Host, MemHost};
use teco_run::Machine;
use teco_session::{Done, SessionFault, session_max};
use teco_text::{GapText, TextStore, VecText};

/// The steps of each string.
pub const STEPS: u64 = 100_000_000;

/// The stores that a machine may edit.
#[derive(Clone, Copy, Debug)]
pub enum TrialStore {
    Flat,
    Gap,
}

/// Every row runs over each.
pub const STORES: &[TrialStore] = &[TrialStore::Flat, TrialStore::Gap];

/// What a session is given: an input, and how long a string may be.
pub type SessionInput<'a> = (&'a [u8], usize);

/// What came of a session: an outcome, what was written, and the buffer and the pointer that are left, front and back.
#[derive(Drop)]
pub struct SessionRan {
    pub outcome: &'static str,
    pub written: Vec<u8>,
    pub is_left: bool,
}

/// What came of a session, in a word.
pub fn word(outcome: Result<Done, SessionFault>) -> &'static str {
    match outcome {
        Ok(Done { exit: true, .. }) => "exit",
        Ok(done) => { if done.coded { "coded" } else { "done" } }
        Err(SessionFault::Read) => "read",
        Err(SessionFault::Write) => "write",
        Err(SessionFault::Memory) => "memory",
        Err(SessionFault::Argument) => "argument",
    }
}

/// Has the machine this buffer and this pointer?
pub fn has<T: TextStore>(machine: &Machine<T>, text: &[u8], pointer: usize) -> bool {
    let (front, back) = machine.text();
    text.starts_with(front)
        && text.ends_with(back)
        && front.len().checked_add(back.len()) == Some(text.len())
        && machine.dot() == pointer
}

/// The codes that are typed where a growth is refused to the machine or to its host.
const REFUSALS: &[&[u8]] = &[b"?MEM", b"?FNF", b"?INP", b"?OUT"];

impl SessionRan {
    /// Did it come to this, and was this written?
    pub fn is(&self, outcome: &str, written: &[u8]) -> bool {
        self.outcome == outcome && self.written.as_slice() == written
    }

    /// May a growth have been refused?
    pub fn may_be_refused(&self) -> bool {
        for code in self.written.windows(4) {
            if REFUSALS.contains(&code) {
                return true;
            }
        }
        self.outcome == "memory" || self.outcome == "write"
    }
}

/// A machine with this text. None where memory for it is refused.
pub fn machine_over<T: TextStore + Drop>(alloc: Global, text: T) -> Option<Box<Machine<T>>> {
    Box::new(alloc, Machine::new(alloc, text)).ok()
}

// The outcome of a session on a machine, and what is written.
fn run_on<T: TextStore, H: Host>(
    alloc: Global,
    machine: &mut Machine<T>,
    host: &mut H,
    given: SessionInput<'_>,
    written: &mut Vec<u8>,
) -> &'static str {
    let mut reader = given.0;
    let (from, max) = (&mut reader, given.1.min(LIMIT));
    word(session_max(alloc, machine, from, written, host, STEPS, max))
}

fn run_with<T: TextStore + Drop, H: Host>(
    alloc: Global,
    store: T,
    host: &mut H,
    given: SessionInput<'_>,
    left: (&[u8], usize),
) -> SessionRan {
    let mut written = Vec::new(alloc);
    let (outcome, is_left) = match machine_over(alloc, store) {
        Some(mut machine) => (
            run_on(alloc, machine.as_mut(), host, given, &mut written),
            has(machine.as_ref(), left.0, left.1),
        ),
        None => ("memory", false),
    };
    SessionRan {
        outcome,
        written,
        is_left,
    }
}

/// Runs a session over a store and a host; `left` is what the buffer and the pointer are to be.
pub fn run_over<H: Host>(
    alloc: Global,
    store: TrialStore,
    host: &mut H,
    given: SessionInput<'_>,
    left: (&[u8], usize),
) -> SessionRan {
    match store {
        TrialStore::Flat => run_with(alloc, VecText::new(alloc), host, given, left),
        TrialStore::Gap => run_with(alloc, GapText::new(alloc), host, given, left),
    }
}

/// What is written, and the buffer and the pointer that are left.
pub type BufferLeft = (&'static [u8], &'static [u8], usize);

/// A session over a store came to what its row says.
pub fn expect(rt: &impl Abort, is_good: bool, line: &str, store: TrialStore) {
    assert!(rt; is_good, "{line}, {store:?}");
}

// What comes of a session over a store, without files, that has no text left. Where it does not write
// what it is to, or ends for want of memory, and a growth may have been refused, it runs once more.
fn run_steady(
    alloc: Global,
    store: TrialStore,
    given: SessionInput<'_>,
    written: &[u8],
) -> SessionRan {
    let ran = run_over(alloc, store, &mut MemHost::new(alloc), given, (b"", 0));
    let is_other = ran.written.as_slice() != written || ran.outcome == "memory";
    if is_other && ran.may_be_refused() {
        run_over(alloc, store, &mut MemHost::new(alloc), given, (b"", 0))
    } else {
        ran
    }
}

/// A session over both stores, which has no text left, writes this.
pub fn expect_ran(
    rt: &(impl Abort + AllocGlobal),
    given: SessionInput<'_>,
    outcome: &str,
    typed: &str,
) {
    for store in STORES {
        let ran = run_steady(rt.alloc(), *store, given, typed.as_bytes());
        expect(rt, ran.is(outcome, typed.as_bytes()), typed, *store);
    }
}
