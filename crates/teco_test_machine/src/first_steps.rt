//! The examples that stand in the documentation of texts, pages, runs and sessions.
use crate::trial::machine_over;
use std::alloc::Global;
use std::process::Abort;
use teco_hosts::{Fault, MemHost, Pages};
use teco_run::{Machine, Stop};
use teco_session::{SessionFault, session};
use teco_text::{GapText, TextFault, TextStore};

fn edits_a_text(alloc: Global) -> Result<bool, TextFault> {
    let mut text = GapText::new(alloc);
    text.insert(b"one two")?;
    text.delete(3, 7)?;
    Ok(text.dot() == 3 && text.at(0) == Some(b'o') && text.at(3).is_none())
}

fn reads_a_page(pages: &mut Pages, host: &mut MemHost) -> Result<bool, Fault> {
    host.put(b"in", b"first\x0csecond")?;
    pages.open_in(b"in", host)?;
    pages.next_page(host)?;
    Ok(matches!(pages.page(), Some((b"first", true))))
}

fn writes_a_file(pages: &mut Pages, host: &mut MemHost) -> Result<bool, Fault> {
    pages.open_out(b"out", host)?;
    pages.write_page(b"one ", b"two", false, host)?;
    pages.close_out(host)?;
    Ok(matches!(host.file(b"out"), Some(b"one two")))
}

fn pages_are_moved(alloc: Global) -> bool {
    let (mut pages, mut host) = (Pages::new(alloc), MemHost::new(alloc));
    let is_read = matches!(reads_a_page(&mut pages, &mut host), Ok(true));
    is_read && matches!(writes_a_file(&mut pages, &mut host), Ok(true))
}

fn runs_a_string(alloc: Global) -> bool {
    let mut machine = Machine::new(alloc, GapText::new(alloc));
    let stop = machine.run(b"Iabc\x1bHT", 1_000, &mut MemHost::new(alloc));
    let typed = machine.take_typed();
    matches!(stop, Stop::Ended { .. }) && typed.as_slice() == b"abc".as_slice()
}

fn types_abc(alloc: Global, machine: &mut Machine<GapText>) -> Result<bool, SessionFault> {
    let (mut keys, mut typed) = (b"Iabc\x1bHT\x1b\x1b".as_slice(), Vec::new(alloc));
    let (from, to, host) = (&mut keys, &mut typed, &mut MemHost::new(alloc));
    let done = session(alloc, machine, from, to, host, 1_000)?;
    Ok(!done.coded && typed.as_slice() == b"abc".as_slice())
}

fn runs_a_session(alloc: Global) -> bool {
    match machine_over(alloc, GapText::new(alloc)) {
        Some(mut machine) => matches!(types_abc(alloc, machine.as_mut()), Ok(true)),
        None => false,
    }
}

fn all_hold(alloc: Global) -> bool {
    matches!(edits_a_text(alloc), Ok(true))
        && pages_are_moved(alloc)
        && runs_a_string(alloc)
        && runs_a_session(alloc)
}

// The second time at the latest: a growth may be refused the first time.
#[test]
fn examples_hold(rt: HostRuntime) {
    assert!(rt; all_hold(rt.alloc()) || all_hold(rt.alloc()));
}
