//! Machines under caps, and where runs stop: what no session reaches. A machine answers `Memory` only where memory is
//! refused; such a run is made once more, so that the rows also hold where one allocation fails.
mod counting;
mod sites;

ghost use Rattle.std.specs.Prelude.{IsTrue};
ghost use Rattle.teco_regs.specs.Texts.{IsTextWithinLimit};

use crate::trial::machine_over;
use std::alloc::{AllocError, Global};
use std::process::Abort;
use teco_base::{Code, LIMIT, REGISTERS, Reg};
use teco_hosts::MemHost;
use teco_model::HostFault;
use teco_run::{Machine, Stop};
use teco_text::VecText;

// The steps of a run that came to its end, or the code that is typed.
type RunAnswer = Result<u64, Code>;

fn answer(stop: Stop) -> RunAnswer {
    match stop {
        Stop::Ended { steps } | Stop::Exit { steps } => Ok(steps),
        Stop::Error(code) => Err(code),
        Stop::HostFault(HostFault::NoFile) => Err(Code::Fnf),
        Stop::HostFault(HostFault::In) => Err(Code::Inp),
        Stop::HostFault(HostFault::Out) => Err(Code::Out),
        Stop::Limit => Err(Code::Lim),
        Stop::Memory => Err(Code::Mem),
    }
}

// A machine with no text. None where memory for it is refused.
fn new_machine(alloc: Global) -> Option<Box<Machine<VecText>>> {
    machine_over(alloc, VecText::new(alloc))
}

// What a command string of at most so many steps comes to on a machine, beside no file.
fn answer_on(
    machine: &mut Machine<VecText>,
    alloc: Global,
    command: &[u8],
    limit: u64,
) -> RunAnswer {
    if command.len() > LIMIT {
        return Err(Code::Lim);
    }
    answer(machine.run(command, limit, &mut MemHost::new(alloc)))
}

// Has a machine typed this?
fn has_typed(machine: &mut Machine<VecText>, typed: &[u8]) -> bool {
    let taken = machine.take_typed();
    taken.as_slice() == typed
}

// How many bytes a machine may type and its texts may take, a command string, what it types, and what it comes to.
type Capped = (usize, &'static [u8], &'static [u8], RunAnswer);

const CAPPED: &[Capped] = &[
    (10, b"<1=>", b"1\r\n1\r\n1\r\n", Err(Code::Mem)),
    (3, b"1=", b"1\r\n", Ok(2)),
    (2, b"1=", b"", Err(Code::Mem)),
    (3, b"Iabcd\x1bHT", b"", Err(Code::Mem)),
    (3, b"@^UA/abcd/:GA", b"", Err(Code::Mem)),
    (5, b"@I/ab/<Sx\x1b>", b"", Err(Code::Mem)),
    (100_000, b"@^UA/MA/MA", b"", Err(Code::Mem)),
];

// Does a row hold of a machine? Where an allocation fails, what is typed is only begun.
fn is_capped_on(machine: &mut Machine<VecText>, alloc: Global, row: &Capped) -> bool {
    machine.set_cap(row.0);
    let got = answer_on(machine, alloc, row.1, 100_000);
    let typed = machine.take_typed();
    let is_as_wanted = got == row.3 && typed.len() == row.2.len();
    row.2.starts_with(&typed) && (got == Err(Code::Mem) || is_as_wanted)
}

fn is_capped(alloc: Global, row: &Capped) -> bool {
    match new_machine(alloc) {
        Some(mut machine) => is_capped_on(machine.as_mut(), alloc, row),
        None => false,
    }
}

// Do macros call one another as deep as a cap lets, and does the next string run then?
fn is_called_deep_on(machine: &mut Machine<VecText>, alloc: Global) -> bool {
    machine.set_cap(1_000_000);
    let got = answer_on(machine, alloc, b"@^UA/%B-1000\"LMA'/MAQB=", 100_000);
    let is_typed = has_typed(machine, b"1000\r\n");
    let next = answer_on(machine, alloc, b"1=", 10);
    machine.drop_typed();
    let is_dropped = has_typed(machine, b"");
    (got == Err(Code::Mem) || is_typed) && next != Err(Code::Lim) && is_dropped
}

fn is_called_deep(alloc: Global) -> bool {
    match new_machine(alloc) {
        Some(mut machine) => is_called_deep_on(machine.as_mut(), alloc),
        None => false,
    }
}

#[test]
fn caps_are_refused_growths(rt: HostRuntime) {
    for row in CAPPED {
        let is_good = is_capped(rt.alloc(), row) || is_capped(rt.alloc(), row);
        assert!(rt; is_good, "{:?}", row.1);
    }
    assert!(rt; is_called_deep(rt.alloc()) || is_called_deep(rt.alloc()));
}

// The texts of a library, each in its register's place.
type LibraryTexts = [Option<&'static [u8]>; REGISTERS];

fn is_short(text: &Option<&[u8]>) -> bool
    ensures { IsTrue result → IsTextWithinLimit text.now }
{
    match text {
        Some(text) => text.len() <= LIMIT,
        None => true,
    }
}

fn load(machine: &mut Machine<VecText>, texts: &LibraryTexts) -> Result<(), AllocError> {
    if texts.iter().all(is_short) {
        machine.load(*texts)?;
    }
    Ok(())
}

// What registers have: how many characters with those of the push-down list, and the texts of A, of B and of 9.
type HeldTexts = (u128, [&'static [u8]; 3]);

fn has_text(machine: &Machine<VecText>, name: u8, text: &[u8]) -> bool {
    machine.regs().text(Reg::of(name).unwrap_or_default()) == text
}

fn holds(machine: &Machine<VecText>, (held, [a, b, nine]): &HeldTexts) -> bool {
    let are_letters = has_text(machine, b'A', a) && has_text(machine, b'B', b);
    are_letters && has_text(machine, b'9', nine) && machine.held() == *held
}

// Are texts loaded, so that registers hold this then? Once more where memory was refused, and nothing loaded.
fn is_loaded(
    machine: &mut Machine<VecText>,
    texts: &LibraryTexts,
    before: &HeldTexts,
    after: &HeldTexts,
) -> bool {
    let mut loaded = load(machine, texts);
    if loaded.is_err() && holds(machine, before) {
        loaded = load(machine, texts);
    }
    loaded.is_ok() && holds(machine, after)
}

// Does a command string come to its end on a machine, the second time at the latest?
fn is_done(machine: &mut Machine<VecText>, alloc: Global, command: &[u8]) -> bool {
    answer_on(machine, alloc, command, 100).is_ok()
        || answer_on(machine, alloc, command, 100).is_ok()
}

const TWO: HeldTexts = (8, [b"%9=", b"", b"ninth"]);

const ALL: HeldTexts = (144, [b"some"; 3]);

const BOTH: HeldTexts = (148, [b"%9=", b"some", b"ninth"]);

// The texts of two registers, the first and the last.
fn two_texts() -> LibraryTexts {
    let mut texts: LibraryTexts = [None; REGISTERS];
    texts[0] = Some(b"%9=");
    texts[REGISTERS - 1] = Some(b"ninth");
    texts
}

// Are texts loaded into two registers, into all, and into the two again? Numbers, pushed and other texts stay.
fn are_loaded(machine: &mut Machine<VecText>, alloc: Global, two: &LibraryTexts) -> bool {
    is_loaded(machine, two, &(0, [b""; 3]), &TWO)
        && is_loaded(machine, &[Some(b"some"); REGISTERS], &TWO, &ALL)
        && is_done(machine, alloc, b"5U9[B")
        && is_loaded(machine, two, &(148, ALL.1), &BOTH)
        && is_done(machine, alloc, b"MA]A")
        && has_typed(machine, b"6\r\n")
        && holds(machine, &(145, [b"some", b"some", b"ninth"]))
}

fn texts_are_loaded(alloc: Global) -> bool {
    match new_machine(alloc) {
        Some(mut machine) => are_loaded(machine.as_mut(), alloc, &two_texts()),
        None => false,
    }
}

#[test]
fn texts_are_loaded_all_or_none(rt: HostRuntime) {
    assert!(rt; texts_are_loaded(rt.alloc()) || texts_are_loaded(rt.alloc()));
}
