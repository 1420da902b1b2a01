//! Sessions over files in memory, by hosts that move few bytes in a call and fail where they are told to.
use super::trial::{STORES, SessionRan, TrialStore, expect, run_over};
use std::alloc::{AllocError, Global};
use std::process::Abort;
use teco_base::LIMIT;
use teco_hosts::{HostCall, MemHost, TestHost};

/// What the file `in` has, the input, what is written, what it comes to, and what the file `out` has then.
type FileRow = (Bytes, &'static str, Bytes, &'static str, Option<Bytes>);

type Bytes = &'static [u8];

const TWO: &[u8] = b"ab\x0ccd";

const THREE: &[u8] = b"ab\x0ccd\x0cef";

/// A file that is copied, while pages are turned or looked through, and what is typed.
const COPIED: &[(&[u8], &str)] = &[
    (TWO, "ERin\x1bEWout\x1bYHTPHTEC\x1b\x1b => abcd"),
    (THREE, "ERin\x1bEWout\x1bYNe\x1b.=HTEC\x1b\x1b => 1\r\nef"),
    (TWO, "ERin\x1bEWout\x1b2PEC\x1b\x1b => "),
];

// Does a host move a byte in a call, or up to 4,096, and which call fails: the nth of a kind.
type Moves = (bool, HostCall, u64);

// What is left of a session over a host with some files.
type SessionLeft = Result<(TestHost, SessionRan), AllocError>;

// The session of a row over a host that has the file `in` and may have a file `out`.
fn run_files(
    alloc: Global,
    store: TrialStore,
    moves: Moves,
    row: FileRow,
    out: Option<&[u8]>,
) -> SessionLeft {
    let mut mem = MemHost::new(alloc);
    mem.put(b"in", row.0)?;
    if let Some(out) = out {
        mem.put(b"out", out)?;
    }
    let (is_slow, call, nth) = moves;
    let piece = if is_slow { 1 } else { 4096 };
    let mut host = TestHost::new(mem, piece, call, nth);
    let given = (row.1.as_bytes(), LIMIT);
    let ran = run_over(alloc, store, &mut host, given, (b"", 0));
    Ok((host, ran))
}

// The session of a row, run once more where it does not write what it is to, and a growth may have been refused.
fn run_row(alloc: Global, store: TrialStore, moves: Moves, row: FileRow) -> SessionLeft {
    match run_files(alloc, store, moves, row, None) {
        Ok((host, ran)) if ran.written.as_slice() == row.2 || !ran.may_be_refused() => {
            Ok((host, ran))
        }
        _ => run_files(alloc, store, moves, row, None),
    }
}

// Is what is written, what comes of the session, and what the files have as the row says?
fn is_as_told(host: &TestHost, ran: &SessionRan, row: FileRow) -> bool {
    let (bytes, _, written, outcome, out) = row;
    let mem = host.mem();
    ran.is(outcome, written) && mem.file(b"out") == out && mem.file(b"in") == Some(bytes)
}

// Runs the session of a row over both stores and a host that moves bytes so.
fn expect_moves(rt: &(impl Abort + AllocGlobal), moves: Moves, row: FileRow) {
    for store in STORES.iter() {
        let is_so = match run_row(rt.alloc(), *store, moves, row) {
            Ok((host, ran)) => is_as_told(&host, &ran, row),
            Err(AllocError) => false,
        };
        expect(rt, is_so, row.1, *store);
    }
}

/// Pages that are turned and typed until all is closed, a page that is read once more, an output that is dropped.
const TURNED: &str = "ERin\x1bEWout\x1bYHTPHTEC\x1b\x1bEF\x1b\x1b";

const READ_ON: &str = "ERin\x1bY\x1b\x1bYHT\x1b\x1b";

const DROPPED: &str = "EWout\x1bIa\x1bPWEK\x1b\x1bEF\x1b\x1b";

/// Which call of a host fails first, what of a session of two pages is written then, and the file `out`.
const FAILING: &[(HostCall, &str, &[u8], Option<&[u8]>)] = &[
    (HostCall::OpenIn, TURNED, b"?FNF\r\n?NFO\r\n", None),
    (HostCall::Read, TURNED, b"?INP\r\n", Some(b"")),
    (HostCall::OpenOut, TURNED, b"?OUT\r\n?NFO\r\n", None),
    (HostCall::Write, TURNED, b"ab?OUT\r\n", Some(b"")),
    (HostCall::CloseOut, TURNED, b"abcd?OUT\r\n?NFO\r\n", None),
    (HostCall::DropOut, TURNED, b"abcd?NFO\r\n", Some(TWO)),
    (HostCall::Read, READ_ON, b"?INP\r\nab", None),
    (HostCall::DropOut, DROPPED, b"?OUT\r\n?NFO\r\n", None),
];

#[test]
fn a_host_fails_and_the_session_goes_on(rt: HostRuntime) {
    for (call, input, written, out) in FAILING {
        let row: FileRow = (TWO, *input, *written, "coded", *out);
        expect_moves(&rt, (false, *call, 1), row);
    }
}

/// Empty pages, of which the first read gives 4,096.
const FORM_FEEDS: &[u8] = &[0x0c; 5000];

// No more is read than what the page needs, so a fault behind it does not come.
#[test]
fn a_page_is_read_no_further(rt: HostRuntime) {
    let row: FileRow = (FORM_FEEDS, "ERin\x1bYHT1=\x1b\x1b", b"1\r\n", "done", None);
    expect_moves(&rt, (false, HostCall::Read, 2), row);
}

// The code line for a call that fails.
fn line_of(call: HostCall) -> &'static [u8] {
    match call {
        HostCall::OpenIn => b"?FNF\r\n",
        HostCall::Read => b"?INP\r\n",
        _ => b"?OUT\r\n",
    }
}

// Is what is written a part of what is typed, from the front, and then a line?
fn is_cut_short(written: &[u8], typed: &[u8], line: &[u8]) -> bool {
    match written.strip_suffix(line) {
        Some(front) => typed.starts_with(front),
        None => false,
    }
}

// Is a part written and a code, and `out` as it was? Or there are fewer such calls, and all is as the row says.
fn fails_well(host: &TestHost, ran: &SessionRan, row: FileRow, call: HostCall) -> bool {
    let (bytes, _, typed, _, out) = row;
    let mem = host.mem();
    let is_kept = mem.file(b"in") == Some(bytes);
    if ran.outcome == "coded" {
        let is_old = mem.file(b"out") == Some(b"old".as_slice());
        is_kept && is_old && is_cut_short(&ran.written, typed, line_of(call))
    } else {
        is_kept && ran.written.as_slice() == typed && mem.file(b"out") == out
    }
}

// Does the session of a row fail well where a call of the host fails and a file `out` is there already?
fn fails_as_told(alloc: Global, row: FileRow, moves: Moves) -> bool {
    match run_files(alloc, TrialStore::Gap, moves, row, Some(b"old")) {
        Ok((host, ran)) => fails_well(&host, &ran, row, moves.1),
        Err(_) => false,
    }
}

// A host fails as a row says, the second time at the latest: a growth may be refused the first time.
fn expect_failure(rt: &(impl Abort + AllocGlobal), row: FileRow, moves: Moves) {
    let is_well = fails_as_told(rt.alloc(), row, moves) || fails_as_told(rt.alloc(), row, moves);
    assert!(rt; is_well, "{}: call {}", row.1, moves.2);
}

// Each of the first calls of each kind fails in turn, by hosts that move a byte in a call and all.
fn expect_failures(rt: &(impl Abort + AllocGlobal), row: FileRow) {
    for (call, _, _, _) in FAILING {
        for nth in 1..=16 {
            expect_failure(rt, row, (true, *call, nth));
            expect_failure(rt, row, (false, *call, nth));
        }
    }
}

#[test]
fn every_call_fails_in_turn(rt: HostRuntime) {
    for (bytes, line) in COPIED {
        let line: &'static str = line;
        let (input, typed) = line.split_once(" => ").unwrap_or((line, ""));
        let row = (*bytes, input, typed.as_bytes(), "done", Some(*bytes));
        expect_failures(&rt, row);
    }
}
