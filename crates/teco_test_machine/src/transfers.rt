//! Sessions whose reads, writes or growths fail.
use super::trial::{
    BufferLeft, STEPS, STORES, SessionRan, TrialStore, expect, has, machine_over, run_over, word,
};
use std::alloc::Global;
use std::io;
use std::io::{ErrorKind, Read, Write};
use std::process::Abort;
use teco_base::LIMIT;
use teco_hosts::MemHost;
use teco_run::Machine;
use teco_session::session;
use teco_text::VecText;

/// Gives a byte at each read, and fails once, after so many.
#[derive(Drop)]
struct SlowReader {
    bytes: &'static [u8],
    before: Option<u64>,
    kind: ErrorKind,
}

impl Read for SlowReader {
    fn read(&mut self, buf: &mut [u8]) -> io::Result<usize> {
        if self.before == Some(0) {
            self.before = None;
            return Err(self.kind.into());
        }
        self.before = self.before.map(|n| n.saturating_sub(1));
        if self.bytes.is_empty() || buf.is_empty() {
            return Ok(0);
        }
        buf[0] = self.bytes[0];
        self.bytes = &self.bytes[1..];
        Ok(1)
    }
}

/// Takes a byte at each write, and fails once, after so many; without a kind it then takes nothing.
#[derive(Drop)]
struct SlowWriter {
    bytes: Vec<u8>,
    before: Option<u64>,
    kind: Option<ErrorKind>,
}

impl Write for SlowWriter {
    fn write(&mut self, buf: &[u8]) -> io::Result<usize> {
        if self.before == Some(0) {
            self.before = None;
            return match self.kind {
                Some(kind) => Err(kind.into()),
                None => Ok(0),
            };
        }
        self.before = self.before.map(|n| n.saturating_sub(1));
        let Some(byte) = buf.first() else {
            return Ok(0);
        };
        self.bytes.push(*byte)?;
        Ok(1)
    }

    fn flush(&mut self) -> io::Result<()> {
        Ok(())
    }
}

/// Two strings, each of which inserts a letter and types a number.
const AB: &str = "Ia\x1b1=\x1b\x1bIb\x1b2=\x1b\x1b";

/// How many reads and writes do well before one that fails, what comes of it, the input, and what is written and left.
type TransferRow = (u64, u64, &'static str, &'static str, BufferLeft);

const FAILED: &[TransferRow] = &[
    (0, 99, "read", AB, (b"", b"", 0)),
    (6, 99, "read", AB, (b"", b"", 0)),
    (7, 99, "read", AB, (b"1\r\n", b"a", 1)),
    (13, 99, "read", AB, (b"1\r\n", b"a", 1)),
    (14, 99, "read", AB, (b"1\r\n2\r\n", b"ab", 2)),
    (15, 99, "done", AB, (b"1\r\n2\r\n", b"ab", 2)),
    (99, 0, "write", AB, (b"", b"a", 1)),
    (99, 2, "write", AB, (b"1\r", b"a", 1)),
    (99, 3, "write", AB, (b"1\r\n", b"ab", 2)),
    (99, 5, "write", AB, (b"1\r\n2\r", b"ab", 2)),
    (99, 6, "done", AB, (b"1\r\n2\r\n", b"ab", 2)),
    (3, 99, "read", "]A\x1b\x1b1=\x1b\x1b", (b"", b"", 0)),
    (4, 99, "read", "]A\x1b\x1b1=\x1b\x1b", (b"?PES\r\n", b"", 0)),
    (99, 3, "write", "]A\x1b\x1b1=\x1b\x1b", (b"?PE", b"", 0)),
    (99, 4, "write", "5C\x1b\x1b1=\x1b\x1b", (b"?POP", b"", 0)),
    (99, 5, "write", "1=\x1b\x1b2=", (b"1\r\n?U", b"", 0)),
];

/// How the read and the write that fail do so. Without a kind a write takes nothing.
type Kinds = (ErrorKind, Option<ErrorKind>);

// Does a session on a machine, in which these fail, come to an outcome, and write and leave what its row says?
fn is_slow_on(
    machine: &mut Machine<VecText>,
    alloc: Global,
    row: &TransferRow,
    kinds: Kinds,
) -> bool {
    let (reads, writes, outcome, input, (written, text, pointer)) = *row;
    let mut reader = SlowReader {
        bytes: input.as_bytes(),
        before: Some(reads),
        kind: kinds.0,
    };
    let mut writer = SlowWriter {
        bytes: Vec::new(alloc),
        before: Some(writes),
        kind: kinds.1,
    };
    let (from, to, host) = (&mut reader, &mut writer, &mut MemHost::new(alloc));
    let done = session(alloc, machine, from, to, host, STEPS);
    let is_written = word(done) == outcome && writer.bytes.as_slice() == written;
    is_written && has(machine, text, pointer)
}

fn is_slow(alloc: Global, row: &TransferRow, kinds: Kinds) -> bool {
    match machine_over(alloc, VecText::new(alloc)) {
        Some(mut machine) => is_slow_on(machine.as_mut(), alloc, row, kinds),
        None => false,
    }
}

// A session comes out as its row says, the second time at the latest: a growth may be refused the first time.
fn expect_slow(rt: &(impl Abort + AllocGlobal), row: &TransferRow, kinds: Kinds) {
    let is_good = is_slow(rt.alloc(), row, kinds) || is_slow(rt.alloc(), row, kinds);
    let (reads, writes, _, input, _) = row;
    assert!(rt; is_good, "{input}: {reads} reads, {writes} writes");
}

#[test]
fn transfers_fail(rt: HostRuntime) {
    let kind = ErrorKind::BrokenPipe;
    for row in FAILED {
        expect_slow(&rt, row, (kind, Some(kind)));
        expect_slow(&rt, row, (kind, None));
    }
}

#[test]
fn interruptions_are_passed(rt: HostRuntime) {
    let kind = ErrorKind::Interrupted;
    for n in 0..16 {
        let row: TransferRow = (n, n, "done", AB, (b"1\r\n2\r\n", b"ab", 2));
        expect_slow(&rt, &row, (kind, Some(kind)));
    }
}

/// One string each, the bytes that it types, and the buffer and the pointer before and after it.
const REFUSED_GROWTHS: &[(&str, BufferLeft)] = &[
    (
        "Iab\x1b(((((((((1)))))))))=HT\x1b\x1b",
        (b"1\r\nab", b"ab", 2),
    ),
    (
        "Iabcabc\x1bJ<FSb\x1bXX\x1b;>HT\x1b\x1b",
        (b"aXXcaXXc", b"aXXcaXXc", 0),
    ),
    (
        "Iabc\x1bHXA:QA=1QA=HKGAGA:GA.=\x1b\x1b",
        (b"3\r\n98\r\nabc6\r\n", b"abcabc", 6),
    ),
    (
        "5UA@^UA/xy/[A7UA^UAz\x1b]AQA=:GA\x1b\x1b",
        (b"5\r\nxy", b"", 0),
    ),
];

// Where a growth is refused, a part of the bytes is typed and then the line for want of memory; or
// nothing is, and memory is the fault; or the writer wanted it.
fn is_allowed(ran: &SessionRan, whole: &[u8]) -> bool {
    match ran.outcome {
        "done" => ran.written.as_slice() == whole,
        "coded" => match ran.written.strip_suffix(b"?MEM\r\n") {
            Some(typed) => whole.starts_with(typed),
            None => false,
        },
        "memory" => ran.written.is_empty(),
        "write" => whole.starts_with(&ran.written),
        _ => false,
    }
}

// Is what comes of a session over a store allowed, and left so where it comes to its end?
fn is_kept(
    alloc: Global,
    store: TrialStore,
    input: &str,
    (written, text, pointer): BufferLeft,
) -> bool {
    let mut host = MemHost::new(alloc);
    let given = (input.as_bytes(), LIMIT);
    let ran = run_over(alloc, store, &mut host, given, (text, pointer));
    is_allowed(&ran, written) && (ran.is_left || ran.outcome != "done")
}

// Where an allocation fails in a session, the next over the same machine goes on with what it left.
#[test]
fn growths_are_refused(rt: HostRuntime) {
    for (input, left) in REFUSED_GROWTHS {
        for store in STORES {
            expect(
                &rt,
                is_kept(rt.alloc(), *store, input, *left),
                input,
                *store,
            );
        }
    }
}
