//! What is read ahead of an input, what is kept of small writes, and how much may be read and written.
use crate::faulty::{Faulty, LIMITS, faulty_host};
use crate::scratch::*;
use std::fs::OpenFile;
use std::{fs, io};
use teco_base::LIMIT;
use teco_pages::{Failed, FileHost, Host, Purpose, TroubleReason};

const FOLDER: &str = "somleut_test_buffers";

const PATH: &str = "somleut_test_buffers/file";

// As many bytes as are kept and are read ahead, one fewer and one more, and more by far.
#[test]
fn pieces_keep_their_order_about_the_buffers(rt: HostRuntime) {
    assert!(rt; scratch(&rt, FOLDER));
    for size in [65_535, 65_536, 65_537, 200_000] {
        for piece in [4095, 65_535, 65_536, 70_000] {
            assert!(rt; is_exact(&rt, PATH, size, piece), "{size} by {piece}");
        }
    }
    assert!(rt; is_exact(&rt, PATH, 70_000, 1) && remove(&rt, FOLDER));
}

// Was the last trouble with this?
fn is_told(host: &FileHost<Faulty>, purpose: Purpose) -> bool {
    matches!(host.trouble(), Some(trouble) if trouble.purpose == purpose)
}

// Writes pages of 4,096 bytes, each with one byte behind it that is written alone.
fn put_pages(host: &mut FileHost<Faulty>, text: &[u8]) -> bool {
    let mut is_written = begin_out(host, PATH, b"");
    for page in text.chunks(4097) {
        is_written = is_written && write_pieces(host, page, 4096);
    }
    is_written && host.close_out().is_ok()
}

// Is a piece refused, with this told, and taken when it is written again?
fn is_refused_once(host: &mut FileHost<Faulty>, piece: &[u8]) -> bool {
    let is_refused = host.write(piece).is_err() && is_told(host, Purpose::WriteOutput);
    is_refused && write_pieces(host, piece, 4096)
}

// The seventeenth piece is the one that does not fit any more. Where the file fails then, none of
// that piece is taken, and what is kept of the others is sent on when it is written again.
fn is_sent_on(host: &mut FileHost<Faulty>, text: &[u8]) -> bool {
    let mut is_as_wanted = begin_out(host, PATH, b"");
    for (n, piece) in text.chunks(4096).enumerate() {
        is_as_wanted &= if n == 16 {
            is_refused_once(host, piece)
        } else {
            host.write(piece).is_ok()
        };
    }
    is_as_wanted && host.close_out().is_ok()
}

// Is a fault told where an output is closed? What was kept of it is gone: nothing of it is in the next ones. As much
// is kept as the file before has.
fn is_nothing_left(rt: &HostRuntime, faulty: &mut FileHost<Faulty>, text: &[u8]) -> bool {
    let Ok(mut old) = text.to_vec(rt.alloc()) else {
        return false;
    };
    old.push(b'o').is_ok()
        && fs::write(rt, PATH, &old).is_ok()
        && begin_out(faulty, PATH, b"")
        && write_pieces(faulty, text, 4096)
        && faulty.close_out().is_err()
        && is_told(faulty, Purpose::CloseOutput)
        && is_alone(rt, FOLDER, PATH, &old)
        && begin_out(faulty, PATH, b"")
        && faulty.drop_out().is_ok()
        && is_alone(rt, FOLDER, PATH, &old)
        && put_whole(&mut host(rt), PATH, b"new")
        && is_file(rt, PATH, b"new")
}

// Is this what a read gives?
fn is_given(host: &mut FileHost<Faulty>, part: &[u8]) -> bool {
    let mut buf = [0; 4096];
    let read = host.read(&mut buf);
    matches!(read, Ok(n) if n == part.len()) && buf.starts_with(part)
}

// Is what the system gives of a text, in parts of 1,000 bytes, served so, as of a terminal?
fn is_served_at_once(host: &mut FileHost<Faulty>, text: &[u8]) -> bool {
    let mut is_served = begin_in(host, PATH);
    for part in text.chunks(1000) {
        is_served = is_served && is_given(host, part);
    }
    is_served && is_given(host, b"")
}

// Does a fault of the system come behind all bytes that were read before it, and once?
fn is_fault_behind(host: &mut FileHost<Faulty>, text: &[u8], whole: usize) -> bool {
    let (front, behind) = text.split_at(text.len().min(whole));
    begin_in(host, PATH)
        && host.bytes_left() == Some(text.len() as u64)
        && reads(host, front, 4096).is_err()
        && is_told(host, Purpose::ReadInput)
        && host.bytes_left() == Some(behind.len() as u64)
        && matches!(reads(host, behind, 4096), Ok(true))
}

// What is tried, the length of the text, how many bytes a call moves at most, and how many the file before it fails.
type BufferRow = (&'static str, usize, usize, usize);

const ROWS: &[BufferRow] = &[
    ("pages of small writes", 50 * 4097, usize::MAX, usize::MAX),
    ("pages of small writes", 50 * 4097, 1000, usize::MAX),
    ("a write sends on", 40 * 4096, usize::MAX, 0),
    ("a write sends on", 40 * 4096, usize::MAX, 30_000),
    ("a write sends on", 40 * 4096, 1000, 30_500),
    ("a close sends on", 60_000, usize::MAX, 0),
    ("a close sends on", 60_000, usize::MAX, 30_000),
    ("a close sends on", 60_000, usize::MAX, 59_999),
    ("a short read", 70_000, 1000, usize::MAX),
    ("a fault behind", 140_000, usize::MAX, 5000),
    ("a fault behind", 140_000, usize::MAX, 65_536),
    ("a fault behind", 140_000, usize::MAX, 100_000),
];

fn passes(rt: &HostRuntime, host: &mut FileHost<Faulty>, row: &BufferRow, text: &[u8]) -> bool {
    match row.0 {
        "pages of small writes" => put_pages(host, text) && is_file(rt, PATH, text),
        "a write sends on" => is_sent_on(host, text) && is_file(rt, PATH, text),
        "a close sends on" => is_nothing_left(rt, host, text),
        "a short read" => fs::write(rt, PATH, text).is_ok() && is_served_at_once(host, text),
        _ => fs::write(rt, PATH, text).is_ok() && is_fault_behind(host, text, row.3),
    }
}

// Does a row hold, in an empty folder?
fn holds(rt: &HostRuntime, row: &BufferRow) -> bool {
    let Ok(text) = long_text(rt.alloc(), row.1) else {
        return false;
    };
    let mut host = faulty_host(rt, [row.2, row.3], LIMITS);
    scratch(rt, FOLDER) && passes(rt, &mut host, row, &text)
}

#[test]
fn buffers_lose_no_byte(rt: HostRuntime) {
    for (number, row) in ROWS.iter().enumerate() {
        assert!(rt; holds(&rt, row), "row {number}");
    }
    assert!(rt; remove(&rt, FOLDER));
}

// How many bytes are read at a time of an input that is as long as may be.
const PIECE: usize = 1 << 20;

// Is an input of this length read to the limit and no further, however often it is tried?
fn is_within_limit(rt: &HostRuntime, len: usize) -> io::Result<bool> {
    let (mut host, mut buf) = (host(rt), long_text(rt.alloc(), PIECE)?);
    fs::create(rt, PATH)?.set_len(len as u64)?;
    let mut is_within = begin_in(&mut host, PATH);
    for _ in 0..LIMIT >> 20 {
        is_within &= matches!(host.read(&mut buf), Ok(PIECE));
    }
    for _ in 0..4 {
        is_within &= match host.read(&mut buf) {
            Ok(n) => n == 0 && len <= LIMIT,
            Err(Failed) => len > LIMIT,
        };
    }
    Ok(is_within)
}

// As long as may be, and two bytes more; nothing is read where no input is open.
#[test]
fn no_more_than_the_limit_is_read(rt: HostRuntime) {
    assert!(rt; scratch(&rt, FOLDER));
    let mut host = host(&rt);
    assert!(rt; host.bytes_left().is_none() && host.read(&mut [0; 4]).is_err());
    assert!(rt; matches!(is_within_limit(&rt, LIMIT), Ok(true)));
    assert!(rt; matches!(is_within_limit(&rt, LIMIT + 2), Ok(true)));
    assert!(rt; remove(&rt, FOLDER));
}

// What is written where there is no limit.
const ALL: usize = 200_000;

// The file that stands for the limits of the system.
const STAND_IN: &str = "somleut_test_buffers/limits";

// What stands for the limits, and how much is written then.
const STANDING: &[(&str, usize)] = &[
    (
        "Max cpu time  1 2 seconds\nMax file size  100000  2  bytes\n",
        100_000,
    ),
    ("Max file size    unlimited    unlimited    bytes\n", ALL),
    ("Max file size", ALL),
    ("Max open files  7 7 files\n", ALL),
    ("", ALL),
];

// Is so much of an output written where this stands for the limits, and a write past that refused?
fn is_cut(rt: &HostRuntime, limits: &str, most: usize) -> bool {
    let Ok(text) = long_text(rt.alloc(), ALL) else {
        return false;
    };
    let mut host = faulty_host(rt, [usize::MAX; 2], STAND_IN);
    let is_open = fs::write(rt, STAND_IN, limits.as_bytes()).is_ok()
        && begin_out(&mut host, PATH, b"");
    let is_whole = write_pieces(&mut host, &text, 4096);
    let is_past_limit =
        matches!(host.trouble(), Some(told) if matches!(told.reason, TroubleReason::SizeLimit));
    let is_as_wanted = is_open && is_whole == (most == ALL) && is_whole != is_past_limit;
    let front = text.split_at(text.len().min(most)).0;
    is_as_wanted && host.close_out().is_ok() && is_file(rt, PATH, front)
}

// Limits that can't be read for want of memory are none, and the next host reads them.
#[test]
fn limits_on_sizes_are_read(rt: HostRuntime) {
    assert!(rt; scratch(&rt, FOLDER));
    for (limits, most) in STANDING {
        let is_so = is_cut(&rt, limits, *most) || is_cut(&rt, limits, *most);
        assert!(rt; is_so, "{most} bytes");
    }
    assert!(rt; remove(&rt, FOLDER));
}
