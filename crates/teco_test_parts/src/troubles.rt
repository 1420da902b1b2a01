//! Files that are refused, and what is told of them.
use crate::scratch::{has_names, host, remove, scratch};
use std::alloc::Global;
use std::fs;
use std::os::unix::fs::symlink;
use teco_pages::{FileHost, Host, Trouble};

const FOLDER: &str = "somleut_test_refused";

// Names that no output can have.
const OUTPUTS: &[&[u8]] = &[
    b"somleut_test_refused/folder",
    b"somleut_test_refused/folder/",
    b"somleut_test_refused/missing/out",
    b"somleut_test_refused/dangling",
    b"/dev/full",
    b"/dev/stdout",
    b"/dev/fd/1",
    b"/proc/self/../self/fd/1",
    b"somleut_test_refused/typed",
    b"somleut_test_refused/o\xffut",
    b"somleut_test_refused/o\0ut",
    b"",
];

// What is told of other names that are refused.
const TOLD: &[&str] = &[
    "open input somleut_test_refused/no: No such file or directory (os error 2)",
    "open input somleut_test_refused/folder: it is a folder",
    "open output somleut_test_refused/no/b: No such file or directory (os error 2)",
];

// Makes a folder, and links that lead nowhere and to an open file.
fn make_targets(rt: &HostRuntime) -> bool {
    let again = "../somleut_test_refused/again";
    fs::create_dir(rt, "somleut_test_refused/folder").is_ok()
        && symlink(rt, "nowhere", "somleut_test_refused/dangling").is_ok()
        && symlink(rt, again, "somleut_test_refused/typed").is_ok()
        && symlink(rt, "/proc/self/fd/1", "somleut_test_refused/again").is_ok()
}

// Does what is told of a trouble begin so?
fn begins(alloc: Global, trouble: &Trouble, wanted: &str) -> bool {
    let Ok(name) = String::from_utf8_lossy(alloc, &trouble.name) else {
        return false;
    };
    match format!(in alloc; "{} {name}: {}", trouble.purpose, trouble.reason) {
        Ok(told) => told.as_str().starts_with(wanted),
        Err(_) => false,
    }
}

// Is nothing open in a host?
fn is_closed(host: &mut FileHost<HostRuntime>) -> bool {
    host.read(&mut [0; 4]).is_err() && host.write(b"a").is_err() && host.close_out().is_err()
}

// Can't a name be opened, is this told of it, and is nothing open then?
fn is_refused(rt: &HostRuntime, is_input: bool, name: &[u8], wanted: &str) -> bool {
    let mut host = host(rt);
    let is_open = if is_input {
        host.open_in(name).is_ok()
    } else {
        host.open_out(name).is_ok()
    };
    let is_told = match host.trouble() {
        Some(trouble) => begins(rt.alloc(), trouble, wanted),
        None => false,
    };
    is_told && !is_open && is_closed(&mut host)
}

// Is this told, the second time at the latest? Memory may be refused the first time.
fn is_told(rt: &HostRuntime, is_input: bool, name: &[u8], wanted: &str) -> bool {
    is_refused(rt, is_input, name, wanted) || is_refused(rt, is_input, name, wanted)
}

// Is a line told of the name that it has?
fn is_told_so(rt: &HostRuntime, line: &str) -> bool {
    let (opening, _) = line.split_once(": ").unwrap_or((line, ""));
    let (front, name) = opening.rsplit_once(' ').unwrap_or(("", ""));
    is_told(rt, front == "open input", name.as_bytes(), line)
}

#[test]
fn names_are_refused_and_troubles_told(rt: HostRuntime) {
    assert!(rt; scratch(&rt, FOLDER) && make_targets(&rt));
    for (number, name) in OUTPUTS.iter().enumerate() {
        assert!(rt; is_told(&rt, false, name, "open output "), "row {number}");
    }
    assert!(rt; is_told(&rt, true, b"o\xffut", "open input ") && has_names(&rt, FOLDER, 4));
    for line in TOLD {
        assert!(rt; is_told_so(&rt, line), "{line}");
    }
    let no_text = "open output somleut_test_refused/\u{fffd}: its name is no UTF-8 text";
    assert!(rt; is_told(&rt, false, b"somleut_test_refused/\xff", no_text));
    assert!(rt; remove(&rt, FOLDER));
}
