//! Sessions of brackets ten thousand deep, strings that end where a read ends, and strings that are capped.
use super::trial::expect_ran;
use std::alloc::{AllocError, Global};
use std::process::Abort;
use std::test::Fail;
use teco_base::LIMIT;
use teco_session::CHUNK;

// The first of five parts, so many times the second, the third, as many times the fourth, and the last.
fn input_of(alloc: Global, count: usize, parts: &[&str; 5]) -> Result<String, AllocError> {
    let [first, open, inside, close, last] = *parts;
    let (open, close) = (open.repeat(alloc, count)?, close.repeat(alloc, count)?);
    format!(in alloc; "{first}{open}{inside}{close}{last}")
}

/// What comes of a session, its parts, and what is written.
type LongRow = (&'static str, [&'static str; 5], &'static str);

// Asserts a row with so many second and fourth parts, and strings of so many bytes at most, in the second try at last.
fn expect_row(
    rt: &(impl Abort + AllocGlobal),
    (count, max): (usize, usize),
    (outcome, parts, written): &LongRow,
) -> Result<(), Fail> {
    let input = match input_of(rt.alloc(), count, parts) {
        Ok(input) => input,
        Err(AllocError) => input_of(rt.alloc(), count, parts)?,
    };
    expect_ran(rt, (input.as_bytes(), max), outcome, written);
    Ok(())
}

const NESTED: &[LongRow] = &[
    // brackets are entered
    ("done", ["", "1<", "2=", ">", "\x1b\x1b"], "2\r\n"),
    ("done", ["", "1\"N", "2=", "'", "\x1b\x1b"], "2\r\n"),
    ("done", ["", "(", "1", ")", "=\x1b\x1b"], "1\r\n"),
    // they are skipped
    ("done", ["", "0<", "2=", ">", "3=\x1b\x1b"], "3\r\n"),
    ("done", ["", "0\"N", "2=", "'", "3=\x1b\x1b"], "3\r\n"),
    ("done", ["", "0\"N", "2=|", "'", "3=\x1b\x1b"], "3\r\n"),
    // they are left by a jump, or lack their end or their beginning
    ("done", ["", "1<", "Oa\x1b", ">", "!a!2=\x1b\x1b"], "2\r\n"),
    ("coded", ["", "1<", "2=", "", "\x1b\x1b"], "2\r\n?UTC\r\n"),
    ("coded", ["", "1<", "2=", ">", ">\x1b\x1b"], "2\r\n?BNI\r\n"),
    ("coded", ["", "0<", "2=", "", "\x1b\x1b"], "?UTC\r\n"),
    // tags are looked up, and undone once where their level ends
    ("coded", ["", "Oa\x1b", "", ">", "\x1b\x1b"], "?TAG\r\n"),
    ("done", ["", "1<Oa\x1b", "", ">!a!", "2=\x1b\x1b"], "2\r\n"),
    ("done", ["", JUMPS, "", ">!b!!a!", "2=\x1b\x1b"], "2\r\n"),
    // a long run of modifiers is passed in a skip
    ("done", ["", "", "0<", ":", "=>1=\x1b\x1b"], "1\r\n"),
];

const JUMPS: &str = "1<Oa\x1bOb\x1b";

#[test]
fn nested_brackets_are_entered_skipped_and_left(rt: HostRuntime) -> Result<(), Fail> {
    for row in NESTED {
        expect_row(&rt, (10_000, LIMIT), row)?;
    }
    Ok(())
}

/// A comment, and two strings.
const COMMENTED: [&str; 5] = ["!", "a", "!1=\x1b\x1b2=\x1b\x1b", "", ""];

// The pair of ESC at the end of a string is behind, across and before the end of what one read gives.
#[test]
fn reads_end_at_a_pair(rt: HostRuntime) -> Result<(), Fail> {
    for letters in CHUNK - 9..CHUNK - 1 {
        expect_row(&rt, (letters, LIMIT), &("done", COMMENTED, "1\r\n2\r\n"))?;
    }
    Ok(())
}

/// So many digits, and a row.
const CAPPED: &[(usize, LongRow)] = &[
    (64, ("coded", ["", "1", "", "", ""], "?FUL\r\n")),
    (63, ("coded", ["", "1", "", "", ""], "?UTC\r\n")),
    (
        60,
        ("done", ["", "1", "", "", "= \x1b\x1b"], "-954437177\r\n"),
    ),
];

#[test]
fn strings_are_capped(rt: HostRuntime) -> Result<(), Fail> {
    for (digits, row) in CAPPED {
        expect_row(&rt, (*digits, 64), row)?;
    }
    Ok(())
}
