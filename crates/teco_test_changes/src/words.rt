//! What is known of changes, and what is said of them in a line of words.
use crate::following::{Given, change_of};
use std::alloc::{AllocError, Global};
use teco_change_policies::Facts;
use teco_change_words::in_words;
use teco_changes::Change;

fn changes_of(alloc: Global, given: &[Given]) -> Result<Vec<Change>, AllocError> {
    let mut changes = Vec::new(alloc);
    for one in given {
        changes.push(change_of(alloc, *one)?)?;
    }
    Ok(changes)
}

const LONG: &[u8] = b"a text that is longer than what is shown of it";

// Changes, and the line.
type Line = (&'static [Given], &'static str);

const LINES: &[Line] = &[
    (&[], "changes nothing"),
    // Changes that stand alone.
    (&[Given::Puts(b"x")], "only puts x; keeps line ends"),
    (&[Given::Puts(b"a")], "only puts \"a\"; keeps line ends"),
    (&[Given::Puts(b"\n")], "only puts \"^J\""),
    (&[Given::Puts(b"\"")], "only puts '\"'; keeps line ends"),
    (&[Given::PutsNumber], "only puts a number; keeps line ends"),
    (&[Given::PutsByte], "only puts a character"),
    (&[Given::PutsText], "only puts what register A has"),
    (
        &[Given::Takes(48, 57)],
        "only takes digits; keeps line ends",
    ),
    (&[Given::Takes(12, 12)], "only takes form feeds"),
    (&[Given::Takes(9, 13)], "only takes line ends or \"^I^M\""),
    (
        &[Given::TakesMatch(b"foo")],
        "only takes foo; keeps line ends; only lines with a match change",
    ),
    (&[Given::TakesAny], "adds nothing"),
    // Swaps of one search text leave other lines as they are.
    (
        &[Given::Swaps(b"foo", b"bar")],
        "puts bar for foo; lines without foo in either case stay as they are",
    ),
    (
        &[Given::Swaps(b"1", b"2")],
        "puts 2 for 1; lines without 1 stay as they are",
    ),
    (
        &[Given::Swaps(b"foo", b"bar"), Given::Swaps(b"x", b"y")],
        "puts \"bar\" for \"foo\" and \"y\" for \"x\"; keeps lines; only lines with a match change",
    ),
    (
        &[Given::Swaps(b"foo", b"")],
        "only takes foo; keeps line ends; only lines with a match change",
    ),
    (
        &[Given::Swaps(b"^ES", b" ")],
        "puts \" \" for \"^ES\"; lines without \"^ES\" stay as they are",
    ),
    (
        &[Given::Swaps(b"^ESa", b"b")],
        "puts b for \"^ESa\"; lines without \"^ESa\" in either case stay as they are",
    ),
    // Several changes.
    (
        &[Given::Puts(b"x"), Given::Takes(48, 57)],
        "puts x; takes digits; keeps line ends",
    ),
    (
        &[Given::Puts(b"abc"), Given::Puts(b"d\n")],
        "puts \"abc\" and \"d^J\"; takes nothing",
    ),
    (
        &[
            Given::Puts(b"b"),
            Given::Puts(b"c"),
            Given::Puts(b"d"),
            Given::PutsNumber,
            Given::TakesAny,
        ],
        "puts \"b\", \"c\", \"d\" and 1 more; takes any text",
    ),
    (&[Given::TakesAny, Given::Takes(48, 57)], "adds nothing"),
    // Long texts are cut.
    (
        &[Given::Puts(LONG)],
        "only puts \"a text that is longer th..\"; keeps line ends",
    ),
    (
        &[
            Given::Swaps(LONG, LONG),
            Given::Puts(LONG),
            Given::Puts(b"x"),
        ],
        "puts \"a text that is l..\" for \"a text that is l..\", \"a text that is l..\" and 1 more; keeps line ends",
    ),
];

fn is_said(alloc: Global, row: &Line) -> Option<bool> {
    let changes = changes_of(alloc, row.0).ok()?;
    let facts = Facts::of(alloc, changes.as_slice()).ok()?;
    let words = in_words(alloc, changes.as_slice(), &facts).ok()?;
    Some(words.as_str() == row.1)
}

#[test]
fn changes_are_said_in_words(rt: HostRuntime) {
    for (number, row) in LINES.iter().enumerate() {
        assert!(rt; is_said(rt.alloc(), row) == Some(true), "row {number}");
    }
}

// Changes, and the characters that they put and take at most, where these are known, and a search
// text without which lines stay as they are.
type Known = (
    &'static [Given],
    Option<&'static [u8]>,
    Option<&'static [u8]>,
    Option<&'static [u8]>,
);

const KNOWN: &[Known] = &[
    (&[], Some(b""), Some(b""), None),
    (
        &[Given::Puts(b"ba"), Given::TakesAny],
        Some(b"ab"),
        None,
        None,
    ),
    (&[Given::PutsNumber], Some(b"-0123456789"), Some(b""), None),
    (&[Given::PutsText], None, Some(b""), None),
    (&[Given::PutsByte], None, Some(b""), None),
    (&[Given::Takes(48, 50)], Some(b""), Some(b"012"), None),
    (
        &[Given::Swaps(b"f1", b"x")],
        Some(b"x"),
        Some(b"1Ff"),
        Some(b"f1"),
    ),
    (
        &[Given::Swaps(b"f1", b"x"), Given::Swaps(b"f1", b"y")],
        Some(b"xy"),
        Some(b"1Ff"),
        Some(b"f1"),
    ),
    (
        &[Given::Swaps(b"f1", b"x"), Given::Swaps(b"f2", b"y")],
        Some(b"xy"),
        Some(b"12Ff"),
        None,
    ),
    (
        &[Given::Swaps(b"^ES", b" ")],
        Some(b" "),
        None,
        Some(b"^ES"),
    ),
    // A last line may go, or a line end, and a class may match one.
    (&[Given::Swaps(b"f", b"")], Some(b""), Some(b"Ff"), None),
    (&[Given::Swaps(b"f", b"\n")], Some(b"\n"), Some(b"Ff"), None),
    (&[Given::Swaps(b"\x18", b"y")], Some(b"y"), None, None),
    (&[Given::TakesMatch(b"f")], Some(b""), Some(b"Ff"), None),
];

fn are_same(told: &Option<Vec<u8>>, expected: Option<&[u8]>) -> bool {
    match (told, expected) {
        (Some(characters), Some(bytes)) => characters.as_slice() == bytes,
        (None, None) => true,
        _ => false,
    }
}

fn is_known(alloc: Global, row: &Known) -> Option<bool> {
    let changes = changes_of(alloc, row.0).ok()?;
    let facts = Facts::of(alloc, changes.as_slice()).ok()?;
    Some(
        are_same(&facts.puts_only, row.1)
            && are_same(&facts.takes_only, row.2)
            && are_same(&facts.changes_only_with, row.3),
    )
}

#[test]
fn facts_are_known(rt: HostRuntime) {
    for (number, row) in KNOWN.iter().enumerate() {
        assert!(rt; is_known(rt.alloc(), row) == Some(true), "row {number}");
    }
}

// Changes, and search texts without which lines stay as they are, though a last line may come or go.
type Left = (&'static [Given], Option<&'static [&'static [u8]]>);

const LEFT: &[Left] = &[
    (&[], None),
    (&[Given::Swaps(b"f", b"x")], Some(&[b"f"])),
    (&[Given::Swaps(b"f", b"")], Some(&[b"f"])),
    (&[Given::TakesMatch(b"f")], Some(&[b"f"])),
    (&[Given::TakesMatch(b"^ES")], Some(&[b"^ES"])),
    (
        &[
            Given::Swaps(b"a", b"b"),
            Given::TakesMatch(b"b"),
            Given::Swaps(b"a", b"c"),
        ],
        Some(&[b"a", b"b"]),
    ),
    (&[Given::Swaps(b"a", b"\n")], None),
    (&[Given::TakesMatch(b"a\n")], None),
    (&[Given::TakesMatch(b"^ED")], None),
    (&[Given::TakesMatch(b"f"), Given::Puts(b"x")], None),
    (&[Given::TakesMatch(b"f"), Given::Takes(48, 57)], None),
];

fn is_left(alloc: Global, row: &Left) -> Option<bool> {
    let changes = changes_of(alloc, row.0).ok()?;
    let facts = Facts::of(alloc, changes.as_slice()).ok()?;
    Some(match (&facts.leaves_lines_without, row.1) {
        (Some(texts), Some(expected)) => {
            texts.len() == expected.len()
                && texts
                    .iter()
                    .zip(expected.iter())
                    .all(|(text, bytes)| text.as_slice() == *bytes)
        }
        (None, None) => true,
        _ => false,
    })
}

#[test]
fn lines_are_left(rt: HostRuntime) {
    for (number, row) in LEFT.iter().enumerate() {
        assert!(rt; is_left(rt.alloc(), row) == Some(true), "row {number}");
    }
}
