//! Changes, and the policies that follow from them, worked by hand.
use std::alloc::{AllocError, Global};
use teco_base::Reg;
use teco_change_policies::{Manner, always_keep, ends_within_line, is_each};
use teco_changes::{Change, Class, Range, Text};
use teco_policy::PolicyOption::{Add, Keep, Most, Take};
use teco_policy::{Policy, PolicyOption};

// A change, by its texts.
#[derive(Clone, Copy)]
pub(crate) enum Given {
    Puts(&'static [u8]),
    PutsNumber,
    PutsByte,
    PutsText,
    Takes(u8, u8),
    TakesMatch(&'static [u8]),
    TakesAny,
    Swaps(&'static [u8], &'static [u8]),
}

fn text_of(alloc: Global, bytes: &[u8]) -> Result<Text, AllocError> {
    let mut kept = Vec::new(alloc);
    kept.extend_from_slice(bytes)?;
    Ok(Text::of(kept))
}

fn class_of(alloc: Global, first: u8, last: u8) -> Result<Class, AllocError> {
    let mut ranges = Vec::new(alloc);
    ranges.push(Range { first, last })?;
    Ok(Class::of(ranges))
}

pub(crate) fn change_of(alloc: Global, given: Given) -> Result<Change, AllocError> {
    Ok(match given {
        Given::Puts(text) => Change::Puts(text_of(alloc, text)?),
        Given::PutsNumber => Change::PutsNumber,
        Given::PutsByte => Change::PutsByte,
        Given::PutsText => Change::PutsText(Reg::default()),
        Given::Takes(first, last) => Change::Takes(class_of(alloc, first, last)?),
        Given::TakesMatch(wanted) => Change::TakesMatch(text_of(alloc, wanted)?),
        Given::TakesAny => Change::TakesAny,
        Given::Swaps(wanted, text) => {
            Change::Swaps(text_of(alloc, wanted)?, text_of(alloc, text)?)
        }
    })
}

// Changes, an option and its word, and whether that policy is known to follow.
type Row = (&'static [Given], PolicyOption, &'static [u8], bool);

fn is_told(alloc: Global, row: &Row, exact: bool) -> Option<bool> {
    let mut changes = Vec::new(alloc);
    for given in row.0 {
        changes.push(change_of(alloc, *given).ok()?).ok()?;
    }
    let policy = Policy::read(alloc, row.1, row.2, exact).ok()?;
    Some(always_keep(changes.as_slice(), &policy) == row.3)
}

const ROWS: &[Row] = &[
    // Without changes, all that is told of single changes holds.
    (&[], Keep, b"text", true),
    (&[], Keep, b"lines", true),
    (&[], Add, b"nothing", true),
    (&[], Take, b"only=", true),
    // Nothing is taken.
    (&[Given::Puts(b"x"), Given::PutsNumber], Keep, b"text", true),
    (&[Given::PutsByte, Given::PutsText], Keep, b"text", true),
    (
        &[Given::Puts(b"x"), Given::Takes(48, 57)],
        Keep,
        b"text",
        false,
    ),
    (&[Given::Swaps(b"a", b"b")], Keep, b"text", false),
    // Nothing is added.
    (
        &[Given::TakesAny, Given::TakesMatch(b"a")],
        Add,
        b"nothing",
        true,
    ),
    (&[Given::Swaps(b"a", b"")], Add, b"nothing", true),
    (&[Given::Swaps(b"a", b"b")], Add, b"nothing", false),
    (&[Given::PutsText], Add, b"nothing", false),
    // Only these are added.
    (
        &[Given::Puts(b"abba"), Given::TakesAny],
        Add,
        b"only=ab",
        true,
    ),
    (&[Given::Puts(b"abc")], Add, b"only=ab", false),
    (&[Given::PutsNumber], Add, b"only=0123456789-", true),
    (&[Given::PutsNumber], Add, b"only=0123456789", false),
    (&[Given::PutsByte], Add, b"only=ab", false),
    // Only these are taken.
    (
        &[Given::Takes(48, 50), Given::Puts(b"x")],
        Take,
        b"only=210",
        true,
    ),
    (&[Given::Takes(48, 50)], Take, b"only=01", false),
    (&[Given::Takes(50, 48)], Take, b"only=", true),
    (&[Given::Takes(0, 255)], Take, b"only=01", false),
    (&[Given::TakesAny], Take, b"only=01", false),
    (&[Given::Swaps(b"f1", b"x")], Take, b"only=1Ff", true),
    (&[Given::TakesMatch(b"f1")], Take, b"only=f1F", true),
    (&[Given::Swaps(b"f1", b"x")], Take, b"only=1f", false),
    (&[Given::Swaps(b"f1", b"x")], Take, b"only=1F", false),
    (&[Given::Swaps(b"f1", b"x")], Take, b"only=Ff", false),
    (&[Given::Swaps(b"^X", b"x")], Take, b"only=^X", false),
    // Lines are kept by swaps within lines alone: a last line may be put in, or taken.
    (&[Given::Swaps(b"foo", b"bar")], Keep, b"lines", true),
    (&[Given::Swaps(b"foo", b"")], Keep, b"lines", false),
    (&[Given::Swaps(b"foo", b"a\nb")], Keep, b"lines", false),
    (&[Given::Swaps(b"a\nb", b"bar")], Keep, b"lines", false),
    (&[Given::Swaps(b"a^X", b"bar")], Keep, b"lines", false),
    (&[Given::Swaps(b"a\x18", b"bar")], Keep, b"lines", false),
    (&[Given::Puts(b"x")], Keep, b"lines", false),
    (&[Given::Takes(48, 57)], Keep, b"lines", false),
    // Lines without a match stay as they are by swaps of the same plain search text.
    (&[], Keep, b"others=foo", true),
    (&[Given::Swaps(b"foo", b"bar")], Keep, b"others=foo", true),
    (&[Given::Swaps(b"foo", b"")], Keep, b"others=foo", false),
    (&[Given::Swaps(b"foo", b"a\nb")], Keep, b"others=foo", false),
    (&[Given::Swaps(b"Foo", b"bar")], Keep, b"others=foo", false),
    (&[Given::Swaps(b"fo", b"bar")], Keep, b"others=foo", false),
    (
        &[Given::Swaps(b"1", b"2"), Given::Swaps(b"1", b"3")],
        Keep,
        b"others=1",
        true,
    ),
    (
        &[Given::Swaps(b"1", b"2"), Given::Swaps(b"2", b"3")],
        Keep,
        b"others=1",
        false,
    ),
    (&[Given::Swaps(b"^ED", b"2")], Keep, b"others=^ED", false),
    (&[Given::Puts(b"x")], Keep, b"others=x", false),
    // Of the others nothing is told.
    (&[], Keep, b"size", false),
    (&[], Most, b"3", false),
];

// Changes, and whether it is known that they neither take nor put a line end.
const LINE_ENDS: &[(&[Given], bool)] = &[
    (&[], true),
    (&[Given::Puts(b"x"), Given::PutsNumber], true),
    (&[Given::Puts(b"x\n")], false),
    (&[Given::PutsByte], false),
    (&[Given::PutsText], false),
    (&[Given::Takes(48, 57)], true),
    (&[Given::Takes(0, 9)], true),
    (&[Given::Takes(12, 12)], false),
    (&[Given::Takes(11, 255)], false),
    (&[Given::TakesMatch(b"foo")], true),
    (&[Given::TakesMatch(b"foo\x0b")], false),
    // A run of blanks has no line end; of other classes that is not known.
    (&[Given::TakesMatch(b"^ES")], true),
    (&[Given::TakesMatch(b"a^es b")], true),
    (&[Given::TakesMatch(b"\x05Sa\x05s")], true),
    (&[Given::TakesMatch(b"^ES\n")], false),
    (&[Given::TakesMatch(b"^EL")], false),
    (&[Given::TakesMatch(b"^ESE^")], false),
    (&[Given::TakesMatch(b"^E")], false),
    (&[Given::TakesMatch(b"^N^ES")], false),
    (&[Given::TakesAny], false),
];

fn ends_are_told(alloc: Global, row: &(&'static [Given], bool)) -> Option<bool> {
    let mut changes = Vec::new(alloc);
    for given in row.0 {
        changes.push(change_of(alloc, *given).ok()?).ok()?;
    }
    Some(is_each(Manner::KeepsLineEnds, changes.as_slice()) == row.1)
}

// A text, and whether it ends within a line.
const ENDS: &[(&[u8], bool)] = &[
    (b"", false),
    (b"a", true),
    (b"a\n", false),
    (b"a\x0c", false),
    (b"\na", true),
];

#[test]
fn policies_follow_as_worked_by_hand(rt: HostRuntime) {
    for (number, row) in ROWS.iter().enumerate() {
        assert!(rt;
            is_told(rt.alloc(), row, false) == Some(true),
            "row {number}"
        );
    }
}

// Policies that are searched for exactly: a change may be one in either case.
const EXACT: &[Row] = &[
    (&[Given::Swaps(b"foo", b"bar")], Keep, b"others=foo", false),
    (&[Given::Swaps(b"F1", b"bar")], Keep, b"others=F1", false),
    (&[Given::Swaps(b"1", b"2")], Keep, b"others=1", true),
];

#[test]
fn exact_policies_follow_as_worked_by_hand(rt: HostRuntime) {
    for (number, row) in EXACT.iter().enumerate() {
        assert!(rt;
            is_told(rt.alloc(), row, true) == Some(true),
            "row {number}"
        );
    }
}

#[test]
fn line_ends_are_told(rt: HostRuntime) {
    for (number, row) in LINE_ENDS.iter().enumerate() {
        assert!(rt;
            ends_are_told(rt.alloc(), row) == Some(true),
            "row {number}"
        );
    }
}

#[test]
fn ends_of_texts_are_seen(rt: HostRuntime) {
    for (number, row) in ENDS.iter().enumerate() {
        assert!(rt; ends_within_line(row.0) == row.1, "row {number}");
    }
}
