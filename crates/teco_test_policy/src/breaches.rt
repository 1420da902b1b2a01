//! Policies that are kept or broken, worked by hand from the rules.
use std::alloc::Global;
use teco_policy::PolicyOption::{Add, Keep, Most, Take};
use teco_policy::{Breach, Place, Policy, PolicyOption};

/// An option and its word, whether searches are exact, the old text and the new one, and where the
/// policy is broken.
type Row = (
    PolicyOption,
    &'static [u8],
    bool,
    &'static [u8],
    &'static [u8],
    Option<Breach>,
);

fn holds(alloc: Global, (option, word, exact, old, new, want): &Row) -> Option<bool> {
    let policy = Policy::read(alloc, *option, word, *exact).ok()?;
    let found = policy.breach(old, new);
    Some(found == *want && policy.is_kept(old, new) == want.is_none())
}

// Nothing is taken.
const TEXT_KEPT: &[Row] = &[
    (Keep, b"text", false, b"", b"", None),
    (Keep, b"text", false, b"", b"abc", None),
    (Keep, b"text", false, b"abc", b"abc", None),
    (Keep, b"text", false, b"abc", b"xaxbxcx", None),
    (
        Keep,
        b"text",
        false,
        b"abc",
        b"ab",
        Some(Breach::Taken(Place { at: 2, line: 1 })),
    ),
    (
        Keep,
        b"text",
        false,
        b"abc",
        b"",
        Some(Breach::Taken(Place { at: 0, line: 1 })),
    ),
    (
        Keep,
        b"text",
        false,
        b"a\nb\nc",
        b"a\nb\nx",
        Some(Breach::Taken(Place { at: 4, line: 3 })),
    ),
    (
        Keep,
        b"text",
        false,
        b"ab",
        b"ba",
        Some(Breach::Taken(Place { at: 1, line: 1 })),
    ),
    (
        Keep,
        b"text",
        false,
        b"a\r\nb",
        b"a\nb",
        Some(Breach::Taken(Place { at: 1, line: 1 })),
    ),
    (
        Keep,
        b"text",
        false,
        b"a\n",
        b"a",
        Some(Breach::Taken(Place { at: 1, line: 1 })),
    ),
    (
        Keep,
        b"text",
        false,
        b"a\x0bb\x0cc",
        b"a\x0bb\x0c",
        Some(Breach::Taken(Place { at: 4, line: 3 })),
    ),
    (
        Keep,
        b"text",
        false,
        b"aab",
        b"ab",
        Some(Breach::Taken(Place { at: 1, line: 1 })),
    ),
];

// As long as before.
const SIZE_KEPT: &[Row] = &[
    (Keep, b"size", false, b"", b"", None),
    (Keep, b"size", false, b"abc", b"xyz", None),
    (Keep, b"size", false, b"abc", b"ab", Some(Breach::Resized)),
    (Keep, b"size", false, b"", b"a", Some(Breach::Resized)),
];

// As many lines, each of which ends alike.
const LINES_KEPT: &[Row] = &[
    (Keep, b"lines", false, b"", b"", None),
    (Keep, b"lines", false, b"a\nb\n", b"x\nyy\n", None),
    (Keep, b"lines", false, b"a\nb", b"x\nyy", None),
    (Keep, b"lines", false, b"\n\n", b"a\n\n", None),
    (Keep, b"lines", false, b"a\r\nb", b"a\nb", None),
    (Keep, b"lines", false, b"a\x0bb\x0c", b"x\x0by\x0c", None),
    (
        Keep,
        b"lines",
        false,
        b"a\nb\n",
        b"a\nb",
        Some(Breach::Line(2)),
    ),
    (
        Keep,
        b"lines",
        false,
        b"a\nb",
        b"a\nb\n",
        Some(Breach::Line(2)),
    ),
    (
        Keep,
        b"lines",
        false,
        b"a\n",
        b"a\nb",
        Some(Breach::Line(2)),
    ),
    (
        Keep,
        b"lines",
        false,
        b"a\nb\n",
        b"b\n",
        Some(Breach::Line(2)),
    ),
    (
        Keep,
        b"lines",
        false,
        b"a\x0bb",
        b"a\nb",
        Some(Breach::Line(1)),
    ),
    (
        Keep,
        b"lines",
        false,
        b"a\x0c",
        b"a\x0b",
        Some(Breach::Line(1)),
    ),
    (Keep, b"lines", false, b"", b"a", Some(Breach::Line(1))),
    (Keep, b"lines", false, b"a", b"", Some(Breach::Line(1))),
    (
        Keep,
        b"lines",
        false,
        b"ab\ncd\nef",
        b"ab\ncdef",
        Some(Breach::Line(2)),
    ),
];

// Only lines with a match are changed.
const OTHERS_KEPT: &[Row] = &[
    (
        Keep,
        b"others=foo",
        false,
        b"a foo\nb\n",
        b"a bar\nb\n",
        None,
    ),
    (Keep, b"others=foo", false, b"a Foo\n", b"a bar\n", None),
    (
        Keep,
        b"others=foo",
        true,
        b"a Foo\n",
        b"a bar\n",
        Some(Breach::Line(1)),
    ),
    (Keep, b"others=foo", true, b"a foo\n", b"a bar\n", None),
    (
        Keep,
        b"others=foo",
        false,
        b"a foo\nb\n",
        b"a foo\nc\n",
        Some(Breach::Line(2)),
    ),
    (Keep, b"others=foo", false, b"xfoo", b"x", None),
    (Keep, b"others=foo", false, b"foo\n", b"\n", None),
    (
        Keep,
        b"others=foo",
        false,
        b"foo\n",
        b"bar",
        Some(Breach::Line(1)),
    ),
    (
        Keep,
        b"others=foo",
        false,
        b"foo",
        b"",
        Some(Breach::Line(1)),
    ),
    (
        Keep,
        b"others=foo",
        false,
        b"a\n",
        b"foo\n",
        Some(Breach::Line(1)),
    ),
    (Keep, b"others=foo", false, b"", b"", None),
    (Keep, b"others=f^Xo", false, b"fro\n", b"x\n", None),
    (
        Keep,
        b"others=a^Jb",
        false,
        b"a\nb",
        b"x\nb",
        Some(Breach::Line(1)),
    ),
    (
        Keep,
        b"others=^EL",
        false,
        b"a\n",
        b"b\n",
        Some(Breach::Line(1)),
    ),
    (Keep, b"others=^ED", false, b"a1\nb\n", b"a2\nb\n", None),
];

// Nothing is added.
const NOTHING_ADDED: &[Row] = &[
    (Add, b"nothing", false, b"abc", b"ac", None),
    (Add, b"nothing", false, b"abc", b"", None),
    (
        Add,
        b"nothing",
        false,
        b"",
        b"a",
        Some(Breach::Added(Place { at: 0, line: 1 })),
    ),
    (
        Add,
        b"nothing",
        false,
        b"ab",
        b"abb",
        Some(Breach::Added(Place { at: 2, line: 1 })),
    ),
    (
        Add,
        b"nothing",
        false,
        b"a\nb",
        b"a\nb\nc",
        Some(Breach::Added(Place { at: 3, line: 2 })),
    ),
    (
        Add,
        b"nothing",
        false,
        b"ab",
        b"ba",
        Some(Breach::Added(Place { at: 1, line: 1 })),
    ),
];

// Only some characters are added.
const ONLY_ADDED: &[Row] = &[
    (Add, b"only=,", false, b"ab", b"a,b", None),
    (Add, b"only=,", false, b"a,b", b",a,b,", None),
    (
        Add,
        b"only=,",
        false,
        b"ab",
        b"a;b",
        Some(Breach::Added(Place { at: 1, line: 1 })),
    ),
    (Add, b"only=", false, b"ab", b"ab", None),
    (
        Add,
        b"only=",
        false,
        b"ab",
        b"a b",
        Some(Breach::Added(Place { at: 1, line: 1 })),
    ),
    (Add, b"only= \t", false, b"a\nb", b" a\n\tb", None),
    (
        Add,
        b"only=,",
        false,
        b"ab",
        b"a,b\nc",
        Some(Breach::Added(Place { at: 3, line: 1 })),
    ),
    (Add, b"only=x", false, b"xa", b"ax", None),
    (Add, b"only=ab", false, b"", b"abab", None),
];

// Only some characters are taken.
const ONLY_TAKEN: &[Row] = &[
    (Take, b"only= ", false, b"a b ", b"ab", None),
    (
        Take,
        b"only= ",
        false,
        b"a b",
        b"a",
        Some(Breach::Taken(Place { at: 2, line: 1 })),
    ),
    (Take, b"only=\r", false, b"a\r\nb\r\n", b"a\nb\n", None),
    (
        Take,
        b"only=\r",
        false,
        b"a\r\nb",
        b"ab",
        Some(Breach::Taken(Place { at: 2, line: 1 })),
    ),
    (
        Take,
        b"only=",
        false,
        b"ab",
        b"a",
        Some(Breach::Taken(Place { at: 1, line: 1 })),
    ),
    (Take, b"only=0123456789", false, b"a1b", b"a9b?", None),
    (
        Take,
        b"only=0123456789",
        false,
        b"a1\nb1\nc",
        b"a\nb\n",
        Some(Breach::Taken(Place { at: 6, line: 3 })),
    ),
];

// Few lines are changed: where there are as many, at their places.
const FEW_CHANGED: &[Row] = &[
    (Most, b"0", false, b"", b"", None),
    (Most, b"0", false, b"a\nb", b"a\nb", None),
    (Most, b"0", false, b"a\n", b"b\n", Some(Breach::Changed(1))),
    (Most, b"0", false, b"a\n", b"a", Some(Breach::Changed(1))),
    (
        Most,
        b"0",
        false,
        b"a\r\n",
        b"a\n",
        Some(Breach::Changed(1)),
    ),
    (Most, b"1", false, b"a\nb\nc", b"a\nx\nc", None),
    (
        Most,
        b"1",
        false,
        b"a\nb\nc",
        b"x\nb\ny",
        Some(Breach::Changed(2)),
    ),
    (Most, b"2", false, b"a\nb\nc", b"x\nb\ny", None),
];

// Few lines stand between what both texts begin and end with.
const FEW_TAKEN: &[Row] = &[
    (Most, b"1", false, b"a\nb\nc\n", b"a\nc\n", None),
    (
        Most,
        b"0",
        false,
        b"a\nb\nc\n",
        b"a\nc\n",
        Some(Breach::Changed(1)),
    ),
    (Most, b"0", false, b"a\nc\n", b"a\nb\nc\n", None),
    (
        Most,
        b"3",
        false,
        b"a\nb\nc\nd\n",
        b"x\nb\nc\n",
        Some(Breach::Changed(4)),
    ),
    (Most, b"4", false, b"a\nb\nc\nd\n", b"x\nb\nc\n", None),
    (Most, b"1", false, b"a\na\na\n", b"a\na\n", None),
    (Most, b"0", false, b"", b"a", None),
    (Most, b"0", false, b"a", b"", Some(Breach::Changed(1))),
];

// Few of each hundred lines are changed.
const A_SHARE_CHANGED: &[Row] = &[
    (Most, b"50%", false, b"a\nb\n", b"a\nx\n", None),
    (
        Most,
        b"49%",
        false,
        b"a\nb\n",
        b"a\nx\n",
        Some(Breach::Changed(1)),
    ),
    (
        Most,
        b"10%",
        false,
        b"0\n1\n2\n3\n4\n5\n6\n7\n8\n9\n",
        b"x\n1\n2\n3\n4\n5\n6\n7\n8\n9\n",
        None,
    ),
    (
        Most,
        b"10%",
        false,
        b"1\n2\n3\n4\n5\n6\n7\n8\n9\n",
        b"x\n2\n3\n4\n5\n6\n7\n8\n9\n",
        Some(Breach::Changed(1)),
    ),
    (Most, b"100%", false, b"a\nb\n", b"x\ny\n", None),
    (Most, b"0%", false, b"a", b"b", Some(Breach::Changed(1))),
    (
        Most,
        b"33%",
        false,
        b"a\nb\nc\n",
        b"x\nb\nc\n",
        Some(Breach::Changed(1)),
    ),
    (Most, b"34%", false, b"a\nb\nc\n", b"x\nb\nc\n", None),
];

#[test]
fn policies_are_kept_or_broken(rt: HostRuntime) {
    let tables = [
        TEXT_KEPT,
        SIZE_KEPT,
        LINES_KEPT,
        OTHERS_KEPT,
        NOTHING_ADDED,
        ONLY_ADDED,
        ONLY_TAKEN,
        FEW_CHANGED,
        FEW_TAKEN,
        A_SHARE_CHANGED,
    ];
    for (table, rows) in tables.iter().enumerate() {
        for (number, row) in rows.iter().enumerate() {
            assert!(rt;
                holds(rt.alloc(), row) == Some(true),
                "table {table}, row {number}"
            );
        }
    }
}
