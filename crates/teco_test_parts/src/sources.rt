//! Sources and the texts that they say, worked by hand.
use std::alloc::Global;
use teco_source::*;

const TILDE: EscapeForm = EscapeForm::Marked(b'~');

/// A form, a source, and the text that it says.
type Read = (EscapeForm, &'static [u8], &'static [u8]);

fn is_read(alloc: Global, (form, source, text): &Read) -> Option<bool> {
    let said = form.read(alloc, source).ok()?;
    Some(said.as_slice() == *text)
}

const SOURCES: &[Read] = &[
    (EscapeForm::Readable, b"J<Sfoo$;>$", b"J<Sfoo\x1b;>\x1b"),
    (EscapeForm::Readable, b"I^$5$", b"I$5\x1b"),
    (EscapeForm::Readable, b"^^$$", b"^$\x1b"),
    (TILDE, b"I$5~^~", b"I$5\x1b^\x1b"),
    (EscapeForm::Marked(b'^'), b"^^$", b"\x1b\x1b$"),
];

// A form, a text, and the source that says it, if there is one.
type Written = (EscapeForm, &'static [u8], Option<&'static [u8]>);

fn is_written(alloc: Global, (form, text, want): &Written) -> Option<bool> {
    match (form.write(alloc, text).ok()?, want) {
        (Some(source), Some(want)) => Some(source.as_slice() == *want),
        (source, want) => Some(source.is_none() && want.is_none()),
    }
}

const WRITTEN: &[Written] = &[
    (EscapeForm::Readable, b"I$5\x1b", Some(b"I^$5$")),
    (EscapeForm::Readable, b"^U$\x1b", Some(b"^U^$$")),
    (EscapeForm::Readable, b"I^\x1b", None),
    (TILDE, b"I^\x1b$", Some(b"I^~$")),
];

#[test]
fn sources_are_read_and_texts_written(rt: HostRuntime) {
    for (number, row) in SOURCES.iter().enumerate() {
        assert!(rt; is_read(rt.alloc(), row) == Some(true), "source {number}");
    }
    for (number, row) in WRITTEN.iter().enumerate() {
        assert!(rt; is_written(rt.alloc(), row) == Some(true), "text {number}");
    }
}

// A form, a source, a place of the text that it says, and the place in the source.
const PLACES: &[(EscapeForm, &[u8], usize, usize)] = &[
    (EscapeForm::Readable, b"I^$5$", 1, 2),
    (EscapeForm::Readable, b"I^$5$", 2, 3),
    (EscapeForm::Readable, b"I^$5$", 4, 5),
    (TILDE, b"I^~5", 3, 3),
];

// A file, and where its text begins.
const BEGINNINGS: &[(&[u8], usize)] = &[
    (b"#!/usr/bin/teco run\n1=", 20),
    (b"#1\n", 0),
    (b"1=\n#!", 0),
];

#[test]
fn places_lines_and_beginnings_are_found(rt: HostRuntime) {
    for (number, (form, source, place, at)) in PLACES.iter().enumerate() {
        assert!(rt; form.place_in(source, *place) == *at, "place {number}");
    }
    let (line, column) = (3, 1);
    assert!(rt; LineAndByte::of(b"ab\r\n\ncd", 5) == LineAndByte { line, column });
    for (number, (file, begin)) in BEGINNINGS.iter().enumerate() {
        assert!(rt; text_begin(file) == *begin, "beginning {number}");
    }
}

// A text, what is shown of it, and the width of that.
type Printed = (&'static [u8], &'static str, usize);

fn is_shown(alloc: Global, (text, shown, width): &Printed) -> Option<bool> {
    let printed = format!(in alloc; "{}", Shown(text)).ok()?;
    Some(printed.as_str() == *shown && Shown(text).width() == *width)
}

const SHOWN: &[Printed] = &[
    (b"FSfoo\x1bbar\x1b;", "FSfoo$bar$;", 11),
    (b"a\tb\x0c\x00\x7f", "a^Ib^L^@^?", 10),
    (b"\xc3\x89t\xc3\xa9", "\u{c9}t\u{e9}", 3),
    (b"\xc2\x9b\xe2\x80\xae", "\\u{9b}\\u{202e}", 14),
    (b"\xff\xc3", "\\xff\\xc3", 8),
];

fn is_printed(alloc: Global, excerpt: Excerpt<'_>, want: &str) -> Option<bool> {
    let printed = format!(in alloc; "{excerpt}").ok()?;
    Some(printed.as_str() == want)
}

// A file, a place, and the excerpt that marks it.
const EXCERPTS: &[(&[u8], usize, &str)] = &[
    (b"ab\ncd\x1be\nf", 5, "    cd$e\n      ^"),
    (b"\xc3\xa9\tD", 3, "    \u{e9}^ID\n       ^"),
    (b"ab", 9, "    ab\n      ^"),
];

// Is a long line cut on either side of the place?
fn is_cut(alloc: Global) -> Option<bool> {
    let cut = format!(in alloc; "{}", Excerpt::of(&[b'x'; 200], 100)).ok()?;
    let (first, second) = cut.as_str().split_once('\n').unwrap_or(("", ""));
    Some(first.len() == 4 + 3 + 80 + 3 && second.len() == 4 + 3 + 56 + 1)
}

// Texts are shown without controls, excerpts mark the place, and long lines are cut on either side.
#[test]
fn texts_are_shown_and_excerpts_mark_the_place(rt: HostRuntime) {
    for (number, row) in SHOWN.iter().enumerate() {
        assert!(rt; is_shown(rt.alloc(), row) == Some(true), "text {number}");
    }
    for (number, (file, place, shown)) in EXCERPTS.iter().enumerate() {
        let excerpt = Excerpt::of(file, *place);
        assert!(rt;
            is_printed(rt.alloc(), excerpt, shown) == Some(true),
            "excerpt {number}"
        );
    }
    assert!(rt; is_cut(rt.alloc()) == Some(true));
}

// Does a source say its text, and know its places?
fn is_source(alloc: Global) -> Option<bool> {
    let bytes = b"Ia$\nI^$$5C".to_vec(alloc).ok()?;
    let source = Source::new(alloc, "in.tes", bytes, EscapeForm::Readable).ok()?;
    let is_said = source.name() == "in.tes" && source.text() == b"Ia\x1b\nI$\x1b5C".as_slice();
    let is_there = source.position(5) == LineAndByte { line: 2, column: 3 };
    let is_shown = is_printed(alloc, source.excerpt(7), "    I^$$5C\n        ^")?;
    Some(is_said && is_there && is_shown)
}

fn is_script(alloc: Global) -> Option<bool> {
    let bytes = b"#!teco\n5C".to_vec(alloc).ok()?;
    let script = Source::script(alloc, "s", bytes, EscapeForm::Readable).ok()?;
    let is_there = script.position(1) == LineAndByte { line: 2, column: 2 };
    Some(script.text() == b"5C".as_slice() && is_there)
}

#[test]
fn sources_know_their_places(rt: HostRuntime) {
    assert!(rt; is_source(rt.alloc()) == Some(true));
    assert!(rt; is_script(rt.alloc()) == Some(true));
}
