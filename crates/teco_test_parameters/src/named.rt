//! Where names lead to, and what quoted texts find.
use std::alloc::Global;
use teco_find::Pattern;
use teco_parameters::{is_name, places, quoted};
use teco_regs::Regs;

const NAMES: &[&[u8]] = &[b"replace", b"replace-word", b"x", b"my_edit2"];

const FILES: &[&[u8]] = &[
    b"",
    b"-",
    b"2to3",
    b"a.tes",
    b"./a",
    b"lib/a",
    b"a b",
    b"_a",
    b"\xc3\xa4",
];

#[test]
fn words_are_names_or_files(rt: HostRuntime) {
    for word in NAMES {
        assert!(rt; is_name(word), "{:?}", word);
    }
    for word in FILES {
        assert!(rt; !is_name(word), "{:?}", word);
    }
}

fn leads_to(
    alloc: Global,
    own: Option<&[u8]>,
    installed: Option<&[u8]>,
    wanted: &[&[u8]],
) -> Option<bool> {
    let found = places(alloc, b"trim", own, installed).ok()?;
    Some(
        found.len() == wanted.len()
            && found
                .iter()
                .zip(wanted)
                .all(|(path, place)| path.as_slice() == *place),
    )
}

#[test]
fn names_are_looked_for_in_order(rt: HostRuntime) {
    let alloc = rt.alloc();
    let all: &[&[u8]] = &[b"./trim.tes", b"own/trim.tes", b"/usr/share/teco/trim.tes"];
    let own: Option<&[u8]> = Some(b"own");
    let installed: Option<&[u8]> = Some(b"/usr/share/teco");
    assert!(rt; leads_to(alloc, own, installed, all) == Some(true));
    assert!(rt; leads_to(alloc, None, installed, &[all[0], all[2]]) == Some(true));
    assert!(rt; leads_to(alloc, None, None, &[all[0]]) == Some(true));
}

// A text, one in which its quotation is found unless the search is exact, and whether it is then too.
type Found = (&'static [u8], &'static [u8], bool);

fn finds(alloc: Global, text: &[u8], within: &[u8], exact: bool) -> Option<bool> {
    let search = quoted(alloc, text).ok()?;
    let pattern = Pattern::read(alloc, &search, &Regs::new(alloc), exact).ok()?;
    Some(pattern.forward((&[], within), 0, 1).is_some())
}

const FOUND: &[Found] = &[
    (b"foo", b"a foo", true),
    (b"foo", b"a Foo", false),
    (b"^", b"a^b", true),
    (b"^E", b"^e", false),
    (b"^X^", b"x^X^", true),
    (b"\x05\x0e\x11\x13\x18", b"\x05\x0e\x11\x13\x18", true),
    (b"\x1b$.*[", b"\x1b$.*[", true),
    (b"a\r\n\x00\xff", b"a\r\n\x00\xff", true),
];

const MISSED: &[(&[u8], &[u8])] = &[
    (b"^X", b"xy"),
    (b"^ED", b"7"),
    (b"\x18", b"xy"),
    (b"@", b"`"),
    (b"", b"x"),
];

#[test]
fn quoted_texts_find_themselves(rt: HostRuntime) {
    let alloc = rt.alloc();
    for (text, within, exactly) in FOUND {
        assert!(rt;
            finds(alloc, text, within, false) == Some(true),
            "{:?}",
            text
        );
        assert!(rt;
            finds(alloc, text, within, true) == Some(*exactly),
            "{:?}",
            text
        );
    }
    for (text, within) in MISSED {
        assert!(rt;
            finds(alloc, text, within, false) == Some(false),
            "{:?}",
            text
        );
    }
}
