//! Which parameters comments declare, and of which macro.
use std::alloc::Global;
use teco_base::Reg;
use teco_parameters::{Parameter, TakesFault, parameters_of, summary_of};

// A comment, and what it declares: the register, the name, the default, and whether the text is a
// search text.
type Declared = (
    &'static [u8],
    u8,
    &'static [u8],
    Option<&'static [u8]>,
    bool,
);

fn is_declared(
    alloc: Global,
    (comment, letter, name, default, is_search): &Declared,
) -> Option<bool> {
    let parameter = Parameter::read(alloc, comment).ok()??;
    let same_default = match (&parameter.default, default) {
        (Some(text), Some(wanted)) => text.as_slice() == *wanted,
        (None, None) => true,
        _ => false,
    };
    Some(
        parameter.register.name() == *letter
            && parameter.name.as_slice() == *name
            && same_default
            && parameter.is_search == *is_search,
    )
}

const DECLARED: &[Declared] = &[
    (b"TAKES O old: the text", b'O', b"old", None, false),
    (b"TAKES o old: the text", b'O', b"old", None, false),
    (b"TAKES 7 a1: the text", b'7', b"a1", None, false),
    (b"TAKES N new=: the text", b'N', b"new", Some(b""), false),
    (
        b"TAKES W tab-width=8: columns",
        b'W',
        b"tab-width",
        Some(b"8"),
        false,
    ),
    (
        b"TAKES S by=\\x3a\\x20=\\t: it",
        b'S',
        b"by",
        Some(b": =\t"),
        false,
    ),
    (b"TAKES S by=a:b: it", b'S', b"by", Some(b"a:b"), false),
    (
        b"TAKES P what as a search text: it",
        b'P',
        b"what",
        None,
        true,
    ),
    (
        b"TAKES P what=^ED as a search text: it",
        b'P',
        b"what",
        Some(b"^ED"),
        true,
    ),
    (
        b"TAKES P as: as a search text: it",
        b'P',
        b"as",
        None,
        false,
    ),
];

const NOT_DECLARED: &[&[u8]] = &[
    b"TAKES",
    b"TAKES O",
    b"TAKES O old",
    b"TAKES O old:the text",
    b"TAKES O o: the text",
    b"TAKES ? old: the text",
    b"TAKES O  old: the text",
    b"TAKES O old word: the text",
    b"TAKES O 1st: the text",
    b"TAKES O old=\\z: the text",
    b"takes O old: the text",
    b"TAKES Old: the text",
];

fn is_read(alloc: Global, comment: &[u8]) -> bool {
    matches!(Parameter::read(alloc, comment), Ok(Some(_)))
}

#[test]
fn comments_declare_parameters(rt: HostRuntime) {
    for row in DECLARED {
        assert!(rt; is_declared(rt.alloc(), row) == Some(true), "{:?}", row.0);
    }
    for comment in NOT_DECLARED {
        assert!(rt; !is_read(rt.alloc(), comment), "{:?}", comment);
    }
}

// Two macros, the second with a comment in its text.
const LIBRARY: &[u8] =
    b"!Two.!!TAKES O old: it!@^UA~1^X!TAKES N new=: it!~!TAKES K key: it!@^UB~J~";

// The place of what can't be used, in a library of one macro.
fn fault_in(alloc: Global, library: &[u8]) -> Option<(bool, usize)> {
    match parameters_of(alloc, library, Reg::default()) {
        Err(TakesFault::Unread(place)) => Some((false, place)),
        Err(TakesFault::Again(place)) => Some((true, place)),
        _ => None,
    }
}

fn registers(alloc: Global, library: &[u8], entry: u8) -> Option<Vec<u8>> {
    let mut letters = Vec::new(alloc);
    for parameter in parameters_of(alloc, library, Reg::of(entry)?).ok()? {
        letters.push(parameter.register.name()).ok()?;
    }
    Some(letters)
}

fn has_registers(alloc: Global, entry: u8, wanted: &[u8]) -> bool {
    match registers(alloc, LIBRARY, entry) {
        Some(letters) => letters.as_slice() == wanted,
        None => false,
    }
}

#[test]
fn each_macro_has_its_own(rt: HostRuntime) {
    assert!(rt; has_registers(rt.alloc(), b'A', b"ON"));
    assert!(rt; has_registers(rt.alloc(), b'B', b"K"));
    assert!(rt; has_registers(rt.alloc(), b'C', b""));
    assert!(rt; summary_of(LIBRARY) == Some(b"Two."));
    assert!(rt; summary_of(b"@^UA~J~").is_none());
}

#[test]
fn faults_are_placed(rt: HostRuntime) {
    let alloc = rt.alloc();
    assert!(rt; fault_in(alloc, b"!TAKES O: it!@^UA~J~") == Some((false, 0)));
    assert!(rt; fault_in(alloc, b"@^UA~J!TAKES O: it!~") == Some((false, 6)));
    assert!(rt; fault_in(alloc, b"!TAKES O old: it!!TAKES o new: it!@^UA~J~") == Some((true, 17)));
    assert!(rt; fault_in(alloc, b"!TAKES O old: it!!TAKES N old: it!@^UA~J~") == Some((true, 17)));
    assert!(rt; fault_in(alloc, b"!TAKES O old: it!@^UA~J~").is_none());
}
