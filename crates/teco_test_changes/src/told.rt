//! What is told of macros, by the table of elements.
use crate::following::Given;
use std::alloc::Global;
use std::test::*;
use teco_base::{LIMIT, Reg};
use teco_changes::Change;
use teco_expansion::expand;
use teco_library::Library;
use teco_told::changes_of_macro;

// A library with the macro A, and what A can do, in the order of its elements; `None` where nothing is told.
type Row = (&'static [u8], Option<&'static [Given]>);

const ROWS: &[Row] = &[
    // What puts and takes.
    (b"@^UA/Ix\x1b/", Some(&[Given::Puts(b"x")])),
    (b"@^UA/QBI\x1b/", Some(&[Given::PutsByte])),
    (b"@^UA/\tx\x1b/", Some(&[Given::Puts(b"\tx")])),
    (b"@^UA/5\\/", Some(&[Given::PutsNumber])),
    (b"@^UA/GB/", Some(&[Given::PutsText])),
    (b"@^UA/:GB/", Some(&[])),
    (b"@^UA/HK/", Some(&[Given::TakesAny])),
    (b"@^UA/D/", Some(&[Given::TakesAny])),
    (b"@^UA/A/", Some(&[Given::Takes(12, 12)])),
    // A number that is known is put as its character, of 256 values; one behind an operator is not known.
    (b"@^UA/65I\x1b/", Some(&[Given::Puts(b"A")])),
    (b"@^UA/266I\x1b/", Some(&[Given::Puts(b"\n")])),
    (b"@^UA/-10I\x1b/", Some(&[Given::PutsByte])),
    (b"@^UA/QB+10I\x1b/", Some(&[Given::PutsByte])),
    (b"@^UA/3<10I\x1b>/", Some(&[Given::Puts(b"\n")])),
    (b"@^UA/:Sx\x1b\"S9I\x1b'/", Some(&[Given::Puts(b"\t")])),
    (b"@^UA/QB\"E10|13'I\x1b/", Some(&[Given::PutsByte])),
    (b"@^UA/QB\"E10|10'I\x1b/", Some(&[Given::Puts(b"\n")])),
    (b"@^UA/QB\"E10'I\x1b/", Some(&[Given::PutsByte])),
    (b"@^UA/7MB/@^UB/I\x1b/", Some(&[Given::Puts(b"\x07")])),
    (
        b"@^UA/7MB8MB/@^UB/I\x1b/",
        Some(&[Given::Puts(b"\x07"), Given::Puts(b"\x08")]),
    ),
    // A with a number gives a character; the number may be given on each way, by a macro, or by an operator alone.
    (b"@^UA/0AUB/", Some(&[])),
    (b"@^UA/-AUB/", Some(&[])),
    (b"@^UA/QBAUC/", Some(&[])),
    (b"@^UA/(2)AUC/", Some(&[])),
    (b"@^UA/MBAUC/@^UB/0/", Some(&[])),
    (b"@^UA/QB\"E5|6'AUC/", Some(&[])),
    (b"@^UA/QB\"E5'A/", Some(&[Given::Takes(12, 12)])),
    (b"@^UA/0\x1bA/", Some(&[Given::Takes(12, 12)])),
    (b"@^UA/0CA/", Some(&[Given::Takes(12, 12)])),
    (b"@^UA/<0A-32\"E1;'0;>A/", Some(&[Given::Takes(12, 12)])),
    // What swaps.
    (
        b"@^UA/FSfoo\x1bbar\x1b/",
        Some(&[Given::Swaps(b"foo", b"bar")]),
    ),
    (
        b"@^UA/FNfoo\x1bbar\x1b/",
        Some(&[Given::Swaps(b"foo", b"bar")]),
    ),
    (
        b"@^UA/FS\x1bbar\x1b/",
        Some(&[Given::TakesAny, Given::Puts(b"bar")]),
    ),
    // What was just found is taken: by as many characters as each match has, by its length or by its place.
    (b"@^UA/<Sfoo\x1b;-3D>/", Some(&[Given::TakesMatch(b"foo")])),
    (b"@^UA/<Nx\x1b;-D>/", Some(&[Given::TakesMatch(b"x")])),
    (
        b"@^UA/<S\x18\x1b;\x13D>/",
        Some(&[Given::TakesMatch(b"\x18")]),
    ),
    (
        b"@^UA/<Sfoo\x1b;\x19K>/",
        Some(&[Given::TakesMatch(b"foo")]),
    ),
    (b"@^UA/<Sfoo\x1b;-2D>/", Some(&[Given::TakesAny])),
    (b"@^UA/<Sfoo\x1b;-3K>/", Some(&[Given::TakesAny])),
    (b"@^UA/<S\x18\x1b;-D>/", Some(&[Given::TakesAny])),
    (b"@^UA/<Sfoo\x1b;QB-3D>/", Some(&[Given::TakesAny])),
    // It was found where its answer is not 0, and nothing moved since.
    (
        b"@^UA/:Sfoo\x1b\"S-3D'/",
        Some(&[Given::TakesMatch(b"foo")]),
    ),
    (
        b"@^UA/:Sfoo\x1b\"F|-3D'/",
        Some(&[Given::TakesMatch(b"foo")]),
    ),
    (b"@^UA/:Sfoo\x1b\"F-3D'/", Some(&[Given::TakesAny])),
    (b"@^UA/:Sfoo\x1bUB-3D/", Some(&[Given::TakesAny])),
    (
        b"@^UA/<Sfoo\x1b;0A-32\"E-3D'>/",
        Some(&[Given::TakesMatch(b"foo")]),
    ),
    (b"@^UA/<Sfoo\x1b;R-3D>/", Some(&[Given::TakesAny])),
    (b"@^UA/<Sfoo\x1b;QB\"ER'-3D>/", Some(&[Given::TakesAny])),
    (b"@^UA/<S\x1b;-3D>/", Some(&[Given::TakesAny])),
    // A character of which a test has told is taken, at the pointer or before it.
    (b"@^UA/<0A\"DD|0;'>/", Some(&[Given::Takes(48, 57)])),
    (b"@^UA/<0A-44\"ED|0;'>/", Some(&[Given::Takes(44, 44)])),
    (b"@^UA/<-1A-32\"E-D|0;'>/", Some(&[Given::Takes(32, 32)])),
    (b"@^UA/<-A-32\"E-D|0;'>/", Some(&[Given::Takes(32, 32)])),
    (b"@^UA/<0A-33:;D>/", Some(&[Given::Takes(33, 255)])),
    (b"@^UA/<0A-33;D>/", Some(&[Given::Takes(0, 32)])),
    (b"@^UA/J0A-32\"N|D'/", Some(&[Given::Takes(32, 32)])),
    (b"@^UA/J0A-32\"GD'/", Some(&[Given::Takes(33, 255)])),
    (b"@^UA/J0A-32\"G|D'/", Some(&[Given::Takes(0, 32)])),
    (b"@^UA/J0A-47\"G0A-58\"LD''/", Some(&[Given::Takes(48, 57)])),
    (b"@^UA/J0A-32\"EQB\"ED''/", Some(&[Given::Takes(32, 32)])),
    (b"@^UA/<-1A-32\"ED|0;'>/", Some(&[Given::TakesAny])),
    (b"@^UA/J0A-32\"E|D'/", Some(&[Given::TakesAny])),
    (b"@^UA/J0A-32\"ERD'/", Some(&[Given::TakesAny])),
    (b"@^UA/J0A-32\"E2D'/", Some(&[Given::TakesAny])),
    (b"@^UA/J0A-32\"EK'/", Some(&[Given::TakesAny])),
    (b"@^UA/JQB-32\"ED'/", Some(&[Given::TakesAny])),
    // What changes no text.
    (b"@^UA/J<Sa\x1b;XB=>/", Some(&[])),
    (b"@^UA/NEND\x1bP/", Some(&[])),
    // Each once, those of macros that are called too.
    (
        b"@^UA/Ix\x1bDIx\x1bD/",
        Some(&[Given::Puts(b"x"), Given::TakesAny]),
    ),
    (
        b"@^UA/MBIx\x1b/@^UB/D/",
        Some(&[Given::TakesAny, Given::Puts(b"x")]),
    ),
    // Of what writes a range or a page twice, reads a page over another or names files, nothing is told.
    (b"@^UA/0,5P/", None),
    (b"@^UA/P^YT/", None),
    (b"@^UA/PW/", None),
    (b"@^UA/IxY\x1bY/", None),
    (b"@^UA/EF/", None),
];

fn is_given(change: &Change, given: Given) -> bool {
    match (change, given) {
        (Change::Puts(text), Given::Puts(bytes)) => text.as_slice() == bytes,
        (Change::PutsNumber, Given::PutsNumber) => true,
        (Change::PutsByte, Given::PutsByte) => true,
        (Change::PutsText(_), Given::PutsText) => true,
        (Change::Takes(class), Given::Takes(first, last)) => match class.as_slice() {
            [range] => range.first == first && range.last == last,
            _ => false,
        },
        (Change::TakesMatch(wanted), Given::TakesMatch(from)) => wanted.as_slice() == from,
        (Change::TakesAny, Given::TakesAny) => true,
        (Change::Swaps(wanted, text), Given::Swaps(from, into)) => {
            wanted.as_slice() == from && text.as_slice() == into
        }
        _ => false,
    }
}

fn are_given(changes: &[Change], given: &[Given]) -> bool {
    changes.len() == given.len()
        && changes
            .iter()
            .zip(given.iter())
            .all(|(change, expected)| is_given(change, *expected))
}

fn is_told(alloc: Global, row: &Row) -> Option<bool> {
    if row.0.len() > LIMIT {
        return None;
    }
    let library = Library::read(alloc, row.0).ok()?;
    let nodes = expand(alloc, &library, Reg::of(b'A')?).ok()?;
    let told = changes_of_macro(alloc, &nodes).ok()?;
    Some(match (told, row.1) {
        (Some(changes), Some(given)) => are_given(changes.as_slice(), given),
        (None, None) => true,
        _ => false,
    })
}

#[test]
fn changes_are_told(rt: HostRuntime) {
    for (number, row) in ROWS.iter().enumerate() {
        assert!(rt; is_told(rt.alloc(), row) == Some(true), "row {number}");
    }
}
