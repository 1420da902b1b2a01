//! Rows of calls on either store, with what each answers and leaves. One that is refused memory is made once more.
use std::alloc::Global;
use std::process::Abort;
use teco_base::LIMIT;
use teco_text::{GapText, TextFault, TextStore, VecText};

#[derive(Clone, Copy)]
enum StoreCall {
    SetDot(usize),
    Insert(&'static [u8]),
    Delete(usize, usize),
    Replace(usize, usize, &'static [u8]),
    Reserve(usize),
    // a vector becomes the text, and an empty one comes back
    Exchange(&'static [u8]),
}

fn exchange<T: TextStore>(store: &mut T, alloc: Global, bytes: &[u8]) -> Result<(), TextFault> {
    let text = Vec::from_slice(alloc, bytes)?;
    if text.len() <= LIMIT && store.exchange(text).is_empty() {
        return Ok(());
    }
    Err(TextFault::Full)
}

fn answer<T: TextStore>(store: &mut T, alloc: Global, call: StoreCall) -> &'static str {
    let done = match call {
        StoreCall::SetDot(i) => store.set_dot(i),
        StoreCall::Insert(bytes) => store.insert(bytes),
        StoreCall::Delete(a, b) => store.delete(a, b),
        StoreCall::Replace(a, b, bytes) => store.replace(a, b, bytes),
        StoreCall::Reserve(n) => store.reserve(n),
        StoreCall::Exchange(bytes) => exchange(store, alloc, bytes),
    };
    match done {
        Ok(()) => "ok",
        Err(TextFault::Off) => "off",
        Err(TextFault::Full) => "full",
        Err(TextFault::Memory) => "memory",
    }
}

// Whether the store has this at a place.
fn has<T: TextStore>(store: &T, place: usize, byte: Option<u8>) -> bool {
    store.at(place) == byte
}

// Whether the store has this text and pointer, character by character.
fn is_at<T: TextStore>(store: &T, text: &[u8], dot: usize) -> bool {
    for (place, byte) in text.iter().enumerate() {
        if !has(store, place, Some(*byte)) {
            return false;
        }
    }
    store.len() == text.len() && store.dot() == dot && has(store, text.len(), None)
}

// Whether the two pieces that the store shows are this text.
fn is_shown<T: TextStore>(store: &T, text: &[u8]) -> bool {
    let (front, back) = store.slices();
    front.len() <= text.len() && front == &text[..front.len()] && back == &text[front.len()..]
}

// Whether the store copies this text; a copy that is refused memory is made once more.
fn is_copied<T: TextStore>(store: &T, alloc: Global, text: &[u8]) -> bool {
    let mut out = Vec::new(alloc);
    let mut copied = store.copy_range(0, text.len(), &mut out);
    if copied.is_err() && out.is_empty() {
        copied = store.copy_range(0, text.len(), &mut out);
    }
    copied.is_ok() && out.as_slice() == text
}

// Whether the store has this text, by each method that shows it, and this pointer.
fn is_state<T: TextStore>(store: &T, alloc: Global, (text, dot): (&[u8], usize)) -> bool {
    is_at(store, text, dot) && is_shown(store, text) && is_copied(store, alloc, text)
}

// A call, its answer, and the text and the pointer then.
type StoreRow = (StoreCall, &'static str, (&'static [u8], usize));

// Whether a call answers and leaves what its row says; one that is refused memory leaves what was.
fn holds<T: TextStore>(
    store: &mut T,
    alloc: Global,
    before: (&[u8], usize),
    row: &StoreRow,
) -> bool {
    let (call, want, after) = row;
    let mut got = answer(store, alloc, *call);
    if got == "memory" && is_state(store, alloc, before) {
        got = answer(store, alloc, *call);
    }
    got == *want && is_state(store, alloc, *after)
}

// Asserts the rows of calls on a store, which is empty at first.
fn expect_rows<T: TextStore>(rt: &impl Abort, alloc: Global, store: &mut T, rows: &[StoreRow]) {
    let mut before: (&[u8], usize) = (b"", 0);
    for (number, row) in rows.iter().enumerate() {
        assert!(rt; holds(store, alloc, before, row), "row {number}");
        before = row.2;
    }
}

const IN_TURN: &[StoreRow] = &[
    (StoreCall::Insert(b"ab"), "ok", (b"ab", 2)),
    (StoreCall::Delete(1, 3), "off", (b"ab", 2)),
    (StoreCall::Replace(1, 3, b"x"), "off", (b"ab", 2)),
    (StoreCall::Reserve(268_435_457), "full", (b"ab", 2)),
    (StoreCall::Reserve(64), "ok", (b"ab", 2)),
    (StoreCall::SetDot(1), "ok", (b"ab", 1)),
    (StoreCall::Insert(b"cdef"), "ok", (b"acdefb", 5)),
    (StoreCall::Replace(1, 5, b"--"), "ok", (b"a--b", 3)),
    (StoreCall::Replace(1, 2, b"12345"), "ok", (b"a12345-b", 6)),
    (StoreCall::Delete(2, 4), "ok", (b"a145-b", 4)),
    (StoreCall::Delete(3, 5), "ok", (b"a14b", 3)),
    (StoreCall::Exchange(b"xyz"), "ok", (b"xyz", 0)),
    (StoreCall::Insert(b"--"), "ok", (b"--xyz", 2)),
    (StoreCall::Exchange(b"xyz"), "ok", (b"xyz", 0)),
];

// Whether 60 characters are put in and taken out without more memory.
fn has_room<T: TextStore>(store: &mut T) -> bool {
    for _ in 0..20 {
        if store.insert(b"+-*").is_err() {
            return false;
        }
    }
    store.len() == 63 && store.delete(0, 60).is_ok()
}

// What was reserved stays though vectors with less memory became the text.
fn expect_calls<T: TextStore + Drop>(rt: &impl Abort, alloc: Global, mut store: T) {
    expect_rows(rt, alloc, &mut store, IN_TURN);
    assert!(rt; has_room(&mut store) && is_state(&store, alloc, (b"xyz", 0)));
}

#[test]
fn either_store_answers_calls_and_keeps_its_room(rt: HostRuntime) {
    expect_calls(&rt, rt.alloc(), VecText::new(rt.alloc()));
    expect_calls(&rt, rt.alloc(), GapText::new(rt.alloc()));
}
