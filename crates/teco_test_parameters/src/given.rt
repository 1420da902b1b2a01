//! The texts that words give to parameters, and faults of words.
use std::alloc::Global;
use teco_parameters::BindingFault::{Missing, Twice, Unknown};
use teco_parameters::{BindingFault, Given, Parameter, given_in, texts_for};

// Two parameters, the second of which has a default.
const OLD: &[u8] = b"TAKES O old: it";

const NEW: &[u8] = b"TAKES N new=n: it";

fn parameters(alloc: Global) -> Option<Vec<Parameter>> {
    let mut both = Vec::new(alloc);
    both.push(Parameter::read(alloc, OLD).ok()??).ok()?;
    both.push(Parameter::read(alloc, NEW).ok()??).ok()?;
    Some(both)
}

// Keys and texts, and the texts of both parameters.
type Bound = (
    &'static [(&'static [u8], &'static [u8])],
    &'static [u8],
    &'static [u8],
);

// Keys, and the fault that words with these are.
type Faulty = (&'static [&'static [u8]], BindingFault);

fn words<'a>(alloc: Global, pairs: &[(&'a [u8], &'a [u8])]) -> Option<Vec<Given<'a>>> {
    let mut words = Vec::new(alloc);
    for (key, text) in pairs {
        words.push(Given { key, text }).ok()?;
    }
    Some(words)
}

fn is_bound(alloc: Global, (pairs, old, new): &Bound) -> Option<bool> {
    let given = words(alloc, pairs)?;
    let texts = texts_for(alloc, &parameters(alloc)?, &given).ok()?;
    match texts.as_slice() {
        [first, second] => Some(first.as_slice() == *old && second.as_slice() == *new),
        _ => Some(false),
    }
}

fn same_fault(a: BindingFault, b: BindingFault) -> bool {
    match (a, b) {
        (Unknown(k), Unknown(l)) | (Twice(k), Twice(l)) | (Missing(k), Missing(l)) => k == l,
        _ => false,
    }
}

fn is_faulty(alloc: Global, (keys, fault): &Faulty) -> Option<bool> {
    let mut given = Vec::new(alloc);
    for key in *keys {
        given.push(Given { key, text: b"x" }).ok()?;
    }
    match texts_for(alloc, &parameters(alloc)?, &given) {
        Ok(_) => Some(false),
        Err(told) => Some(same_fault(told, *fault)),
    }
}

const BOUND: &[Bound] = &[
    (&[(b"old", b"foo"), (b"new", b"bar")], b"foo", b"bar"),
    (&[(b"new", b"bar"), (b"old", b"foo")], b"foo", b"bar"),
    (&[(b"O", b"foo"), (b"n", b"$^=")], b"foo", b"$^="),
    (&[(b"old", b"foo")], b"foo", b"n"),
    (&[(b"old", b""), (b"new", b"")], b"", b""),
];

const FAULTY: &[Faulty] = &[
    (&[], Missing(0)),
    (&[b"new"], Missing(0)),
    (&[b"old", b"case"], Unknown(1)),
    (&[b"Old"], Unknown(0)),
    (&[b""], Unknown(0)),
    (&[b"old", b"old"], Twice(0)),
    (&[b"old", b"new", b"N"], Twice(1)),
    (&[b"O", b"old", b"x"], Unknown(2)),
];

#[test]
fn words_give_texts(rt: HostRuntime) {
    for row in BOUND {
        assert!(rt; is_bound(rt.alloc(), row) == Some(true), "{:?}", row.1);
    }
    for row in FAULTY {
        assert!(rt; is_faulty(rt.alloc(), row) == Some(true), "{:?}", row.0);
    }
}

// A word, its key and its text.
type Split = (&'static [u8], &'static [u8], &'static [u8]);

fn is_split((word, key, text): &Split) -> bool {
    match given_in(word) {
        Some(given) => given.key == *key && given.text == *text,
        None => false,
    }
}

const SPLIT: &[Split] = &[
    (b"old=foo", b"old", b"foo"),
    (b"O=", b"O", b""),
    (b"tab-width=a=b/c", b"tab-width", b"a=b/c"),
    (b"=x", b"", b"x"),
];

const WHOLE: &[&[u8]] = &[b"", b"old", b"./a=b", b"a.c=d", b"a b=c"];

#[test]
fn words_are_split_at_the_first_sign(rt: HostRuntime) {
    for row in SPLIT {
        assert!(rt; is_split(row), "{:?}", row.0);
    }
    for word in WHOLE {
        assert!(rt; given_in(word).is_none(), "{:?}", word);
    }
}
