//! A policy, as a comment asks for it.
use crate::naming::{KnownTexts, with_texts};
use std::alloc::{AllocError, Global};
use std::fmt;
use teco_parameters::spelled;
use teco_policy::{Policy, PolicyOption, PolicyRefusal};

/// What comments begin with that ask for policies.
pub const WORD: &[u8] = b"KEEPS";

/// Why a comment that begins so asks for no policy, as messages have it.
#[derive(Clone, Copy)]
pub struct NoPolicy(pub PolicyRefusal);

impl fmt::Display for NoPolicy {
    fn fmt<W: fmt::Write>(&self, f: &mut fmt::Formatter<W>) -> fmt::Result {
        let NoPolicy(refusal) = self;
        write!(
            f,
            "KEEPS: {refusal}: write !KEEPS lines!, as the manual says"
        )
    }
}

/// What is wrong with a comment that is meant to declare a text, and declares none, as messages have
/// it.
#[derive(Clone, Copy)]
pub struct NoTakes;

impl fmt::Display for NoTakes {
    fn fmt<W: fmt::Write>(&self, f: &mut fmt::Formatter<W>) -> fmt::Result {
        f.write_str("TAKES: write !TAKES Q name: what it is for!, as the manual says")
    }
}

// The options that a comment names, each with a blank behind it.
const OPTIONS: [(&[u8], PolicyOption); 3] = [
    (b"add ", PolicyOption::Add),
    (b"take ", PolicyOption::Take),
    (b"most ", PolicyOption::Most),
];

// The option that a text begins with, and the word behind it. Where it names none, all of it stands
// behind `--keep`.
fn split_option(text: &[u8]) -> (PolicyOption, &[u8]) {
    for (name, option) in OPTIONS {
        if let Some(word) = text.strip_prefix(name) {
            return (option, word);
        }
    }
    (PolicyOption::Keep, text)
}

/// What begins the word behind `KEEPS` that has a search text.
const OTHERS: &[u8] = b"others=";

// The policy that a search text asks for behind `others=`. One that is never found lets no line
// change.
fn read_others(alloc: Global, search: &[u8], exact: bool) -> Result<Policy, PolicyRefusal> {
    if search.is_empty() {
        return Ok(Policy::Most(0));
    }
    let mut word = OTHERS.to_vec(alloc)?;
    word.extend_from_slice(search)?;
    Policy::read(alloc, PolicyOption::Keep, &word, exact)
}

// The policy that a text asks for, once it is spelled. Its search text may name registers.
fn read_spelled(
    alloc: Global,
    text: &[u8],
    exact: bool,
    known: KnownTexts<'_>,
) -> Result<Policy, PolicyRefusal> {
    let (option, word) = split_option(text);
    match (option, word.strip_prefix(OTHERS)) {
        (PolicyOption::Keep, Some([_, ..])) => {
            let search = with_texts(alloc, word.strip_prefix(OTHERS).unwrap_or(&[]), known)?;
            read_others(alloc, &search, exact)
        }
        _ => Policy::read(alloc, option, word, exact),
    }
}

// The policy that a comment asks for.
fn read_comment(
    alloc: Global,
    comment: &[u8],
    exact: bool,
    known: KnownTexts<'_>,
) -> Result<Policy, PolicyRefusal> {
    let Some([b' ', words @ ..]) = comment.strip_prefix(WORD) else {
        return Err(PolicyRefusal::Word);
    };
    match spelled(alloc, words)? {
        Some(text) => read_spelled(alloc, &text, exact, known),
        None => Err(PolicyRefusal::Word),
    }
}

/// The policy that a comment asks for, or why it asks for none. A search text of `others=` is read in
/// the mode of the edit: `exact`, or in either case. A register in it stands for its text.
pub fn read(
    alloc: Global,
    comment: &[u8],
    exact: bool,
    known: KnownTexts<'_>,
) -> Result<Result<Policy, PolicyRefusal>, AllocError> {
    match read_comment(alloc, comment, exact, known) {
        Err(PolicyRefusal::Memory) => Err(AllocError),
        read => Ok(read),
    }
}
