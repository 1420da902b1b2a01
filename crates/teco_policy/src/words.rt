//! The words of the command line that ask for policies, and how a policy is printed.
ghost use Rattle.std.specs.Prelude.{◌≡◌, ◌≢◌, ◌+◌, ◌-◌, ◌*◌, ◌++◌, ℕ, List, MatchOption, IfSome, IfOk, IsTrue};
ghost use Rattle.teco_base.specs.Bytes as byte;
ghost use Rattle.teco_policy.specs.Words.{IsNumber, IsRead, option_of};
ghost use Rattle.teco_policy.specs.declared.words.PolicyOption.TheVariants as option;

use crate::alike::are_equal;
use crate::percent::Percent;
use crate::policy::Policy;
use crate::refusal::PolicyRefusal;
use crate::search_text::SearchText;
use std::alloc::{AllocError, Global};
use std::fmt;
use std::fmt::Write;
use teco_base::bytes::is_digit;

/// The options that a policy stands behind.
#[derive(Clone, Copy)]
pub enum PolicyOption {
    Keep,
    Add,
    Take,
    Most,
}

impl PolicyOption {
    /// As it stands on the command line.
    pub fn name(self) -> &'static str {
        match self {
            PolicyOption::Keep => "--keep",
            PolicyOption::Add => "--add",
            PolicyOption::Take => "--take",
            PolicyOption::Most => "--most",
        }
    }
}

// What stands in a word behind its beginning.
#[tactic(auto, using(crate::proofs::Asking::parts))]
fn behind<'a>(word: &'a [u8], beginning: &[u8]) -> Option<&'a [u8]>
    ensures { MatchOption result ((rest : List ℕ) → word.now ≢ beginning.now ++ rest)
        (λ rest. word.now ≡ beginning.now ++ rest.now) }
{
    word.strip_prefix(beginning)
}

// What stands in a word before its end.
#[tactic(auto, using(crate::proofs::Asking::parts))]
fn before<'a>(word: &'a [u8], end: &[u8]) -> Option<&'a [u8]>
    ensures { MatchOption result ((front : List ℕ) → word.now ≢ front ++ end.now)
        (λ front. word.now ≡ front.now ++ end.now) }
{
    word.strip_suffix(end)
}

// A number with one more digit.
#[tactic(auto, using(crate::proofs::Asking::digit_least))]
fn with_digit(n: usize, digit: u8) -> Option<usize>
    ensures digit { IfSome result (λ _. IsTrue (byte.is_digit digit)) }
    ensures value { IfSome result (λ more. more ≡ n * 10 + (digit - 48)) }
{
    if !is_digit(digit) {
        return None;
    }
    n.checked_mul(10)?.checked_add(usize::from(digit - b'0'))
}

// The number that digits are.
#[tactic(auto, using(crate::proofs::Asking::counting))]
fn number(digits: &[u8]) -> Option<usize>
    ensures { IfSome result (λ n. IsNumber n digits.now) }
{
    if digits.is_empty() {
        return None;
    }
    let mut n = 0;
    for digit in digits {
        n = with_digit(n, *digit)?;
    }
    Some(n)
}

// The characters, as a list of their own.
fn list_of(alloc: Global, text: &[u8]) -> Result<Vec<u8>, AllocError>
    ensures { IfOk result (λ list. list.items ≡ text.now) }
{
    let mut list = Vec::new(alloc);
    list.extend_from_slice(text)?;
    Ok(list)
}

// The policy that a word behind `--keep` asks for.
#[tactic(auto, using(crate::proofs::Asking::asking))]
fn read_keep(alloc: Global, word: &[u8], exact: bool) -> Result<Policy, PolicyRefusal>
    ensures { IsRead option.Keep exact word.now result }
{
    if are_equal(word, b"text") {
        return Ok(Policy::KeepText);
    }
    if are_equal(word, b"size") {
        return Ok(Policy::KeepSize);
    }
    if are_equal(word, b"lines") {
        return Ok(Policy::KeepLines);
    }
    match behind(word, b"others=") {
        Some(text) => Ok(Policy::KeepOthers(SearchText::read(alloc, text, exact)?)),
        None => Err(PolicyRefusal::Word),
    }
}

// The policy that a word behind `--add` asks for.
#[tactic(auto, using(crate::proofs::Asking::asking))]
fn read_add(alloc: Global, word: &[u8], exact: bool) -> Result<Policy, PolicyRefusal>
    ensures { IsRead option.Add exact word.now result }
{
    if are_equal(word, b"nothing") {
        return Ok(Policy::AddNothing);
    }
    match behind(word, b"only=") {
        Some(text) => Ok(Policy::AddOnly(list_of(alloc, text)?)),
        None => Err(PolicyRefusal::Word),
    }
}

// The policy that a word behind `--take` asks for.
#[tactic(auto, using(crate::proofs::Asking::asking))]
fn read_take(alloc: Global, word: &[u8], exact: bool) -> Result<Policy, PolicyRefusal>
    ensures { IsRead option.Take exact word.now result }
{
    match behind(word, b"only=") {
        Some(text) => Ok(Policy::TakeOnly(list_of(alloc, text)?)),
        None => Err(PolicyRefusal::Word),
    }
}

// The policy that a word behind `--most` asks for.
#[tactic(auto, using(crate::proofs::Asking::asking))]
fn read_most(word: &[u8], exact: bool) -> Result<Policy, PolicyRefusal>
    ensures { IsRead option.Most exact word.now result }
{
    let Some(digits) = before(word, b"%") else {
        return match number(word) {
            Some(lines) => Ok(Policy::Most(lines)),
            None => Err(PolicyRefusal::Number),
        };
    };
    let Some(hundredths) = number(digits) else {
        return Err(PolicyRefusal::Number);
    };
    match Percent::new(hundredths) {
        Some(percent) => Ok(Policy::MostPercent(percent)),
        None => Err(PolicyRefusal::Percent),
    }
}

impl Policy {
    /// The option that the policy stands behind.
    pub fn option(&self) -> PolicyOption
        ensures { result ≡ option_of self.now }
    {
        match self {
            Policy::KeepText | Policy::KeepSize | Policy::KeepLines | Policy::KeepOthers(_) => {
                PolicyOption::Keep
            }
            Policy::AddNothing | Policy::AddOnly(_) => PolicyOption::Add,
            Policy::TakeOnly(_) => PolicyOption::Take,
            Policy::Most(_) | Policy::MostPercent(_) => PolicyOption::Most,
        }
    }

    /// Reads the word that stands behind an option. The search text of `others=` is one of TECO's,
    /// and a letter in it stands for both its cases unless it is `exact`.
    pub fn read(
        alloc: Global,
        behind: PolicyOption,
        word: &[u8],
        exact: bool,
    ) -> Result<Policy, PolicyRefusal>
        ensures { IsRead behind exact word.now result }
    {
        match behind {
            PolicyOption::Keep => read_keep(alloc, word, exact),
            PolicyOption::Add => read_add(alloc, word, exact),
            PolicyOption::Take => read_take(alloc, word, exact),
            PolicyOption::Most => read_most(word, exact),
        }
    }
}

// Bytes as they are, if they are a text without controls; otherwise those that are not printable
// ASCII in hexadecimal.
#[derive(Clone, Copy)]
struct Shown<'a>(&'a [u8]);

impl fmt::Display for Shown<'_> {
    fn fmt<W: fmt::Write>(&self, f: &mut fmt::Formatter<W>) -> fmt::Result {
        if !self.0.iter().any(|b| b.is_ascii_control())
            && let Ok(text) = str::from_utf8(self.0)
        {
            return f.write_str(text);
        }
        for byte in self.0 {
            if *byte == b' ' || byte.is_ascii_graphic() {
                f.write_char(char::from(*byte))?;
            } else {
                write!(f, "\\x{byte:02x}")?;
            }
        }
        Ok(())
    }
}

impl fmt::Display for Policy {
    fn fmt<W: fmt::Write>(&self, f: &mut fmt::Formatter<W>) -> fmt::Result {
        match self {
            Policy::KeepText => f.write_str("--keep text"),
            Policy::KeepSize => f.write_str("--keep size"),
            Policy::KeepLines => f.write_str("--keep lines"),
            Policy::KeepOthers(search) => write!(f, "--keep others={}", Shown(search.text())),
            Policy::AddNothing => f.write_str("--add nothing"),
            Policy::AddOnly(characters) => write!(f, "--add only={}", Shown(characters)),
            Policy::TakeOnly(characters) => write!(f, "--take only={}", Shown(characters)),
            Policy::Most(lines) => write!(f, "--most {lines}"),
            Policy::MostPercent(percent) => write!(f, "--most {}%", percent.value()),
        }
    }
}
