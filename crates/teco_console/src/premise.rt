//! Up to which N a promise holds.
ghost use Rattle.std.specs.Prelude.{◌≡◌, ◌≤◌, ◌+◌, ◌↔◌, IsTrue, IfSome};
ghost use Rattle.teco_console.specs.Premise.{IsPremise, IsWithin};

use crate::setting::Setting;
use crate::sourced::NAMES;
use std::fmt;
use teco_base::{LIMIT, Reg};
use teco_library::Library;
use teco_poly::Poly;
use teco_poly::laws::values_grow;
use teco_promise::Promise;

/// The greatest N at which a promise holds: the printed size may be held, and the printed number of
/// commands is one of 64 bits.
#[derive(Clone, Copy)]
pub struct Premise {
    pub last: Option<u64>,
    /// How many of the characters that N counts are not of the text: those of the library's texts, and of
    /// what registers are set to.
    pub taken: u64,
}

impl Premise {
    /// The premise of a promise with this size and this number of commands, by a library whose texts
    /// take so many characters.
    pub fn of(size: &Poly, commands: &Poly, taken: u64) -> Premise
        ensures last { IsPremise size.now commands.now result.last }
        ensures taken { result.taken ≡ taken }
    {
        values_grow();
        let fits = size.greatest_within(LIMIT as u64);
        let counts = commands.greatest_within(u64::MAX);
        match (fits, counts) {
            (Some(fits), Some(counts)) => Premise {
                last: Some(fits.min(counts)),
                taken,
            },
            _ => Premise { last: None, taken },
        }
    }

    /// The premise of a promise.
    pub fn of_promise(promise: &Promise<'_>) -> Premise
        ensures { IsPremise promise.now.size promise.now.commands result.last }
    {
        Premise::with_settings(promise, &[])
    }

    /// The premise of a promise where registers are set first.
    pub fn with_settings(promise: &Promise<'_>, settings: &[Setting]) -> Premise
        ensures { IsPremise promise.now.size promise.now.commands result.last }
    {
        Premise::of(
            &promise.size(),
            &promise.commands(),
            characters_of(promise.library(), settings),
        )
    }

    /// How many characters a text may have, beside those that registers take; none where the promise
    /// holds for no text. With one of so many N is no more than the last at which the promise holds.
    pub fn longest(self) -> Option<u64>
        ensures { IfSome result (λ longest. IsWithin self.last (longest + self.taken)) }
    {
        match self.last {
            Some(last) if last > 0 => last.checked_sub(self.taken),
            _ => None,
        }
    }

    /// Does the promise hold for no text? N counts the texts of the library, so it does where they
    /// alone are too long.
    pub fn is_empty(self) -> bool {
        self.longest().is_none()
    }

    /// Does the promise hold at this N?
    pub fn holds_at(self, n: u128) -> bool
        ensures { IsTrue result ↔ IsWithin self.last n }
    {
        match self.last {
            None => false,
            Some(last) => n <= u128::from(last),
        }
    }
}

// The length of the text that a register is set to last, if it is set.
fn set_length(settings: &[Setting], register: Reg) -> usize {
    let mut length = 0;
    for given in settings {
        if given.register().index() == register.index() {
            length = given.text().len();
        }
    }
    length
}

// The length of the text of a register where a run begins: the library's, or else what it was set to.
fn length_of(library: &Library, settings: &[Setting], register: Reg) -> usize {
    match library.text(register) {
        Some(text) => text.len(),
        None => set_length(settings, register),
    }
}

// How many characters registers have where a run begins.
fn characters_of(library: &Library, settings: &[Setting]) -> u64 {
    let mut count = 0u64;
    for name in NAMES {
        if let Some(register) = Reg::of(*name) {
            count = count.saturating_add(length_of(library, settings, register) as u64);
        }
    }
    count
}

impl fmt::Display for Premise {
    fn fmt<W: fmt::Write>(&self, f: &mut fmt::Formatter<W>) -> fmt::Result {
        let (Some(last), Some(longest)) = (self.last, self.longest()) else {
            return write!(f, "holds for no text");
        };
        let (last, longest, taken) = (Grouped(last), Grouped(longest), Grouped(self.taken));
        write!(
            f,
            "holds for texts up to {longest} characters (N up to {last}, of which the macro takes {taken})"
        )
    }
}

/// A number with a comma before each three digits.
#[derive(Clone, Copy)]
pub struct Grouped(pub u64);

impl Grouped {
    // Its digits by threes, the greatest first.
    fn groups(self) -> [u64; 7] {
        let n = self.0;
        [
            n / 1_000_000_000_000_000_000,
            n / 1_000_000_000_000_000 % 1000,
            n / 1_000_000_000_000 % 1000,
            n / 1_000_000_000 % 1000,
            n / 1_000_000 % 1000,
            n / 1000 % 1000,
            n % 1000,
        ]
    }
}

impl fmt::Display for Grouped {
    fn fmt<W: fmt::Write>(&self, f: &mut fmt::Formatter<W>) -> fmt::Result {
        if self.0 == 0 {
            return write!(f, "0");
        }
        let mut is_begun = false;
        for group in self.groups() {
            if is_begun {
                write!(f, ",{group:03}")?;
            } else if group > 0 {
                write!(f, "{group}")?;
                is_begun = true;
            }
        }
        Ok(())
    }
}

/// A number that may not be known.
#[derive(Clone, Copy)]
pub struct KnownNumber(pub Option<u64>);

impl fmt::Display for KnownNumber {
    fn fmt<W: fmt::Write>(&self, f: &mut fmt::Formatter<W>) -> fmt::Result {
        match self.0 {
            None => write!(f, "unknown"),
            Some(number) => write!(f, "{}", Grouped(number)),
        }
    }
}
