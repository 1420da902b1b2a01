//! What is known before an element, in words.
use std::alloc::{AllocError, Global};
use std::fmt;
use teco_base::Reg;
use teco_console::NAMES;
use teco_poly::Poly;
use teco_verifier::{Distances, Interval, Value};
use teco_verify::{Choice, Known};

/// The numbers that a register may have.
const LEAST: i64 = i32::MIN as i64;

const MOST: i64 = i32::MAX as i64;

// An interval as listings have it.
#[derive(Clone, Copy)]
struct ListedInterval {
    lo: i64,
    hi: i64,
}

impl ListedInterval {
    // Is it any number?
    fn is_any(self) -> bool {
        self.lo <= LEAST && self.hi >= MOST
    }
}

impl fmt::Display for ListedInterval {
    fn fmt<W: fmt::Write>(&self, f: &mut fmt::Formatter<W>) -> fmt::Result {
        if self.is_any() {
            write!(f, "any number")
        } else if self.lo == self.hi {
            write!(f, "{}", self.lo)
        } else {
            write!(f, "{} to {}", self.lo, self.hi)
        }
    }
}

// A multiple of a distance of the pointer.
#[derive(Clone, Copy)]
struct Multiple {
    factor: i64,
    distance: &'static str,
}

impl fmt::Display for Multiple {
    fn fmt<W: fmt::Write>(&self, f: &mut fmt::Formatter<W>) -> fmt::Result {
        match self.factor {
            0 => Ok(()),
            1 => write!(f, "{} + ", self.distance),
            factor => write!(f, "{factor} * {} + ", self.distance),
        }
    }
}

// A value as listings have it.
#[derive(Clone, Copy)]
struct ListedValue(Value);

impl fmt::Display for ListedValue {
    fn fmt<W: fmt::Write>(&self, f: &mut fmt::Formatter<W>) -> fmt::Result {
        let Value {
            ahead,
            behind,
            lo,
            hi,
            saved,
        } = self.0;
        let ahead = Multiple {
            factor: ahead,
            distance: "ahead",
        };
        let behind = Multiple {
            factor: behind,
            distance: "behind",
        };
        let place = if saved { ", a place" } else { "" };
        write!(f, "{ahead}{behind}{}{place}", ListedInterval { lo, hi })
    }
}

// Words behind others.
fn push<D: fmt::Display + Drop>(
    alloc: Global,
    text: &mut String,
    words: D,
) -> Result<(), AllocError> {
    text.push_str(format!(in alloc; "{words}")?.as_str())
}

// A polynomial behind words.
fn push_poly(alloc: Global, text: &mut String, poly: &Poly) -> Result<(), AllocError> {
    text.push_str(poly.print(alloc)?.as_str())
}

// The characters behind and ahead of the pointer, and what is held at most.
fn push_room(alloc: Global, text: &mut String, known: &Known<'_>) -> Result<(), AllocError> {
    let Distances { back, fore } = known.room();
    push(
        alloc,
        text,
        format_args!("behind at least {back}; ahead at least {fore}, at most "),
    )?;
    push_poly(alloc, text, &known.ahead())?;
    text.push_str("; held at most ")?;
    push_poly(alloc, text, &known.held())
}

// The values that are pending.
fn push_pending(alloc: Global, text: &mut String, known: &Known<'_>) -> Result<(), AllocError> {
    if let Some(first) = known.first() {
        push(
            alloc,
            text,
            format_args!("; in front of the comma {}", ListedValue(first)),
        )?;
    }
    if let Some(value) = known.value() {
        push(alloc, text, format_args!("; value {}", ListedValue(value)))?;
    }
    if known.found().is_some() {
        text.push_str(", the answer of a search")?;
    }
    Ok(())
}

// What is used up of what is ahead in the turn of an open iteration.
#[derive(Clone, Copy)]
struct ListedFall(Option<i64>);

impl fmt::Display for ListedFall {
    fn fmt<W: fmt::Write>(&self, f: &mut fmt::Formatter<W>) -> fmt::Result {
        match self.0 {
            None => write!(f, "; used up in the turn: not known"),
            Some(fall) => write!(f, "; used up in the turn: at least {fall}"),
        }
    }
}

// What is used up in the turns of the open iterations, the innermost first.
fn push_falls(alloc: Global, text: &mut String, known: &Known<'_>) -> Result<(), AllocError> {
    for at in 0..known.open() {
        push(alloc, text, ListedFall(known.fall(at)))?;
    }
    Ok(())
}

// The number that a register has, where that is known.
fn push_number(
    alloc: Global,
    text: &mut String,
    known: &Known<'_>,
    register: Reg,
) -> Result<(), AllocError> {
    let name = char::from(register.name());
    let Interval { lo, hi } = known.number(register);
    let numbers = ListedInterval { lo, hi };
    if !numbers.is_any() {
        push(alloc, text, format_args!("; Q{name} {numbers}"))?;
    }
    if known.is_place(register) {
        push(alloc, text, format_args!("; Q{name} a place"))?;
    }
    Ok(())
}

// How long the text of a register is at most, where that is known.
fn push_length(
    alloc: Global,
    text: &mut String,
    known: &Known<'_>,
    register: Reg,
) -> Result<(), AllocError> {
    let most = known.text(register);
    if most == Poly::variable() {
        return Ok(());
    }
    let name = char::from(register.name());
    push(alloc, text, format_args!("; text of {name} at most "))?;
    push_poly(alloc, text, &most)
}

// What registers hold, where that is known.
fn push_registers(alloc: Global, text: &mut String, known: &Known<'_>) -> Result<(), AllocError> {
    for name in NAMES {
        if let Some(register) = Reg::of(*name) {
            push_number(alloc, text, known, register)?;
            push_length(alloc, text, known, register)?;
        }
    }
    Ok(())
}

// All that is known.
fn push_known(alloc: Global, text: &mut String, known: &Known<'_>) -> Result<(), AllocError> {
    push_room(alloc, text, known)?;
    push_pending(alloc, text, known)?;
    push_falls(alloc, text, known)?;
    push_registers(alloc, text, known)?;
    let pushed = known.pushed();
    if pushed > 0 {
        push(alloc, text, format_args!("; pushed {pushed}"))?;
    }
    Ok(())
}

/// What is known before an element, in words: the characters behind and ahead of the pointer, what
/// is held at most, what is pending, what was used up in the turns of the open iterations, and what
/// registers hold where that is known.
pub fn words_of(alloc: Global, known: &Known<'_>) -> Result<String, AllocError> {
    let mut text = String::new(alloc);
    push_known(alloc, &mut text, known)?;
    Ok(text)
}

// How often an iteration is passed at most, and as what begins something is held.
fn push_turns(
    alloc: Global,
    text: &mut String,
    turns: Option<Poly>,
) -> Result<&'static str, AllocError> {
    let Some(turns) = turns else {
        text.push_str("no count")?;
        return Ok("a turn");
    };
    text.push_str("at most ")?;
    push_poly(alloc, text, &turns)?;
    text.push_str(" turns")?;
    Ok("one")
}

// All that is chosen for an iteration.
fn push_choice(
    alloc: Global,
    text: &mut String,
    choice: &Choice,
    turns: Option<Poly>,
) -> Result<(), AllocError> {
    let beginning = push_turns(alloc, text, turns)?;
    text.push_str("; held at most ")?;
    push_poly(alloc, text, &choice.held)?;
    let kept = if choice.kept { "kept" } else { "lost" };
    push(
        alloc,
        text,
        format_args!(" as {beginning} begins; what is ahead is {kept}"),
    )
}

/// What is chosen for an iteration, in words: its turns, and what is held as each begins.
pub fn words_of_choice(
    alloc: Global,
    choice: &Choice,
    turns: Option<Poly>,
) -> Result<String, AllocError> {
    let mut text = String::new(alloc);
    push_choice(alloc, &mut text, choice, turns)?;
    Ok(text)
}
