//! Claims in a reader's words.
use std::alloc::{AllocError, Global};
use std::fmt;
use teco_claims::{Claim, ClaimMeasure, ClaimSingle, ClaimTerm, Fraction};

// What a measure that a state has once is called.
fn name_of(single: ClaimSingle) -> &'static str {
    match single {
        ClaimSingle::Steps => "commands",
        ClaimSingle::Pointer => ".",
        ClaimSingle::Size => "Z",
        ClaimSingle::Held => "held",
        ClaimSingle::LineEnd => "line end",
        ClaimSingle::LineStart => "line start",
        ClaimSingle::LastLength => "last length",
        ClaimSingle::Typed => "typed",
        ClaimSingle::EntryHeld => "held at the entry",
    }
}

// A measure as it is written.
#[derive(Clone, Copy)]
struct Name(ClaimMeasure);

impl fmt::Display for Name {
    fn fmt<W: fmt::Write>(&self, f: &mut fmt::Formatter<W>) -> fmt::Result {
        match self.0 {
            ClaimMeasure::One(single) => f.write_str(name_of(single)),
            ClaimMeasure::Number(register) => write!(f, "Q{}", char::from(register.name())),
            ClaimMeasure::Length(register) => write!(f, ":Q{}", char::from(register.name())),
            ClaimMeasure::Turns(number) => write!(f, "turns left of {number}"),
            ClaimMeasure::PushedNumber(before) => write!(f, "number pushed behind {before}"),
            ClaimMeasure::PushedLength(before) => write!(f, "length pushed behind {before}"),
        }
    }
}

// A factor of a term, behind the ones before it.
fn write_factor<W: fmt::Write, D: fmt::Display>(
    f: &mut fmt::Formatter<W>,
    is_first: bool,
    factor: &D,
) -> fmt::Result {
    if is_first {
        write!(f, "{factor}")
    } else {
        write!(f, "*{factor}")
    }
}

// A number, as a fraction where it is none of the whole ones.
#[derive(Clone, Copy)]
struct Ratio(Fraction);

impl fmt::Display for Ratio {
    fn fmt<W: fmt::Write>(&self, f: &mut fmt::Formatter<W>) -> fmt::Result {
        let Fraction { numerator, divisor } = self.0;
        if divisor == 1 {
            write!(f, "{numerator}")
        } else {
            write!(f, "{numerator}/{divisor}")
        }
    }
}

// A power of N.
#[derive(Clone, Copy)]
struct Power(u32);

impl fmt::Display for Power {
    fn fmt<W: fmt::Write>(&self, f: &mut fmt::Formatter<W>) -> fmt::Result {
        match self.0 {
            1 => f.write_str("N"),
            power => write!(f, "N^{power}"),
        }
    }
}

// A term without its sign.
#[derive(Clone, Copy)]
struct Amount(ClaimTerm);

impl fmt::Display for Amount {
    fn fmt<W: fmt::Write>(&self, f: &mut fmt::Formatter<W>) -> fmt::Result {
        let ClaimTerm {
            is_negative: _,
            coefficient,
            power,
            measure,
        } = self.0;
        let is_one = coefficient.numerator == 1 && coefficient.divisor == 1;
        let is_alone = power == 0 && measure.is_none();
        let is_told = !is_one || is_alone;
        if is_told {
            write!(f, "{}", Ratio(coefficient))?;
        }
        if power > 0 {
            write_factor(f, !is_told, &Power(power))?;
        }
        match measure {
            Some(measure) => write_factor(f, !is_told && power == 0, &Name(measure)),
            None => Ok(()),
        }
    }
}

// The sum of the terms that are added, or of those that are taken away.
fn sum_of(alloc: Global, claim: &Claim, is_negative: bool) -> Result<String, AllocError> {
    let mut sum = String::new(alloc);
    for term in &claim.terms {
        if term.is_negative == is_negative {
            let between = if sum.is_empty() { "" } else { " + " };
            sum.push_str(format!(in alloc; "{between}{}", Amount(*term))?.as_str())?;
        }
    }
    if sum.is_empty() {
        sum.push_str("0")?;
    }
    Ok(sum)
}

/// A claim in words: that one sum is at most another, or just it.
#[derive(Drop)]
pub struct Stated {
    least: String,
    most: String,
    is_equal: bool,
}

impl Stated {
    /// A claim alone.
    pub fn of(alloc: Global, claim: &Claim) -> Result<Stated, AllocError> {
        Ok(Stated {
            least: sum_of(alloc, claim, true)?,
            most: sum_of(alloc, claim, false)?,
            is_equal: false,
        })
    }

    // Does it say the opposite of another?
    fn is_opposite(&self, other: &Stated) -> bool {
        self.least.as_str() == other.most.as_str() && self.most.as_str() == other.least.as_str()
    }

    /// It in words.
    pub fn words(&self, alloc: Global) -> Result<String, AllocError> {
        let relation = if self.is_equal { "=" } else { "<=" };
        let least = self.least.as_str();
        let most = self.most.as_str();
        format!(in alloc; "{least} {relation} {most}")
    }
}

/// Claims that hold together, in words: two that say the opposite of each other are one.
pub fn all_stated(alloc: Global, claims: &[Claim]) -> Result<Vec<Stated>, AllocError> {
    let mut all: Vec<Stated> = Vec::new(alloc);
    for claim in claims {
        let stated = Stated::of(alloc, claim)?;
        match all.iter_mut().find(|other| other.is_opposite(&stated)) {
            Some(other) => other.is_equal = true,
            None => all.push(stated)?,
        }
    }
    Ok(all)
}
