//! What search texts look for, part by part.
ghost use Rattle.std.specs.Prelude.{◌≡◌, ℕ, Bool, IfOk, IfSome, IsTrue, ◌↔◌, Ok, true, flat_map, pos, length, ◌∷◌, []};
ghost use Rattle.std.specs.List.{All};
ghost use Rattle.teco_linear.specs.Form.{Valuation, value};
ghost use Rattle.teco_model.specs.Pattern as model;
ghost use Rattle.teco_model.specs.laws.Whole.{IsWhole};
ghost use Rattle.teco_search_outcomes.specs.Patterns.{AreCodes, AreCodesOf, BeginsIn, EndsIn, EndsLine, IsLong};
ghost use Rattle.teco_search_outcomes.specs.Patterns.{IsSingle, StaysInLine};
ghost use Rattle.teco_model.specs.declared.pattern.Class.TheVariants.{Literal};
ghost use Rattle.teco_rows.specs.States.{Point, IsTrueOf};

use std::alloc::Global;
use teco_base::Reg;
use teco_base::bytes::{control, is_letter, to_upper};
use teco_linear::Form;
use teco_model::pattern::{Class, Item, Part};
use teco_rows::case::Case;
use teco_rows::fault::RowFault;
use teco_rows::forms::length;

const CONTROL_E: u8 = 5;

const CONTROL_N: u8 = 14;

const CONTROL_Q: u8 = 17;

const CONTROL_S: u8 = 19;

const CONTROL_X: u8 = 24;

// The byte at the front, or the control byte that a caret and a byte are.
fn sign(text: &[u8]) -> Option<(u8, &[u8])>
    ensures { IfSome result (λ read. model.sign text.now ≡ Ok (read.0, read.1.now)) }
{
    let (b, rest) = text.split_first()?;
    if *b != b'^' {
        return Some((*b, rest));
    }
    let (c, rest) = rest.split_first()?;
    Some((control(*c)?, rest))
}

// Behind `^E`: the class that a letter names.
fn lettered(text: &[u8]) -> Option<(Class, &[u8])>
    ensures { IfSome result (λ read. model.lettered text.now ≡ Ok (read.0, read.1.now)) }
{
    let (b, rest) = text.split_first()?;
    let class = match to_upper(*b) {
        b'A' => Class::Letter,
        b'D' => Class::Digit,
        b'L' => Class::LineEnd,
        b'R' => Class::LetterOrDigit,
        b'V' => Class::Lower,
        b'W' => Class::Upper,
        _ => return None,
    };
    Some((class, rest))
}

// Behind a sign: the class that begins with it.
fn class_from(sign: u8, text: &[u8]) -> Option<(Class, &[u8])>
    ensures { IfSome result (λ read. model.class_from sign text.now ≡ Ok (read.0, read.1.now)) }
{
    match sign {
        CONTROL_X => Some((Class::Any, text)),
        CONTROL_S => Some((Class::Separator, text)),
        CONTROL_Q => {
            let (b, rest) = text.split_first()?;
            Some((Class::Literal(*b), rest))
        }
        CONTROL_E => lettered(text),
        CONTROL_N => None,
        b => Some((Class::Literal(b), text)),
    }
}

// Behind `^N`: the class that is not matched.
fn negated(text: &[u8]) -> Option<(Part, &[u8])>
    ensures { IfSome result (λ read. model.negated text.now ≡ Ok (read.0, read.1.now)) }
{
    let (b, rest) = sign(text)?;
    let (class, rest) = class_from(b, rest)?;
    Some((Part::Item(Item::IsNot(class)), rest))
}

// Behind `^EQ`: the register that is named.
fn register_text(text: &[u8]) -> Option<(Part, &[u8])>
    ensures { IfSome result (λ read. model.register_text text.now ≡ Ok (read.0, read.1.now)) }
{
    let (name, rest) = text.split_first()?;
    Some((Part::Register(Reg::of(*name)?), rest))
}

// Behind `^E`: what the letter names.
fn extended(text: &[u8]) -> Option<(Part, &[u8])>
    ensures { IfSome result (λ read. model.extended text.now ≡ Ok (read.0, read.1.now)) }
{
    let (b, rest) = text.split_first()?;
    match to_upper(*b) {
        b'Q' => register_text(rest),
        b'S' => Some((Part::Item(Item::Blanks), rest)),
        _ => {
            let (class, rest) = lettered(text)?;
            Some((Part::Item(Item::Is(class)), rest))
        }
    }
}

// The part that a text begins with.
#[tactic(auto, unfolding(teco_model::specs::Pattern::part_at))]
fn part_at(text: &[u8]) -> Option<(Part, &[u8])>
    ensures { IfSome result (λ read. model.part_at text.now ≡ Ok (read.0, read.1.now)) }
{
    let (b, rest) = sign(text)?;
    match b {
        CONTROL_N => negated(rest),
        CONTROL_E => extended(rest),
        _ => {
            let (class, rest) = class_from(b, rest)?;
            Some((Part::Item(Item::Is(class)), rest))
        }
    }
}

/// The parts of a search text.
pub fn parts(text: &[u8], alloc: Global) -> Result<Vec<Part>, RowFault>
    ensures { IfOk result (λ read. model.parts text.now ≡ Ok read.items) }
{
    let mut read = Vec::new(alloc);
    let mut rest = text;
    for step in 0..text.len() {
        if !rest.is_empty() {
            let Some((part, behind)) = part_at(rest) else {
                return Err(RowFault::NotTold);
            };
            read.push(part)?;
            rest = behind;
        }
    }
    Ok(read)
}

// What a part adds to the length of a match, at least.
fn length_of(case: &Case, part: Part, alloc: Global) -> Result<Form, RowFault>
    ensures { IfOk result (λ form. IsLong (part ∷ []) case.now form) }
{
    match part {
        Part::Item(_) => {
            let one = Form::constant(1, alloc)?;
            Ok(one)
        }
        Part::Register(register) => length(case, register, alloc),
    }
}

/// How long a match is, at least: 1 for each element, and the text of each register.
pub fn least(case: &Case, parts: &[Part], alloc: Global) -> Result<Form, RowFault>
    ensures { IfOk result (λ form. IsLong parts.now case.now form) }
{
    let mut sum = Form::zero(alloc);
    for part in parts {
        let more = length_of(case, *part, alloc)?;
        sum = sum.add(&more, alloc)?;
    }
    Ok(sum)
}

// Whether a part is of single characters.
fn is_single(part: Part) -> bool
    ensures { IsTrue result ↔ IsSingle part }
{
    match part {
        Part::Item(Item::Blanks) => false,
        _ => true,
    }
}

/// Whether all parts are of single characters, so that a match is as long as they say.
pub fn are_single(parts: &[Part]) -> bool
    ensures { IsTrue result ↔ All IsSingle parts.now }
{
    parts.iter().all(|part| is_single(*part))
}

// Whether no line end matches a part, as far as that is plain.
fn stays_in_line(part: Part) -> bool
    ensures { IsTrue result ↔ StaysInLine part }
{
    match part {
        Part::Item(Item::Is(class)) => match class {
            Class::Literal(b) => b < 10 || b > 12,
            Class::Letter | Class::Digit | Class::LetterOrDigit | Class::Lower | Class::Upper =>
                true,
            _ => false,
        },
        _ => false,
    }
}

/// Whether no line end is in a match.
pub fn stay_in_line(parts: &[Part]) -> bool
    ensures { IsTrue result ↔ All StaysInLine parts.now }
{
    parts.iter().all(|part| stays_in_line(*part))
}

/// Whether a match ends with a line end.
pub fn end_line(parts: &[Part]) -> bool
    ensures { result ≡ true → EndsLine parts.now }
{
    match parts.last() {
        Some(Part::Item(Item::Is(class))) => match class {
            Class::Literal(b) => *b >= 10 && *b <= 12,
            Class::LineEnd => true,
            _ => false,
        },
        _ => false,
    }
}

/// From which number to which one more than the code of a character is.
#[derive(Clone, Copy)]
pub struct Codes {
    pub least: u32,
    pub most: u32,
}

const ANY: Codes = Codes {
    least: 1,
    most: 256,
};

// That of a literal, in either case.
fn literal_codes(b: u8) -> Codes
    ensures { AreCodesOf (Literal b) result }
{
    let upper = u32::from(to_upper(b));
    let code = u32::from(b) + 1;
    if is_letter(b) {
        Codes {
            least: upper + 1,
            most: upper + 33,
        }
    } else {
        Codes {
            least: code,
            most: code,
        }
    }
}

// And of a character of a class,
fn class_codes(class: Class) -> Codes
    ensures { AreCodesOf class result }
{
    match class {
        Class::Literal(b) => literal_codes(b),
        Class::LineEnd => Codes {
            least: 11,
            most: 13,
        },
        Class::Digit => Codes {
            least: 49,
            most: 58,
        },
        Class::Letter => Codes {
            least: 66,
            most: 123,
        },
        Class::Upper => Codes {
            least: 66,
            most: 91,
        },
        Class::Lower => Codes {
            least: 98,
            most: 123,
        },
        Class::LetterOrDigit => Codes {
            least: 49,
            most: 123,
        },
        _ => ANY,
    }
}

// and of one that a part begins and ends with.
fn part_codes(part: Part) -> Codes
    ensures { AreCodes part result }
{
    match part {
        Part::Item(Item::Is(class)) => class_codes(class),
        Part::Item(Item::Blanks) => Codes {
            least: 10,
            most: 33,
        },
        _ => ANY,
    }
}

/// That of the character that a match begins with.
pub fn first_codes(parts: &[Part]) -> Codes
    ensures { BeginsIn parts.now result }
{
    match parts.first() {
        Some(part) => part_codes(*part),
        None => ANY,
    }
}

/// And of that which it ends with.
pub fn last_codes(parts: &[Part]) -> Codes
    ensures { EndsIn parts.now result }
{
    match parts.last() {
        Some(part) => part_codes(*part),
        None => ANY,
    }
}
