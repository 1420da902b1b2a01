//! The sign, class or part at the front of a search text, with the text behind it.
ghost use Rattle.std.specs.Prelude.{◌≡◌};
ghost use Rattle.teco_base.specs.Does.{Gives, codes_alone};
ghost use Rattle.teco_model.specs.Pattern as model;
ghost use Rattle.teco_find.specs.Reading.{flaw_cause};

use crate::fault::Flaw;
use teco_base::Reg;
use teco_base::bytes::{control, to_upper};
use teco_model::pattern::{Class, Item, Part};

const CONTROL_E: u8 = 5;

const CONTROL_N: u8 = 14;

const CONTROL_Q: u8 = 17;

const CONTROL_S: u8 = 19;

const CONTROL_X: u8 = 24;

// The byte at the front as it stands.
fn byte(text: &[u8]) -> Result<(u8, &[u8]), Flaw>
    ensures { Gives flaw_cause codes_alone (λ x. (x.0, x.1.now)) (model.byte text.now) result }
{
    let (b, rest) = text.split_first().ok_or(Flaw::Ice)?;
    Ok((*b, rest))
}

// The byte at the front, or the control byte that a caret and a byte are.
fn sign(text: &[u8]) -> Result<(u8, &[u8]), Flaw>
    ensures { Gives flaw_cause codes_alone (λ x. (x.0, x.1.now)) (model.sign text.now) result }
{
    let (b, rest) = byte(text)?;
    if b != b'^' {
        return Ok((b, rest));
    }
    let (c, rest) = byte(rest)?;
    Ok((control(c).ok_or(Flaw::Ice)?, rest))
}

// The class that a letter names behind `^E`.
fn letter_class(letter: u8) -> Option<Class>
    ensures { result ≡ model.letter_class letter }
{
    let class = match letter {
        b'A' => Class::Letter,
        b'D' => Class::Digit,
        b'L' => Class::LineEnd,
        b'R' => Class::LetterOrDigit,
        b'V' => Class::Lower,
        b'W' => Class::Upper,
        _ => return None,
    };
    Some(class)
}

// Behind `^E`: the class that the letter names.
fn lettered(text: &[u8]) -> Result<(Class, &[u8]), Flaw>
    ensures { Gives flaw_cause codes_alone (λ x. (x.0, x.1.now)) (model.lettered text.now) result }
{
    let (b, rest) = byte(text)?;
    Ok((letter_class(to_upper(b)).ok_or(Flaw::Ice)?, rest))
}

// Behind a sign: the class that begins with it.
fn class_from(sign: u8, text: &[u8]) -> Result<(Class, &[u8]), Flaw>
    ensures { Gives flaw_cause codes_alone (λ x. (x.0, x.1.now))
        (model.class_from sign text.now) result }
{
    match sign {
        CONTROL_X => Ok((Class::Any, text)),
        CONTROL_S => Ok((Class::Separator, text)),
        CONTROL_Q => {
            let (b, rest) = byte(text)?;
            Ok((Class::Literal(b), rest))
        }
        CONTROL_E => lettered(text),
        CONTROL_N => Err(Flaw::Ice),
        b => Ok((Class::Literal(b), text)),
    }
}

// Behind `^N`: the class that is not matched.
fn negated(text: &[u8]) -> Result<(Part, &[u8]), Flaw>
    ensures { Gives flaw_cause codes_alone (λ x. (x.0, x.1.now)) (model.negated text.now) result }
{
    let (b, rest) = sign(text)?;
    let (class, rest) = class_from(b, rest)?;
    Ok((Part::Item(Item::IsNot(class)), rest))
}

// Behind `^EQ`: the register that is named.
fn register_text(text: &[u8]) -> Result<(Part, &[u8]), Flaw>
    ensures { Gives flaw_cause codes_alone (λ x. (x.0, x.1.now))
        (model.register_text text.now) result }
{
    let (name, rest) = byte(text)?;
    let reg = Reg::of(name).ok_or(Flaw::Iqn)?;
    Ok((Part::Register(reg), rest))
}

// Behind `^E`: what the letter names.
fn extended(text: &[u8]) -> Result<(Part, &[u8]), Flaw>
    ensures { Gives flaw_cause codes_alone (λ x. (x.0, x.1.now)) (model.extended text.now) result }
{
    let (b, rest) = byte(text)?;
    match to_upper(b) {
        b'Q' => register_text(rest),
        b'S' => Ok((Part::Item(Item::Blanks), rest)),
        _ => {
            let (class, rest) = lettered(text)?;
            Ok((Part::Item(Item::Is(class)), rest))
        }
    }
}

// Behind a sign: the part that begins with it.
fn part_from(sign: u8, text: &[u8]) -> Result<(Part, &[u8]), Flaw>
    ensures { Gives flaw_cause codes_alone (λ x. (x.0, x.1.now))
        (model.part_from sign text.now) result }
{
    match sign {
        CONTROL_N => negated(text),
        CONTROL_E => extended(text),
        _ => {
            let (class, rest) = class_from(sign, text)?;
            Ok((Part::Item(Item::Is(class)), rest))
        }
    }
}

// The part that a text begins with.
#[tactic(auto, unfolding(teco_model::specs::Pattern::part_at))]
pub(crate) fn part_at(text: &[u8]) -> Result<(Part, &[u8]), Flaw>
    ensures { Gives flaw_cause codes_alone (λ x. (x.0, x.1.now)) (model.part_at text.now) result }
{
    let (b, rest) = sign(text)?;
    part_from(b, rest)
}
