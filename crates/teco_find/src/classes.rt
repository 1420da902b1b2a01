//! Classes of characters.
ghost use Rattle.std.specs.Prelude.{◌≡◌};
ghost use Rattle.teco_model.specs.Match as model;

use teco_base::bytes::{
    is_digit, is_letter, is_letter_or_digit, is_line_end, is_lower, is_upper, to_upper,
};
use teco_model::pattern::Class;

// Is the character of the class?
#[inline(always)]
pub(crate) fn is_in(class: Class, c: u8) -> bool
    ensures { result ≡ model.is_in class c }
{
    match class {
        Class::Literal(b) => c == b,
        Class::EitherCase(b) => to_upper(c) == b,
        Class::Any => true,
        Class::Separator => !is_letter_or_digit(c),
        Class::Letter => is_letter(c),
        Class::Digit => is_digit(c),
        Class::LetterOrDigit => is_letter_or_digit(c),
        Class::Lower => is_lower(c),
        Class::Upper => is_upper(c),
        Class::LineEnd => is_line_end(c),
    }
}

pub(crate) fn is_space_or_tab(c: u8) -> bool
    ensures { result ≡ model.is_space_or_tab c }
{
    matches!(c, b' ' | b'\t')
}
