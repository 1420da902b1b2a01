//! Numbers as they are typed: no leading zeros, and `0` for zero.
ghost use Rattle.std.specs.Prelude.{◌≡◌, ℕ, ◌<◌, ◌≤◌, true, false, List, ◌∷◌, length, drop};
ghost use Rattle.std.specs.Fmt.{digits, digit_glyph};
ghost use Rattle.teco_base.specs.NumberText as text;
ghost use Rattle.teco_base.specs.declared.number_text.TheConstants.{MAX_LEN};

use std::marker::Model;

const MINUS: u8 = b'-';

// The bases.
const OCTAL: u32 = 8;

const DECIMAL: u32 = 10;

const HEXADECIMAL: u32 = 16;

/// How long a number's text may be: 11 octal digits, or a minus sign and 10 decimal digits.
const MAX_LEN: usize = 11;

/// A number's text, of 1 to 11 bytes. It takes no memory.
#[derive(Drop)]
pub struct NumberText {
    buffer: [u8; MAX_LEN],
    start: usize,
}

impl Model for NumberText {
    ghost Value = { List ℕ };

    ghost view = { λ t. drop t.start t.buffer };

    ghost invariant = { λ t. t.start < MAX_LEN };
}

impl NumberText {
    /// The digits of `n` in the base, with letters in upper case.
    #[tactic(auto, using(crate::proofs::Digits::digits_from_end))]
    fn digits(n: u32, base: u32) -> NumberText
        requires low { 8 ≤ base }
        requires high { base ≤ 16 }
        ensures upper { result ≡ digits base true n }
        ensures plain { base ≤ 10 → result ≡ digits base false n }
    {
        let mut buffer = [0; MAX_LEN];
        let mut start = MAX_LEN;
        let mut rest = n;
        loop {
            start -= 1;
            buffer[start] = digit(rest % base);
            rest /= base;
            if rest == 0 {
                return NumberText { buffer, start };
            }
        }
    }

    /// The text after a minus sign.
    fn negated(mut self) -> NumberText
        requires { length self < MAX_LEN }
        ensures { result ≡ MINUS ∷ self }
    {
        self.start -= 1;
        self.buffer[self.start] = MINUS;
        self
    }

    /// The bytes of the text.
    pub fn as_bytes(&self) -> &[u8]
        ensures value { result.now ≡ self.now }
        ensures nonempty { 0 < length result.now }
        ensures short { length result.now ≤ MAX_LEN }
    {
        &self.buffer[self.start..]
    }
}

/// A digit of a base of at most 16.
fn digit(value: u32) -> u8
    requires { value < 16 }
    ensures { result ≡ digit_glyph true value }
{
    let value = value as u8;
    if value < 10 {
        b'0' + value
    } else {
        b'A' + (value - 10)
    }
}

/// The number in decimal, after a minus sign where it is negative.
#[tactic(auto, using(crate::proofs::Digits::signed_digits))]
pub fn decimal(n: i32) -> NumberText
    ensures { result ≡ text.decimal n }
{
    let digits = NumberText::digits(n.unsigned_abs(), DECIMAL);
    if n < 0 { digits.negated() } else { digits }
}

/// The number's 32 bits, unsigned, in octal.
pub fn octal(n: i32) -> NumberText
    ensures { result ≡ text.octal n }
{
    NumberText::digits(n.cast_unsigned(), OCTAL)
}

/// The number's 32 bits, unsigned, in hexadecimal with letters in upper case.
pub fn hex(n: i32) -> NumberText
    ensures { result ≡ text.hex n }
{
    NumberText::digits(n.cast_unsigned(), HEXADECIMAL)
}
