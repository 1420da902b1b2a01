//! What a text says if a word or a polynomial stands at its front. These functions judge nothing: of
//! another text they read anything at all, and who calls them has to see whether what was read has
//! this text.
ghost use Rattle.std.specs.Prelude.{◌≡◌, ◌++◌, ◌≤◌, ℕ, Bool, true, List, length};
ghost use Rattle.std.specs.List.{list_all, prefix_len};
ghost use Rattle.teco_poly.specs.Front as front;
ghost use Rattle.teco_poly.specs.Front.{EndsPolynomial, LooksFor};
ghost use Rattle.teco_poly.specs.Polynomial.{Polynomial};
ghost use Rattle.teco_poly.specs.Reading.{IsPoly};
ghost use Rattle.teco_poly.specs.Text.{text as poly_text};

use crate::poly::Poly;

/// Whether a word stands at the front of a text, and what comes behind it.
pub fn word_at<'a>(text: &'a [u8], word: &[u8]) -> (bool, &'a [u8])
    ensures word { LooksFor text.now word.now result.0 result.1.now }
    ensures within { length result.1.now ≤ length text.now }
{
    match text.strip_prefix(word) {
        Some(rest) => (true, rest),
        None => (false, text),
    }
}

/// What comes behind a word.
pub fn behind<'a>(text: &'a [u8], word: &[u8]) -> &'a [u8]
    ensures word { (found : Bool) × LooksFor text.now word.now found result.now }
    ensures within { length result.now ≤ length text.now }
{
    word_at(text, word).1
}

// Is it a byte that polynomials are written with?
fn is_of_polynomial(byte: u8) -> bool
    ensures { result ≡ front.is_of_polynomial byte }
{
    byte.is_ascii_digit() || matches!(byte, b' ' | b'+' | b'*' | b'N' | b'^')
}

// How many bytes that polynomials are written with a text begins with.
fn polynomial_count(text: &[u8]) -> usize
    ensures count { result ≡ prefix_len front.is_of_polynomial text.now }
    ensures within { result ≤ length text.now }
{
    text.iter()
        .take_while(|byte| is_of_polynomial(**byte))
        .count()
}

/// The bytes at the front of a text that polynomials are written with, and what comes behind them.
pub fn polynomial_words(text: &[u8]) -> (&[u8], &[u8])
    ensures text { (words rest : List ℕ) → list_all front.is_of_polynomial words
        ≡ true → EndsPolynomial rest
        → text.now ≡ words ++ rest → (result.0.now ≡ words) × (result.1.now ≡ rest) }
    ensures within { length result.1.now ≤ length text.now }
{
    text.split_at(polynomial_count(text))
}

/// The polynomial that this is, or any.
pub fn polynomial(words: &[u8]) -> Poly
    ensures { (p : Polynomial) → IsPoly p → words.now ≡ poly_text p → result ≡ p }
{
    Poly::read(words).unwrap_or(Poly::number(0))
}

/// The polynomial at the front of a text, and what comes behind it.
pub fn polynomial_at(text: &[u8]) -> (Poly, &[u8])
    ensures text { (p : Polynomial) (rest : List ℕ) → IsPoly p → EndsPolynomial rest
        → text.now ≡ poly_text p ++ rest → (result.0 ≡ p) × (result.1.now ≡ rest) }
    ensures within { length result.1.now ≤ length text.now }
{
    let (words, rest) = polynomial_words(text);
    (polynomial(words), rest)
}
