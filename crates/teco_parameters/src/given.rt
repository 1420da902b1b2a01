//! Words of the command line that give texts to parameters.
ghost use Rattle.std.specs.Prelude.{◌≡◌, ◌∷◌, ◌≤◌, ℕ, List, length, take, drop, MatchOption};
ghost use Rattle.std.specs.List.{prefix_len};
ghost use Rattle.teco_parameters.specs.Places.{is_of_names};
ghost use Rattle.teco_parameters.specs.Words.{GivesNone, IsGiven};

use crate::binding::Given;
use crate::lookup::is_of_names;

// How many bytes at the front are of names.
fn key_len(word: &[u8]) -> usize
    ensures value { result ≡ prefix_len is_of_names word.now }
    ensures within { result ≤ length word.now }
{
    word.iter().take_while(|b| is_of_names(**b)).count()
}

// A key at the front, and what stands behind it.
fn split_key(word: &[u8]) -> (&[u8], &[u8])
    ensures key { result.0.now ≡ take (prefix_len is_of_names word.now) word.now }
    ensures rest { result.1.now ≡ drop (prefix_len is_of_names word.now) word.now }
{
    let len = key_len(word);
    word.split_at(len)
}

// What stands behind an equals sign.
fn behind_equals(text: &[u8]) -> Option<&[u8]>
    ensures { MatchOption result ((behind : List ℕ) → text.now ≡ 61 ∷ behind → ⊥)
        (λ behind. text.now ≡ 61 ∷ behind.now) }
{
    match text {
        [b'=', behind @ ..] => Some(behind),
        _ => None,
    }
}

/// What a word gives, if it is a key, an equals sign and a text; a key has letters, digits, hyphens
/// and underscores alone.
pub fn given_in(word: &[u8]) -> Option<Given<'_>>
    ensures { MatchOption result (GivesNone word.now) (λ given. IsGiven word.now given) }
{
    let (key, rest) = split_key(word);
    match behind_equals(rest) {
        Some(text) => Some(Given { key, text }),
        None => None,
    }
}
