//! The mode of a search text that is looked for in lines.
ghost use Rattle.std.specs.Prelude.{◌≡◌, ◌≢◌, false, All, IsTrue};
ghost use Rattle.teco_base.specs.Bytes as byte;
ghost use Rattle.teco_change_policies.specs.Plain.{IsInEitherCase};
ghost use Rattle.teco_changes.specs.Plain.{IsPlain};

use crate::pieces::is_plain;
use teco_base::bytes::{is_letter, is_upper, to_upper};
use teco_policy::SearchText;

/// How many bytes a search text has at most whose mode is found out.
const ROOM: usize = 64;

// Has a text no letter?
fn has_no_letter(text: &[u8]) -> bool
    ensures { IsTrue result → All (λ b. byte.is_letter b ≡ false) text.now }
{
    text.iter().all(|b| !is_letter(*b))
}

// A letter in its other case, and any other byte as it is.
fn in_other_case(b: u8) -> u8 {
    if is_upper(b) {
        b.saturating_add(32)
    } else {
        to_upper(b)
    }
}

// Do texts differ?
fn differ(one: &[u8], other: &[u8]) -> bool
    ensures { IsTrue result → one.now ≢ other.now }
{
    one != other
}

// Does a search text find another text of its length? Only in either case it can.
#[tactic(auto, using(crate::proofs::EitherMode::finds_another))]
fn finds_another(search: &SearchText, other: &[u8]) -> bool
    ensures { IsTrue result → IsPlain search.now.text → IsInEitherCase search.now }
{
    other.len() == search.text().len() && differ(other, search.text()) && search.is_found_in(other)
}

/// Does a search text find in either case what it finds? It is looked for in itself, with letters in
/// their other case. `false` where it is not known.
#[tactic(auto, using(crate::proofs::EitherMode::has_one_mode))]
pub(crate) fn is_in_either_case(search: &SearchText) -> bool
    ensures { IsTrue result → IsInEitherCase search.now }
{
    let text = search.text();
    if !is_plain(text) || text.len() > ROOM {
        return false;
    }
    if has_no_letter(text) {
        return true;
    }
    let mut room = [0; ROOM];
    for (to, from) in room.iter_mut().zip(text.iter()) {
        *to = in_other_case(*from);
    }
    finds_another(search, &room[..text.len()])
}
