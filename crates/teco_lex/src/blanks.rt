//! Blanks between elements.
ghost use Rattle.std.specs.Prelude.{◌≡◌, ◌≤◌, length, MatchOption};
ghost use Rattle.teco_model.specs.Element as model;
ghost use Rattle.teco_lex.specs.Blanks.{SkipsBlank};

use teco_base::bytes::{control, is_blank};

/// Is it a blank that is written as a caret and another byte?
fn is_blank_pair(b: u8, c: u8) -> bool
    ensures { result ≡ model.is_blank_pair b c }
{
    b == b'^' && control(c).is_some_and(is_blank)
}

/// What stands behind the blank at the front; `None` where no blank stands there.
#[tactic(auto, using(crate::proofs::BlankLen::blanks))]
fn after_blank(bytes: &[u8]) -> Option<&[u8]>
    ensures { MatchOption result (model.blank_len bytes.now ≡ 0)
        (λ behind. SkipsBlank bytes.now behind.now) }
{
    let (b, rest) = bytes.split_first()?;
    if is_blank(*b) {
        return Some(rest);
    }
    let (c, behind) = rest.split_first()?;
    if is_blank_pair(*b, *c) {
        Some(behind)
    } else {
        None
    }
}

/// The place after the blanks at a place.
pub fn blank_end(text: &[u8], at: usize) -> usize
    requires { at ≤ length text.now }
    ensures value { result ≡ model.blank_end text.now at }
    ensures within { result ≤ length text.now }
{
    let mut rest = &text[at..];
    while let Some(behind) = after_blank(rest) {
        rest = behind;
    }
    text.len() - rest.len()
}
