//! What is read of a text from a place on.
ghost use Rattle.std.specs.Prelude.{◌≡◌, ◌<◌, ◌≤◌, length, option_map, IfSome};
ghost use Rattle.teco_model.specs.Ahead as model;
ghost use Rattle.teco_lex.specs.Ahead.{seen};

use crate::blanks::blank_end;
use crate::reader::element;
use teco_base::Code;
use teco_model::Element;

/// What is read at a place: an element, or a fault.
#[derive(Clone, Copy)]
pub enum Reading<'a> {
    /// An element.
    Whole(Element<'a>),
    /// A fault, its place after the blanks, and the place where reading goes on.
    Faulty {
        code: Code,
        place: usize,
        next: usize,
    },
}

impl Reading<'_> {
    /// The place of its first byte.
    pub fn place(&self) -> usize
        ensures { result ≡ model.place_of (seen self.now) }
    {
        match self {
            Reading::Whole(element) => element.place,
            Reading::Faulty { place, .. } => *place,
        }
    }

    /// The place where reading goes on.
    pub fn next(&self) -> usize
        ensures { result ≡ model.next_of (seen self.now) }
    {
        match self {
            Reading::Whole(element) => element.next,
            Reading::Faulty { next, .. } => *next,
        }
    }
}

/// Behind a fault one byte is passed; an element that is cut off is the end of the text.
fn place_behind(code: Code, place: usize, text: &[u8]) -> usize
    requires { place < length text.now }
    ensures value { result ≡ model.place_behind code place text.now }
    ensures on { place < result }
    ensures within { result ≤ length text.now }
{
    match code {
        Code::Ill | Code::Iqn => place + 1,
        _ => text.len(),
    }
}

/// What is read at a place; `None` where only blanks remain.
#[tactic(auto, unfolding(teco_model::specs::Ahead::reading_at))]
pub fn read_ahead(text: &[u8], at: usize) -> Option<Reading<'_>>
    requires { at ≤ length text.now }
    ensures value { option_map seen result ≡ model.reading_at text.now at }
    ensures place { IfSome result (λ r. at ≤ model.place_of (seen r)) }
    ensures next { IfSome result (λ r. model.place_of (seen r) < model.next_of (seen r)) }
    ensures within { IfSome result (λ r. model.next_of (seen r) ≤ length text.now) }
{
    match element(text, at) {
        Ok(None) => None,
        Ok(Some(element)) => Some(Reading::Whole(element)),
        Err(code) => {
            let place = blank_end(text, at);
            Some(Reading::Faulty {
                code,
                place,
                next: place_behind(code, place, text),
            })
        }
    }
}
