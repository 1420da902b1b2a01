//! What is read of a text, one reading after another.
ghost use Rattle.std.specs.Prelude.{◌≡◌, ◌-◌, ◌<◌, ◌≤◌, drop, length, option_map, IfSome, IsTrue, MatchOption};
ghost use Rattle.std.specs.List.{prefix_len};
ghost use Rattle.teco_model.specs.Ahead as model;
ghost use Rattle.teco_model.specs.Element.{is_modifier};
ghost use Rattle.teco_lex.specs.Ahead.{seen};
ghost use Rattle.teco_lex.specs.Readings as readings;

use crate::ahead::{Reading, read_ahead};
use crate::reader::modifier_len;
use std::marker::Model;
use teco_base::Code;

/// Does the byte before a place belong to a run of modifiers that goes on for four bytes at least?
/// No letters allow so many.
fn stands_in_run(text: &[u8], place: usize) -> bool
    requires { place ≤ length text.now }
    ensures { IsTrue result → (0 < place)
        × (5 ≤ prefix_len is_modifier (drop (place - 1) text.now)) }
{
    let Some(before) = place.checked_sub(1) else {
        return false;
    };
    modifier_len(&text[before..(place + 4).min(text.len())]) == 5
}

fn is_ill(reading: &Reading<'_>) -> bool
    ensures { result ≡ readings.is_ill (seen reading.now) }
{
    matches!(
        *reading,
        Reading::Faulty {
            code: Code::Ill,
            ..
        }
    )
}

/// What is read of a text from a place on, one reading after another. The whole of it takes time by
/// the bytes that are read, runs of modifiers with a fault among them.
#[derive(Drop)]
pub struct Readings<'a> {
    text: &'a [u8],
    place: usize,
    // the last reading was ILL at the byte before the place
    is_behind_ill: bool,
}

impl<'a> Model for Readings<'a> {
    ghost use Rattle.std.specs.Prelude.{◌≡◌, ◌≤◌, length};
    ghost use Rattle.teco_lex.specs.Readings.{Ahead, IsBehindIll};

    ghost Value = { Ahead };

    ghost view = { λ r. record { text = r.text.now; place = r.place } };

    ghost invariant = { λ r. (r.place ≤ length r.text.now)
        × IsBehindIll r.text.now r.place r.is_behind_ill };
}

impl<'a> Readings<'a> {
    /// What is read from a place on.
    pub fn from(text: &'a [u8], place: usize) -> Readings<'a>
        requires { place ≤ length text.now }
        ensures { result ≡ record { text = text.now; place = place } }
    {
        Readings {
            text,
            place,
            is_behind_ill: false,
        }
    }

    // What is read at the place.
    fn read(&self) -> Option<Reading<'a>>
        ensures value { option_map seen result ≡ model.reading_at self.now.text self.now.place }
        ensures next { IfSome result (λ r. self.now.place < model.next_of (seen r)) }
        ensures within { IfSome result (λ r. model.next_of (seen r) ≤ length self.now.text) }
    {
        if self.is_behind_ill && stands_in_run(self.text, self.place) {
            return Some(Reading::Faulty {
                code: Code::Ill,
                place: self.place,
                next: self.place + 1,
            });
        }
        read_ahead(self.text, self.place)
    }

    /// The next reading; `None` where only blanks remain.
    pub fn next(&mut self) -> Option<Reading<'a>>
        ensures value { option_map seen result ≡ model.reading_at self.old.text self.old.place }
        ensures text { self.new.text ≡ self.old.text }
        ensures place { MatchOption result (self.new ≡ self.old)
            (λ r. self.new.place ≡ model.next_of (seen r)) }
        ensures on { IfSome result (λ r. self.old.place < model.next_of (seen r)) }
        ensures within { self.new.place ≤ length self.new.text }
    {
        let Some(reading) = self.read() else {
            return None;
        };
        self.is_behind_ill = is_ill(&reading);
        self.place = reading.next();
        Some(reading)
    }
}
