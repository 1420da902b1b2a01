//! Where a match can start at all: a byte of the pattern stands at a known distance from there.
ghost use Rattle.std.specs.Prelude.{◌≤◌, length, IfSome};
ghost use Rattle.memchr.specs.Find.{IsFirst, IsLast};
ghost use Rattle.teco_find.specs.Anchors.{Anchors, IsMarkedBy, Stands};
ghost use Rattle.teco_find.specs.Pieces.{joined};

use crate::mark::SoughtByte;
use crate::pieces::{Pieces, text_from, text_len, text_up_to};
use teco_model::pattern::{Class, Item};

// A mark, and how far from the start of each match it stands.
#[derive(Clone, Copy)]
pub(crate) struct Anchor {
    distance: usize,
    mark: SoughtByte,
}

// The bytes that an element matches, where it is a literal.
fn mark_of(item: Item) -> Option<SoughtByte>
    ensures { IfSome result (IsMarkedBy item) }
{
    match item {
        Item::Is(Class::Literal(b)) => Some(SoughtByte::One(b)),
        Item::Is(Class::EitherCase(b)) => Some(SoughtByte::Two(b, b.to_ascii_lowercase())),
        _ => None,
    }
}

// How often a byte stands in texts and programs, by rank.
fn frequency(byte: u8) -> u8 {
    match byte {
        b' ' | b'e' | b't' => 5,
        b'a' | b'i' | b'n' | b'o' | b'r' | b's' => 4,
        b'c' | b'd' | b'h' | b'l' | b'm' | b'p' | b'u' | b'\n' => 3,
        b'a'..=b'z' | b'0'..=b'9' | b',' | b'.' | b'\t' | b'\r' => 2,
        b'A'..=b'Z' => 1,
        _ => 0,
    }
}

fn mark_frequency(mark: SoughtByte) -> u8 {
    match mark {
        SoughtByte::One(a) => frequency(a),
        SoughtByte::Two(a, b) => frequency(a).max(frequency(b)),
    }
}

// The rarest literal of a pattern at a known distance from the start.
pub(crate) fn anchor_of(items: &[Item]) -> Option<Anchor>
    ensures { IfSome result (Anchors items.now) }
{
    let mut rarest = None;
    let mut least = u8::MAX;
    for (distance, item) in items.iter().enumerate() {
        if let Item::Blanks = item {
            break;
        }
        if let Some(mark) = mark_of(*item)
            && mark_frequency(mark) < least
        {
            least = mark_frequency(mark);
            rarest = Some(Anchor { distance, mark });
        }
    }
    rarest
}

impl Anchor {
    // The first place, from one on, from which the mark stands at its distance.
    pub(crate) fn first_start(self, text: Pieces<'_>, at: usize) -> Option<usize>
        requires { at ≤ length (joined text) }
        ensures { IsFirst (Stands self (joined text.entry)) at (length (joined text.entry)) result }
    {
        let rest = text_from(text, at);
        if self.distance > text_len(rest) {
            return None;
        }
        let place = self.mark.first_in(text_from(rest, self.distance))?;
        Some(at + place)
    }

    // The last such place before one.
    pub(crate) fn last_start(self, text: Pieces<'_>, before: usize) -> Option<usize>
        ensures { IsLast (Stands self (joined text.entry)) 0 before result }
    {
        if self.distance > text_len(text) {
            return None;
        }
        let ahead = text_from(text, self.distance);
        self.mark.last_in(text_up_to(ahead, before))
    }
}
