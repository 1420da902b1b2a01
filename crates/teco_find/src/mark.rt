//! Bytes that are looked for in a text in two pieces.
ghost use Rattle.memchr.specs.Find.{IsFirstByte, IsLastByte};
ghost use Rattle.teco_find.specs.Anchors.{is_marked};
ghost use Rattle.teco_find.specs.Pieces.{joined};

use crate::pieces::Pieces;
use memchr::{memchr, memchr2, memrchr, memrchr2};

// One byte, or either of two.
#[derive(Clone, Copy)]
pub(crate) enum SoughtByte {
    One(u8),
    Two(u8, u8),
}

impl SoughtByte {
    fn first_in_piece(self, piece: &[u8]) -> Option<usize>
        ensures { IsFirstByte (is_marked self) piece.now result }
    {
        match self {
            SoughtByte::One(a) => memchr(a, piece),
            SoughtByte::Two(a, b) => memchr2(a, b, piece),
        }
    }

    fn last_in_piece(self, piece: &[u8]) -> Option<usize>
        ensures { IsLastByte (is_marked self) piece.now result }
    {
        match self {
            SoughtByte::One(a) => memrchr(a, piece),
            SoughtByte::Two(a, b) => memrchr2(a, b, piece),
        }
    }

    // The first place where it stands.
    #[tactic(auto, using(crate::proofs::Marks::firsts))]
    pub(crate) fn first_in(self, text: Pieces<'_>) -> Option<usize>
        ensures { IsFirstByte (is_marked self) (joined text.entry) result }
    {
        let (front, back) = text;
        if let Some(place) = self.first_in_piece(front) {
            return Some(place);
        }
        let place = self.first_in_piece(back)?;
        Some(front.len() + place)
    }

    // The last place where it stands.
    #[tactic(auto, using(crate::proofs::Marks::lasts))]
    pub(crate) fn last_in(self, text: Pieces<'_>) -> Option<usize>
        ensures { IsLastByte (is_marked self) (joined text.entry) result }
    {
        let (front, back) = text;
        if let Some(place) = self.last_in_piece(back) {
            return Some(front.len() + place);
        }
        self.last_in_piece(front)
    }
}
