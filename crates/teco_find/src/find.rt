//! Searches over a text in two pieces.
ghost use Rattle.std.specs.Prelude.{◌≡◌, ◌≤◌, ◌<◌, List, length, option_map, IfSome, Some};
ghost use Rattle.teco_model.specs.Match as model;
ghost use Rattle.teco_model.specs.Paging.{sought};
ghost use Rattle.teco_model.specs.declared.pattern.Item.{Item};
ghost use Rattle.teco_find.specs.Anchors.{IsLastTried, IsNextTried};
ghost use Rattle.teco_find.specs.Needles.{AreLiterals};
ghost use Rattle.teco_find.specs.Pieces.{joined, IsSoughtPart};

use crate::needle::{Needle, first_behind, next_start};
use crate::pattern::Pattern;
use crate::pieces::{Pieces, text_from, text_len};
use crate::rests::{literals_rest, match_rest};
use teco_model::{Sought, Span};

// The first match of nothing but literals, from a place behind the gap on.
#[inline(always)]
fn literals_behind(needle: &Needle, text: (&[u8], &[u8]), at: usize) -> Option<Span>
    requires some { 0 < length needle.now }
    requires behind { length text.0.now ≤ at }
    requires within { at ≤ length (joined text) }
    ensures value { (items : List Item) → AreLiterals items needle.now → result
        ≡ model.first_from items (joined text.entry) at }
    ensures ordered { IfSome result (λ span. span.start ≤ span.end) }
    ensures within { IfSome result (λ span. span.end ≤ length (joined text.entry)) }
{
    let start = first_behind(needle, text, at)?;
    Some(Span {
        start,
        end: start + needle.needle().len(),
    })
}

impl Pattern {
    // The finder of the pattern, if it is nothing but literals.
    #[inline(always)]
    fn literals(&self) -> Option<&Needle>
        ensures { IfSome result (λ needle. AreLiterals self.now needle.now) }
    {
        let needle = self.needle.as_ref()?;
        if needle.needle().len() < self.items.len() {
            return None;
        }
        Some(needle)
    }

    // The text behind a match at its front, where the pattern is nothing but literals that stand in
    // one piece.
    #[inline(always)]
    fn literals_rest<'a>(&self, text: Pieces<'a>) -> Option<Pieces<'a>>
        ensures value { IfSome result (λ rest. model.match_rest self.now (joined text.entry)
            ≡ Some (joined rest)) }
        ensures within { IfSome result (λ rest. length (joined rest) ≤ length (joined text.entry)) }
    {
        let needle = self.literals()?;
        literals_rest(needle.needle(), text)
    }

    // The text behind a match at its front.
    #[inline(always)]
    fn rest<'a>(&self, text: Pieces<'a>) -> Option<Pieces<'a>>
        ensures value { option_map joined result ≡ model.match_rest self.now (joined text.entry) }
        ensures within { IfSome result (λ rest. length (joined rest) ≤ length (joined text.entry)) }
    {
        if let Some(rest) = self.literals_rest(text) {
            return Some(rest);
        }
        match_rest(&self.items, text)
    }

    /// The match that starts at a place of a text in two pieces.
    #[inline(always)]
    #[tactic(auto, using(crate::proofs::Matches::starts))]
    pub fn here(&self, text: (&[u8], &[u8]), at: usize) -> Option<Span>
        requires { at ≤ length (joined text) }
        ensures value { result ≡ model.here self.now (joined text.entry) at }
        ensures starts { IfSome result (λ span. span.start ≡ at) }
        ensures ordered { IfSome result (λ span. span.start ≤ span.end) }
        ensures within { IfSome result (λ span. span.end ≤ length (joined text.entry)) }
    {
        if self.items.is_empty() {
            return None;
        }
        let rest = self.rest(text_from(text, at))?;
        Some(Span {
            start: at,
            end: text_len(text) - text_len(rest),
        })
    }

    // The first match that starts at a place or behind it.
    #[inline(always)]
    fn first_from(&self, text: (&[u8], &[u8]), at: usize) -> Option<Span>
        requires { at ≤ length (joined text) }
        ensures value { result ≡ model.first_from self.now (joined text.entry) at }
        ensures ordered { IfSome result (λ span. span.start ≤ span.end) }
        ensures within { IfSome result (λ span. span.end ≤ length (joined text.entry)) }
    {
        match self.literals() {
            Some(needle) if at >= text.0.len() => literals_behind(needle, text, at),
            _ => self.first_tried(text, at),
        }
    }

    // The first match that starts at a place or behind it, by the places where one may.
    #[inline(never)]
    fn first_tried(&self, text: (&[u8], &[u8]), at: usize) -> Option<Span>
        requires { at ≤ length (joined text) }
        ensures value { result ≡ model.first_from self.now (joined text.entry) at }
        ensures ordered { IfSome result (λ span. span.start ≤ span.end) }
        ensures within { IfSome result (λ span. span.end ≤ length (joined text.entry)) }
    {
        let mut from = at;
        while let Some(start) = self.next_tried(text, from) {
            if let Some(span) = self.here(text, start) {
                return Some(span);
            }
            from = start + 1;
        }
        None
    }

    // The next place to try, from one on: no match starts before it.
    fn next_tried(&self, text: (&[u8], &[u8]), from: usize) -> Option<usize>
        requires { from ≤ length (joined text) }
        ensures { IsNextTried self.now (joined text.entry) from result }
    {
        if let Some(needle) = &self.needle {
            return next_start(needle, text, from);
        }
        match self.anchor {
            Some(anchor) => anchor.first_start(text, from),
            None if from < text_len(text) => Some(from),
            None => None,
        }
    }

    // The last match that starts before a place.
    fn last_before(&self, text: (&[u8], &[u8]), at: usize) -> Option<Span>
        requires { at ≤ length (joined text) }
        ensures value { result ≡ model.last_before self.now (joined text.entry) at }
        ensures before { IfSome result (λ span. span.start < at) }
        ensures ordered { IfSome result (λ span. span.start ≤ span.end) }
        ensures within { IfSome result (λ span. span.end ≤ length (joined text.entry)) }
    {
        let mut before = at;
        while let Some(start) = self.last_tried(text, before) {
            if let Some(span) = self.here(text, start) {
                return Some(span);
            }
            before = start;
        }
        None
    }

    // The last place to try before one: no match starts between them.
    fn last_tried(&self, text: (&[u8], &[u8]), before: usize) -> Option<usize>
        ensures { IsLastTried self.now (joined text.entry) before result }
    {
        match self.anchor {
            Some(anchor) => anchor.last_start(text, before),
            None => before.checked_sub(1),
        }
    }

    /// The `n`th match from a place on: the first starts at the place or behind it, each next one
    /// at the end of the last or behind it.
    #[inline(always)]
    #[tactic(auto, using(crate::proofs::Matches::turns))]
    pub fn forward(&self, text: (&[u8], &[u8]), from: usize, n: u32) -> Option<Span>
        requires from { from ≤ length (joined text) }
        requires some { 1 ≤ n }
        ensures value { result ≡ model.forward self.now (joined text.entry) from n }
        ensures ordered { IfSome result (λ span. span.start ≤ span.end) }
        ensures within { IfSome result (λ span. span.end ≤ length (joined text.entry)) }
    {
        let mut at = from;
        for _turn in 1..n {
            at = self.first_from(text, at)?.end;
        }
        self.first_from(text, at)
    }

    /// The last of `n` matches from a place on, as [`Pattern::forward`] counts them; or how many
    /// more than there are.
    #[tactic(auto, using(crate::proofs::Matches::seeking))]
    pub fn seek(&self, text: (&[u8], &[u8]), from: usize, n: u32) -> Sought
        requires from { from ≤ length (joined text) }
        requires some { 1 ≤ n }
        ensures value { result ≡ sought self.now (joined text.entry) from n }
        ensures part { IsSoughtPart (joined text.entry) result }
    {
        let mut at = from;
        for turn in 1..n {
            match self.first_from(text, at) {
                Some(span) => at = span.end,
                None => return Sought::Wanted(n - turn + 1),
            }
        }
        match self.first_from(text, at) {
            Some(span) => Sought::Last(span),
            None => Sought::Wanted(1),
        }
    }

    /// The `n`th match that starts before a place, counted backwards. It may reach past the place,
    /// and overlap the others.
    #[tactic(auto, using(crate::proofs::Matches::turns))]
    pub fn backward(&self, text: (&[u8], &[u8]), from: usize, n: u32) -> Option<Span>
        requires from { from ≤ length (joined text) }
        requires some { 1 ≤ n }
        ensures value { result ≡ model.backward self.now (joined text.entry) from n }
        ensures ordered { IfSome result (λ span. span.start ≤ span.end) }
        ensures within { IfSome result (λ span. span.end ≤ length (joined text.entry)) }
    {
        let mut at = from;
        for _turn in 1..n {
            at = self.last_before(text, at)?.start;
        }
        self.last_before(text, at)
    }
}
