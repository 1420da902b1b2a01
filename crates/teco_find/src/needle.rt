//! Literals that each match begins with, looked for as a whole.
ghost use Rattle.std.specs.Option.{ForSome};
ghost use Rattle.std.specs.Prelude.{◌≡◌, ◌≤◌, ◌<◌, length, map, take, IfSome, IfOk, IsOk};
ghost use Rattle.memchr.specs.Find.{FindsNeedle};
ghost use Rattle.teco_model.specs.declared.pattern.Class.TheVariants as class;
ghost use Rattle.teco_model.specs.declared.pattern.Item.TheVariants as item;
ghost use Rattle.teco_find.specs.Needles.{Begins, IsNeedle, NoneUpTo, literal};
ghost use Rattle.teco_find.specs.Pieces.{joined};

use crate::pieces::Pieces;
use arrayvec::ArrayVec;
use memchr::memmem::Finder;
use std::alloc::{AllocError, Global};
use teco_model::pattern::{Class, Item};

// How many literals are looked for at once, at the most: as many as a finder compares in one step.
const LONGEST: usize = 32;

type Literals = ArrayVec<u8, LONGEST>;

// The literals, and what is worked out of them once for all searches.
pub(crate) type Needle = Finder<'static>;

fn literal_of(element: Item) -> Option<u8>
    ensures { IfSome result (λ b. element ≡ item.Is (class.Literal b)) }
{
    match element {
        Item::Is(Class::Literal(b)) => Some(b),
        _ => None,
    }
}

// The literals that a pattern begins with, as many as are looked for at once.
fn literals_of(items: &[Item]) -> Literals
    ensures begins { Begins items.now result.items }
    ensures are { map literal result.items ≡ take (length result.items) items.now }
    ensures within { length result.items ≤ length items.now }
{
    let mut literals = ArrayVec::new();
    for item in items {
        let Some(b) = literal_of(*item) else {
            break;
        };
        if literals.is_full() {
            break;
        }
        literals.push(b);
    }
    literals
}

// The finder of the literals that a pattern begins with, where there is more than one. For less
// it takes no memory.
pub(crate) fn needle_of(alloc: Global, items: &[Item]) -> Result<Option<Needle>, AllocError>
    ensures needle { IfOk result (λ needle. ForSome needle (IsNeedle items.now)) }
    ensures short { length items.now < 2 → IsOk result }
{
    let literals = literals_of(items);
    if literals.len() < 2 {
        return Ok(None);
    }
    let needle = Finder::new(literals.as_slice()).into_owned(alloc)?;
    Ok(Some(needle))
}

// A place up to which no needle starts, from a place on; `None` where none starts at all.
pub(crate) fn next_start(needle: &Needle, text: Pieces<'_>, at: usize) -> Option<usize>
    requires some { 0 < length needle.now }
    requires within { at ≤ length (joined text) }
    ensures { NoneUpTo needle.now (joined text.entry) at result }
{
    let front = text.0;
    let across = front.len().saturating_sub(needle.needle().len() - 1);
    if at >= across {
        return next_behind(needle, text, at);
    }
    match needle.find(&front[at..]) {
        Some(place) => Some(at + place),
        None => next_behind(needle, text, across),
    }
}

// Where a needle may begin next, from a place where it would lie across the gap or behind it: each
// place where it lies across is one.
fn next_behind(needle: &Needle, text: Pieces<'_>, at: usize) -> Option<usize>
    requires some { 0 < length needle.now }
    requires within { at ≤ length (joined text) }
    ensures { NoneUpTo needle.now (joined text.entry) at result }
{
    if at < text.0.len() {
        return Some(at);
    }
    first_behind(needle, text, at)
}

// Where a needle stands first, from a place behind the gap on.
#[inline(always)]
pub(crate) fn first_behind(needle: &Needle, text: Pieces<'_>, at: usize) -> Option<usize>
    requires some { 0 < length needle.now }
    requires behind { length text.0.now ≤ at }
    requires within { at ≤ length (joined text) }
    ensures { FindsNeedle (joined text.entry) needle.now at result }
{
    let (front, back) = text;
    let place = needle.find(&back[at - front.len()..])?;
    Some(at + place)
}
