//! The rest of a text in two pieces behind elements that are matched at its front.
ghost use Rattle.std.specs.Prelude.{◌≡◌, ◌≤◌, ◌++◌, length, option_map, IfSome};
ghost use Rattle.teco_model.specs.Match as model;
ghost use Rattle.teco_find.specs.Pieces.{joined};

use crate::classes::{is_in, is_space_or_tab};
use crate::pieces::{Pieces, split_first};
use teco_model::pattern::Item;

// The text behind the spaces and tabs at its front.
#[inline(never)]
fn blanks_rest(text: Pieces<'_>) -> Pieces<'_>
    ensures value { joined result ≡ model.run_rest model.is_space_or_tab (joined text.entry) }
    ensures within { length (joined result) ≤ length (joined text.entry) }
{
    let mut rest = text;
    while let Some((c, behind)) = split_first(rest) {
        if !is_space_or_tab(c) {
            break;
        }
        rest = behind;
    }
    rest
}

// The text behind an element.
#[inline(always)]
fn item_rest(item: Item, text: Pieces<'_>) -> Option<Pieces<'_>>
    ensures value { option_map joined result ≡ model.item_rest item (joined text.entry) }
    ensures within { IfSome result (λ rest. length (joined rest) ≤ length (joined text.entry)) }
{
    let (c, rest) = split_first(text)?;
    match item {
        Item::Is(class) if is_in(class, c) => Some(rest),
        Item::IsNot(class) if !is_in(class, c) => Some(rest),
        Item::Blanks if is_space_or_tab(c) => Some(blanks_rest(rest)),
        _ => None,
    }
}

// The text behind elements, each of which is matched where the one before it ended.
#[inline(never)]
#[tactic(auto, using(crate::proofs::Matches::rests_more))]
pub(crate) fn match_rest<'a>(items: &[Item], text: Pieces<'a>) -> Option<Pieces<'a>>
    ensures value { option_map joined result ≡ model.match_rest items.now (joined text.entry) }
    ensures within { IfSome result (λ rest. length (joined rest) ≤ length (joined text.entry)) }
{
    let mut rest = text;
    for item in items {
        rest = item_rest(*item, rest)?;
    }
    Some(rest)
}

// The text behind literals, if they stand at the front of its first piece.
#[inline(always)]
pub(crate) fn literals_rest<'a>(literals: &[u8], text: Pieces<'a>) -> Option<Pieces<'a>>
    ensures value { IfSome result (λ rest. joined text.entry ≡ literals.now ++ joined rest) }
    ensures within { IfSome result (λ rest. length (joined rest) ≤ length (joined text.entry)) }
{
    let rest = text.0.strip_prefix(literals)?;
    Some((rest, text.1))
}
