//! A text in two pieces, read from its front.
ghost use Rattle.std.specs.Prelude.{◌≡◌, ◌≤◌, [], ◌∷◌, length, drop, take, MatchOption};
ghost use Rattle.teco_find.specs.Pieces.{joined};

// The pieces of a text, one behind the other.
pub(crate) type Pieces<'a> = (&'a [u8], &'a [u8]);

// How many characters a text has.
#[inline(always)]
pub(crate) fn text_len(text: Pieces<'_>) -> usize
    ensures { result ≡ length (joined text.entry) }
{
    text.0.len() + text.1.len()
}

// The text from a place on.
#[inline(always)]
pub(crate) fn text_from(text: Pieces<'_>, place: usize) -> Pieces<'_>
    requires { place ≤ length (joined text) }
    ensures { joined result ≡ drop place (joined text.entry) }
{
    let (front, back) = text;
    if place < front.len() {
        (&front[place..], back)
    } else {
        (&back[place - front.len()..], &[])
    }
}

// The text up to a place, or all of it.
pub(crate) fn text_up_to(text: Pieces<'_>, place: usize) -> Pieces<'_>
    ensures { joined result ≡ take place (joined text.entry) }
{
    let (front, back) = text;
    if place < front.len() {
        (&front[..place], &[])
    } else {
        (front, &back[..back.len().min(place - front.len())])
    }
}

// The first character, and the text behind it.
#[inline(always)]
pub(crate) fn split_first(text: Pieces<'_>) -> Option<(u8, Pieces<'_>)>
    ensures { MatchOption result (joined text.entry ≡ [])
        (λ first. joined text.entry ≡ first.0 ∷ joined first.1) }
{
    let (front, back) = text;
    if let Some((c, rest)) = front.split_first() {
        return Some((*c, (rest, back)));
    }
    let (c, rest) = back.split_first()?;
    Some((*c, (rest, &[])))
}
