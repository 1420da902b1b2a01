//! Parts of a text, in two pieces as the text is.
ghost use Rattle.std.specs.Prelude.{◌≡◌, ◌≤◌, ◌++◌, length, take, drop};
ghost use Rattle.teco_base.specs.Text.{range};
ghost use Rattle.teco_text.specs.Answers.{IsPart};

use crate::store::TextStore;

/// The characters from `a` up to `b`, in two pieces of which either may be empty.
pub fn pieces<T: TextStore>(store: &T, a: usize, b: usize) -> (&[u8], &[u8])
    requires { IsPart (T.list store.now) a b }
    ensures { result.0.now ++ result.1.now ≡ range (T.list store.now) a b }
{
    let (front, back) = store.slices();
    let (front, back) = pieces_before(front, back, b);
    pieces_after(front, back, a)
}

// What stands behind a place of a text in two pieces, again in two pieces.
pub(crate) fn pieces_after<'a>(front: &'a [u8], back: &'a [u8], at: usize) -> (&'a [u8], &'a [u8])
    requires { at ≤ length (front.now ++ back.now) }
    ensures { result.0.now ++ result.1.now ≡ drop at (front.now ++ back.now) }
{
    if at <= front.len() {
        (&front[at..], back)
    } else {
        (&back[at - front.len()..], &[])
    }
}

// What stands before a place.
pub(crate) fn pieces_before<'a>(front: &'a [u8], back: &'a [u8], at: usize) -> (&'a [u8], &'a [u8])
    requires { at ≤ length (front.now ++ back.now) }
    ensures { result.0.now ++ result.1.now ≡ take at (front.now ++ back.now) }
{
    if at <= front.len() {
        (&front[..at], &[])
    } else {
        (front, &back[..at - front.len()])
    }
}
