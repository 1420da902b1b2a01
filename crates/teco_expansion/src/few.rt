//! Lists of a few.
ghost use Rattle.std.specs.Prelude.{◌≡◌, ◌<◌, ◌≤◌, [], ◌∷◌, length, drop, reverse, slice_get, ⊤};
ghost use Rattle.teco_expansion.specs.declared.few.TheConstants.{ROOM};

use std::alloc::AllocError;

/// One more than there may be open calls, or open iterations.
pub const ROOM: usize = 7;

/// A list of a few; what is at its front stands last in the array.
pub struct OpenList<T: Copy> {
    items: [T; ROOM],
    len: usize,
    ghost whole: { length items ≡ ROOM },
    ghost within: { len ≤ ROOM },
}

impl<T: Copy> Copy for OpenList<T> {}

impl<T: Copy> Clone for OpenList<T> {
    ghost is_clone = { λ few copy. copy ≡ few };

    ghost is_infallible = { λ few. ⊤ };

    fn clone(&self) -> Result<OpenList<T>, AllocError> {
        Ok(*self)
    }
}

impl<T: Copy> OpenList<T> {
    ghost use Rattle.teco_expansion.specs.Few.{listed};

    /// An empty list, with something to fill its places.
    pub fn empty(filler: T) -> OpenList<T>
        ensures { listed result ≡ [] }
    {
        OpenList {
            items: [filler; ROOM],
            len: 0,
        }
    }

    /// How many there are.
    pub fn len(&self) -> usize
        ensures value { result ≡ length (listed self.now) }
        ensures few { result ≤ ROOM }
    {
        self.len
    }

    /// The list with one more at its front.
    pub fn with(self, item: T) -> OpenList<T>
        requires { length (listed self) < ROOM }
        ensures { listed result ≡ item ∷ listed self }
    {
        let mut items = self.items;
        items[self.len] = item;
        OpenList {
            items,
            len: self.len + 1,
        }
    }

    /// The one at a place.
    pub fn get(&self, at: usize) -> Option<T>
        ensures { result ≡ slice_get (listed self.now) at }
    {
        if at < self.len {
            Some(self.items[self.len - 1 - at])
        } else {
            None
        }
    }

    /// The list from its end.
    pub fn as_slice(&self) -> &[T]
        ensures { reverse result.now ≡ listed self.now }
    {
        let items = &self.items[..];
        &items[..self.len]
    }

    /// The list without so many at its front.
    pub fn without(self, count: usize) -> OpenList<T>
        ensures { listed result ≡ drop count (listed self) }
    {
        OpenList {
            items: self.items,
            len: self.len.saturating_sub(count),
        }
    }
}
