//! Lists of at most seven: at most six iterations are open, and where a seventh would begin there
//! is one more.
ghost use Rattle.std.specs.Prelude.{◌≡◌, ◌<◌, ◌≤◌, ◌++◌, [], ◌∷◌, length, drop};
ghost use Rattle.teco_facts.specs.Each.{each_met};

use crate::{Meets, meet_each};
use std::marker::Model;

/// How many there may be.
pub const DEPTH: usize = 7;

/// A list of at most seven.
#[derive(Drop)]
pub struct Few<T: Copy> {
    pub(crate) items: [T; DEPTH],
    pub(crate) len: usize,
}

impl<T: Copy> Model for Few<T> {
    ghost use Rattle.std.specs.Prelude.{◌≡◌, List, ◌≤◌, length, take};
    ghost use Rattle.teco_facts.specs.declared.few.TheConstants.{DEPTH};

    ghost Value = { List T };

    ghost view = { λ f. take f.len f.items };

    ghost invariant = { λ f. (length f.items ≡ DEPTH) × (f.len ≤ DEPTH) };
}

impl<T: Copy> Few<T> {
    /// An empty list, with something to fill its places.
    pub fn empty(filler: T) -> Few<T>
        ensures { result ≡ [] }
    {
        Few {
            items: [filler; DEPTH],
            len: 0,
        }
    }

    /// A copy of the list.
    pub fn copied(&self) -> Few<T>
        ensures { result ≡ self.now }
    {
        Few {
            items: self.items,
            len: self.len,
        }
    }

    /// What is in the list.
    pub fn as_slice(&self) -> &[T]
        ensures value { result.now ≡ self.now }
        ensures few { length result.now ≤ DEPTH }
    {
        &self.items[..self.len]
    }

    /// Puts one at the front.
    pub fn put(&mut self, item: T)
        requires { length self.old < DEPTH }
        ensures { self.new ≡ item ∷ self.old }
    {
        self.items.copy_within(..self.len, 1);
        self.items[0] = item;
        self.len += 1;
    }

    /// Puts one behind the others.
    #[tactic(auto, using(std::proofs::lemmas::List::take_more_set))]
    pub fn push(&mut self, item: T)
        requires { length self.old < DEPTH }
        ensures { self.new ≡ self.old ++ item ∷ [] }
    {
        self.items[self.len] = item;
        self.len += 1;
    }

    /// Drops so many at the front.
    pub fn drop_front(&mut self, count: usize)
        ensures value { self.new ≡ drop count self.old }
        ensures few { length self.old ≤ DEPTH }
    {
        let count = count.min(self.len);
        self.items.copy_within(count..self.len, 0);
        self.len -= count;
    }
}

impl<T: Meets> Few<T> {
    /// The list becomes what it has in common with another, item by item, as far as the shorter
    /// goes.
    pub fn meet(&mut self, other: &Few<T>)
        ensures { self.new ≡ each_met T.met self.old other.now }
    {
        meet_each(&mut self.items, &other.items);
        self.len = self.len.min(other.len);
    }
}
