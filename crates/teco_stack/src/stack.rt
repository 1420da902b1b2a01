//! Stacks that share what lies below.
ghost use Rattle.std.specs.Prelude.{◌≡◌, ◌++◌, ◌∷◌, [], length, IfOk, OnOk};
ghost use Rattle.teco_stack.specs.Parts.{IsParted, IsPopped};

use std::alloc::{AllocError, Global};
use std::marker::Model;
use std::rc::Rc;

/// Items from the top down, as a stack has them. Copies share them.
#[cycle(stack)]
#[derive(Drop)]
pub struct Chain<T> {
    height: usize,
    top: Option<Rc<StackLink<T>>>,
}

#[cycle(stack)]
#[derive(Drop)]
struct StackLink<T> {
    item: T,
    below: Chain<T>,
}

impl<T> Model for Chain<T> {
    ghost use Rattle.std.specs.Prelude.{◌≡◌, List, length};

    ghost Value = { List T };

    ghost use Rattle.teco_stack.specs.Items.{items};

    ghost view = { λ s. items s.top };

    ghost invariant = { λ s. s.height ≡ length (items s.top) };

    ghost size = { length };

    ghost use Rattle.std.proofs.Common.{arith};

    ghost size_decreases = { λ a h. Prim.grind (arith) };
}

impl<T: Drop> Chain<T> {
    /// How many items there are.
    pub fn len(&self) -> usize
        ensures { result ≡ length self.now }
    {
        self.height
    }

    /// The item on top, and those below.
    pub fn parts(&self) -> Option<(&T, &Chain<T>)>
        ensures { IsParted self.now result }
    {
        match &self.top {
            None => None,
            Some(link) => Some((&link.item, &link.below)),
        }
    }

    /// Whether the items of two chains lie at the same place, or there are none, so that they need
    /// not be compared. No clause says that they are then the same, since none speaks of places.
    pub fn is_at(&self, other: &Chain<T>) -> bool {
        match (&self.top, &other.top) {
            (None, None) => true,
            (Some(link), Some(others)) => Rc::ptr_eq(link, others),
            _ => false,
        }
    }

    // A chain that shares these items, unless there are too many copies to be counted.
    fn copied(&self) -> Result<Chain<T>, AllocError>
        ensures { IfOk result (λ copy. copy ≡ self.now) }
    {
        let top = match &self.top {
            None => None,
            Some(link) => Some(link.clone()?),
        };
        Ok(Chain {
            height: self.height,
            top,
        })
    }
}

impl<T: Copy> Chain<T> {
    // The items from the top down, if there is memory.
    fn items(&self, alloc: Global) -> Result<Vec<T>, AllocError>
        ensures { IfOk result (λ items. items.items ≡ self.now) }
    {
        let mut items = Vec::new(alloc);
        let mut rest = self;
        while let Some((item, below)) = rest.parts() {
            put(&mut items, *item)?;
            rest = below;
        }
        Ok(items)
    }
}

// Puts an item behind others, if there is memory.
fn put<T: Copy>(items: &mut Vec<T>, item: T) -> Result<(), AllocError>
    ensures { OnOk result (items.new.items ≡ items.old.items ++ item ∷ []) }
{
    items.push(item)?;
    Ok(())
}

// Lets the items go that no other chain has, from the top down. A loop does that, so that a high
// stack does not run out of the program's own.
fn unwind<T: Drop>(mut chain: Chain<T>) {
    loop {
        let Chain { height: _, top } = chain;
        let Some(link) = top else {
            return;
        };
        let Ok(last) = Rc::try_unwrap(link) else {
            return;
        };
        chain = last.below;
    }
}

/// Items, the last of which stands on top. Copies share them, so that each takes as little time and
/// memory as an empty one.
pub struct SharedStack<T> {
    alloc: Global,
    chain: Chain<T>,
}

impl<T> Model for SharedStack<T> {
    ghost use Rattle.std.specs.Prelude.{List};

    ghost Value = { List T };

    ghost view = { λ s. s.chain };
}

impl<T: Drop> Drop for SharedStack<T> {
    fn drop(self) {
        let SharedStack { alloc: _, chain } = self;
        unwind(chain);
    }
}

impl<T: Copy> SharedStack<T> {
    /// A stack without items.
    pub fn new(alloc: Global) -> SharedStack<T>
        ensures { result ≡ [] }
    {
        SharedStack {
            alloc,
            chain: Chain {
                height: 0,
                top: None,
            },
        }
    }

    /// How many items there are.
    pub fn len(&self) -> usize
        ensures { result ≡ length self.now }
    {
        self.chain.len()
    }

    /// The items from the top down.
    pub fn chain(&self) -> &Chain<T>
        ensures { result.now ≡ self.now }
    {
        &self.chain
    }

    /// The stack of a chain's items, unless there are too many copies to be counted.
    pub fn of(alloc: Global, chain: &Chain<T>) -> Result<SharedStack<T>, AllocError>
        ensures { IfOk result (λ stack. stack ≡ chain.now) }
    {
        let chain = chain.copied()?;
        Ok(SharedStack { alloc, chain })
    }

    /// A stack that shares these items, unless there are too many copies to be counted.
    pub fn copied(&self) -> Result<SharedStack<T>, AllocError>
        ensures { IfOk result (λ copy. copy ≡ self.now) }
    {
        SharedStack::of(self.alloc, &self.chain)
    }

    /// Takes the item on top off, if there is one, unless there are too many copies to be counted.
    pub fn pop(&mut self) -> Result<Option<T>, AllocError>
        ensures { IsPopped self.old self.new result }
    {
        let Some((item, below)) = self.chain.parts() else {
            return Ok(None);
        };
        let item = *item;
        let below = SharedStack::of(self.alloc, below)?;
        *self = below;
        Ok(Some(item))
    }

    /// A copy whose items lie side by side in memory of their own, so that going through them takes
    /// less time.
    pub fn packed(&self) -> Result<SharedStack<T>, AllocError>
        ensures { IfOk result (λ stack. stack ≡ self.now) }
    {
        let items = self.chain.items(self.alloc)?;
        let mut stack = SharedStack::new(self.alloc);
        for at in (0..items.len()).rev() {
            stack = stack.with(items[at])?;
        }
        Ok(stack)
    }

    /// Drops all items.
    pub fn clear(&mut self)
        ensures { self.new ≡ [] }
    {
        *self = SharedStack::new(self.alloc);
    }

    /// The stack with one item more on top, if there is memory.
    pub fn with(self, item: T) -> Result<SharedStack<T>, AllocError>
        ensures { IfOk result (λ stack. stack ≡ item ∷ self) }
    {
        let SharedStack { alloc, chain } = self;
        let Some(height) = chain.height.checked_add(1) else {
            unwind(chain);
            return Err(AllocError);
        };
        match Rc::new(alloc, StackLink { item, below: chain }) {
            Ok(link) => {
                let top = Some(link);
                let chain = Chain { height, top };
                Ok(SharedStack { alloc, chain })
            }
            Err(refused) => {
                unwind(refused.value.below);
                Err(AllocError)
            }
        }
    }
}
