//! A number that only contracts see.
ghost use Rattle.std.specs.Prelude.{◌≡◌, ℕ, suc, IsErr};
ghost use Rattle.std.specs.Borrow.{ftrue};

use crate::fault::Failed;
use std::marker::{Model, PhantomData};

/// How often something has happened. It takes no memory, does nothing when it runs, and has no last
/// value.
#[derive(Drop)]
pub struct Count {
    marker: PhantomData<u8>,
    pub ghost value: { ℕ },
}

impl Model for Count {
    ghost also_owns = { λ _. ftrue };
}

impl Count {
    /// Nothing has happened yet.
    pub fn new() -> Count
        ensures { result.value ≡ 0 }
    {
        Count {
            marker: PhantomData,
        }
    }

    /// What is counted has happened once more.
    pub fn rise(&mut self)
        ensures { self.new.value ≡ suc self.old.value }
    {}

    /// Counts a failure, and answers it.
    pub fn failed<T>(&mut self) -> Result<T, Failed>
        ensures failed { IsErr result }
        ensures counted { self.new.value ≡ suc self.old.value }
    {
        self.rise();
        Err(Failed)
    }
}
