//! How many commands a run takes at most.
ghost use Rattle.std.specs.Prelude.{◌≡◌, IfSome};
ghost use Rattle.teco_poly.specs.Polynomial.{value};
ghost use Rattle.teco_console.specs.Premise.{IsPremise, IsWithin};

use teco_console::Premise;
use teco_poly::Poly;
use teco_promise::Promise;

/// The most commands of a run that are promised, and up to which N it takes no more.
#[derive(Clone, Copy)]
pub struct Bound {
    pub commands: Poly,
    pub premise: Premise,
}

impl Bound {
    /// The bound of a promise.
    pub fn of(promise: &Promise<'_>) -> Bound
        ensures commands { result.commands ≡ promise.now.commands }
        ensures premise { IsPremise promise.now.size promise.now.commands result.premise.last }
    {
        let commands = promise.commands();
        Bound {
            commands,
            premise: Premise::of_promise(promise),
        }
    }

    /// Within how many commands a run at this N ends, if that is promised.
    pub fn at(&self, n: u64) -> Option<u64>
        ensures { IfSome result (λ most. IsWithin self.now.premise.last n
            × (value self.now.commands n ≡ most)) }
    {
        if self.premise.holds_at(u128::from(n)) {
            self.commands.at(n)
        } else {
            None
        }
    }
}
