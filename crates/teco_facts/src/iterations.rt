//! Iterations that are open.
ghost use Rattle.std.specs.Prelude.{◌≡◌, ◌<◌, drop, length, IsTrue};
ghost use Rattle.teco_verifier.specs.facts.Facts as rules;
ghost use Rattle.teco_verifier.specs.facts.Flows as flows;
ghost use Rattle.teco_verifier.specs.table.Closed as closed;
ghost use Rattle.teco_facts.specs.Numbers.{AreSmall};
ghost use Rattle.teco_facts.specs.Room.{HasRoom};
ghost use Rattle.teco_facts.specs.declared.few.TheConstants.{DEPTH};

use crate::{DEPTH, Facts, Fall, Iteration};

impl Facts {
    /// The facts where so many iterations are left, with all arguments.
    pub fn leaving(mut self, count: usize) -> Facts
        ensures { result ≡ flows.leaving count self }
    {
        let known = &mut *self.known;
        known.position.falls.drop_front(count);
        known.iterations.drop_front(count);
        self.without_arguments()
    }

    /// How many iterations are open.
    pub fn open(&self) -> usize
        ensures { result ≡ length self.now.iterations }
    {
        self.known.iterations.as_slice().len()
    }

    /// Whether the innermost iteration has a count.
    pub fn is_counted(&self) -> bool
        ensures { result ≡ closed.is_counted self.now.iterations }
    {
        match self.known.iterations.as_slice() {
            [] => false,
            [innermost, ..] => innermost.counted,
        }
    }

    /// Whether more may be added to each fall.
    pub fn is_small(&self) -> bool
        ensures yes { IsTrue result → AreSmall self.now.position.falls }
        ensures no { AreSmall self.now.position.falls → IsTrue result }
    {
        self.known.position.is_small()
    }

    /// Whether one more iteration may be open.
    pub fn has_room(&self) -> bool
        ensures yes { IsTrue result → HasRoom self.now }
        ensures no { HasRoom self.now → IsTrue result }
    {
        let known = &*self.known;
        known.position.falls.as_slice().len() < DEPTH && known.iterations.as_slice().len() < DEPTH
    }

    /// The facts where another turn begins: nothing has fallen in it.
    pub fn turned(mut self) -> Facts
        ensures { result ≡ rules.at_position (flows.begun (drop 1 self.position.falls)
            self.position) (rules.without_arguments self) }
    {
        let known = &mut *self.known;
        known.position.falls.drop_front(1);
        known.position.falls.put(Fall::nothing());
        self.without_arguments()
    }

    /// The facts in the body of an iteration that begins.
    pub fn entering(mut self, counted: bool) -> Facts
        requires falls { length self.position.falls < DEPTH }
        requires iterations { length self.iterations < DEPTH }
        ensures { result ≡ flows.entering counted self }
    {
        let known = &mut *self.known;
        let pushes = known.pushes.len();
        known.position.falls.put(Fall::nothing());
        known.iterations.put(Iteration { counted, pushes });
        self
    }
}
