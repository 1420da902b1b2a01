//! What is asked of the verifier.
ghost use Rattle.std.specs.Prelude.{◌≡◌};
ghost use Rattle.teco_library.specs.Library.{argument_of};

use teco_base::Reg;
use teco_library::Library;
use teco_model::ArgumentRange;

/// A macro of a library.
#[derive(Clone, Copy)]
pub struct AskedMacro<'l> {
    pub library: &'l Library,
    pub entry: Reg,
}

impl<'l> AskedMacro<'l> {
    /// The argument that the library declares for the macro, if it declares one.
    pub fn argument(&self) -> Option<ArgumentRange>
        ensures { result ≡ argument_of self.now.library.now self.now.entry }
    {
        self.library.argument(self.entry)
    }
}
