//! Promises of macros.
ghost use Rattle.std.specs.Prelude.{◌≡◌, option_map};
ghost use Rattle.teco_promise.specs.Promise.{EachRunEnds};

use std::marker::Model;
use teco_base::Reg;
use teco_library::Library;
use teco_model::{ArgumentRange, Needs};
use teco_poly::Poly;

/// What is said of a macro of a library.
#[derive(Drop)]
pub struct Statement<'l> {
    /// The library, whose texts are loaded before a run.
    pub library: &'l Library,
    /// The register that is called.
    pub entry: Reg,
    /// The argument that a run is given, if it takes one.
    pub argument: Option<ArgumentRange>,
    /// The files that must be open.
    pub needs: Needs,
    /// The most commands that a run takes, by N: what is held and unread where it begins.
    pub commands: Poly,
    /// The most that is held, and the length of the longest text, by N.
    pub size: Poly,
    /// By how much the buffer and what is unread may get longer on the way, by N, if a bound on that is known.
    pub grows: Option<Poly>,
    /// The most bytes that a run types, by N, if a bound on them is known.
    pub types: Option<Poly>,
}

impl<'l> Model for Statement<'l> {
    ghost use Rattle.teco_promise.specs.Promise as model;

    ghost Value = { model.Promise };

    ghost view = { λ s. record {
      library = s.library.now.texts;
      entry = s.entry;
      argument = s.argument;
      needs = s.needs;
      commands = s.commands;
      size = s.size;
      grows = s.grows;
      types = s.types;
    } };
}

/// A statement of which it was proved that each run ends in time, and without a code.
#[derive(Drop)]
pub struct Promise<'l> {
    statement: Statement<'l>,
}

impl<'l> Model for Promise<'l> {
    ghost use Rattle.teco_promise.specs.Promise as model;

    ghost Value = { model.Promise };

    ghost view = { λ p. p.statement };

    ghost invariant = { λ p. model.EachRunEnds p.statement };
}

impl<'l> Promise<'l> {
    /// The promise that each run ends as stated.
    pub fn of(statement: Statement<'l>) -> Promise<'l>
        requires { EachRunEnds statement }
        ensures { result ≡ statement.entry }
    {
        Promise { statement }
    }

    /// What always holds: each run ends in time, and without a code.
    pub fn is_sound(&self)
        ensures { EachRunEnds self.now }
    {
        let _ = &self.statement;
    }

    /// The library.
    pub fn library(&self) -> &'l Library
        ensures { result.now.texts ≡ self.now.library }
    {
        self.statement.library
    }

    /// The register that is called.
    pub fn entry(&self) -> Reg
        ensures { result ≡ self.now.entry }
    {
        self.statement.entry
    }

    /// The argument that a run is given; `None` where it takes none.
    pub fn argument(&self) -> Option<ArgumentRange>
        ensures { result ≡ self.now.argument }
    {
        self.statement.argument
    }

    /// The files that must be open.
    pub fn needs(&self) -> Needs
        ensures { result ≡ self.now.needs }
    {
        self.statement.needs
    }

    /// The most commands that a run takes.
    pub fn commands(&self) -> Poly
        ensures { result ≡ self.now.commands }
    {
        self.statement.commands
    }

    /// The most that is held, and the length of the longest text.
    pub fn size(&self) -> Poly
        ensures { result ≡ self.now.size }
    {
        self.statement.size
    }

    /// By how much the buffer and what is unread may get longer on the way; `None` where no bound is known.
    pub fn grows(&self) -> Option<Poly>
        ensures { result ≡ self.now.grows }
    {
        self.statement.grows
    }

    /// The most bytes that a run types; `None` where no bound is known.
    pub fn types(&self) -> Option<Poly>
        ensures { result ≡ self.now.types }
    {
        self.statement.types
    }
}
