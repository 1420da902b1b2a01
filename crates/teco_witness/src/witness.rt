//! What a macro is tried on, and how it fails there.
use std::marker::Model;
use teco_base::{Code, Reg};
use teco_library::Library;
use teco_model::{ArgumentRange, Needs};
use teco_run::Site;

/// A macro of a library that is refused, the arguments that it may be given, and the files that it
/// needs.
#[derive(Drop)]
pub struct Subject<'a> {
    pub library: &'a Library,
    pub entry: Reg,
    pub argument: Option<ArgumentRange>,
    pub needs: Needs,
}

impl<'a> Model for Subject<'a> {
    ghost use Rattle.teco_witness.specs.Witness as small;

    ghost Value = { small.Subject };

    ghost view = { λ s. record {
      library = s.library.now.texts;
      entry = s.entry;
      argument = s.argument;
      needs = s.needs;
    } };
}

/// What a register is set to before the call: its number, and its text unless that is empty.
#[derive(Drop)]
pub struct Setting {
    pub register: Reg,
    pub number: i32,
    pub text: Vec<u8>,
}

impl Model for Setting {
    ghost use Rattle.teco_witness.specs.Witness as small;

    ghost Value = { small.Setting };

    ghost view = { λ s. record { register = s.register; number = s.number; text = s.text.items } };
}

/// What a macro is called in: a new machine with the macro's library, on a text.
#[derive(Drop)]
pub struct SmallWorld {
    /// The text of the buffer, or of an input.
    pub text: Vec<u8>,
    /// Is it the text of an input? Then its first page is read, and an output is open.
    pub is_input: bool,
    /// What registers are set to before the call. The others are empty, and their numbers are 0.
    pub settings: Vec<Setting>,
    /// The argument of the call.
    pub given: Option<i32>,
}

impl Model for SmallWorld {
    ghost use Rattle.teco_witness.specs.Witness as small;

    ghost Value = { small.SmallWorld };

    ghost view = { λ w. record {
      text = w.text.items;
      is_input = w.is_input;
      settings = w.settings.items;
      given = w.given;
    } };
}

/// How a macro fails.
#[derive(Clone, Copy)]
pub enum WitnessEnd {
    /// It stops with a code, at a place in the text of a register.
    Code { code: Code, site: Site },
    /// After many more steps than its text should take it has not ended, and holds so many characters.
    Long { steps: u64, held: u128 },
}

/// A small world on which a macro fails.
#[derive(Drop)]
pub struct Witness {
    pub world: SmallWorld,
    pub end: WitnessEnd,
}

impl Model for Witness {
    ghost use Rattle.teco_witness.specs.Witness as small;

    ghost Value = { small.Witness };

    ghost view = { λ w. record { world = w.world; end = w.end } };
}
