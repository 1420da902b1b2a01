//! Arguments of commands, as rows of a table.
use clap::{Arg, ArgAction, value_parser};
use std::alloc::Global;

/// An argument of a command.
#[derive(Clone, Copy)]
pub struct Parameter {
    pub id: &'static str,
    pub kind: ParameterKind,
    pub help: &'static str,
}

/// How an argument is given.
#[derive(Clone, Copy)]
pub enum ParameterKind {
    /// By a word at its place.
    Word,
    /// By a word at its place, which is called this.
    Called(&'static str),
    /// By a word at its place, or by none.
    OptionalWord,
    /// By a word at its place, which is called this, or by none.
    NamedWord(&'static str),
    /// By any number of words at their places.
    Words,
    /// By an option of its name, which has no value.
    Flag,
    /// By an option of its name or of a letter, which has no value.
    Switch(char),
    /// By an option of its name with a text, which is called this.
    Text(&'static str),
    /// By an option of its name with a text, which is called this, any number of times.
    Texts(&'static str),
    /// By an option of its name with a text, which is called the first, and which is the second where
    /// the option is left out.
    Default(&'static str, &'static str),
    /// By such an option with a number of 32 bits from 1 on.
    Count(&'static str, &'static str),
    /// By such an option with a number of 64 bits.
    Bytes(&'static str, &'static str),
    /// By an option of one letter with a text, any number of times.
    Letter(char),
    /// By an option of its name or of a letter, whose value is called this.
    Lettered(char, &'static str),
}

impl Parameter {
    // An argument that is a word.
    fn word<'a>(&self, alloc: Global) -> Arg<'a> {
        Arg::new(alloc, self.id).help(self.help)
    }

    // An argument that is an option of its name.
    fn option<'a>(&self, alloc: Global) -> Arg<'a> {
        self.word(alloc).long(self.id)
    }

    // An argument that is an option of its name with a value.
    fn valued<'a>(&self, alloc: Global, name: &'static str) -> Arg<'a> {
        self.option(alloc).value_name(name)
    }

    /// The argument of this row.
    pub fn arg<'a>(&self, alloc: Global) -> Arg<'a> {
        match self.kind {
            ParameterKind::Word => self.word(alloc).required(true),
            ParameterKind::Called(name) => self.word(alloc).value_name(name).required(true),
            ParameterKind::OptionalWord => self.word(alloc),
            ParameterKind::NamedWord(name) => self.word(alloc).value_name(name),
            ParameterKind::Words => repeated(self.word(alloc).num_args(0..)),
            ParameterKind::Flag => self.option(alloc).action(ArgAction::SetTrue),
            ParameterKind::Switch(letter) => self
                .option(alloc)
                .short(letter)
                .action(ArgAction::SetTrue),
            ParameterKind::Text(name) => self.valued(alloc, name),
            ParameterKind::Texts(name) => repeated(self.valued(alloc, name)),
            ParameterKind::Default(name, value) => self.valued(alloc, name).default_value(value),
            ParameterKind::Count(name, value) => {
                from_one(self.valued(alloc, name)).default_value(value)
            }
            ParameterKind::Bytes(name, value) => self
                .valued(alloc, name)
                .value_parser(value_parser!(u64))
                .default_value(value),
            ParameterKind::Letter(letter) => {
                repeated(self.word(alloc).short(letter).value_name("TEXT"))
            }
            ParameterKind::Lettered(letter, name) => self.valued(alloc, name).short(letter),
        }
    }
}

// An argument that may be given more than once.
fn repeated<'a>(arg: Arg<'a>) -> Arg<'a> {
    arg.action(ArgAction::Append)
}

// An argument that is a number of 32 bits from 1 on.
fn from_one<'a>(arg: Arg<'a>) -> Arg<'a> {
    arg.value_parser(value_parser!(u32).range(1..))
}
