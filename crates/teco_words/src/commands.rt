//! The commands of the program and their options.
use crate::rows::Parameter;
use crate::tables::{
    APPLIED_BY_NAME, APPLY_PAGE, CHECK_PAGE, EDIT_PAGE, EXPLAIN_PAGE, LIST_PAGE, RUN_PAGE,
    SHOW_PAGE, TEST_PAGE, TRACE_PAGE, VERIFY_PAGE,
};
use clap::{Arg, Command};
use std::alloc::{AllocError, Global};
use std::convert::AsStr;

/// What the status says that the program ends with.
const STATUSES: &str = "Status:\n\
    \x20 0  done, or there was nothing to do\n\
    \x20 1  a code; a file that edit --check would change\n\
    \x20 2  words, a library, a certificate or a stream that can't be used\n\
    \x20 3  a refusal; a file outside the promise\n\
    \x20 4  a file that edit could not edit, and left as it was";

/// A command of the program: what its help says, and its arguments.
#[derive(Clone, Copy)]
pub struct HelpPage {
    pub name: &'static str,
    pub about: &'static str,
    pub examples: &'static str,
    pub options: &'static [Parameter],
    /// The words that name a library and a macro of it, where no option does.
    pub library: &'static [Parameter],
    pub words: &'static [Parameter],
}

// Adds the arguments of rows to others.
fn push_args<'a>(
    alloc: Global,
    rows: &[Parameter],
    args: &mut Vec<Arg<'a>>,
) -> Result<(), AllocError> {
    for row in rows {
        args.push(row.arg(alloc))?;
    }
    Ok(())
}

// A command with no arguments yet.
fn bare<'a>(alloc: Global, page: &HelpPage) -> Command<'a> {
    Command::new(alloc, page.name)
        .about(page.about)
        .after_help(page.examples)
}

// What names the macro of a command.
#[derive(Clone, Copy)]
enum NamedBy {
    // words for a library and a register
    Words,
    Options,
    // a macro's name, with texts and files behind it
    Name,
}

// Adds the words of a command to others. Where options name the macro, words do not.
fn push_words<'a>(
    alloc: Global,
    page: &HelpPage,
    named_by: NamedBy,
    args: &mut Vec<Arg<'a>>,
) -> Result<(), AllocError> {
    match named_by {
        NamedBy::Words => push_args(alloc, page.library, args)?,
        NamedBy::Options => {}
        NamedBy::Name => return push_args(alloc, APPLIED_BY_NAME, args),
    }
    push_args(alloc, page.words, args)
}

// A command with its arguments.
fn subcommand<'a>(
    alloc: Global,
    page: &HelpPage,
    named_by: NamedBy,
) -> Result<Command<'a>, AllocError> {
    let mut args = Vec::new(alloc);
    push_args(alloc, page.options, &mut args)?;
    push_words(alloc, page, named_by, &mut args)?;
    bare(alloc, page).args(args)
}

// Is a word an option that names a macro, or a part of it?
fn names_macro(word: &str) -> bool {
    match word.as_bytes() {
        [b'-', b'-', ..] => word.starts_with("--library") || word.starts_with("--register"),
        [b'-', ..] => {
            let letters = word.trim_start_matches('-').trim_start_matches('0');
            letters.starts_with('e') || letters.starts_with('f') || letters.starts_with('r')
        }
        _ => false,
    }
}

// Is the macro named by options? Behind `--` there are none.
fn is_by_options<S: AsStr>(words: &[S]) -> bool {
    for word in words {
        if word.as_str() == "--" {
            return false;
        }
        if names_macro(word.as_str()) {
            return true;
        }
    }
    false
}

// What names the macro, where it is known whether a name calls it.
fn named_by<S: AsStr>(words: &[S], calls_name: bool) -> NamedBy {
    if is_by_options(words) {
        NamedBy::Options
    } else if calls_name {
        NamedBy::Name
    } else {
        NamedBy::Words
    }
}

// Whether one of the words is a name.
fn is_among<S: AsStr>(words: &[S], name: &str) -> bool {
    for word in words {
        if word.as_str() == name {
            return true;
        }
    }
    false
}

// A command of the program. One that no word names goes without its arguments: they are neither read
// nor listed, and adding them was half of the program's work at a start.
fn command_of<'a, S: AsStr>(
    alloc: Global,
    words: &[S],
    page: &HelpPage,
    calls_name: bool,
) -> Result<Command<'a>, AllocError> {
    if is_among(words, page.name) {
        subcommand(alloc, page, named_by(words, calls_name))
    } else {
        Ok(bare(alloc, page))
    }
}

// Adds a command of the program to others.
fn add<'a, S: AsStr>(
    commands: &mut Vec<Command<'a>>,
    words: &[S],
    page: &HelpPage,
) -> Result<(), AllocError> {
    let alloc = *commands.allocator();
    commands.push(command_of(alloc, words, page, false)?)?;
    Ok(())
}

// Adds a command that applies macros to others. One may be called by its name.
fn add_applying<'a, S: AsStr>(
    commands: &mut Vec<Command<'a>>,
    words: &[S],
    page: &HelpPage,
    calls_name: bool,
) -> Result<(), AllocError> {
    let alloc = *commands.allocator();
    commands.push(command_of(alloc, words, page, calls_name)?)?;
    Ok(())
}

// Adds the command `run`.
fn add_run<S: AsStr>(commands: &mut Vec<Command<'_>>, words: &[S]) -> Result<(), AllocError> {
    add(commands, words, &RUN_PAGE)
}

// Adds the command `verify`.
fn add_verify<S: AsStr>(commands: &mut Vec<Command<'_>>, words: &[S]) -> Result<(), AllocError> {
    add(commands, words, &VERIFY_PAGE)
}

// Adds the command `check`.
fn add_check<S: AsStr>(commands: &mut Vec<Command<'_>>, words: &[S]) -> Result<(), AllocError> {
    add(commands, words, &CHECK_PAGE)
}

// Adds the command `apply`.
fn add_apply<S: AsStr>(
    commands: &mut Vec<Command<'_>>,
    words: &[S],
    calls_name: bool,
) -> Result<(), AllocError> {
    add_applying(commands, words, &APPLY_PAGE, calls_name)
}

// Adds the command `edit`.
fn add_edit<S: AsStr>(commands: &mut Vec<Command<'_>>, words: &[S]) -> Result<(), AllocError> {
    add(commands, words, &EDIT_PAGE)
}

// Adds the command `trace`.
fn add_trace<S: AsStr>(
    commands: &mut Vec<Command<'_>>,
    words: &[S],
    calls_name: bool,
) -> Result<(), AllocError> {
    add_applying(commands, words, &TRACE_PAGE, calls_name)
}

// Adds the command `test`.
fn add_test<S: AsStr>(commands: &mut Vec<Command<'_>>, words: &[S]) -> Result<(), AllocError> {
    add(commands, words, &TEST_PAGE)
}

// Adds the command `list`.
fn add_list<S: AsStr>(commands: &mut Vec<Command<'_>>, words: &[S]) -> Result<(), AllocError> {
    add(commands, words, &LIST_PAGE)
}

// Adds the command `show`.
fn add_show<S: AsStr>(commands: &mut Vec<Command<'_>>, words: &[S]) -> Result<(), AllocError> {
    add(commands, words, &SHOW_PAGE)
}

// Adds the command `explain`.
fn add_explain<S: AsStr>(commands: &mut Vec<Command<'_>>, words: &[S]) -> Result<(), AllocError> {
    add(commands, words, &EXPLAIN_PAGE)
}

// Adds all commands. Each comes from a function of its own: a constant of them all is more than is
// proved at once.
fn add_all<S: AsStr>(
    commands: &mut Vec<Command<'_>>,
    words: &[S],
    calls_name: bool,
) -> Result<(), AllocError> {
    add_run(commands, words)?;
    add_verify(commands, words)?;
    add_check(commands, words)?;
    add_apply(commands, words, calls_name)?;
    add_edit(commands, words)?;
    add_trace(commands, words, calls_name)?;
    add_test(commands, words)?;
    add_list(commands, words)?;
    add_show(commands, words)?;
    add_explain(commands, words)
}

// The program with no commands yet.
fn program<'a>(alloc: Global) -> Command<'a> {
    Command::new(alloc, "teco")
        .about("TECO, the Text Editor and Corrector")
        .after_help(STATUSES)
        .version("0.1.0")
        .subcommand_required(true)
}

/// The commands of the program, to read these words. Those that a word names have their arguments:
/// `apply` and `trace` those behind the name of a macro, where one calls it.
pub fn command<'a, S: AsStr>(
    alloc: Global,
    words: &[S],
    calls_name: bool,
) -> Result<Command<'a>, AllocError> {
    let mut commands = Vec::new(alloc);
    add_all(&mut commands, words, calls_name)?;
    program(alloc).subcommands(commands)
}
