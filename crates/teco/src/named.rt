//! The macros that words call by name.
use crate::fault::ProgramFault;
use clap::ArgMatches;
use std::alloc::Global;
use std::io::Write;
use teco_console::{Console, Escape};
use teco_named::{
    BoundTexts, CalledMacro, GivenTexts, MacroFolders, find_macro, is_file, texts_for_macro,
};
use teco_words::{AppliedTo, BehindName, CommandLine, applied_name};

/// The macro that a word calls by its name, unless the word names a file.
pub fn called_by(
    rt: &HostRuntime,
    word: Option<&str>,
) -> Result<Option<CalledMacro>, ProgramFault> {
    let Some(name) = word else {
        return Ok(None);
    };
    if is_file(rt, name)? {
        return Ok(None);
    }
    let folders = MacroFolders::read(rt)?;
    Ok(Some(find_macro(rt, &folders, name)?))
}

/// The macro that words call by its name, if they do.
pub fn called(
    rt: &HostRuntime,
    given: &ArgMatches<'_>,
) -> Result<Option<CalledMacro>, ProgramFault> {
    called_by(rt, teco_words::name_of(given))
}

/// Do the words for `apply` or `trace` call a macro by its name?
pub fn calls_name(rt: &HostRuntime, words: &[String]) -> Result<bool, ProgramFault> {
    match applied_name(words) {
        Some(name) => Ok(!is_file(rt, name)?),
        None => Ok(false),
    }
}

/// What a macro is applied to, and the texts that the words give it.
pub fn applied_to<'m>(
    alloc: Global,
    called: Option<&CalledMacro>,
    given: &'m ArgMatches<'_>,
    arguments: &'m CommandLine,
    writes: bool,
) -> Result<AppliedTo<'m>, ProgramFault> {
    match called {
        Some(_) => {
            let behind = BehindName::read(alloc, given, arguments)?;
            Ok(AppliedTo::behind_name(behind, writes)?)
        }
        None => Ok(AppliedTo::read(alloc, given, arguments)),
    }
}

/// The texts that registers have as a macro begins: where it is called by its name, with those of its
/// parameters. Search texts stand in its library.
pub fn texts_of(
    rt: &HostRuntime,
    called: Option<&CalledMacro>,
    escape: Escape,
    texts: GivenTexts<'_>,
) -> Result<BoundTexts, ProgramFault> {
    let Some(called) = called else {
        return Ok(BoundTexts {
            settings: texts.settings,
            searches: Vec::new(rt.alloc()),
        });
    };
    let source = called.source(rt, rt.alloc(), escape)?;
    Ok(texts_for_macro(rt.alloc(), called, &source, texts)?)
}

/// Says which file has the macro, if that is not one of the installed library.
pub fn tell_file<O: Write + Drop, E: Write + Drop>(
    console: &mut Console<O, E>,
    called: Option<&CalledMacro>,
) {
    if let Some(called) = called
        && !called.is_installed()
    {
        let (name, path) = (called.name(), called.path());
        console.voice.say(format_args!("{name} is {path}"));
    }
}

/// The words that stand behind the macro in the command line: texts and files where it is called by
/// its name, and else files.
pub fn behind<'m>(
    alloc: Global,
    called: Option<&CalledMacro>,
    given: &'m ArgMatches<'_>,
    arguments: &'m CommandLine,
) -> Result<BehindName<'m>, ProgramFault> {
    if called.is_some() {
        return Ok(BehindName::read(alloc, given, arguments)?);
    }
    teco_words::check_register(given)?;
    Ok(BehindName {
        given: Vec::new(alloc),
        files: teco_words::file_names(alloc, given, arguments)?,
    })
}
