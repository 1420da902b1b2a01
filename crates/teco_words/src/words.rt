//! The words as values.
ghost use Rattle.std.specs.Prelude.{◌≤◌, IfOk, length};
ghost use Rattle.teco_options.specs.declared.editing.TheConstants.{NAME};

use crate::arguments::CommandLine;
use crate::fault::WordsFault;
use clap::ArgMatches;
use std::alloc::{AllocError, Global};
use teco_base::Reg;
use teco_base::bytes::ESC;
use teco_console::{Edition, Escape, Method, Origin, STREAM, Setting};
use teco_options::{
    Change, FileChoice, Keeping, LetterCase, Look, NAME, Naming, PageChoice, Script,
};
use teco_parameters::{Given, given_in, is_name};
use teco_source::{EscapeForm, Shown};
use teco_streams::{INPUT, OUTPUT};

/// The register of the macro where an option names the library, and none the register.
const DEFAULT_ENTRY: &str = "A";

/// The character that is shown for ESC where no other is given.
const DEFAULT_MARK: u8 = b'$';

/// The scripts that are run, in the order of the words.
pub fn scripts<'a>(alloc: Global, words: &ArgMatches<'a>) -> Result<Vec<Script<'a>>, AllocError> {
    let mut scripts = Vec::new(alloc);
    push_scripts(words, &mut scripts)?;
    if scripts.is_empty() {
        scripts.push(Script::Stream)?;
    }
    Ok(scripts)
}

/// Refuses a character for ESC where standard input is read as it comes.
pub fn check_escape(escape: Escape, scripts: &[Script<'_>]) -> Result<(), WordsFault> {
    let is_stream = scripts
        .iter()
        .any(|script| matches!(script, Script::Stream));
    match escape {
        Escape::Mark(mark) if mark != ESC && is_stream => Err(WordsFault::EscapeStream),
        _ => Ok(()),
    }
}

// The place of a number among places, behind all others where there is none.
fn place_at(places: &[usize], number: usize) -> usize {
    places.get(number).copied().unwrap_or(usize::MAX)
}

// The text of a number among texts, none where there is none.
fn text_at<'a>(texts: &[&'a str], number: usize) -> &'a str {
    texts.get(number).copied().unwrap_or("")
}

// Adds the files and the texts in the order of their places.
fn push_scripts<'a>(
    words: &ArgMatches<'a>,
    scripts: &mut Vec<Script<'a>>,
) -> Result<(), AllocError> {
    let files = words.get_strs("FILE").unwrap_or(&[]);
    let texts = words.get_strs("text").unwrap_or(&[]);
    let file_places = words.indices_of("FILE").unwrap_or(&[]);
    let text_places = words.indices_of("text").unwrap_or(&[]);
    let mut file = 0usize;
    for number in 0..files.len().saturating_add(texts.len()) {
        let text = number.saturating_sub(file);
        if place_at(file_places, file) < place_at(text_places, text) {
            scripts.push(Script::File(text_at(files, file)))?;
            file = file.saturating_add(1);
        } else {
            scripts.push(Script::Word(text_at(texts, text)))?;
        }
    }
    Ok(())
}

/// The step limit.
pub fn limit(words: &ArgMatches<'_>) -> u32 {
    words.get_one::<u32>("limit").unwrap_or(u32::MAX)
}

/// The bytes that each command string may type, and that its calls may take.
pub fn cap(words: &ArgMatches<'_>) -> usize {
    let bytes = words.get_one::<u64>("memory").unwrap_or(u64::MAX);
    usize::try_from(bytes).unwrap_or(usize::MAX)
}

/// A word that is required.
pub fn word<'a>(words: &ArgMatches<'a>, id: &str) -> &'a str {
    words.get_str(id).unwrap_or("")
}

// What a word or an option names, whichever there is.
fn named<'a>(words: &ArgMatches<'a>, word: &str, option: &str) -> Option<&'a str> {
    if has_macro_options(words) {
        words.get_str(option)
    } else {
        words.get_str(word)
    }
}

/// Do options name the macro, or say its text?
pub fn has_macro_options(words: &ArgMatches<'_>) -> bool {
    words.get_strs("text").is_some()
        || words.get_str("library").is_some()
        || words.get_str("register").is_some()
}

/// What a library is read from.
pub fn origin<'m, 'a>(words: &'m ArgMatches<'a>) -> Result<Origin<'m>, WordsFault> {
    let origin = Origin {
        file: named(words, "LIB", "library"),
        texts: words.get_strs("text").unwrap_or(&[]),
    };
    if origin.file.is_none() && origin.texts.is_empty() {
        return Err(WordsFault::NoMacro);
    }
    Ok(origin)
}

/// The word in the place of a file that has the form of a macro's name, where no option names one.
pub fn name_of<'a>(words: &ArgMatches<'a>) -> Option<&'a str> {
    if has_macro_options(words) {
        None
    } else {
        name_in(words, "LIB")
    }
}

/// A word that has the form of a macro's name.
pub fn name_in<'a>(words: &ArgMatches<'a>, id: &str) -> Option<&'a str> {
    let word = words.get_str(id)?;
    is_name(word.as_bytes()).then_some(word)
}

/// The words behind a name: those that give texts, and those that name files.
#[derive(Drop)]
pub struct BehindName<'m> {
    pub given: Vec<Given<'m>>,
    pub files: Vec<&'m [u8]>,
}

impl<'m> BehindName<'m> {
    // One more word. Behind the first that names a file all others do.
    fn push(&mut self, word: &'m [u8]) -> Result<(), AllocError> {
        match given_in(word) {
            Some(given) if self.files.is_empty() => self.given.push(given)?,
            _ => self.files.push(word)?,
        }
        Ok(())
    }

    /// The words behind the name in the place of a library.
    pub fn read(
        alloc: Global,
        words: &'m ArgMatches<'_>,
        arguments: &'m CommandLine,
    ) -> Result<BehindName<'m>, AllocError> {
        let mut behind = BehindName {
            given: Vec::new(alloc),
            files: Vec::new(alloc),
        };
        if let Some(first) = words.get_str("REGISTER") {
            behind.push(arguments.bytes(first))?;
        }
        for word in words.get_strs("FILE").unwrap_or(&[]) {
            behind.push(arguments.bytes(*word))?;
        }
        Ok(behind)
    }
}

/// What a macro is applied to, as words name it, and the texts that they give it.
#[derive(Drop)]
pub struct AppliedTo<'m> {
    pub given: Vec<Given<'m>>,
    /// The file that is read, or what stands for standard input.
    pub source: &'m [u8],
    /// The file that is written, or what stands for standard output; empty where none is.
    pub target: &'m [u8],
}

impl<'m> AppliedTo<'m> {
    /// By the words for a library, its register and the files.
    pub fn read(
        alloc: Global,
        words: &'m ArgMatches<'_>,
        arguments: &'m CommandLine,
    ) -> AppliedTo<'m> {
        AppliedTo {
            given: Vec::new(alloc),
            source: arguments.bytes(word(words, "IN")),
            target: arguments.bytes(word(words, "OUT")),
        }
    }

    /// By the words behind a name, of which the last are the file that is read and the one that is
    /// written, if one is.
    pub fn behind_name(behind: BehindName<'m>, writes: bool) -> Result<AppliedTo<'m>, WordsFault> {
        let BehindName { given, files } = behind;
        match files.as_slice() {
            [source, target] if writes => Ok(AppliedTo {
                given,
                source: *source,
                target: *target,
            }),
            [source] if !writes => Ok(AppliedTo {
                given,
                source: *source,
                target: &[],
            }),
            _ if writes => Err(WordsFault::Applied("IN and OUT")),
            _ => Err(WordsFault::Applied("IN alone")),
        }
    }

    // Is standard input read?
    fn reads_stream(&self) -> bool {
        self.source == STREAM.as_bytes()
    }

    /// Refuses words that ask for what a stream can't be.
    pub fn check_streams(&self, words: &ArgMatches<'_>, is_strict: bool) -> Result<(), WordsFault> {
        if !self.reads_stream() {
            return Ok(());
        }
        if named(words, "LIB", "library") == Some(STREAM) {
            return Err(WordsFault::TwoStreams);
        }
        if is_strict {
            return Err(WordsFault::Strict);
        }
        Ok(())
    }

    /// The name of the file that is read, or of standard input.
    pub fn source_name(&self) -> Result<&'m [u8], WordsFault>
        ensures { IfOk result (λ name. length name.now ≤ NAME) }
    {
        if self.reads_stream() {
            Ok(INPUT)
        } else {
            file_name(self.source)
        }
    }

    /// The name of the file that is written, or of standard output.
    pub fn target_name(&self) -> Result<&'m [u8], WordsFault>
        ensures { IfOk result (λ name. length name.now ≤ NAME) }
    {
        if self.target == STREAM.as_bytes() {
            Ok(OUTPUT)
        } else {
            file_name(self.target)
        }
    }
}

// The name of a file that a macro is applied to. It may be no text.
fn file_name(name: &[u8]) -> Result<&[u8], WordsFault>
    ensures { IfOk result (λ name. length name.now ≤ NAME) }
{
    if name.len() > NAME || name.contains(&ESC) {
        return Err(WordsFault::FileName);
    }
    Ok(name)
}

/// Refuses a register behind a name.
pub fn check_name(words: &ArgMatches<'_>) -> Result<(), WordsFault> {
    match words.get_str("REGISTER") {
        Some(_) => Err(WordsFault::BehindName),
        None => Ok(()),
    }
}

/// Refuses a library with no register, where no option names a macro.
pub fn check_register(words: &ArgMatches<'_>) -> Result<(), WordsFault> {
    if names_macro(words) {
        Ok(())
    } else {
        Err(WordsFault::RegisterWord)
    }
}

// The register of a name.
fn register_of(name: &str) -> Option<Reg> {
    match name.as_bytes() {
        [name] => Reg::of(*name),
        _ => None,
    }
}

/// The register of the macro.
pub fn entry(words: &ArgMatches<'_>) -> Result<Reg, WordsFault> {
    let name = named(words, "REGISTER", "register").unwrap_or(DEFAULT_ENTRY);
    match register_of(name) {
        Some(register) => Ok(register),
        None if has_macro_options(words) => Err(WordsFault::Register),
        None => Err(WordsFault::RegisterWord),
    }
}

/// Is a macro named, and not a library alone?
pub fn names_register(words: &ArgMatches<'_>) -> bool {
    named(words, "REGISTER", "register").is_some() || words.get_strs("text").is_some()
}

/// Is a macro named, or a library by an option?
pub fn names_macro(words: &ArgMatches<'_>) -> bool {
    names_register(words) || has_macro_options(words)
}

/// The argument of the macro, if one is given.
pub fn given(words: &ArgMatches<'_>) -> Result<Option<i32>, WordsFault> {
    let Some(digits) = words.get_str("arg") else {
        return Ok(None);
    };
    if !digits.bytes().all(|byte| byte.is_ascii_digit()) {
        return Err(WordsFault::Argument);
    }
    match digits.parse() {
        Ok(number) => Ok(Some(number)),
        Err(_) => Err(WordsFault::Argument),
    }
}

/// What stands for ESC.
pub fn escape_of(words: &ArgMatches<'_>) -> Result<Escape, WordsFault> {
    let Some(word) = words.get_str("esc") else {
        return Ok(Escape::ByName);
    };
    match word.as_bytes() {
        b"none" => Ok(Escape::Mark(ESC)),
        [mark] if mark.is_ascii() => Ok(Escape::Mark(*mark)),
        _ => Err(WordsFault::Escape),
    }
}

/// How macros are verified, if that is named.
pub fn method_of(words: &ArgMatches<'_>) -> Result<Option<Method>, WordsFault> {
    match words.get_str("rules") {
        None => Ok(None),
        Some("1") => Ok(Some(Method::Only(Edition::First))),
        Some("2" | "3") => Ok(Some(Method::Only(Edition::Second))),
        Some(_) => Err(WordsFault::Rules),
    }
}

/// The greatest effort.
const MOST_EFFORT: u32 = 1_000_000;

/// How many times the usual number of steps a search may take.
pub fn effort_of(words: &ArgMatches<'_>) -> Result<u32, WordsFault> {
    let Some(digits) = words.get_str("effort") else {
        return Ok(1);
    };
    match digits.parse() {
        Ok(times) if times >= 1 && times <= MOST_EFFORT => Ok(times),
        _ => Err(WordsFault::Effort),
    }
}

/// The character that is shown for ESC.
pub fn mark_of(escape: Escape) -> u8 {
    match escape {
        Escape::Mark(mark) if mark != ESC => mark,
        _ => DEFAULT_MARK,
    }
}

/// The form of a source that is printed.
pub fn form_of_source(escape: Escape) -> EscapeForm {
    match escape {
        Escape::Mark(mark) => EscapeForm::Marked(mark),
        Escape::ByName => EscapeForm::Readable,
    }
}

/// Which pages are edited.
pub fn pages(words: &ArgMatches<'_>) -> Result<PageChoice, WordsFault> {
    match word(words, "pages") {
        "first" => Ok(PageChoice::First),
        "each" => Ok(PageChoice::Each),
        "whole" => Ok(PageChoice::Whole),
        _ => Err(WordsFault::Pages),
    }
}

/// The texts that registers are given.
pub fn settings(
    alloc: Global,
    words: &ArgMatches<'_>,
    escape: Escape,
) -> Result<Vec<Setting>, WordsFault> {
    let mut settings = Vec::new(alloc);
    let texts = words.get_strs("set").unwrap_or(&[]);
    push_settings(alloc, texts, escape, &mut settings)?;
    Ok(settings)
}

/// The words that name files with the texts of registers.
pub fn setting_files<'m>(words: &'m ArgMatches<'_>) -> &'m [&'m str] {
    words.get_strs("set-file").unwrap_or(&[])
}

/// What `verify` prints of a macro that is accepted.
#[derive(Clone, Copy)]
pub enum VerdictForm {
    /// Its certificate.
    Certificate,
    /// An object of JSON.
    Object,
    /// What it can change, in words.
    Changes,
    /// What it can change, as an object of JSON.
    ChangesObject,
}

/// What `verify` is to print.
pub fn verdict_form(words: &ArgMatches<'_>) -> VerdictForm {
    match (words.get_flag("changes"), words.get_flag("json")) {
        (false, false) => VerdictForm::Certificate,
        (false, true) => VerdictForm::Object,
        (true, false) => VerdictForm::Changes,
        (true, true) => VerdictForm::ChangesObject,
    }
}

/// How searches treat case at first.
pub fn case(words: &ArgMatches<'_>) -> Result<Option<LetterCase>, WordsFault> {
    match (words.get_flag("exact"), words.get_flag("any-case")) {
        (true, true) => Err(WordsFault::Case),
        (true, false) => Ok(Some(LetterCase::Exact)),
        (false, true) => Ok(Some(LetterCase::Any)),
        (false, false) => Ok(None),
    }
}

// The text that a word gives a register.
fn setting(alloc: Global, word: &str, escape: Escape) -> Result<Setting, WordsFault> {
    Setting::read(alloc, word, escape)?.ok_or(WordsFault::Setting)
}

// Adds the texts that words give to registers.
fn push_settings(
    alloc: Global,
    words: &[&str],
    escape: Escape,
    settings: &mut Vec<Setting>,
) -> Result<(), WordsFault> {
    for word in words {
        settings.push(setting(alloc, *word, escape)?)?;
    }
    Ok(())
}

// Adds the words of a command that may be no text: they name files that are edited.
fn push_allowed<'a>(
    command: &str,
    words: &ArgMatches<'a>,
    allowed: &mut Vec<&'a str>,
) -> Result<(), AllocError> {
    allowed.extend_from_slice(&[word(words, "IN"), word(words, "OUT")])?;
    if matches!(command, "edit" | "apply" | "trace") {
        allowed.extend_from_slice(words.get_strs("FILE").unwrap_or(&[]))?;
        if name_of(words).is_some() {
            allowed.push(word(words, "REGISTER"))?;
        }
    }
    Ok(())
}

// Refuses a word that is no text.
fn refuse_word(alloc: Global, word: &[u8]) -> Result<(), WordsFault> {
    let shown = Shown(word);
    Err(WordsFault::NotText {
        word: format!(in alloc; "{shown}")?,
    })
}

/// Refuses words of a command that are no text, unless they name files that are edited.
pub fn check_texts(
    alloc: Global,
    command: &str,
    words: &ArgMatches<'_>,
    arguments: &CommandLine,
) -> Result<(), WordsFault> {
    let mut allowed = Vec::new(alloc);
    push_allowed(command, words, &mut allowed)?;
    match arguments.other_than(&allowed) {
        None => Ok(()),
        Some(word) => refuse_word(alloc, word),
    }
}

/// The names of the files that are edited. They may be no texts.
pub fn file_names<'m>(
    alloc: Global,
    words: &'m ArgMatches<'_>,
    arguments: &'m CommandLine,
) -> Result<Vec<&'m [u8]>, WordsFault> {
    Ok(arguments.names(alloc, words.get_strs("FILE").unwrap_or(&[]))?)
}

// Has one of these patterns a class of characters?
fn has_class(patterns: &[&str]) -> bool {
    patterns.iter().any(|pattern| pattern.contains('['))
}

// No file is named that could be edited.
fn no_file(words: &ArgMatches<'_>) -> WordsFault {
    if has_macro_options(words) || name_of(words).is_some() {
        WordsFault::NoFile
    } else {
        WordsFault::NoFileBehind
    }
}

/// Which files are edited, of these names and of what options say.
pub fn choice<'m>(
    words: &'m ArgMatches<'_>,
    names: &'m [&'m [u8]],
) -> Result<FileChoice<'m>, WordsFault> {
    let list = words.get_str("files-from");
    if names.is_empty() && list.is_none() {
        return Err(no_file(words));
    }
    if names.iter().any(|name| *name == STREAM.as_bytes()) {
        return Err(WordsFault::EditStream);
    }
    if list == Some(STREAM) && named(words, "LIB", "library") == list {
        return Err(WordsFault::ListStream);
    }
    let included = words.get_strs("include").unwrap_or(&[]);
    let excluded = words.get_strs("exclude").unwrap_or(&[]);
    if has_class(included) || has_class(excluded) {
        return Err(WordsFault::Pattern);
    }
    let is_recursive = words.get_flag("recursive");
    if !is_recursive && !(included.is_empty() && excluded.is_empty()) {
        return Err(WordsFault::Unlooked);
    }
    Ok(FileChoice {
        names,
        list,
        ends_by_nul: words.get_flag("null"),
        is_recursive,
        included,
        excluded,
    })
}

/// How it is printed what differs. `is_terminal` tells whether colours can be seen and are wanted
/// where the words leave that open.
pub fn look(words: &ArgMatches<'_>, is_terminal: bool) -> Result<Look, WordsFault> {
    match word(words, "color") {
        "always" => Ok(Look::Coloured),
        "auto" if is_terminal => Ok(Look::Coloured),
        "auto" | "never" => Ok(Look::Plain),
        _ => Err(WordsFault::Color),
    }
}

/// What is done with files that would change.
pub fn change(words: &ArgMatches<'_>) -> Change {
    if words.get_flag("check") {
        Change::Checked
    } else if words.get_flag("dry-run") {
        Change::Listed
    } else {
        Change::Made
    }
}

/// Where the names of files stand before what is typed over them: nowhere in objects, which have them.
pub fn naming(words: &ArgMatches<'_>) -> Naming {
    if words.get_flag("no-names") || words.get_flag("json") {
        Naming::Never
    } else if words.get_flag("with-names") {
        Naming::Always
    } else {
        Naming::Several
    }
}

/// How files are kept as they were, if they are.
pub fn keeping<'a>(words: &ArgMatches<'a>) -> Option<Keeping<'a>> {
    Some(Keeping {
        suffix: words.get_str("backup")?,
        replaces: words.get_flag("force-backup"),
    })
}

/// Refuses to try the examples of a library that can't be read twice.
pub fn check_tested(words: &ArgMatches<'_>) -> Result<(), WordsFault> {
    if named(words, "LIB", "library") == Some(STREAM) {
        return Err(WordsFault::Tested);
    }
    Ok(())
}
