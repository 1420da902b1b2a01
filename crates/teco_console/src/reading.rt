//! What libraries are read from.
ghost use Rattle.std.specs.Prelude.{◌≡◌, [], IfOk, IfSome};
ghost use Rattle.teco_console.specs.Sources.{FileSays, IsFileRead, IsGivenBehind, IsOfFile, IsReadFor, IsSource};
ghost use Rattle.teco_console.specs.Sources.{IsWithWords, lines_behind, word_form};
ghost use Rattle.teco_source.specs.Source.{said};

use crate::fault::AnswerFault;
use crate::files::{Shelf, read_file};
use crate::forms::{Escape, form_of, form_of_word, is_readable};
use crate::given::{GivenText, with_text};
use crate::request::Request;
use crate::searches::with_searches;
use crate::setting::Setting;
use std::alloc::{AllocError, Global};
use teco_base::bytes::{ESC, LF};
use teco_base::{LIMIT, Reg};
use teco_explain::is_plain;
use teco_library::Library;
use teco_source::{EscapeForm, Shown, Source};

/// What messages call texts of the command line by.
const WORDS: &str = "-e";

/// Reads a file of TECO text, or standard input where the name is `-`.
pub fn read_text<R: Shelf>(
    rt: &R,
    alloc: Global,
    name: &str,
    escape: Escape,
) -> Result<Source, AnswerFault> {
    let bytes = read_file(rt, alloc, name)?;
    Ok(Source::new(alloc, name, bytes, form_of(name, escape))?)
}

// A source of a name that says nothing.
fn empty(alloc: Global, name: &str) -> Result<Source, AnswerFault>
    ensures { IfOk result (λ text. text ≡ []) }
{
    Ok(Source::new(alloc, name, Vec::new(alloc), EscapeForm::Readable)?)
}

// The source that is the macro A alone, by what bytes say.
fn macro_source(
    alloc: Global,
    source: Source,
    name: &str,
    bytes: Vec<u8>,
    form: EscapeForm,
) -> Result<Source, AnswerFault>
    ensures { IfOk result (λ text. IsGivenBehind source 0 form bytes.items text) }
{
    let given = GivenText {
        register: Reg::default(),
        name,
        bytes,
        form,
    };
    with_text(alloc, source, given)
}

// The source that the file of a library is. One in a form that people read may be one macro alone,
// which is then that of A.
fn file_source(
    alloc: Global,
    name: &str,
    bytes: Vec<u8>,
    escape: Escape,
) -> Result<Source, AnswerFault>
    ensures { IfOk result (FileSays escape name.now bytes.items) }
{
    let form = form_of(name, escape);
    if is_readable(name, escape) && is_plain(&form.read(alloc, &bytes)?) {
        return macro_source(alloc, empty(alloc, name)?, name, bytes, form);
    }
    Ok(Source::new(alloc, name, bytes, form)?)
}

// Texts, a line each.
fn joined(alloc: Global, texts: &[&str]) -> Result<Vec<u8>, AllocError>
    ensures { IfOk result (λ lines. lines.items ≡ lines_behind [] texts.now) }
{
    let mut lines = Vec::new(alloc);
    for text in texts {
        if !lines.is_empty() {
            lines.push(LF)?;
        }
        lines.extend_from_slice(text.as_bytes())?;
    }
    Ok(lines)
}

// Does a source say a library that gives A a text?
fn has_macro(alloc: Global, source: &Source) -> bool {
    if source.text().len() > LIMIT {
        return false;
    }
    match Library::read(alloc, source.text()) {
        Ok(library) => library.contains(Reg::default()),
        Err(_) => false,
    }
}

// Refuses a macro A beside that of a file.
fn check_texts(alloc: Global, source: &Source) -> Result<(), AnswerFault> {
    if has_macro(alloc, source) {
        return Err(AnswerFault::Twice {
            name: format!(in alloc; "{}", Shown(source.name().as_bytes()))?,
        });
    }
    Ok(())
}

// A source, and behind it texts of the command line that are the macro A.
fn with_texts(
    alloc: Global,
    source: Source,
    texts: &[&str],
    escape: Escape,
) -> Result<Source, AnswerFault>
    ensures { IfOk result (IsGivenBehind source 0 (word_form escape)
        (lines_behind [] texts.now)) }
{
    check_texts(alloc, &source)?;
    let bytes = joined(alloc, texts)?;
    macro_source(alloc, source, WORDS, bytes, form_of_word(escape))
}

// A source, and behind it texts of the command line that are the macro A, if there are any.
fn with_words(
    alloc: Global,
    source: Source,
    texts: &[&str],
    escape: Escape,
) -> Result<Source, AnswerFault>
    ensures { IfOk result (IsWithWords escape texts.now source) }
{
    match texts {
        [] => Ok(source),
        _ => with_texts(alloc, source, texts, escape),
    }
}

/// What a library is read from, with what its file has.
#[derive(Drop)]
pub struct ReadLibrary<'a> {
    /// What was asked for.
    pub request: Request<'a>,
    /// What the file has, if there is one.
    pub bytes: Option<Vec<u8>>,
}

impl<'a> ReadLibrary<'a> {
    /// Reads the file of a library, if it has one.
    pub fn read<R: Shelf>(
        rt: &R,
        alloc: Global,
        request: Request<'a>,
    ) -> Result<ReadLibrary<'a>, AnswerFault>
        ensures request { IfOk result (λ written. written.request ≡ request.entry) }
        ensures bytes { IfOk result (λ written.
            IsFileRead (R.holds rt.now) request.entry.library.file written.bytes) }
    {
        let bytes = match request.library.file {
            Some(name) => Some(read_file(rt, alloc, name)?),
            None => None,
        };
        Ok(ReadLibrary { request, bytes })
    }

    // What the file says, if there is one.
    fn file_source(&self, alloc: Global) -> Result<Source, AnswerFault>
        ensures { IfOk result (IsOfFile self.now.request.escape self.now.request.library.file
            self.now.bytes) }
    {
        match (self.request.library.file, &self.bytes) {
            (Some(name), Some(bytes)) => {
                file_source(alloc, name, bytes.to_vec(alloc)?, self.request.escape)
            }
            _ => empty(alloc, WORDS),
        }
    }

    /// The source of the library: its file, with search texts in their places, and the texts of the
    /// command line.
    pub fn source(&self, alloc: Global) -> Result<Source, AnswerFault>
        ensures { IfOk result (IsSource self.now.request self.now.bytes) }
    {
        let request = self.request;
        let source = with_searches(alloc, self.file_source(alloc)?, request.searches)?;
        with_words(alloc, source, request.library.texts, request.escape)
    }

    /// The source of the library with these texts for registers, the last one for each.
    pub fn source_with(&self, alloc: Global, settings: &[Setting]) -> Result<Source, AnswerFault> {
        let mut source = self.source(alloc)?;
        for (at, given) in settings.iter().enumerate() {
            let behind = settings.get(at.saturating_add(1)..).unwrap_or(&[]);
            if !behind.iter().any(|other| is_same(other, given)) {
                source = with_text(alloc, source, given_of(alloc, given)?)?;
            }
        }
        Ok(source)
    }
}

// Are they for one register?
fn is_same(one: &Setting, other: &Setting) -> bool {
    one.register().index() == other.register().index()
}

// The text of a register, as a part of a source.
fn given_of<'a>(alloc: Global, setting: &Setting) -> Result<GivenText<'a>, AllocError> {
    Ok(GivenText {
        register: setting.register(),
        name: "--set",
        bytes: setting.text().to_vec(alloc)?,
        form: EscapeForm::Marked(ESC),
    })
}

/// Reads the source of a library: its file, and the texts of the command line.
pub fn read_source<R: Shelf>(
    rt: &R,
    alloc: Global,
    request: Request<'_>,
) -> Result<Source, AnswerFault>
    ensures { IfOk result (IsReadFor (R.holds rt.now) request.entry) }
{
    ReadLibrary::read(rt, alloc, request)?.source(alloc)
}
