//! Texts made of what a macro looks for, on which it may do what was not meant.
use crate::keeping::{first_breaking, is_exact};
use crate::running::TextRun;
use memchr::memmem;
use std::alloc::{AllocError, Global};
use std::io::{Input, Write};
use std::rt::Files;
use teco_acceptance::{read_library, refuse_macro, verified_by};
use teco_base::Reg;
use teco_console::{Console, Outcome, Request, Setting, Sourced};
use teco_edit_parts::changed_lines;
use teco_jobs::Came;
use teco_library::Library;
use teco_model::{Element, Kind};
use teco_notes::{Example, FoundNote, NoPolicy, Note, element_at, notes_of, prototype_of};
use teco_options::LetterCase;
use teco_paths::search::ClaimSearch;
use teco_policy::first_broken;
use teco_source::Shown;
use teco_tools::ToolFault;

/// How many pieces a text has at most.
const LONGEST: u32 = 4;

/// How many pieces there are that come of what the macro looks for.
const PIECES: usize = 5;

/// How many texts of registers are pieces, at most.
const GIVEN: usize = 3;

// What the macros of a library look for.
#[derive(Drop)]
struct SoughtTexts {
    texts: Vec<Vec<u8>>,
    // is there a search for more than a plain text?
    has_others: bool,
    // what texts to run on are made of
    pieces: Vec<Vec<u8>>,
}

// Does a search text stand for itself?
fn is_plain(text: &[u8]) -> bool {
    !text.is_empty()
        && text
            .iter()
            .all(|byte| *byte != b'^' && (*byte >= b' ' || *byte == b'\n'))
}

// A text with small letters in the place of capitals.
fn lowered(alloc: Global, text: &[u8]) -> Result<Vec<u8>, AllocError> {
    let mut lowered = Vec::new(alloc);
    for byte in text {
        lowered.push(byte.to_ascii_lowercase())?;
    }
    Ok(lowered)
}

// Does a line, in small letters, have a text in it, whatever the case of that?
fn has_text(alloc: Global, line: &[u8], text: &[u8]) -> Result<bool, AllocError> {
    let text = lowered(alloc, text)?;
    Ok(memmem::find(line, &text).is_some())
}

// A copy of a text, behind others.
fn push_copy(alloc: Global, texts: &mut Vec<Vec<u8>>, text: &[u8]) -> Result<(), AllocError> {
    let copy = text.to_vec(alloc)?;
    texts.push(copy)?;
    Ok(())
}

// A text that is looked for as a piece, and its first half as another while there are few.
fn push_pieces(alloc: Global, pieces: &mut Vec<Vec<u8>>, text: &[u8]) -> Result<(), AllocError> {
    push_copy(alloc, pieces, text)?;
    let half = text.get(..text.len() / 2).unwrap_or(&[]);
    if half.is_empty() || pieces.len() >= PIECES {
        return Ok(());
    }
    push_copy(alloc, pieces, half)
}

// The pieces that texts are made of, where these are looked for.
fn push_all_pieces(
    alloc: Global,
    pieces: &mut Vec<Vec<u8>>,
    texts: &[Vec<u8>],
) -> Result<(), AllocError> {
    push_copy(alloc, pieces, b"x")?;
    push_copy(alloc, pieces, b"\n")?;
    for text in texts.iter().take(PIECES) {
        push_pieces(alloc, pieces, text)?;
    }
    Ok(())
}

impl SoughtTexts {
    // A search text more.
    fn take_search(&mut self, alloc: Global, text: &[u8]) -> Result<(), AllocError> {
        if is_plain(text) {
            return push_copy(alloc, &mut self.texts, text);
        }
        self.has_others = true;
        Ok(())
    }

    // What an element looks for too, if it is a search.
    fn take_element(&mut self, alloc: Global, found: &Element<'_>) -> Result<(), AllocError> {
        match found.kind {
            Kind::Search(_) => self.take_search(alloc, found.text),
            _ => Ok(()),
        }
    }

    // What a text looks for too.
    fn take(&mut self, alloc: Global, text: &[u8]) -> Result<(), AllocError> {
        let mut at = 0;
        for _ in 0..text.len() {
            let Some(found) = element_at(text, at) else {
                break;
            };
            self.take_element(alloc, &found)?;
            at = found.next;
        }
        Ok(())
    }

    // What the macros of a library look for too, and the pieces that come of all that is looked for.
    fn take_all(&mut self, alloc: Global, library: &Library) -> Result<(), AllocError> {
        for text in library.texts() {
            self.take(alloc, text.unwrap_or(&[]))?;
        }
        push_all_pieces(alloc, &mut self.pieces, &self.texts)
    }

    // The texts of registers as pieces too, of which some may be looked for.
    fn take_settings(&mut self, alloc: Global, settings: &[Setting]) -> Result<(), AllocError> {
        for setting in settings.iter().take(GIVEN) {
            if !setting.text().is_empty() {
                push_copy(alloc, &mut self.pieces, setting.text())?;
            }
        }
        Ok(())
    }

    // What the macros of a library look for.
    fn of(alloc: Global, library: &Library) -> Result<SoughtTexts, AllocError> {
        let mut wanted = SoughtTexts {
            texts: Vec::new(alloc),
            has_others: false,
            pieces: Vec::new(alloc),
        };
        wanted.take_all(alloc, library)?;
        Ok(wanted)
    }

    // Does a line have something that is looked for, in either case?
    fn is_in(&self, alloc: Global, line: &[u8]) -> Result<bool, AllocError> {
        let line = lowered(alloc, line)?;
        for text in &self.texts {
            if has_text(alloc, &line, text)? {
                return Ok(true);
            }
        }
        Ok(false)
    }

    // A line that is changed without having anything that is looked for, if there is one.
    fn line_changed(
        &self,
        alloc: Global,
        text: &[u8],
        made: &[u8],
    ) -> Result<Option<Vec<u8>>, AllocError> {
        let lines = changed_lines(alloc, text, made)?;
        for line in &lines {
            if !self.is_in(alloc, *line)? {
                return Ok(Some(line.to_vec(alloc)?));
            }
        }
        Ok(None)
    }
}

// The text of a number: its digits, to the base of the number of pieces, name the pieces.
fn text_of(
    alloc: Global,
    pieces: &[Vec<u8>],
    length: u32,
    number: usize,
) -> Result<Vec<u8>, AllocError> {
    let mut text = Vec::new(alloc);
    let mut rest = number;
    for _ in 0..length {
        let digit = rest.checked_rem(pieces.len()).unwrap_or(0);
        if let Some(piece) = pieces.get(digit) {
            text.extend_from_slice(piece)?;
        }
        rest = rest.checked_div(pieces.len()).unwrap_or(0);
    }
    Ok(text)
}

// What a macro makes of a text; nothing where it stops with a code.
fn made_of(
    library: &Library,
    subject: &TextRun,
    example: &Example,
    text: &[u8],
) -> Result<Option<Vec<u8>>, ToolFault> {
    match subject.run_on(library, example, text)? {
        Came::Text(made) => Ok(Some(made)),
        Came::Code(_) => Ok(None),
    }
}

// A text on which a macro may do what was not meant, and what it does.
#[derive(Drop)]
struct Doubt {
    text: Vec<u8>,
    first: Vec<u8>,
    second: Vec<u8>,
}

// A shorter text in the place of another, or the first one.
fn keep(kept: &mut Option<Doubt>, doubt: Doubt) {
    let is_shorter = match kept {
        Some(other) => doubt.text.len() < other.text.len(),
        None => true,
    };
    if is_shorter {
        *kept = Some(doubt);
    }
}

// A macro that is run on texts, what it looks for, and how it is run, with the policies that it keeps.
#[derive(Clone, Copy)]
struct Trial<'a> {
    library: &'a Library,
    subject: &'a TextRun,
    wanted: &'a SoughtTexts,
    example: &'a Example,
}

// The shortest texts on which a macro may do what was not meant.
#[derive(Drop)]
struct Doubts {
    // a policy is broken
    breaches: Option<Doubt>,
    // a line is changed that has nothing that is looked for
    changes: Option<Doubt>,
    // a second run changes what the first one made
    repeats: Option<Doubt>,
}

impl Doubts {
    // Keeps a text of which a policy is broken.
    fn look_at_policies(
        &mut self,
        trial: Trial<'_>,
        text: &[u8],
        made: &[u8],
    ) -> Result<(), AllocError> {
        if first_broken(&trial.example.policies, text, made).is_some() {
            let alloc = trial.subject.alloc;
            let (text, first) = (text.to_vec(alloc)?, made.to_vec(alloc)?);
            let second = Vec::new(alloc);
            keep(
                &mut self.breaches,
                Doubt {
                    text,
                    first,
                    second,
                },
            );
        }
        Ok(())
    }

    // Keeps a text of which a line is changed that has nothing that is looked for.
    fn look_at_lines(
        &mut self,
        trial: Trial<'_>,
        text: &[u8],
        made: &[u8],
    ) -> Result<(), AllocError> {
        let wanted = trial.wanted;
        if wanted.has_others || wanted.texts.is_empty() {
            return Ok(());
        }
        let alloc = trial.subject.alloc;
        if let Some(first) = wanted.line_changed(alloc, text, made)? {
            let text = text.to_vec(alloc)?;
            let second = Vec::new(alloc);
            keep(
                &mut self.changes,
                Doubt {
                    text,
                    first,
                    second,
                },
            );
        }
        Ok(())
    }

    // Runs the macro on what it made of a text, and keeps the text if that is changed again.
    fn look_again(
        &mut self,
        trial: Trial<'_>,
        text: &[u8],
        first: Vec<u8>,
    ) -> Result<(), ToolFault> {
        let Some(second) = made_of(trial.library, trial.subject, trial.example, &first)? else {
            return Ok(());
        };
        if second != first {
            let text = text.to_vec(trial.subject.alloc)?;
            keep(
                &mut self.repeats,
                Doubt {
                    text,
                    first,
                    second,
                },
            );
        }
        Ok(())
    }

    // Runs the macro on a text, and once more on what it made.
    fn try_text(&mut self, trial: Trial<'_>, text: &[u8]) -> Result<(), ToolFault> {
        let Some(first) = made_of(trial.library, trial.subject, trial.example, text)? else {
            return Ok(());
        };
        self.look_at_policies(trial, text, &first)?;
        self.look_at_lines(trial, text, &first)?;
        self.look_again(trial, text, first)
    }

    // Runs the macro on all texts of so many pieces.
    fn try_length(&mut self, trial: Trial<'_>, length: u32) -> Result<(), ToolFault> {
        let pieces = &trial.wanted.pieces;
        let count = pieces.len().checked_pow(length).unwrap_or(0);
        for number in 0..count {
            let text = text_of(trial.subject.alloc, pieces, length, number)?;
            self.try_text(trial, &text)?;
        }
        Ok(())
    }

    // Runs the macro on all texts of few pieces.
    fn try_all(&mut self, trial: Trial<'_>) -> Result<(), ToolFault> {
        for length in 0..=LONGEST {
            self.try_length(trial, length)?;
        }
        Ok(())
    }

    // The texts that are found by runs of the macro on texts of what is looked for.
    fn of(trial: Trial<'_>) -> Result<Doubts, ToolFault> {
        let mut doubts = Doubts {
            breaches: None,
            changes: None,
            repeats: None,
        };
        doubts.try_all(trial)?;
        Ok(doubts)
    }

    // Asks about what was found of a macro.
    fn tell<O: Write + Drop, E: Write + Drop>(
        &self,
        console: &mut Console<O, E>,
        trial: Trial<'_>,
    ) -> Result<Outcome, ToolFault> {
        let name = char::from(trial.subject.entry.name());
        if let Some(doubt) = &self.breaches {
            tell_breach(console, trial, doubt)?;
        }
        if let Some(doubt) = &self.changes {
            tell_change(console, name, doubt)?;
        }
        if let Some(doubt) = &self.repeats {
            tell_repeat(console, name, doubt)?;
        }
        Ok(Outcome::Done)
    }
}

// Asks about a policy that a macro breaks.
fn tell_breach<O: Write + Drop, E: Write + Drop>(
    console: &mut Console<O, E>,
    trial: Trial<'_>,
    doubt: &Doubt,
) -> Result<(), ToolFault> {
    let entry = trial.subject.entry;
    let policies = &trial.example.policies;
    let Some(breaking) = first_breaking(policies, &doubt.text, &doubt.first) else {
        return Ok(());
    };
    let name = char::from(entry.name());
    let (text, made) = (Shown(&doubt.text), Shown(&doubt.first));
    console.answer(format_args!(
        "macro {name} on \"{text}\" makes \"{made}\", against {breaking}. Is that meant?\n"
    ))?;
    Ok(())
}

// Asks about a line that a macro changes.
fn tell_change<O: Write + Drop, E: Write + Drop>(
    console: &mut Console<O, E>,
    name: char,
    doubt: &Doubt,
) -> Result<(), ToolFault> {
    let (text, line) = (Shown(&doubt.text), Shown(&doubt.first));
    console.answer(format_args!(
        "macro {name} on \"{text}\" changes the line \"{line}\", which has nothing that it looks \
            for. Is that meant?\n"
    ))?;
    Ok(())
}

// Asks about a text that a macro changes again.
fn tell_repeat<O: Write + Drop, E: Write + Drop>(
    console: &mut Console<O, E>,
    name: char,
    doubt: &Doubt,
) -> Result<(), ToolFault> {
    let (text, first, second) = (
        Shown(&doubt.text),
        Shown(&doubt.first),
        Shown(&doubt.second),
    );
    console.answer(format_args!(
        "macro {name} on \"{text}\" makes \"{first}\", and run again \"{second}\". Is that meant?\n"
    ))?;
    Ok(())
}

// Says which comment is meant to ask for a policy of a macro and asks for none, if one is.
fn tells_no_policy<O: Write + Drop, E: Write + Drop>(
    console: &mut Console<O, E>,
    notes: &[FoundNote],
    entry: Reg,
) -> Result<bool, ToolFault> {
    for found in notes {
        if let Note::Keeps(Err(refusal)) = &found.note
            && found.register.index() == entry.index()
        {
            let name = char::from(entry.name());
            let refused = NoPolicy(*refusal);
            console.answer(format_args!("macro {name}: {refused}\n"))?;
            return Ok(true);
        }
    }
    Ok(false)
}

// Runs a macro of a library that is accepted on texts.
fn fuzz_accepted<S: ClaimSearch, O: Write + Drop, E: Write + Drop>(
    console: &mut Console<O, E>,
    sourced: &Sourced,
    entry: Reg,
    case: Option<LetterCase>,
) -> Result<Outcome, ToolFault> {
    let alloc = console.alloc;
    let notes = notes_of(alloc, sourced.source.text(), is_exact(case))?;
    if tells_no_policy(console, &notes, entry)? {
        return Ok(Outcome::Coded);
    }
    let example = prototype_of(alloc, sourced.source.text(), entry, is_exact(case))?;
    let subject = TextRun::of::<S>(console.means(), sourced, entry, case);
    let mut wanted = SoughtTexts::of(alloc, &sourced.library)?;
    wanted.take_settings(alloc, &example.settings)?;
    let trial = Trial {
        library: &sourced.library,
        subject: &subject,
        wanted: &wanted,
        example: &example,
    };
    Doubts::of(trial)?.tell(console, trial)
}

// Runs a macro of a library on texts, or says why it is refused.
fn fuzz_library<S: ClaimSearch, O: Write + Drop, E: Write + Drop>(
    console: &mut Console<O, E>,
    sourced: &Sourced,
    entry: Reg,
    case: Option<LetterCase>,
) -> Result<Outcome, ToolFault> {
    let verdict = verified_by::<S>(console.means(), &sourced.library, entry, sourced.method);
    match verdict.err() {
        None => fuzz_accepted::<S, _, _>(console, sourced, entry, case),
        Some(unaccepted) => Ok(refuse_macro::<S, _, _>(console, sourced, entry, unaccepted)?),
    }
}

/// Runs an accepted macro on short texts that are made of what it looks for, and asks about the
/// shortest on which it breaks a policy that its library asks for, on which it changes a line that has
/// nothing of that, and on which a second run changes the text again. A macro that is refused is not run.
pub fn fuzz_macro<S: ClaimSearch, R: Files + Input, O: Write + Drop, E: Write + Drop>(
    rt: &R,
    console: &mut Console<O, E>,
    request: Request<'_>,
    entry: Reg,
    case: Option<LetterCase>,
) -> Result<Outcome, ToolFault> {
    match read_library(rt, console, request)? {
        Some(sourced) => fuzz_library::<S, _, _>(console, &sourced, entry, case),
        None => Ok(Outcome::Refused),
    }
}
