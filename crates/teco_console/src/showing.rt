//! `show` and `explain`: texts and words for people.
use crate::console::Console;
use crate::fault::AnswerFault;
use crate::files::Shelf;
use crate::forms::Escape;
use crate::naming::letters;
use crate::outcome::Outcome;
use crate::reading::read_text;
use std::io::Write;
use teco_explain::{
    CODES, Outline, REFUSALS, SECTIONS, code_named, command_named, near_words, note_of_code,
    note_of_refusal, number_of, refusal_numbered,
};
use teco_source::{EscapeForm, Shown, Source};

/// Prints the text of a file as its elements, safe for a terminal, with a character for ESC.
pub fn show<R: Shelf, O: Write + Drop, E: Write + Drop>(
    rt: &R,
    console: &mut Console<O, E>,
    name: &str,
    mark: u8,
) -> Result<Outcome, AnswerFault> {
    let source = read_text(rt, console.alloc, name, Escape::ByName)?;
    outline(console, source.text(), mark)
}

// Prints the elements of a text.
fn outline<O: Write + Drop, E: Write + Drop>(
    console: &mut Console<O, E>,
    text: &[u8],
    mark: u8,
) -> Result<Outcome, AnswerFault> {
    console.answer(Outline { text, mark })?;
    Ok(Outcome::Done)
}

// Prints a source.
fn print<O: Write + Drop, E: Write + Drop>(
    console: &mut Console<O, E>,
    text: &[u8],
) -> Result<Outcome, AnswerFault> {
    console.out.write_all(text)?;
    Ok(Outcome::Done)
}

// Says that a source has no such form.
fn tell_unwritten<O: Write + Drop, E: Write + Drop>(
    console: &mut Console<O, E>,
    source: &Source,
) -> Outcome {
    let name = Shown(source.name().as_bytes());
    console.complain(format_args!(
        "{name} can't be written so: choose a character for ESC that isn't in it, with --esc"
    ));
    Outcome::Refused
}

// Prints a source in a form, if it has that form.
fn print_in<O: Write + Drop, E: Write + Drop>(
    console: &mut Console<O, E>,
    source: &Source,
    form: EscapeForm,
) -> Result<Outcome, AnswerFault> {
    match form.write(console.alloc, source.text())? {
        Some(text) => print(console, text.as_slice()),
        None => Ok(tell_unwritten(console, source)),
    }
}

/// Prints the source that says a text in a form, which reads as the same bytes. Where the text has
/// none, because it has the mark in it or in the readable form a caret right before ESC, that is
/// said.
pub fn show_source<R: Shelf, O: Write + Drop, E: Write + Drop>(
    rt: &R,
    console: &mut Console<O, E>,
    name: &str,
    form: EscapeForm,
) -> Result<Outcome, AnswerFault> {
    let source = read_text(rt, console.alloc, name, Escape::ByName)?;
    print_in(console, &source, form)
}

// Prints the rows of the manual's card that explain a command.
fn explain_command<O: Write + Drop, E: Write + Drop>(
    console: &mut Console<O, E>,
    name: &str,
) -> Result<(), AnswerFault> {
    let mut is_first = true;
    for section in SECTIONS.iter() {
        for command in section.rows().iter().filter(|row| row.explains(name)) {
            if !is_first {
                console.answer("\n")?;
            }
            is_first = false;
            console.answer(*command)?;
        }
    }
    Ok(())
}

/// Says that nothing is called by a word, and which words are near.
pub fn tell_near<O: Write + Drop, E: Write + Drop>(
    console: &mut Console<O, E>,
    word: &str,
) -> Result<(), AnswerFault> {
    let near = near_words(console.alloc, word)?;
    let word = Shown(word.as_bytes());
    if near.is_empty() {
        console.complain(format_args!("no code, refusal or command is called {word}"));
    } else {
        console.complain(format_args!(
            "no code, refusal or command is called {word}; did you mean {near}?"
        ));
    }
    Ok(())
}

/// Prints what a code, a refusal or a command means; none where the word is none of them.
pub fn explain<O: Write + Drop, E: Write + Drop>(
    console: &mut Console<O, E>,
    word: &str,
) -> Result<Option<Outcome>, AnswerFault> {
    if let Some(refusal) = refusal_numbered(word) {
        console.answer(note_of_refusal(refusal))?;
    } else if let Some(code) = code_named(word) {
        console.answer(note_of_code(code))?;
    } else if let Some(name) = command_named(word) {
        explain_command(console, name)?;
    } else {
        return Ok(None);
    }
    Ok(Some(Outcome::Done))
}

// Lists the codes, with what each means.
fn list_codes<O: Write + Drop, E: Write + Drop>(
    console: &mut Console<O, E>,
) -> Result<(), AnswerFault> {
    console.answer("codes\n")?;
    for code in CODES.iter() {
        let name = letters(*code);
        let summary = note_of_code(*code).summary;
        console.answer(format_args!("  {name}  {summary}\n"))?;
    }
    Ok(())
}

// Lists the refusals, with what each means.
fn list_refusals<O: Write + Drop, E: Write + Drop>(
    console: &mut Console<O, E>,
) -> Result<(), AnswerFault> {
    console.answer("refusals\n")?;
    for refusal in REFUSALS.iter() {
        let number = number_of(*refusal);
        let summary = note_of_refusal(*refusal).summary;
        console.answer(format_args!("  X{number:<2}  {summary}\n"))?;
    }
    Ok(())
}

// Lists the commands, with what each does.
fn list_commands<O: Write + Drop, E: Write + Drop>(
    console: &mut Console<O, E>,
) -> Result<(), AnswerFault> {
    console.answer("commands\n")?;
    for section in SECTIONS.iter() {
        for command in section.rows().iter() {
            let (form, does) = (command.form, command.does);
            console.answer(format_args!("  {form:<28}  {does}\n"))?;
        }
    }
    Ok(())
}

/// Lists all codes, refusals and commands, each with what it means in a few words.
pub fn explain_all<O: Write + Drop, E: Write + Drop>(
    console: &mut Console<O, E>,
) -> Result<Outcome, AnswerFault> {
    list_codes(console)?;
    list_refusals(console)?;
    list_commands(console)?;
    Ok(Outcome::Done)
}
