//! What codes, refusals and commands mean, as objects of JSON.
use crate::console::{Console, write_bytes};
use crate::fault::{AnswerFault, written};
use crate::outcome::Outcome;
use std::io::Write;
use teco_explain::{
    CardRow, Explanation, SECTIONS, code_named, command_named, note_of_code, note_of_refusal,
    refusal_numbered,
};
use teco_json::{Member, Value, object};

// Prints an object of texts.
fn print<O: Write + Drop, E: Write + Drop>(
    console: &mut Console<O, E>,
    texts: &[(&str, &str)],
) -> Result<(), AnswerFault> {
    let mut members = Vec::new(console.alloc);
    for (key, text) in texts {
        members.push(Member {
            key: *key,
            value: Value::Text(text.as_bytes()),
        })?;
    }
    let line = object(console.alloc, &members)?;
    written(write_bytes(&mut console.out, &line))
}

// Prints what a code or a refusal means.
fn print_note<O: Write + Drop, E: Write + Drop>(
    console: &mut Console<O, E>,
    kind: &str,
    name: &str,
    note: Explanation,
) -> Result<(), AnswerFault> {
    print(
        console,
        &[
            (kind, name),
            ("summary", note.summary),
            ("meaning", note.meaning),
            ("example", note.example),
            ("remedy", note.remedy),
        ],
    )
}

// Prints what a row of the manual's card says.
fn print_command<O: Write + Drop, E: Write + Drop>(
    console: &mut Console<O, E>,
    row: &CardRow,
) -> Result<(), AnswerFault> {
    print(
        console,
        &[
            ("command", row.form),
            ("does", row.does),
            ("takes", row.takes),
            ("gives", row.gives),
        ],
    )
}

// Prints what the rows say that explain a command.
fn print_commands<O: Write + Drop, E: Write + Drop>(
    console: &mut Console<O, E>,
    name: &str,
) -> Result<(), AnswerFault> {
    for section in SECTIONS.iter() {
        for row in section.rows().iter().filter(|row| row.explains(name)) {
            print_command(console, row)?;
        }
    }
    Ok(())
}

/// Prints what a code, a refusal or a command means, an object of JSON in each line; none where the word
/// is none of them.
pub fn explain_as_json<O: Write + Drop, E: Write + Drop>(
    console: &mut Console<O, E>,
    word: &str,
) -> Result<Option<Outcome>, AnswerFault> {
    if let Some(refusal) = refusal_numbered(word) {
        print_note(console, "refusal", word, note_of_refusal(refusal))?;
    } else if let Some(code) = code_named(word) {
        print_note(console, "code", word, note_of_code(code))?;
    } else if let Some(name) = command_named(word) {
        print_commands(console, name)?;
    } else {
        return Ok(None);
    }
    Ok(Some(Outcome::Done))
}
