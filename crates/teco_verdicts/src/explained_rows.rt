//! What `explain` lists of a macro, as objects of JSON.
use crate::explaining::explain_macro;
use std::io::Write;
use teco_base::Reg;
use teco_console::{AnswerFault, Console, Outcome, Request, Shelf, write_bytes, written};
use teco_json::{Member, Value, object};
use teco_paths::search::ClaimSearch;

// The keys of the cells of a row.
const KEYS: [&str; 4] = ["number", "place", "element", "known"];

// Prints the object of a row of cells.
fn print_row<O: Write + Drop, E: Write + Drop>(
    console: &mut Console<O, E>,
    row: &[u8],
) -> Result<(), AnswerFault> {
    let mut members = Vec::new(console.alloc);
    for (key, cell) in KEYS.iter().zip(row.split(|byte| *byte == b'\t')) {
        members.push(Member {
            key: *key,
            value: Value::Text(cell),
        })?;
    }
    let line = object(console.alloc, &members)?;
    written(write_bytes(&mut console.out, &line))
}

// Prints the object of what is said of the macro, which has no cells: what it can change, or the verdict.
fn print_said<O: Write + Drop, E: Write + Drop>(
    console: &mut Console<O, E>,
    said: &[u8],
) -> Result<(), AnswerFault> {
    let member = match said.strip_prefix(b"changes: ") {
        Some(changes) => Member {
            key: "changes",
            value: Value::Text(changes),
        },
        None => Member {
            key: "verdict",
            value: Value::Text(said),
        },
    };
    let line = object(console.alloc, &[member])?;
    written(write_bytes(&mut console.out, &line))
}

// Prints an object for each row of a listing behind its heading.
fn print_rows<O: Write + Drop, E: Write + Drop>(
    console: &mut Console<O, E>,
    rows: &[u8],
) -> Result<(), AnswerFault> {
    for row in rows.split(|byte| *byte == b'\n') {
        if row.is_empty() || row.starts_with(b"number\t") {
            continue;
        }
        if row.contains(&b'\t') {
            print_row(console, row)?;
        } else {
            print_said(console, row)?;
        }
    }
    Ok(())
}

/// Explains a macro of a library, an object of JSON in each line: the rows that `explain_macro` prints,
/// what it can change, and the verdict.
pub fn explain_macro_as_json<S: ClaimSearch, R: Shelf, O: Write + Drop, E: Write + Drop>(
    rt: &R,
    console: &mut Console<O, E>,
    request: Request<'_>,
    entry: Reg,
) -> Result<Outcome, AnswerFault> {
    let mut apart = console.apart();
    let outcome = explain_macro::<S, _, _, _>(rt, &mut apart, request, entry)?;
    let (rows, messages) = apart.into_parts();
    print_rows(console, &rows)?;
    console.voice.repeat(&messages);
    Ok(outcome)
}
