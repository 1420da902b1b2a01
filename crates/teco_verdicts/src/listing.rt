//! What is claimed at the cut points of a macro, as `explain` lists it.
use crate::explaining::{name_of, print_accepted, shown_place, text_of};
use std::alloc::{AllocError, Global};
use std::io::Write;
use teco_acceptance::{register_at, tell_premise};
use teco_claimed::Claimed;
use teco_claims::Cut;
use teco_console::{AnswerFault, Console, Edition, Outcome, Sourced, all_stated, written};
use teco_expansion::{Nodes, expand};
use teco_library::Library;

// An element as it is listed: its number, where it stands, and what it is.
fn shown_node(
    alloc: Global,
    library: &Library,
    nodes: &Nodes<'_>,
    number: usize,
) -> Result<String, AllocError> {
    if number == 0 || number > nodes.len() {
        return format!(in alloc; "{number}\t-\t-");
    }
    let name = name_of(register_at(nodes.register(number)));
    let text = text_of(library, register_at(nodes.register(number)));
    let is_end = nodes.element(number).is_none();
    let shown = shown_place(alloc, name, text, nodes.place(number), is_end)?;
    format!(in alloc; "{number}\t{shown}")
}

// Lists what is claimed at a cut point, a claim in a line, the first behind these words.
fn list_cut<O: Write + Drop, E: Write + Drop>(
    console: &mut Console<O, E>,
    cut: &Cut,
    shown: &str,
) -> Result<(), AnswerFault> {
    let alloc = console.alloc;
    let mut begin = String::from_str(alloc, shown)?;
    for stated in &all_stated(alloc, &cut.claims)? {
        let words = stated.words(alloc)?;
        written(console.answer(format_args!("{begin}\t{words}\n")))?;
        begin = String::from_str(alloc, "\t\t")?;
    }
    Ok(())
}

/// Lists what is claimed at the cut points of a macro, and the verdict behind it.
pub fn list_claimed<O: Write + Drop, E: Write + Drop>(
    console: &mut Console<O, E>,
    sourced: &Sourced,
    claimed: &Claimed<'_>,
) -> Result<Outcome, AnswerFault> {
    let Ok(nodes) = expand(console.alloc, &sourced.library, claimed.entry()) else {
        return Err(AnswerFault::Memory);
    };
    console.answer("number\tplace\telement\tclaimed where a run comes to it\n")?;
    let mut last = 0;
    for cut in &claimed.claims().cuts {
        if cut.point == last {
            list_cut(console, cut, "or\t\t")?;
        } else {
            let shown = shown_node(console.alloc, &sourced.library, &nodes, cut.point)?;
            list_cut(console, cut, shown.as_str())?;
        }
        last = cut.point;
    }
    let promise = claimed.promise();
    print_accepted(console, &promise)?;
    tell_premise(
        &mut console.voice,
        &sourced.source,
        &promise,
        Edition::Second,
    )?;
    Ok(Outcome::Done)
}
