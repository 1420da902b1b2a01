//! `trace`: the steps of a macro on a file.
ghost use Rattle.teco_jobs.specs.Traces.{Traces};

use crate::subject::{refuse_empty, setup_of};
use std::io::{Input, Write};
use std::rt::Files;
use teco_acceptance::{AcceptedMacro, ReadFor, UnacceptedMacro, read_library_for};
use teco_console::{Console, Outcome, Premise, Sourced};
use teco_hosts::Host;
use teco_jobs::{Listing, Task, TracedMacro, trace_library};
use teco_paths::search::ClaimSearch;
use teco_tools::{Reporting, ToolFault};

// The library of a macro that is traced; none where the macro is accepted, but with a promise that holds
// for no text, which is said. Without strict terms that is not asked.
fn traced_library<'r, S: ClaimSearch, O: Write + Drop, E: Write + Drop>(
    console: &mut Console<O, E>,
    task: &Task<'_, '_>,
    read: &'r ReadFor,
) -> Result<Option<&'r Sourced>, ToolFault> {
    if !task.is_strict && read.alone.is_none() {
        return Ok(Some(&read.sourced));
    }
    match read.accepted::<S>(console.means(), task.entry, None) {
        Ok(AcceptedMacro { sourced, accepted }) => {
            if task.is_strict && Premise::of_promise(&accepted.promise()).is_empty() {
                refuse_empty(console, sourced, &accepted)?;
                return Ok(None);
            }
            Ok(Some(sourced))
        }
        Err(UnacceptedMacro { sourced, .. }) => Ok(Some(sourced)),
    }
}

/// Lists the steps of a macro of a library on a file, up to the most: the number of each, the
/// register and the line and column of its element, the element, and the pointer, the length of the
/// buffer, the value that is pending and what was typed behind it. The macro need not be one that
/// is accepted.
#[tactic(auto, using(teco_jobs::proofs::Steps::traces_failed, teco_jobs::proofs::Steps::traces_library))]
pub fn trace_macro<
    S: ClaimSearch,
    R: Files + Input,
    H: Host + Reporting,
    O: Write + Drop,
    E: Write + Drop,
>(
    rt: &R,
    console: &mut Console<O, E>,
    task: &Task<'_, '_>,
    listing: Listing<'_>,
    host: &mut H,
) -> Result<Outcome, ToolFault>
    ensures { Traces task.now listing.entry.most (H.files host.new) result }
{
    let Some(read) = read_library_for(rt, console, task.library, setup_of(task))? else {
        return Ok(Outcome::Refused);
    };
    let Some(sourced) = traced_library::<S, _, _>(console, task, &read)? else {
        return Ok(Outcome::Refused);
    };
    let subject = TracedMacro {
        task,
        library: &sourced.library,
    };
    trace_library(console, subject, listing, host)
}
