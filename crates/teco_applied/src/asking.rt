//! The policies that a library asks for, where a macro of it edits files.
ghost use Rattle.std.specs.Prelude.{◌≡◌, IfOk, IfSome};
ghost use Rattle.teco_applied.specs.Tasks.{AskFor};

use std::alloc::AllocError;
use std::io::Write;
use teco_console::{Sourced, Voice};
use teco_jobs::Task;
use teco_notes::{AskingFault, NoPolicy, NoteSite, policies_of};
use teco_options::LetterCase;
use teco_policy::Policy;
use teco_tools::ToolFault;

/// The policies that a library asks for where the macro of a task is run. Where a comment is meant to
/// ask for one and asks for none, that is said, and there are none.
pub fn noted_policies<E: Write + Drop>(
    voice: &mut Voice<E>,
    sourced: &Sourced,
    task: &Task<'_, '_>,
) -> Result<Option<Vec<Policy>>, ToolFault> {
    let is_exact = matches!(task.start.case, Some(LetterCase::Exact));
    let source = &sourced.source;
    let settings = task.start.settings;
    match policies_of(voice.alloc(), source.text(), task.entry, is_exact, settings) {
        Ok(policies) => Ok(Some(policies)),
        Err(AskingFault::Memory) => Err(AllocError.into()),
        Err(AskingFault::Unread { place, refusal }) => {
            let site = NoteSite { source, place };
            let name = char::from(task.entry.name());
            let refused = NoPolicy(refusal);
            voice.complain(format_args!("{site}: macro {name}: {refused}"));
            Ok(None)
        }
    }
}

/// The policies that are asked for, and behind them those that the library asks for, as
/// `noted_policies` has them.
#[tactic(auto, using(crate::proofs::Asked::asks))]
pub fn all_policies<E: Write + Drop>(
    voice: &mut Voice<E>,
    sourced: &Sourced,
    task: &Task<'_, '_>,
    asked: Vec<Policy>,
) -> Result<Option<Vec<Policy>>, ToolFault>
    ensures { IfOk result (λ found. IfSome found (λ all. AskFor asked.items all.items)) }
{
    let Some(mut noted) = noted_policies(voice, sourced, task)? else {
        return Ok(None);
    };
    let mut all = asked;
    all.append(&mut noted)?;
    Ok(Some(all))
}
