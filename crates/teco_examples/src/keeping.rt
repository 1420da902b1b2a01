//! Policies that the comments of a library ask for, where a macro is run on texts in memory.
ghost use Rattle.std.specs.Prelude.{IsNone};
ghost use Rattle.teco_policy.specs.Policies.{KeepEach};

use std::io;
use std::io::Write;
use teco_console::Console;
use teco_judging::Breaking;
use teco_options::LetterCase;
use teco_policy::{Broken, Policy, first_broken};

/// The first of these policies that the edit of a text would break.
pub fn first_breaking<'a>(
    policies: &'a [Policy],
    old: &'a [u8],
    new: &'a [u8],
) -> Option<Breaking<'a>>
    ensures { IsNone result → KeepEach policies.now old.now new.now }
{
    match first_broken(policies, old, new) {
        Some(Broken { policy, breach }) => Some(Breaking {
            policy: &policies[policy],
            breach,
            old,
            new,
        }),
        None => None,
    }
}

/// Prints the line that breaks a policy, as it was and as it would be.
pub fn print_lines<O: Write + Drop, E: Write + Drop>(
    console: &mut Console<O, E>,
    breaking: &Breaking<'_>,
) -> io::Result<()> {
    let (old, new) = breaking.lines();
    if let Some(line) = old {
        console.answer(format_args!("  -{line}\n"))?;
    }
    if let Some(line) = new {
        console.answer(format_args!("  +{line}\n"))?;
    }
    Ok(())
}

/// Do searches tell upper case from lower as a macro begins?
pub fn is_exact(case: Option<LetterCase>) -> bool {
    matches!(case, Some(LetterCase::Exact))
}
