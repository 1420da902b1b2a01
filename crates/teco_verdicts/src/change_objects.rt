//! The objects of JSON that say what macros can change.
ghost use Rattle.std.specs.Prelude.{◌≡◌, IfOk, option_map};
ghost use Rattle.std.specs.Option.{option_copied};
ghost use Rattle.teco_verdicts.specs.Changes as changes;
ghost use Rattle.teco_verdicts.specs.Json as json;

use std::alloc::{AllocError, Global};
use teco_base::Reg;
use teco_change_policies::Facts;
use teco_json::{Member, Value, object};
use teco_promise::Promise;
use teco_told::facts_of_promise;

// Bytes, if there are some.
fn bytes_in(bytes: &Option<Vec<u8>>) -> Option<&[u8]>
    ensures { option_copied result ≡ option_map json.items bytes.now }
{
    match bytes {
        None => None,
        Some(bytes) => Some(bytes.as_slice()),
    }
}

// The object of what is known.
fn facts_text(alloc: Global, entry: Reg, facts: &Facts) -> Result<Vec<u8>, AllocError>
    ensures { IfOk result (λ text. text.items ≡ changes.facts_text entry facts.now) }
{
    object(
        alloc,
        &[
            Member {
                key: "macro",
                value: Value::MaybeByte(Some(entry.name())),
            },
            Member {
                key: "adds_nothing",
                value: Value::Truth(facts.adds_nothing),
            },
            Member {
                key: "takes_nothing",
                value: Value::Truth(facts.takes_nothing),
            },
            Member {
                key: "keeps_line_ends",
                value: Value::Truth(facts.keeps_line_ends),
            },
            Member {
                key: "keeps_lines",
                value: Value::Truth(facts.keeps_lines),
            },
            Member {
                key: "puts_only",
                value: Value::MaybeText(bytes_in(&facts.puts_only)),
            },
            Member {
                key: "takes_only",
                value: Value::MaybeText(bytes_in(&facts.takes_only)),
            },
            Member {
                key: "changes_only_with",
                value: Value::MaybeText(bytes_in(&facts.changes_only_with)),
            },
        ],
    )
}

/// The object that says what the macro of a promise can change.
pub(crate) fn changes_object(alloc: Global, promise: &Promise<'_>) -> Result<Vec<u8>, AllocError>
    ensures { IfOk result (λ text. changes.IsChangesObject promise.now text.items) }
{
    let facts = facts_of_promise(alloc, promise)?;
    let text = facts_text(alloc, promise.entry(), &facts)?;
    Ok(text)
}
