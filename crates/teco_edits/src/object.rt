//! Objects of JSON, which say what came of the edit of each file.
ghost use Rattle.std.specs.Prelude.{◌≡◌, IfOk};
ghost use Rattle.teco_edits.specs.Objects as objects;

use crate::outcome::EditOutcome;
use std::alloc::{AllocError, Global};
use teco_jobs::Watched;
use teco_json::{Member, Value, object};

/// What was counted of the runs on a file; none where that can't be told.
#[derive(Clone, Copy)]
pub struct Counts {
    /// On how many pages the macro came to its end.
    pub pages: Option<u64>,
    pub commands: Option<u64>,
    /// The commands that were promised at most.
    pub bound: Option<u64>,
    /// The greatest N of a run.
    pub n: Option<u64>,
}

impl Counts {
    /// Those of an edit; none of one that came to no end.
    pub fn of(watched: Option<Watched>) -> Counts {
        let Some(Watched { edited, seen }) = watched else {
            return Counts {
                pages: None,
                commands: None,
                bound: None,
                n: None,
            };
        };
        Counts {
            pages: Some(edited.pages),
            commands: Some(edited.steps),
            bound: seen.bound,
            n: seen.most,
        }
    }
}

/// What came of the edit of a file.
#[derive(Clone, Copy)]
pub struct FileReport<'a> {
    pub name: &'a [u8],
    /// Is its text another, or would it be?
    pub changes: bool,
    pub outcome: EditOutcome,
    /// What was typed over it.
    pub typed: &'a [u8],
    pub counts: Counts,
    /// What differs, where that is printed.
    pub diff: Option<&'a [u8]>,
    /// What is said of it to people.
    pub said: Option<&'a [u8]>,
}

// What came of a file, in a word.
fn word_of(outcome: EditOutcome) -> &'static [u8]
    ensures { result.now ≡ objects.outcome_word outcome }
{
    match outcome {
        EditOutcome::Done | EditOutcome::WouldChange => b"done",
        EditOutcome::Refused => b"refused",
        EditOutcome::Failed => b"failed",
    }
}

impl FileReport<'_> {
    /// Its object, in a line.
    pub fn object(&self, alloc: Global) -> Result<Vec<u8>, AllocError>
        ensures { IfOk result (λ text. text.items ≡ objects.report_object self.now) }
    {
        let members = [
            Member {
                key: "file",
                value: Value::Text(self.name),
            },
            Member {
                key: "changed",
                value: Value::Truth(self.changes),
            },
            Member {
                key: "outcome",
                value: Value::Text(word_of(self.outcome)),
            },
            Member {
                key: "pages",
                value: Value::MaybeNumber(self.counts.pages),
            },
            Member {
                key: "commands",
                value: Value::MaybeNumber(self.counts.commands),
            },
            Member {
                key: "bound",
                value: Value::MaybeNumber(self.counts.bound),
            },
            Member {
                key: "n",
                value: Value::MaybeNumber(self.counts.n),
            },
            Member {
                key: "typed",
                value: Value::Text(self.typed),
            },
            Member {
                key: "diff",
                value: Value::MaybeText(self.diff),
            },
            Member {
                key: "said",
                value: Value::MaybeText(self.said),
            },
        ];
        object(alloc, &members)
    }
}
