//! What came of the edits of files.
ghost use Rattle.std.specs.Prelude.{◌≡◌};
ghost use Rattle.teco_edits.specs.Outcomes as outcomes;

use teco_console::Outcome;

/// What came of the edits of files; of several, what has the greatest status.
#[derive(Clone, Copy)]
pub enum EditOutcome {
    /// Each file was edited, or none had to be.
    Done,
    /// A file would change, where it is checked whether one does.
    WouldChange,
    /// The macro is refused, or a run on a file that is outside its promise.
    Refused,
    /// A file could not be edited, and is left as it was.
    Failed,
}

impl EditOutcome {
    /// The status that the program ends with.
    pub fn status(self) -> u8
        ensures { result ≡ outcomes.status self }
    {
        match self {
            EditOutcome::Done => 0,
            EditOutcome::WouldChange => 1,
            EditOutcome::Refused => 3,
            EditOutcome::Failed => 4,
        }
    }

    /// What comes of a file, by what came of the runs on it.
    pub fn of_runs(outcome: Outcome) -> EditOutcome
        ensures { result ≡ outcomes.of_runs outcome }
    {
        match outcome {
            Outcome::Done => EditOutcome::Done,
            Outcome::Coded => EditOutcome::Failed,
            Outcome::Refused => EditOutcome::Refused,
        }
    }

    /// The one of the greater status.
    pub fn worse(self, other: EditOutcome) -> EditOutcome
        ensures { result ≡ outcomes.worse self other }
    {
        if self.status() < other.status() {
            other
        } else {
            self
        }
    }
}
