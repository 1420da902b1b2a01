//! What came of a word of the program.
ghost use Rattle.std.specs.Prelude.{◌≡◌};
ghost use Rattle.teco_console.specs.Outcomes as outcomes;

/// What came of a word of the program, beside faults.
#[derive(Clone, Copy)]
pub enum Outcome {
    /// The word was obeyed.
    Done,
    /// A code was typed.
    Coded,
    /// A library, a macro or a certificate is refused, or a run that is outside its promise.
    Refused,
}

impl Outcome {
    /// The status that the program ends with.
    pub fn status(self) -> u8
        ensures { result ≡ outcomes.status self }
    {
        match self {
            Outcome::Done => 0,
            Outcome::Coded => 1,
            Outcome::Refused => 3,
        }
    }

    /// The one of the greater status.
    pub fn worse(self, other: Outcome) -> Outcome
        ensures { result ≡ outcomes.worse self other }
    {
        if self.status() < other.status() {
            other
        } else {
            self
        }
    }
}
