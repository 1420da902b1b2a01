//! The lines that a verdict is printed as.
ghost use Rattle.std.specs.Prelude.{◌≡◌, Some};
ghost use Rattle.teco_acceptance.specs.Lines.{verdict_of, verdict_text};

use std::fmt;
use teco_base::Reg;
use teco_explain::number_of;
use teco_verifier::RefusalReason as Why;
use teco_verify::Refusal;

/// Why a library or a certificate is refused, and where: in the text of a register, or in the
/// library file.
#[derive(Clone, Copy)]
pub struct Verdict {
    pub why: Why,
    pub register: Option<Reg>,
    pub place: usize,
}

impl Verdict {
    /// The verdict of a refusal; none for want of memory.
    pub fn of(refusal: &Refusal) -> Option<Verdict>
        ensures { result ≡ verdict_of refusal.now }
    {
        match refusal {
            Refusal::No {
                why,
                register,
                place,
            } => Some(Verdict {
                why: *why,
                register: *register,
                place: *place,
            }),
            Refusal::Memory => None,
        }
    }
}

impl fmt::Display for Verdict {
    ghost output = { λ verdict. Some (verdict_text verdict) };

    fn fmt<W: fmt::Write>(&self, f: &mut fmt::Formatter<W>) -> fmt::Result {
        let (number, place) = (number_of(self.why), self.place);
        match (self.why, self.register) {
            (Why::Certificate, _) => write!(f, "refused X{number}"),
            (_, None) => write!(f, "refused X{number} at {place}"),
            (_, Some(register)) => {
                let name = char::from(register.name());
                write!(f, "refused X{number} in {name} at {place}")
            }
        }
    }
}
