//! Where a run stands, and where it stopped.
ghost use Rattle.std.specs.Prelude.{◌==◌, ◌&&◌, nat_eq};
ghost use Rattle.std.proofs.Common.{rules};
ghost use Rattle.std.specs.Cmp.Rules.{comparing};
ghost use Rattle.std.specs.Option.{option_eq};

use std::fmt;
use teco_base::Reg;
use teco_model::Stop;

/// Where a run stands: in the command string, or in the text of a register that was called.
#[derive(Clone, Copy)]
pub struct Site {
    /// The register whose text is executed; `None` in the command string.
    pub register: Option<Reg>,
    /// The place of the element that comes next, behind the blanks: bytes from 0. Where nothing
    /// comes any more the length of the text.
    pub place: usize,
}

impl PartialEq for Site {
    ghost eq = { λ a b. a.place == b.place && option_eq nat_eq a.register b.register };

    ghost laws = { Prim.search (comparing, rules) };

    fn eq(&self, other: &Site) -> bool {
        let same_text = match (self.register, other.register) {
            (None, None) => true,
            (Some(register), Some(other)) => register.index() == other.index(),
            _ => false,
        };
        self.place == other.place && same_text
    }
}

impl Eq for Site {
    ghost laws = { Prim.search (comparing, rules) };
}

impl fmt::Debug for Site {
    fn fmt<W: fmt::Write>(&self, f: &mut fmt::Formatter<W>) -> fmt::Result {
        match self.register {
            Some(register) => write!(f, "{} of {}", self.place, char::from(register.name())),
            None => write!(f, "{}", self.place),
        }
    }
}

/// What a run came to, after how many whole steps, and where.
#[derive(Clone, Copy)]
pub struct Stopped {
    /// What it came to.
    pub stop: Stop,
    /// The steps that were done.
    pub steps: u64,
    /// Where the element stands whose step was not done, or where the end was met. It is place 0 of
    /// the command string where memory for that was refused.
    pub site: Site,
}
