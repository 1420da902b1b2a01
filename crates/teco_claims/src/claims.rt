//! Claims.
ghost use Rattle.std.specs.Prelude.{◌≡◌, IfOk};
ghost use Rattle.teco_claims.specs.Reads.{Reads};
ghost use Rattle.teco_claims.specs.Text.{text_of};

use crate::fault::ClaimsFault;
use crate::printing::{same_front, text};
use crate::reading::claims_in;
use crate::term::ClaimTerm;
use std::alloc::{AllocError, Global};
use std::marker::Model;
use teco_poly::Poly;

/// A claim: that the sum of these terms is at least 0.
#[derive(Drop)]
pub struct Claim {
    /// The terms, by measure and then by the power of N.
    pub terms: Vec<ClaimTerm>,
}

impl Model for Claim {
    ghost use Rattle.std.specs.Prelude.{List};
    ghost use Rattle.teco_claims.specs.declared.term.ClaimTerm.{ClaimTerm};

    ghost Value = { List ClaimTerm };

    ghost view = { λ c. c.terms.items };
}

/// A cut point: an element, and what is claimed where a run comes to it.
#[derive(Drop)]
pub struct Cut {
    /// The number of the element.
    pub point: usize,
    pub claims: Vec<Claim>,
}

impl Model for Cut {
    ghost use Rattle.teco_claims.specs.Values as values;

    ghost Value = { values.AtCut };

    ghost view = { λ c. record { point = c.point; claims = c.claims.items } };
}

/// What a certificate of the linear rules says of a macro.
#[derive(Drop)]
pub struct Claims {
    /// The most commands that a run takes.
    pub commands: Poly,
    /// The most that is held.
    pub size: Poly,
    /// By how much the buffer and what is unread get longer at most, if that is claimed.
    pub grows: Option<Poly>,
    /// The most bytes that are typed, if that is claimed.
    pub types: Option<Poly>,
    /// The cut points.
    pub cuts: Vec<Cut>,
}

impl Model for Claims {
    ghost use Rattle.teco_claims.specs.Values as values;

    ghost Value = { values.Claimed };

    ghost view = { λ c. record {
      commands = c.commands;
      size = c.size;
      grows = c.grows;
      types = c.types;
      cuts = c.cuts.items;
    } };
}

impl Claims {
    /// Their text.
    pub fn write(&self, alloc: Global) -> Result<Vec<u8>, AllocError>
        ensures { IfOk result (λ written. written.items ≡ text_of self.now) }
    {
        text(alloc, self)
    }

    /// The claims whose text this is. Each have one text. Of any other text it is where it goes
    /// wrong: the bytes before that place are as in some text of claims. It takes time by the length
    /// of the text, and memory for what is read and for its text once more.
    pub fn read(alloc: Global, bytes: &[u8]) -> Result<Claims, ClaimsFault>
        ensures { Reads bytes.now result }
    {
        let claims = claims_in(alloc, bytes)?;
        let written = text(alloc, &claims)?;
        if written.as_slice() == bytes {
            Ok(claims)
        } else {
            Err(ClaimsFault::NotClaims(same_front(bytes, &written)))
        }
    }
}
