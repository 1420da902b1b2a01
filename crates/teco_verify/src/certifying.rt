//! What a closed table certifies.
ghost use Rattle.std.specs.Prelude.{◌≡◌, IfOk, Ok};
ghost use Rattle.std.specs.Result.{IfErr};
ghost use Rattle.teco_verifier.specs.expansion.Expansion.{expansion};
ghost use Rattle.teco_library.specs.Library.{argument_of};
ghost use Rattle.teco_verify.specs.Certifying.{flaw_by, Certifies, IsFlawIn};
ghost use Rattle.teco_verify.specs.Certified.{TakesDeclared};
ghost use Rattle.teco_verify.specs.Telling.{Tells};
ghost use Rattle.teco_verify.specs.declared.certifying.CertificateFlaw.TheVariants as flaw;

use crate::asked::AskedMacro;
use crate::verified::Verified;
use std::alloc::{AllocError, Global};
use teco_certificate::Certificate;
use teco_check::{Bad, Overflow, Table, check, commands, loops_of, needs_in, size};
use teco_expansion::Nodes;

/// Why a table certifies nothing.
#[derive(Clone, Copy)]
pub enum CertificateFlaw {
    /// The table is not closed at a node.
    Open { number: usize },
    /// A printed number overflows at a node.
    Overflow { number: usize },
    /// A growth was refused.
    Memory,
}

impl From<AllocError> for CertificateFlaw {
    ghost from_gives = { λ _ why. why ≡ flaw.Memory };

    fn from(_refused: AllocError) -> CertificateFlaw {
        CertificateFlaw::Memory
    }
}

impl From<Bad> for CertificateFlaw {
    ghost from_gives = { λ bad why. why ≡ flaw_by bad };

    fn from(bad: Bad) -> CertificateFlaw {
        match bad {
            Bad::Edge { node } => CertificateFlaw::Open { number: node },
            Bad::Memory => CertificateFlaw::Memory,
        }
    }
}

impl From<Overflow> for CertificateFlaw {
    ghost from_gives = { λ overflow why. why ≡ flaw.Overflow overflow.node };

    fn from(overflow: Overflow) -> CertificateFlaw {
        CertificateFlaw::Overflow {
            number: overflow.node,
        }
    }
}

/// What a table of a library's expansion certifies of the entry, where it is closed.
#[tactic(auto, using(crate::proofs::Nodes::begins))]
pub fn certified<'l>(
    alloc: Global,
    asked: &AskedMacro<'l>,
    nodes: &Nodes<'_>,
    table: &Table,
) -> Result<Verified<'l>, CertificateFlaw>
    requires { expansion asked.now.library.now.texts asked.now.entry ≡ Ok nodes.now }
    ensures library { IfOk result (λ verified. verified.library ≡ asked.now.library.now.texts) }
    ensures argument { IfOk result (λ verified. TakesDeclared asked.now.library.now
        verified.fields) }
    ensures entry { IfOk result (λ verified. verified.fields.entry ≡ asked.now.entry) }
    ensures value { Certifies (argument_of asked.now.library.now asked.now.entry) nodes.now
        table.now asked.now.entry result }
    ensures told { IfOk result (λ verified. Tells (argument_of asked.now.library.now
        asked.now.entry) nodes.now verified.fields table.now) }
    ensures numbered { IfErr result (IsFlawIn nodes.now) }
{
    let argument = asked.argument();
    check(alloc, argument, nodes, table)?;
    let certificate = Certificate {
        entry: asked.entry,
        argument,
        needs: needs_in(nodes, table),
        commands: commands(argument, nodes, table)?,
        size: size(nodes, table)?,
        loops: loops_of(alloc, nodes, table)?,
    };
    Ok(Verified {
        library: asked.library,
        certificate,
    })
}
