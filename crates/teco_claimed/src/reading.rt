//! What a text says if it is that of a certificate of the linear rules. Of another text what stands
//! before the claims may be anything, and who calls has to see whether it is this text.
ghost use Rattle.std.specs.Prelude.{◌≡◌, ◌++◌, ◌∷◌, ℕ, List, codes, IfOk, IfSome, Option, Some};
ghost use Rattle.std.specs.Fmt.{decimal};
ghost use Rattle.teco_base.specs.declared.bytes.TheConstants.{LF};
ghost use Rattle.teco_claimed.specs.Reads.{IsChecksum, IsFrontOf, IsUnlessMemory, IsWellFormed};
ghost use Rattle.teco_claimed.specs.Text.{checksum_line, linear_text};
ghost use Rattle.teco_claimed.specs.declared.certificate.LinearCertificate.{LinearCertificate as CertificateOf};
ghost use Rattle.teco_claims.specs.Spelled.{IsSpelled};
ghost use Rattle.teco_poly.specs.Front.{LacksWord};

use crate::certificate::LinearCertificate;
use std::alloc::Global;
use teco_base::Reg;
use teco_certificate::CertificateFault;
use teco_certificate::lines::{argument_at, behind_version, needs_at, number_at, register_at};
use teco_claims::{Claims, ClaimsFault};
use teco_model::{ArgumentRange, Needs};
use teco_poly::reading::{behind, word_at};

// What stands before the claims of a certificate, and their lines.
#[derive(Clone, Copy)]
struct Front<'a> {
    entry: Reg,
    argument: Option<ArgumentRange>,
    needs: Needs,
    checksum: Option<u32>,
    claims: &'a [u8],
}

// The checksum with whose digits a line ends, and the lines behind it.
fn sum_at(text: &[u8]) -> (Option<u32>, &[u8])
    ensures { (sum : ℕ) (rest : List ℕ) → IsChecksum sum → text.now ≡ decimal sum ++ LF ∷ rest
        → (result.0 ≡ Some sum) × (result.1.now ≡ rest) }
{
    let (sum, rest) = number_at(text);
    (u32::try_from(sum).ok(), behind(rest, b"\n"))
}

// The checksum whose line a text begins with, if it does, and what comes behind that.
fn checksum_at(text: &[u8]) -> (Option<u32>, &[u8])
    ensures { (checksum : Option ℕ) (rest : List ℕ) → IfSome checksum IsChecksum
        → LacksWord rest (codes "text ") → text.now ≡ checksum_line checksum ++ rest
        → (result.0 ≡ checksum) × (result.1.now ≡ rest) }
{
    let (found, rest) = word_at(text, b"text ");
    if found { sum_at(rest) } else { (None, rest) }
}

// What stands there, or anything.
fn front_of(text: &[u8]) -> Front<'_>
    ensures { (c : CertificateOf) → IsWellFormed c → text.now ≡ linear_text c
        → IsFrontOf c result.entry result.argument result.needs
        result.checksum result.claims.now }
{
    let (entry, rest) = register_at(behind(behind_version(text), b"\nentry "));
    let (argument, rest) = argument_at(behind(rest, b"\n"));
    let (needs, rest) = needs_at(behind(rest, b"rules 3\nneeds "));
    let (checksum, claims) = checksum_at(behind(rest, b"\n"));
    Front {
        entry,
        argument,
        needs,
        checksum,
        claims,
    }
}

/// The certificate whose text this is, or any whose claims have a text.
pub fn certificate_in(alloc: Global, text: &[u8]) -> Result<LinearCertificate, CertificateFault>
    ensures text { (c : CertificateOf) → IsWellFormed c → text.now ≡ linear_text c
        → IsUnlessMemory c result }
    ensures claims { IfOk result (λ c. IsSpelled c.claims) }
{
    let front = front_of(text);
    match Claims::read(alloc, front.claims) {
        Ok(claims) => Ok(LinearCertificate {
            entry: front.entry,
            argument: front.argument,
            needs: front.needs,
            checksum: front.checksum,
            claims,
        }),
        Err(ClaimsFault::NotClaims(_)) => Err(CertificateFault::NotACertificate),
        Err(ClaimsFault::Memory) => Err(CertificateFault::Memory),
    }
}
