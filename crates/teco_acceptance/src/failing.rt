//! Small worlds on which macros fail of which no claims are found quickly.
ghost use Rattle.std.specs.Prelude.{◌≡◌, IfOk, IfSome};
ghost use Rattle.std.specs.Result.{IfErr};
ghost use Rattle.teco_acceptance.specs.Failing.{FailsOn};
ghost use Rattle.teco_claimed.specs.Claimed.{TakesDeclared};

use std::alloc::Global;
use teco_base::Reg;
use teco_claimed::{Claimed, LinearRefusal, Unverified, verify_further, verify_quickly};
use teco_console::Means;
use teco_library::Library;
use teco_model::Needs;
use teco_paths::search::{ClaimSearch, Effort};
use teco_witness::{Subject, Witness, WitnessEnd, find_witness};

/// How many steps of the machine small worlds are tried in.
const STEPS: u64 = 5_000_000;

/// Why there are no claims of a macro, and a small world on which it fails, if one was found.
#[derive(Drop)]
pub struct Unclaimed {
    pub unverified: Unverified,
    pub witness: Option<Witness>,
    /// How many times the usual number of steps the search might take.
    pub effort: u32,
}

// A small world on which a macro fails that needs these files; none where memory is refused.
fn witness_of(alloc: Global, library: &Library, entry: Reg, needs: Needs) -> Option<Witness>
    ensures { IfSome result (FailsOn library.now entry) }
{
    let subject = Subject {
        library,
        entry,
        argument: library.argument(entry),
        needs,
    };
    find_witness(alloc, &subject, STEPS).unwrap_or(None)
}

// Does a witness show that there are no claims? Of a run that has not ended that is not known.
fn is_decided(witness: &Option<Witness>) -> bool {
    match witness {
        Some(witness) => matches!(witness.end, WitnessEnd::Code { .. }),
        None => false,
    }
}

/// A macro of a library, by claims. Where the quickest way of looking finds none, the macro is run on
/// small worlds; only where it stops with a code on none of these, claims are looked for further.
///
/// # Errors
///
/// Why the quickest way finds none, with the small world. There may be some all the same.
pub fn claimed_by<'l, S: ClaimSearch>(
    means: Means,
    library: &'l Library,
    entry: Reg,
) -> Result<Claimed<'l>, Unclaimed>
    ensures library { IfOk result (λ claimed. claimed.library ≡ library.now) }
    ensures declared { IfOk result (λ claimed. TakesDeclared library.now claimed.certificate) }
    ensures entry { IfOk result (λ claimed. claimed.certificate.entry ≡ entry) }
    ensures fails { IfErr result (λ unclaimed. IfSome unclaimed.witness (FailsOn library.now entry)) }
{
    let (alloc, effort) = (means.alloc, Effort::of(means.effort));
    let unverified = match verify_quickly::<S>(library, entry, effort, alloc) {
        Ok(claimed) => return Ok(claimed),
        Err(unverified) => unverified,
    };
    let witness = match unverified.refusal {
        LinearRefusal::Memory | LinearRefusal::NotExpanded(_) => None,
        _ => witness_of(alloc, library, entry, unverified.needs),
    };
    if is_decided(&witness) {
        return Err(Unclaimed {
            unverified,
            witness,
            effort: means.effort,
        });
    }
    match verify_further::<S>(library, entry, unverified, effort, alloc) {
        Ok(claimed) => Ok(claimed),
        Err(unverified) => Err(Unclaimed {
            unverified,
            witness,
            effort: means.effort,
        }),
    }
}
