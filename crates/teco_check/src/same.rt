//! Facts that say the same, or less.
ghost use Rattle.std.specs.Prelude.{◌≡◌, IfOk, option_copied};
ghost use Rattle.teco_verifier.specs.table.Closed as rules;

use std::alloc::{AllocError, Global};
use teco_facts::Facts;
use teco_model::ArgumentRange;

/// Whether two facts say the same.
pub fn say_same(one: &Facts, other: &Facts) -> bool
    ensures { result ≡ rules.say_same one.now other.now }
{
    one.covers(other) && other.covers(one)
}

/// Whether nothing is known at the entry but what is always known there, and the argument that is
/// declared; told if there is memory.
pub fn is_entry(
    alloc: Global,
    argument: Option<ArgumentRange>,
    facts: Option<&Facts>,
) -> Result<bool, AllocError>
    ensures { IfOk result (λ yes. yes ≡ rules.is_entry argument (option_copied facts.entry)) }
{
    let given = Facts::entry(alloc, argument)?;
    Ok(match facts {
        None => false,
        Some(facts) => say_same(facts, &given),
    })
}

/// Whether what is known at a node covers an edge.
pub fn is_covered(known: Option<&Facts>, edge: &Facts) -> bool
    ensures { result ≡ rules.is_covered (option_copied known.entry) edge.now }
{
    match known {
        None => false,
        Some(facts) => facts.covers(edge),
    }
}
