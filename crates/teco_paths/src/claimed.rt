//! The claims of a certificate.
ghost use Rattle.std.specs.Prelude.{◌≡◌, ℕ, IfOk, OnOk, option_map};
ghost use Rattle.teco_promise.specs.Promise.{most_with};
ghost use Rattle.teco_paths.specs.Sure.{AreCertain, IsCertain};
ghost use Rattle.teco_poly.specs.Polynomial as poly;

use crate::coefficients::coefficients;
use crate::course::MacroGraph;
use crate::cut::{CutState, case_of};
use crate::entry::entry_cut;
use crate::fault::PathFault;
use crate::shapes::shapes;
use crate::translated::cuts_of;
use crate::used::used;
use crate::verdict::check_claims;
use std::alloc::Global;
use teco_claims::Claims;
use teco_expansion::Nodes;
use teco_model::{ArgumentRange, Needs};
use teco_poly::Poly;

/// The nodes of a macro, and what is known where it is called: the lengths of the library's texts by
/// the places of their registers, the argument that is declared, and which files are open.
#[derive(Clone, Copy)]
pub struct Called<'a> {
    pub nodes: &'a Nodes<'a>,
    pub lengths: &'a [Option<usize>],
    pub argument: Option<ArgumentRange>,
    pub needs: Needs,
}

// Claims as paths are followed by: the cut points, which measures the macro uses, and the coefficients.
#[derive(Drop)]
struct Prepared {
    cuts: Vec<CutState>,
    used: Vec<bool>,
    commands: Vec<u64>,
    size: Vec<u64>,
    grows: Option<Vec<u64>>,
    types: Option<Vec<u64>>,
}

// Coefficients that are lent, if there are some.
fn lent(coefficients: &Option<Vec<u64>>) -> Option<&[u64]>
    ensures { option_map (λ t. t.now) result ≡ option_map (λ t. t.items) coefficients.now }
{
    match coefficients {
        Some(coefficients) => Some(coefficients.as_slice()),
        None => None,
    }
}

// The coefficients of a polynomial, if there is one.
fn coefficients_if(polynomial: &Option<Poly>, alloc: Global) -> Result<Option<Vec<u64>>, PathFault>
    ensures { IfOk result (λ found. (n before : ℕ)
        → most_with (option_map (λ t. t.items) found) n before ≡ most_with polynomial.now n before) }
{
    match polynomial {
        Some(polynomial) => {
            let found = coefficients(polynomial, alloc)?;
            Ok(Some(found))
        }
        None => Ok(None),
    }
}

// The shapes of states at the nodes.
fn stands(
    called: &Called<'_>,
    prepared: &Prepared,
    alloc: Global,
) -> Result<Vec<CutState>, PathFault> {
    let course = MacroGraph {
        nodes: called.nodes,
        lengths: called.lengths,
        needs: called.needs,
        used: &prepared.used,
        cuts: &prepared.cuts,
        commands: &prepared.commands,
        size: &prepared.size,
        grows: lent(&prepared.grows),
        types: lent(&prepared.types),
    };
    let first = entry_cut(called.lengths, called.argument, &prepared.used, alloc)?;
    let entry = case_of(&prepared.size, &first, alloc)?;
    shapes(&course, entry, alloc)
}

// What is prepared, with these cut points in place of none.
fn with_cuts(prepared: Prepared, cuts: Vec<CutState>) -> Prepared
    ensures cuts { result.cuts.items ≡ cuts.items }
    ensures commands { result.commands.items ≡ prepared.commands.items }
    ensures size { result.size.items ≡ prepared.size.items }
    ensures grows { result.grows ≡ prepared.grows }
    ensures types { result.types ≡ prepared.types }
{
    let Prepared {
        cuts: _none,
        used,
        commands,
        size,
        grows,
        types,
    } = prepared;
    Prepared {
        cuts,
        used,
        commands,
        size,
        grows,
        types,
    }
}

// What is claimed of a macro, but for the cut points.
fn bounds(nodes: &Nodes<'_>, claimed: &Claims, alloc: Global) -> Result<Prepared, PathFault>
    ensures commands { IfOk result (λ prepared. (n : ℕ)
        → poly.value prepared.commands.items n ≡ poly.value claimed.now.commands n) }
    ensures size { IfOk result (λ prepared. (n : ℕ)
        → poly.value prepared.size.items n ≡ poly.value claimed.now.size n) }
    ensures grows { IfOk result (λ prepared. (n before : ℕ)
        → most_with (option_map (λ t. t.items) prepared.grows) n before ≡ most_with claimed.now.grows n before) }
    ensures types { IfOk result (λ prepared. (n before : ℕ)
        → most_with (option_map (λ t. t.items) prepared.types) n before ≡ most_with claimed.now.types n before) }
{
    let commands = coefficients(&claimed.commands, alloc)?;
    let size = coefficients(&claimed.size, alloc)?;
    let grows = coefficients_if(&claimed.grows, alloc)?;
    let types = coefficients_if(&claimed.types, alloc)?;
    let used = used(nodes, claimed, alloc)?;
    Ok(Prepared {
        cuts: Vec::new(alloc),
        used,
        commands,
        size,
        grows,
        types,
    })
}

// Follows all paths by them.
fn check_prepared(called: &Called<'_>, prepared: &Prepared, alloc: Global) -> Result<(), PathFault>
    ensures { OnOk result (IsCertain called.now.nodes.now called.now.lengths.now called.now.argument
        called.now.needs (record {
          commands = prepared.now.commands.items;
          size = prepared.now.size.items;
          grows = option_map (λ t. t.items) prepared.now.grows;
          types = option_map (λ t. t.items) prepared.now.types;
        }) prepared.now.cuts.items) }
{
    let course = MacroGraph {
        nodes: called.nodes,
        lengths: called.lengths,
        needs: called.needs,
        used: &prepared.used,
        cuts: &prepared.cuts,
        commands: &prepared.commands,
        size: &prepared.size,
        grows: lent(&prepared.grows),
        types: lent(&prepared.types),
    };
    check_claims(&course, called.argument, alloc)
}

/// Follows all paths of a macro by the claims of a certificate. Where nothing is refused, every run of
/// it ends within the commands that the certificate says and holds no more than it says; its text gets
/// no longer and it types no more bytes than it says, if it does; and wherever a run stands at an element
/// of which something is claimed, that is so.
pub fn check_claimed(called: &Called<'_>, claimed: &Claims, alloc: Global) -> Result<(), PathFault>
    ensures { OnOk result (AreCertain called.now.nodes.now called.now.lengths.now called.now.argument
        called.now.needs claimed.now) }
{
    let first = bounds(called.nodes, claimed, alloc)?;
    let stands = stands(called, &first, alloc)?;
    let cuts = cuts_of(called.nodes, claimed, &stands, &first.used, alloc)?;
    let prepared = with_cuts(first, cuts);
    check_prepared(called, &prepared, alloc)
}
