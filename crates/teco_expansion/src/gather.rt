//! The expansion of a library from an entry.
ghost use Rattle.std.specs.Prelude.{◌≡◌, ◌<◌, ◌≤◌, length, map, drop, [], ◌∷◌, ◌++◌, All, IfOk, OnOk};
ghost use Rattle.teco_verifier.specs.expansion.Expansion as model;
ghost use Rattle.teco_verifier.specs.expansion.Node as node;
ghost use Rattle.teco_expansion.specs.Expands.{Expands, Makes};
ghost use Rattle.teco_expansion.specs.Linking.{AreStandsOf};
ghost use Rattle.teco_expansion.specs.Refused.{Answers};
ghost use Rattle.teco_expansion.specs.Room.{HasRoom};
ghost use Rattle.teco_expansion.specs.Seen.{stand_seen, visit_seen, node_seen};
ghost use Rattle.teco_expansion.specs.Texts.{library_of};
ghost use Rattle.teco_expansion.specs.Walks.{walk_seen};

use crate::few::OpenList;
use crate::link::{Link, base_of, way_numbers};
use crate::names::names_macro;
use crate::node::Node;
use crate::nodes::Nodes;
use crate::reading::read_at;
use crate::refusal::{ExpandFault, PlacedReason};
use crate::spot::{Spot, Stand, TextPosition};
use crate::steps::{refusal_at, register_at};
use crate::texts::Texts;
use crate::visit::Visit;
use crate::walk::{Walk, whole_walk};
use crate::ways::ways_at;
use std::alloc::{AllocError, Global};
use teco_base::Reg;
use teco_library::Library;

// Behind the call of the entry the run is over.
fn over(texts: &Texts<'_>) -> Stand
    ensures { stand_seen texts.now result ≡ node.over texts.now.entry }
{
    let spot = Spot::at(texts, None, 2, OpenList::empty(0));
    Stand {
        position: TextPosition {
            running: spot,
            callers: OpenList::empty(spot),
        },
        iterations: OpenList::empty(0),
    }
}

// Where all stand, the end behind them.
fn stands_of(alloc: Global, texts: &Texts<'_>, walk: &Walk) -> Result<Vec<Stand>, AllocError>
    ensures { IfOk result (λ stands. AreStandsOf texts.now walk.now stands.items) }
{
    let mut stands = Vec::new(alloc);
    for visit in &walk.visits {
        stands.push(visit.stand)?;
    }
    stands.push(over(texts))?;
    Ok(stands)
}

// The node of a visit.
#[tactic(auto, unfolding(teco_verifier::specs::expansion::Expansion::node_at))]
fn node_at(
    texts: &Texts<'_>,
    walk: &Walk,
    stands: &[Stand],
    number: usize,
    visit: &Visit,
) -> Result<Node, PlacedReason>
    requires stands { AreStandsOf texts.now walk.now stands.now }
    requires room { HasRoom visit.now }
    ensures { Answers (node_seen texts.now) result
        (model.node_at (library_of texts.now) texts.now.entry (walk_seen texts.now walk.now) number
        (visit_seen texts.now visit.now)) }
{
    let position = &visit.stand.position;
    let element = match read_at(texts, position) {
        Ok(read) => read,
        Err(reason) => return Err(refusal_at(texts, visit, reason)),
    };
    let targets = match ways_at(texts, &element, position) {
        Ok(ways) => ways,
        Err(reason) => return Err(refusal_at(texts, visit, reason)),
    };
    let base = base_of(&element, number, &visit.stand.iterations);
    let link = Link {
        texts,
        walk,
        stands,
        number,
        visit,
    };
    let ways = way_numbers(&link, base, &targets)?;
    let names_macro = names_macro(texts, &element);
    Ok(Node {
        stand: visit.stand,
        register: register_at(texts, visit),
        ways,
        names_macro,
    })
}

// One more node.
fn keep(nodes: &mut Vec<Node>, node: Node) -> Result<(), AllocError>
    ensures { OnOk result (nodes.new.items ≡ nodes.old.items ++ node ∷ []) }
{
    nodes.push(node)?;
    Ok(())
}

// The nodes of all visits.
fn nodes_of(
    alloc: Global,
    texts: &Texts<'_>,
    walk: &Walk,
    stands: &[Stand],
) -> Result<Vec<Node>, ExpandFault>
    requires stands { AreStandsOf texts.now walk.now stands.now }
    requires room { All HasRoom walk.now.visits.items }
    ensures { Makes (λ nodes. map (node_seen texts.now) nodes.items) result
        (model.nodes_at (library_of texts.now) texts.now.entry (walk_seen texts.now walk.now)
        1 (map (visit_seen texts.now) walk.now.visits.items)) }
{
    let mut nodes = Vec::new(alloc);
    for at in 0..walk.visits.len() {
        match node_at(texts, walk, stands, at + 1, &walk.visits[at]) {
            Ok(node) => keep(&mut nodes, node)?,
            Err(refusal) => return Err(ExpandFault::Refused(refusal)),
        }
    }
    Ok(nodes)
}

/// The nodes that a library comes to from an entry, or why it is not expanded.
///
/// The time grows as the nodes and the texts do: what an element jumps over, and the blanks behind
/// it, are not read again for it.
#[tactic(auto, unfolding(teco_verifier::specs::expansion::Expansion::expansion))]
pub fn expand<'a>(alloc: Global, library: &'a Library, entry: Reg) -> Result<Nodes<'a>, ExpandFault>
    ensures { Expands library.now.texts entry result }
{
    let whole = Texts::new(library, entry);
    let jumps = whole.jumps(alloc)?;
    let gaps = whole.gaps(alloc)?;
    let texts = whole.with_kept(&jumps, &gaps);
    let walk = whole_walk(alloc, &texts)?;
    let stands = stands_of(alloc, &texts, &walk)?;
    let nodes = nodes_of(alloc, &texts, &walk, &stands)?;
    match walk.refusal {
        Some(refusal) => Err(ExpandFault::Refused(refusal)),
        None => Ok(Nodes::new(whole, nodes)),
    }
}
