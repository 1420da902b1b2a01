//! What a node is, by its number.
ghost use Rattle.std.specs.Prelude.{◌≡◌, ◌<◌, ◌≤◌, length, option_map, slice_get, IfSome, Some};
ghost use Rattle.teco_base.specs.declared.TheConstants.{LIMIT};
ghost use Rattle.teco_model.specs.Element as elements;
ghost use Rattle.teco_model.specs.Searching as searching;
ghost use Rattle.teco_model.specs.State.{frame_of};
ghost use Rattle.teco_verifier.specs.table.Behind as behind;
ghost use Rattle.teco_check.specs.Here.{node_at};

use teco_expansion::Nodes;
use teco_model::Element;

/// What is read there; `None` at the end of a text.
#[tactic(auto, using(crate::proofs::Numbered::numbered_at))]
pub fn element<'a>(nodes: &Nodes<'a>, number: usize) -> Option<Element<'a>>
    requires one { 0 < number }
    requires last { number ≤ length nodes.now }
    ensures read { option_map elements.seen result ≡ (node_at nodes.now number).element }
    ensures text_within { IfSome result (λ e. length e.text.now ≤ LIMIT) }
    ensures second_within { IfSome result (λ e. length e.second.now ≤ LIMIT) }
{
    nodes.element(number)
}

/// How many iterations are open there.
#[tactic(auto, using(crate::proofs::Numbered::numbered_at))]
pub fn depth(nodes: &Nodes<'_>, number: usize) -> usize
    requires one { 0 < number }
    requires last { number ≤ length nodes.now }
    ensures { result ≡ length (node_at nodes.now number).stand.iterations }
{
    nodes.open(number)
}

/// The number of the `<` of an open iteration, from 0 for the innermost.
#[tactic(auto, using(crate::proofs::Numbered::numbered_at))]
pub fn iteration(nodes: &Nodes<'_>, number: usize, at: usize) -> Option<usize>
    requires one { 0 < number }
    requires last { number ≤ length nodes.now }
    ensures { result ≡ slice_get (node_at nodes.now number).stand.iterations at }
{
    nodes.iteration(number, at)
}

/// How many ways it has.
#[tactic(auto, using(crate::proofs::Numbered::numbered_at))]
pub fn ways(nodes: &Nodes<'_>, number: usize) -> usize
    requires one { 0 < number }
    requires last { number ≤ length nodes.now }
    ensures { result ≡ length (node_at nodes.now number).ways }
{
    nodes.ways(number)
}

/// The number that a way leads to, from 0 for the first.
#[tactic(auto, using(crate::proofs::Numbered::numbered_at))]
pub fn way(nodes: &Nodes<'_>, number: usize, at: usize) -> Option<usize>
    requires one { 0 < number }
    requires last { number ≤ length nodes.now }
    ensures { result ≡ slice_get (node_at nodes.now number).ways at }
{
    nodes.way(number, at)
}

/// Whether the register that its element names is one of the library.
#[tactic(auto, using(crate::proofs::Numbered::numbered_at))]
pub fn names_macro(nodes: &Nodes<'_>, number: usize) -> bool
    requires one { 0 < number }
    requires last { number ≤ length nodes.now }
    ensures { result ≡ (node_at nodes.now number).names_macro }
{
    nodes.names_macro(number)
}

/// Whether an iteration of its own text is open there.
#[tactic(auto, using(crate::proofs::Numbered::numbered_at, crate::proofs::Numbered::inside_is))]
pub fn inside(nodes: &Nodes<'_>, number: usize) -> bool
    requires one { 0 < number }
    requires last { number ≤ length nodes.now }
    ensures { result ≡ behind.is_inside (node_at nodes.now number).stand.position.running.starts }
{
    nodes.inside(number)
}

/// Whether a search there counts as having a colon.
#[tactic(auto, using(crate::proofs::Numbered::numbered_at))]
pub fn colon(nodes: &Nodes<'_>, number: usize) -> bool
    requires one { 0 < number }
    requires last { number ≤ length nodes.now }
    ensures { (e : elements.Element) → (node_at nodes.now number).element ≡ Some e
        → result ≡ searching.has_colon e
        (frame_of (node_at nodes.now number).stand.position.running.text) }
{
    nodes.colon(number)
}
