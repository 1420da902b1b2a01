//! The nodes of an expansion.
ghost use Rattle.std.specs.Prelude.{◌≡◌, ◌<◌, ◌≤◌, length, map, nat_lt, option_map, slice_get, IfSome, Some, None};
ghost use Rattle.std.specs.Prelude.{false};
ghost use Rattle.teco_base.specs.declared.TheConstants.{LIMIT};
ghost use Rattle.teco_model.specs.Element as element;
ghost use Rattle.teco_model.specs.Searching as searching;
ghost use Rattle.teco_model.specs.State.{frame_of};
ghost use Rattle.teco_verifier.specs.expansion.Node as model;
ghost use Rattle.teco_expansion.specs.Seen.{node_seen};
ghost use Rattle.teco_verifier.specs.expansion.Node.{numbered, place_of};

use crate::node::Node;
use crate::reading::{colon_at, read_element};
use crate::texts::Texts;
use std::marker::Model;
use teco_model::Element;

/// The nodes that a library comes to from an entry, numbered from 1.
#[derive(Drop)]
pub struct Nodes<'a> {
    texts: Texts<'a>,
    nodes: Vec<Node>,
}

impl<'a> Model for Nodes<'a> {
    ghost use Rattle.std.specs.Prelude.{List, map};
    ghost use Rattle.teco_verifier.specs.expansion.Node as model;
    ghost use Rattle.teco_expansion.specs.Seen.{node_seen};

    ghost Value = { List model.Node };

    ghost view = { λ n. map (node_seen n.texts) n.nodes.items };
}

/// The node of a number.
fn node_of(nodes: &[Node], number: usize) -> &Node
    requires one { 0 < number }
    requires last { number ≤ length nodes.now }
    ensures { numbered nodes.now number ≡ Some result.now }
{
    &nodes[number - 1]
}

impl<'a> Nodes<'a> {
    /// These nodes, with the texts that they stand in.
    pub(crate) fn new(texts: Texts<'a>, nodes: Vec<Node>) -> Nodes<'a>
        ensures { result ≡ map (node_seen texts.entry) nodes.items }
    {
        Nodes { texts, nodes }
    }

    /// How many there are.
    pub fn len(&self) -> usize
        ensures { result ≡ length self.now }
    {
        self.nodes.len()
    }

    /// What is read at the node of a number; `None` at the end of a text.
    #[tactic(auto, using(crate::proofs::Numbered::seen_at))]
    pub fn element(&self, number: usize) -> Option<Element<'a>>
        requires one { 0 < number }
        requires last { number ≤ length self.now }
        ensures read { (node : model.Node) → numbered self.now number ≡ Some node
            → option_map element.seen result ≡ node.element }
        ensures text_within { IfSome result (λ e. length e.text.now ≤ LIMIT) }
        ensures second_within { IfSome result (λ e. length e.second.now ≤ LIMIT) }
    {
        let spot = &node_of(&self.nodes, number).stand.position.running;
        match read_element(self.texts.text(spot.register), spot.place) {
            Ok(read) => read,
            Err(_) => None,
        }
    }

    /// The place of the register in whose text it stands; the call of the entry counts to the
    /// entry.
    #[tactic(auto, using(crate::proofs::Numbered::seen_at))]
    pub fn register(&self, number: usize) -> usize
        requires one { 0 < number }
        requires last { number ≤ length self.now }
        ensures { (node : model.Node) → numbered self.now number
            ≡ Some node → result ≡ node.register }
    {
        node_of(&self.nodes, number).register
    }

    /// The place of its element in that text.
    #[tactic(auto, using(crate::proofs::Numbered::seen_at))]
    pub fn place(&self, number: usize) -> usize
        requires one { 0 < number }
        requires last { number ≤ length self.now }
        ensures { (node : model.Node) → numbered self.now number
            ≡ Some node → result ≡ place_of node }
    {
        node_of(&self.nodes, number).stand.position.running.place
    }

    /// How many iterations are open there, in the texts that wait too.
    #[tactic(auto, using(crate::proofs::Numbered::seen_at))]
    pub fn open(&self, number: usize) -> usize
        requires one { 0 < number }
        requires last { number ≤ length self.now }
        ensures { (node : model.Node) → numbered self.now number ≡ Some node
            → result ≡ length node.stand.iterations }
    {
        node_of(&self.nodes, number).stand.iterations.len()
    }

    /// The number of the `<` of an open iteration, from 0 for the innermost.
    #[tactic(auto, using(crate::proofs::Numbered::seen_at))]
    pub fn iteration(&self, number: usize, at: usize) -> Option<usize>
        requires one { 0 < number }
        requires last { number ≤ length self.now }
        ensures { (node : model.Node) → numbered self.now number ≡ Some node
            → result ≡ slice_get node.stand.iterations at }
    {
        node_of(&self.nodes, number).stand.iterations.get(at)
    }

    /// How many ways it has: two at the most.
    #[tactic(auto, using(crate::proofs::Numbered::seen_at))]
    pub fn ways(&self, number: usize) -> usize
        requires one { 0 < number }
        requires last { number ≤ length self.now }
        ensures { (node : model.Node) → numbered self.now number
            ≡ Some node → result ≡ length node.ways }
    {
        node_of(&self.nodes, number).ways.len()
    }

    /// The number that a way leads to, from 0 for the first.
    #[tactic(auto, using(crate::proofs::Numbered::seen_at))]
    pub fn way(&self, number: usize, at: usize) -> Option<usize>
        requires one { 0 < number }
        requires last { number ≤ length self.now }
        ensures { (node : model.Node) → numbered self.now number ≡ Some node
            → result ≡ slice_get node.ways at }
    {
        node_of(&self.nodes, number).ways.get(at)
    }

    /// Whether the register that its element names is one of the library.
    #[tactic(auto, using(crate::proofs::Numbered::seen_at))]
    pub fn names_macro(&self, number: usize) -> bool
        requires one { 0 < number }
        requires last { number ≤ length self.now }
        ensures { (node : model.Node) → numbered self.now number
            ≡ Some node → result ≡ node.names_macro }
    {
        node_of(&self.nodes, number).names_macro
    }

    /// Whether an iteration of its own text is open there.
    #[tactic(auto, using(crate::proofs::Numbered::seen_at))]
    pub fn inside(&self, number: usize) -> bool
        requires one { 0 < number }
        requires last { number ≤ length self.now }
        ensures { (node : model.Node) → numbered self.now number ≡ Some node → result
            ≡ nat_lt 0 (length node.stand.position.running.starts) }
    {
        node_of(&self.nodes, number)
            .stand
            .position
            .running
            .starts
            .len()
            > 0
    }

    /// Whether a search there counts as having a colon.
    #[tactic(auto, using(crate::proofs::Numbered::seen_at))]
    pub fn colon(&self, number: usize) -> bool
        requires one { 0 < number }
        requires last { number ≤ length self.now }
        ensures { (node : model.Node) (e : element.Element) → numbered self.now number ≡ Some node
            → node.element ≡ Some e
            → result ≡ searching.has_colon e (frame_of node.stand.position.running.text) }
    {
        let spot = &node_of(&self.nodes, number).stand.position.running;
        colon_at(self.texts.text(spot.register), spot.place)
    }
}
