//! What the verifier knows of a macro, element by element.
ghost use Rattle.std.specs.Prelude.{◌≡◌, ◌<◌, ◌≤◌, List, length, IfOk, IfSome, Some, None, Ok, option_map};
ghost use Rattle.std.specs.Prelude.{if◌then◌else◌};
ghost use Rattle.std.specs.Option.{option_map_or};
ghost use Rattle.std.specs.Result.{result_ok};
ghost use Rattle.teco_verifier.specs.expansion.Expansion.{expansion};
ghost use Rattle.teco_verifier.specs.expansion.Node.{Node, numbered, place_of};
ghost use Rattle.teco_model.specs.Element as elements;
ghost use Rattle.teco_verifier.specs.table.Loops.{begins};
ghost use Rattle.teco_verifier.specs.facts.Facts.{Facts};
ghost use Rattle.teco_verifier.specs.facts.Flows as flows;
ghost use Rattle.teco_verifier.specs.table.Table.{facts_at, choice_at};
ghost use Rattle.teco_expansion.specs.Refused.{refusal_seen};
ghost use Rattle.teco_verify.specs.Again.{AreMadeAgain};
ghost use Rattle.teco_verify.specs.Certified.{TakesDeclared};
ghost use Rattle.teco_verify.specs.Refusing.{refusal_of, register_of, IsJudged, PrintedIsFound, RefusedIsDerived};
ghost use Rattle.teco_verify.specs.Refusing.{RefusedIsExpansions, RefusedIsOverflow, RefusedIsUnclosed};
ghost use Rattle.teco_verify.specs.Straight.{StraightIsVerified};
ghost use Rattle.teco_verify.specs.Accepting.{AcceptedIsFound};
ghost use Rattle.teco_verify.specs.Telling.{AcceptedIsTold, IsVerdict, expanded, node_in};

use crate::asked::AskedMacro;
use crate::known::Known;
use crate::refusal::{Refusal, register_at};
use crate::verdict::{found_of, texts_are_within};
use crate::verified::Verified;
use crate::watching::watch;
use std::alloc::{AllocError, Global};
use std::marker::Model;
use teco_base::Reg;
use teco_check::{Table, begins_iteration, turns};
use teco_expansion::{ExpandFault, Nodes, PlacedReason as Unexpanded, expand};
use teco_facts::Choice;
use teco_law_tables::straight::straight_texts_are_accepted;
use teco_library::Library;
use teco_model::{ArgumentRange, Element};
use teco_poly::Poly;
use teco_verifier::LoopLine;

/// What the verifier knows of a macro: the elements that it comes to, numbered from 1, what is
/// known before each, and the verdict.
///
/// Where it is accepted, that is what the table of its certificate says. Where it is refused, it is
/// what was known in the attempt that ended there, up to that element; of this no clause speaks.
#[derive(Drop)]
pub struct Account<'l> {
    nodes: Option<Nodes<'l>>,
    table: Table,
    verdict: Result<Verified<'l>, Refusal>,
    stop: Option<usize>,
}

impl<'l> Model for Account<'l> {
    ghost use Rattle.teco_verify.specs.Telling.{Telling};

    ghost Value = { Telling };

    ghost view = { λ a. record {
      nodes = a.nodes;
      table = a.table;
      verdict = a.verdict;
      stop = a.stop;
    } };
}

impl<'l> Account<'l> {
    // The nodes, if there is one of a number.
    #[tactic(auto, using(crate::proofs::Telling::none_behind))]
    fn nodes_with(&self, number: usize) -> Option<&Nodes<'l>>
        ensures some { IfSome result (λ nodes. self.now.nodes ≡ Some nodes.now) }
        ensures first { IfSome result (λ nodes. 0 < number) }
        ensures last { IfSome result (λ nodes. number ≤ length nodes.now) }
        ensures none { result ≡ None → node_in self.now.nodes number ≡ None }
    {
        match &self.nodes {
            None => None,
            Some(nodes) => {
                if number > 0 && number <= nodes.len() {
                    Some(nodes)
                } else {
                    None
                }
            }
        }
    }

    /// Whether it is accepted, as `verify` says it.
    ///
    /// # Errors
    ///
    /// The refusal of the macro, as `verify` gives it.
    pub fn verdict(&self) -> Result<&Verified<'l>, Refusal>
        ensures { IsVerdict self.now.verdict result }
    {
        match &self.verdict {
            Ok(verified) => Ok(verified),
            Err(refusal) => Err(*refusal),
        }
    }

    /// The number of the element at which it is refused, if it is at one.
    pub fn stop(&self) -> Option<usize>
        ensures { result ≡ self.now.stop }
    {
        self.stop
    }

    /// How many elements there are; none where they cannot be told.
    pub fn len(&self) -> usize
        ensures { result ≡ option_map_or (λ (nodes : List Node). length nodes) self.now.nodes 0 }
    {
        match &self.nodes {
            None => 0,
            Some(nodes) => nodes.len(),
        }
    }

    /// What is read as the element of a number; `None` at the end of a text, where it returns.
    pub fn element(&self, number: usize) -> Option<Element<'l>>
        ensures { (node : Node) → node_in self.now.nodes number ≡ Some node
            → option_map elements.seen result ≡ node.element }
    {
        match self.nodes_with(number) {
            None => None,
            Some(nodes) => nodes.element(number),
        }
    }

    /// The register in whose text it stands; the call of the entry counts to the entry.
    pub fn register(&self, number: usize) -> Option<Reg>
        ensures { (node : Node) → node_in self.now.nodes number ≡ Some node
            → result ≡ register_of node.register }
    {
        match self.nodes_with(number) {
            None => None,
            Some(nodes) => register_at(nodes.register(number)),
        }
    }

    /// The place of its first byte in that text, or of the text's end.
    pub fn begin(&self, number: usize) -> Option<usize>
        ensures { (node : Node) → node_in self.now.nodes number ≡ Some node
            → result ≡ Some (place_of node) }
    {
        match self.nodes_with(number) {
            None => None,
            Some(nodes) => Some(nodes.place(number)),
        }
    }

    /// What is known before it; `None` where no run comes there, and behind the element at which
    /// the macro is refused.
    pub fn known(&self, number: usize) -> Option<Known<'_>>
        ensures { result ≡ facts_at self.now.table number }
    {
        match self.table.facts(number) {
            None => None,
            Some(facts) => Some(Known { facts }),
        }
    }

    /// What is chosen for the body of the < of a number.
    pub fn choice(&self, number: usize) -> Option<Choice>
        ensures { result ≡ choice_at self.now.table number }
    {
        self.table.choice(number)
    }

    /// The most turns of the < of a number, if there is a most.
    pub fn turns(&self, number: usize) -> Option<Poly>
        ensures { (those : List Node) (node : Node) (facts : Facts)
            → self.now.nodes ≡ Some those → numbered those number ≡ Some node
            → facts_at self.now.table number ≡ Some facts
            → result ≡ (if begins node then result_ok (flows.turns facts)
            else None) }
    {
        if !begins_iteration(&self.element(number)) {
            return None;
        }
        match self.table.facts(number) {
            None => None,
            Some(facts) => turns(facts).ok(),
        }
    }
}

// There are no nodes.
fn unexpanded<'l>(alloc: Global, refused: Unexpanded) -> Account<'l>
    ensures nodes { result.nodes ≡ None }
    ensures refused { result.verdict ≡ Err (refusal_of (refusal_seen refused)) }
{
    Account {
        nodes: None,
        table: Table::new(alloc),
        verdict: Err(Refusal::from(ExpandFault::Refused(refused))),
        stop: None,
    }
}

// The table that was derived. Where none was, since the search for choices ended first, the nodes are
// passed once more with the choices it had then, and what is known at each is kept.
fn table_of(
    alloc: Global,
    argument: Option<ArgumentRange>,
    nodes: &Nodes<'_>,
    derived: Option<Table>,
    chosen: Vec<LoopLine>,
) -> Result<Table, AllocError>
    ensures { IfOk result (λ table. IfSome derived (λ those. table ≡ those)) }
{
    match derived {
        Some(table) => Ok(table),
        None => watch(alloc, argument, nodes, chosen),
    }
}

// What is known of a macro.
fn accounted<'l>(alloc: Global, asked: &AskedMacro<'l>) -> Result<Account<'l>, AllocError>
    ensures nodes { IfOk result (λ told. told.nodes
        ≡ expanded (expansion asked.now.library.now.texts asked.now.entry)) }
    ensures library { IfOk result (λ told. IfOk told.verdict
        (λ verified. verified.library ≡ asked.now.library.now.texts)) }
    ensures argument { IfOk result (λ told. IfOk told.verdict
        (λ verified. TakesDeclared asked.now.library.now verified.fields)) }
    ensures entry { IfOk result (λ told. IfOk told.verdict
        (λ verified. verified.fields.entry ≡ asked.now.entry)) }
    ensures known { IfOk result (AcceptedIsTold asked.now.library.now asked.now.entry) }
    ensures accepted { IfOk result (λ told. AcceptedIsFound asked.now.library.now asked.now.entry
        told.verdict) }
    ensures unexpanded { IfOk result (λ told.
        RefusedIsExpansions asked.now.library.now asked.now.entry told.verdict) }
    ensures judged { IfOk result (λ told. IsJudged asked.now.library.now asked.now.entry
        told.verdict) }
    ensures made { IfOk result (λ told. IfOk told.verdict
        (λ verified. AreMadeAgain asked.now.library.now verified.fields)) }
{
    let nodes = match expand(alloc, asked.library, asked.entry) {
        Ok(nodes) => nodes,
        Err(ExpandFault::Refused(refused)) => return Ok(unexpanded(alloc, refused)),
        Err(ExpandFault::Memory) => return Err(AllocError),
    };
    let found = found_of(alloc, asked, &nodes);
    if let Err(Refusal::Memory) = &found.verdict {
        return Err(AllocError);
    }
    let table = table_of(alloc, asked.argument(), &nodes, found.table, found.chosen)?;
    Ok(Account {
        nodes: Some(nodes),
        table,
        verdict: found.verdict,
        stop: found.stop,
    })
}

/// Tells what the verifier knows of a macro: the verdict of `verify`, and what it rests on. Where
/// the macro is refused, it passes each element once more than `verify` does.
///
/// # Errors
///
/// `AllocError` where memory is refused.
pub fn account_of<'l>(
    alloc: Global,
    library: &'l Library,
    entry: Reg,
) -> Result<Account<'l>, AllocError>
    ensures nodes { IfOk result (λ told. told.nodes
        ≡ expanded (expansion library.now.texts entry)) }
    ensures library { IfOk result (λ told. IfOk told.verdict
        (λ verified. verified.library ≡ library.now.texts)) }
    ensures argument { IfOk result (λ told. IfOk told.verdict
        (λ verified. TakesDeclared library.now verified.fields)) }
    ensures entry { IfOk result (λ told. IfOk told.verdict
        (λ verified. verified.fields.entry ≡ entry)) }
    ensures known { IfOk result (AcceptedIsTold library.now entry) }
    ensures straight { IfOk result (λ told. StraightIsVerified library.now entry told.verdict) }
    ensures unexpanded { IfOk result (λ told. RefusedIsExpansions library.now entry told.verdict) }
    ensures underived { IfOk result (λ told. RefusedIsDerived library.now entry told.verdict) }
    ensures unclosed { IfOk result (λ told. RefusedIsUnclosed library.now entry told.verdict) }
    ensures overflow { IfOk result (λ told. RefusedIsOverflow library.now entry told.verdict) }
    ensures printed { IfOk result (λ told. PrintedIsFound library.now entry told.verdict) }
    ensures made { IfOk result (λ told. IfOk told.verdict
        (λ verified. AreMadeAgain library.now verified.fields)) }
{
    straight_texts_are_accepted();
    texts_are_within(library);
    let asked = AskedMacro { library, entry };
    accounted(alloc, &asked)
}
