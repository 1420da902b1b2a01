//! What is printed of a table: the most steps that a run takes, the most that is held, and the
//! files that must be open.
ghost use Rattle.std.specs.Prelude.{◌≡◌, ◌<◌, ◌≤◌, length, option_map, IsTrue, None, Ok, false};
ghost use Rattle.std.specs.Prelude.{option_copied};
ghost use Rattle.std.specs.Option.{option_map_or};
ghost use Rattle.teco_model.specs.Element as elements;
ghost use Rattle.teco_verifier.specs.facts.Printed as needs;
ghost use Rattle.teco_verifier.specs.table.Printed as rules;
ghost use Rattle.teco_verifier.specs.table.Table.{facts_at};
ghost use Rattle.teco_check.specs.Here.{node_at};
ghost use Rattle.teco_check.specs.Rounds.{AreRounds};
ghost use Rattle.teco_check.specs.Says.{OverflowsAt, Prints};

use crate::node::{depth, element, iteration};
use crate::table::Table;
use crate::transfer::{needs_of, steps, turns};
use teco_expansion::Nodes;
use teco_facts::{Facts, sum_of};
use teco_model::{ArgumentRange, Element, Needs};
use teco_poly::Poly;
use teco_verifier::RefusalReason;

/// A printed number overflows at the node of this number.
#[derive(Clone, Copy)]
pub struct Overflow {
    pub node: usize,
}

// The turns of an iteration, from what is known at its < and at the start of its body; one that is
// not reached counts once.
fn turns_where(facts: Option<&Facts>, start: Option<&Facts>) -> Result<Poly, RefusalReason>
    ensures { result ≡ rules.turns_where (option_copied facts.entry) (option_copied start.entry) }
{
    if start.is_none() {
        return Ok(Poly::number(1));
    }
    match facts {
        None => Ok(Poly::number(1)),
        Some(facts) => turns(facts),
    }
}

// The turns of the iteration that begins at a number.
fn turns_at(table: &Table, begin: usize) -> Result<Poly, RefusalReason>
    ensures { result ≡ rules.turns_at table.now begin }
{
    turns_where(table.facts(begin), table.facts_behind(begin))
}

// The product, where it does not overflow.
fn product_of(one: &Poly, two: &Poly) -> Result<Poly, RefusalReason>
    ensures { result ≡ rules.product_of one.now two.now }
{
    one.mul(two).ok_or(RefusalReason::Overflow)
}

// The product of the turns of the iterations that are open at a node.
fn turns_round(nodes: &Nodes<'_>, table: &Table, number: usize) -> Result<Poly, RefusalReason>
    requires one { 0 < number }
    requires last { number ≤ length nodes.now }
    ensures { result ≡ rules.turns_round table.now (node_at nodes.now number).stand.iterations }
{
    let mut rounds = Poly::number(1);
    for at in (0..depth(nodes, number)).rev() {
        if let Some(begin) = iteration(nodes, number, at) {
            rounds = product_of(&turns_at(table, begin)?, &rounds)?;
        }
    }
    Ok(rounds)
}

// Whether two numbers are the same, or neither is there.
fn are_same(one: Option<usize>, other: Option<usize>) -> bool
    ensures { IsTrue result → one ≡ other }
{
    match (one, other) {
        (None, None) => true,
        (Some(one), Some(other)) => one == other,
        _ => false,
    }
}

// Whether the same iterations are open at two nodes.
fn have_same_iterations(nodes: &Nodes<'_>, one: usize, other: usize) -> bool
    requires one { 0 < one }
    requires one_last { one ≤ length nodes.now }
    requires other { 0 < other }
    requires other_last { other ≤ length nodes.now }
    ensures { IsTrue result → (node_at nodes.now one).stand.iterations
        ≡ (node_at nodes.now other).stand.iterations }
{
    if depth(nodes, one) != depth(nodes, other) {
        return false;
    }
    for at in 0..depth(nodes, one) {
        if !are_same(iteration(nodes, one, at), iteration(nodes, other, at)) {
            return false;
        }
    }
    true
}

// The product of the turns of the iterations that are open at the node of a number, if there is
// one.
#[derive(Clone, Copy)]
struct Rounds {
    number: usize,
    product: Result<Poly, RefusalReason>,
}

impl Rounds {
    // Those of no node.
    fn of_none() -> Rounds
        ensures { result.number ≡ 0 }
    {
        Rounds {
            number: 0,
            product: Ok(Poly::number(1)),
        }
    }

    // Those of a node, which are mostly those of the node before.
    fn of(self, nodes: &Nodes<'_>, table: &Table, number: usize) -> Rounds
        requires one { 0 < number }
        requires last { number ≤ length nodes.now }
        requires known { AreRounds nodes.now table.now self }
        ensures number { result.number ≡ number }
        ensures product { result.product ≡ rules.turns_round table.now (node_at nodes.now
            number).stand.iterations }
    {
        if self.number > 0 && have_same_iterations(nodes, self.number, number) {
            return Rounds {
                number,
                product: self.product,
            };
        }
        let product = turns_round(nodes, table, number);
        Rounds { number, product }
    }
}

// The most steps of an element; a return takes one.
fn steps_of(read: &Option<Element<'_>>, facts: &Facts) -> Result<Poly, RefusalReason>
    ensures { result ≡ rules.steps_of (option_map elements.seen read.now) facts.now }
{
    match read {
        None => Ok(Poly::number(1)),
        Some(element) => steps(element.kind, facts),
    }
}

// The steps of a node that is reached, once for each turn of each iteration round it.
fn weight(
    nodes: &Nodes<'_>,
    table: &Table,
    number: usize,
    rounds: &Result<Poly, RefusalReason>,
) -> Result<Poly, RefusalReason>
    requires one { 0 < number }
    requires last { number ≤ length nodes.now }
    requires rounds { rounds.now ≡ rules.turns_round table.now (node_at nodes.now
        number).stand.iterations }
    ensures { result ≡ rules.weight table.now (node_at nodes.now number) (facts_at table.now
        number) }
{
    let Some(facts) = table.facts(number) else {
        return Ok(Poly::number(0));
    };
    let own = steps_of(&element(nodes, number), facts)?;
    match rounds {
        Ok(rounds) => product_of(&own, rounds),
        Err(why) => Err(*why),
    }
}

// What is counted with a node.
fn counted_with(
    nodes: &Nodes<'_>,
    table: &Table,
    number: usize,
    rounds: &Result<Poly, RefusalReason>,
    total: &Poly,
) -> Result<Poly, RefusalReason>
    requires one { 0 < number }
    requires last { number ≤ length nodes.now }
    requires rounds { rounds.now ≡ rules.turns_round table.now (node_at nodes.now
        number).stand.iterations }
    ensures { result ≡ rules.counted_with table.now number (node_at nodes.now number) total.now }
{
    let more = weight(nodes, table, number, rounds)?;
    sum_of(total, &more)
}

// The steps before the first node: the digits of the argument are one, where one is declared.
fn steps_before(argument: Option<ArgumentRange>) -> u64
    ensures { result ≡ rules.steps_before argument }
{
    match argument {
        None => 0,
        Some(_) => 1,
    }
}

/// The most steps that a run takes: the sum over the nodes, each with its steps, once for each turn
/// round it; and the digits of the argument, where one is declared.
#[tactic(auto, unfolding(teco_verifier::specs::table::Printed::commands))]
pub fn commands(
    argument: Option<ArgumentRange>,
    nodes: &Nodes<'_>,
    table: &Table,
) -> Result<Poly, Overflow>
    ensures value { Prints (rules.commands argument nodes.now table.now) result }
    ensures told { OverflowsAt nodes.now result }
{
    let mut total = Poly::number(steps_before(argument));
    let mut rounds = Rounds::of_none();
    for at in 0..nodes.len() {
        rounds = rounds.of(nodes, table, at + 1);
        match counted_with(nodes, table, at + 1, &rounds.product, &total) {
            Ok(more) => total = more,
            Err(_) => return Err(Overflow { node: at + 1 }),
        }
    }
    Ok(total)
}

// The join with the length of each text.
fn joined_with(texts: &[Poly], most: Poly) -> Result<Poly, RefusalReason>
    ensures { result ≡ rules.joined_with texts.now most }
{
    let mut joined = most;
    for text in texts {
        joined = joined.join(text).ok_or(RefusalReason::Overflow)?;
    }
    Ok(joined)
}

// The join with what is held, and with each text.
fn sized_with(facts: Option<&Facts>, most: &Poly) -> Result<Poly, RefusalReason>
    ensures { result ≡ rules.sized_with (option_copied facts.entry) most.now }
{
    match facts {
        None => Ok(*most),
        Some(facts) => {
            let joined = most.join(&facts.held()).ok_or(RefusalReason::Overflow)?;
            joined_with(&facts.texts(), joined)
        }
    }
}

/// The most that is held: at least what is held, and each text, wherever that is reached.
pub fn size(nodes: &Nodes<'_>, table: &Table) -> Result<Poly, Overflow>
    ensures value { Prints (rules.size nodes.now table.now) result }
    ensures told { OverflowsAt nodes.now result }
{
    let mut most = Poly::number(0);
    for at in 0..nodes.len() {
        match sized_with(table.facts_behind(at), &most) {
            Ok(more) => most = more,
            Err(_) => return Err(Overflow { node: at + 1 }),
        }
    }
    Ok(most)
}

// No file.
fn no_needs() -> Needs
    ensures { result ≡ needs.no_needs }
{
    Needs {
        input: false,
        output: false,
    }
}

// The files that one or the other needs.
fn both_needs(one: Needs, two: Needs) -> Needs
    ensures { result ≡ rules.both_needs one two }
{
    Needs {
        input: one.input || two.input,
        output: one.output || two.output,
    }
}

// The files that an element needs; where the rules refuse, none.
fn known_needs(read: &Option<Element<'_>>, facts: &Facts) -> Needs
    ensures { result ≡ rules.needs_of (option_map elements.seen read.now) facts.now }
{
    match read {
        None => no_needs(),
        Some(element) => match needs_of(element.kind, facts) {
            Ok(needs) => needs,
            Err(_) => no_needs(),
        },
    }
}

// The files that a node needs, where it is reached.
fn needs_at(nodes: &Nodes<'_>, table: &Table, number: usize) -> Needs
    requires one { 0 < number }
    requires last { number ≤ length nodes.now }
    ensures { result ≡ option_map_or (rules.needs_of (node_at nodes.now number).element)
        (facts_at table.now number) needs.no_needs }
{
    match table.facts(number) {
        None => no_needs(),
        Some(facts) => known_needs(&element(nodes, number), facts),
    }
}

/// The files that must be open, where an element that is reached needs them.
pub fn needs_in(nodes: &Nodes<'_>, table: &Table) -> Needs
    ensures { result ≡ rules.needs_in nodes.now table.now }
{
    let mut needs = no_needs();
    for at in (0..nodes.len()).rev() {
        needs = both_needs(needs_at(nodes, table, at + 1), needs);
    }
    needs
}
