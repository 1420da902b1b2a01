//! When what is known at the end of an edge is covered by what is known at its target.
ghost use Rattle.std.specs.Prelude.{◌≡◌, ◌&&◌};
ghost use Rattle.teco_verifier.specs.facts.Covers as covers;

use crate::{
    Answer, Covers, Facts, Fall, Iteration, LevelFacts, Margins, Number, Position, Pushed, Range,
    each_covers,
};
use teco_model::Operator;
use teco_poly::Poly;
use teco_stack::Chain;
use teco_verifier::Value;

// Whether two numbers are the same.
fn are_equal(one: i64, two: i64) -> bool
    ensures { result ≡ covers.are_equal one two }
{
    one <= two && two <= one
}

// Whether each distance counts as often in both numbers.
fn counts_as_often(one: Value, edge: Value) -> bool
    ensures { result ≡ (covers.are_equal one.ahead edge.ahead
        && covers.are_equal one.behind edge.behind) }
{
    are_equal(one.ahead, edge.ahead) && are_equal(one.behind, edge.behind)
}

// Whether what else there is has the same ends.
fn has_same_ends(one: Value, edge: Value) -> bool
    ensures { result ≡ (covers.are_equal one.lo edge.lo && covers.are_equal one.hi edge.hi) }
{
    are_equal(one.lo, edge.lo) && are_equal(one.hi, edge.hi)
}

// Whether two numbers have the same parts.
fn is_same(one: Value, edge: Value) -> bool
    ensures { result ≡ covers.is_same one edge }
{
    counts_as_often(one, edge) && has_same_ends(one, edge)
}

// Whether no distance counts in a number.
fn is_interval(n: Value) -> bool
    ensures { result ≡ covers.is_interval n }
{
    are_equal(n.ahead, 0) && are_equal(n.behind, 0)
}

// Whether a linear number is the same, or a range has all that the other number may be; and what is
// saved is saved on the edge.
#[tactic(auto, using(crate::proofs::Wholes::wholes))]
fn covers_value(margins: Margins, one: Number, edge: Number) -> bool
    ensures { result ≡ covers.covers_value margins one edge }
{
    let n = one.value;
    if !n.saved.covers(&edge.value.saved) {
        false
    } else if is_interval(n) {
        one.ends().covers(&edge.range(margins))
    } else {
        is_same(n, edge.value)
    }
}

// Whether numbers that may be absent are both there and covered, or both absent.
fn covers_if_any(margins: Margins, one: Option<Number>, edge: Option<Number>) -> bool
    ensures { result ≡ covers.both_cover (covers.covers_value margins) one edge }
{
    match (one, edge) {
        (None, None) => true,
        (Some(one), Some(edge)) => covers_value(margins, one, edge),
        _ => false,
    }
}

// Whether two operators are the same, or there is none.
fn is_same_operator(one: Option<Operator>, edge: Option<Operator>) -> bool
    ensures { result ≡ covers.both_cover covers.is_same_operator one edge }
{
    matches!(
        (one, edge),
        (None, None)
            | (Some(Operator::Plus), Some(Operator::Plus))
            | (Some(Operator::Minus), Some(Operator::Minus))
            | (Some(Operator::Times), Some(Operator::Times))
            | (Some(Operator::Over), Some(Operator::Over))
            | (Some(Operator::And), Some(Operator::And))
            | (Some(Operator::Or), Some(Operator::Or))
    )
}

impl LevelFacts {
    /// Whether the level covers that of an edge, which has the same shape.
    pub(crate) fn covers(self, edge: LevelFacts, margins: Margins) -> bool
        ensures { result ≡ covers.covers_level margins self edge }
    {
        covers_if_any(margins, self.first, edge.first)
            && covers_if_any(margins, self.value, edge.value)
            && is_same_operator(self.operator, edge.operator)
    }
}

impl Margins {
    /// Whether the distances are smaller, or the same.
    pub(crate) fn covers(self, edge: Margins) -> bool
        ensures { result ≡ covers.covers_distances self edge }
    {
        self.back <= edge.back && self.fore <= edge.fore
    }
}

impl Covers for Range {
    ghost covers = { covers.covers_interval };

    fn covers(&self, edge: &Range) -> bool {
        self.lo <= edge.lo && edge.hi <= self.hi
    }
}

impl Covers for Fall {
    ghost covers = { covers.covers_fall };

    fn covers(&self, edge: &Fall) -> bool {
        self.is_at_most(*edge)
    }
}

// A text may be longer.
impl Covers for Poly {
    ghost covers = { covers.covers_length };

    fn covers(&self, edge: &Poly) -> bool {
        edge.le(self)
    }
}

// What is saved here is saved on the edge.
impl Covers for bool {
    ghost covers = { covers.covers_saved };

    fn covers(&self, edge: &bool) -> bool {
        !*self || *edge
    }
}

impl Position {
    /// Whether the position covers that of an edge.
    pub(crate) fn covers(&self, edge: &Position) -> bool
        ensures { result ≡ covers.covers_position self.now edge.now }
    {
        self.margins.covers(edge.margins)
            && each_covers(self.falls.as_slice(), edge.falls.as_slice())
            && edge.ahead.le(&self.ahead)
            && each_covers(&self.saved, &edge.saved)
    }
}

// An iteration has a count at both, or at neither, and as many pushes.
impl Covers for Iteration {
    ghost covers = { covers.is_same_iteration };

    fn covers(&self, edge: &Iteration) -> bool {
        self.counted == edge.counted && self.pushes == edge.pushes
    }
}

impl Covers for Pushed {
    ghost covers = { covers.covers_pushed };

    fn covers(&self, edge: &Pushed) -> bool {
        self.number.covers(&edge.number) && edge.text.le(&self.text)
    }
}

/// Whether each pushed pair is covered, of as many.
pub fn covers_pairs(mut one: &Chain<Pushed>, mut edge: &Chain<Pushed>) -> bool
    ensures { result ≡ covers.each_covers covers.covers_pushed one.now edge.now }
{
    loop {
        let Some((pair, one_below)) = one.parts() else {
            return edge.parts().is_none();
        };
        let Some((arriving, edge_below)) = edge.parts() else {
            return false;
        };
        if !pair.covers(arriving) {
            return false;
        }
        one = one_below;
        edge = edge_below;
    }
}

// Whether an answer is there only where the edge has one, whose outcomes are covered.
fn covers_answer(one: &Option<Answer>, edge: &Option<Answer>) -> bool
    ensures { result ≡ covers.covers_answer one.now edge.now }
{
    match (one, edge) {
        (None, _) => true,
        (Some(one), Some(edge)) => {
            one.found().covers(edge.found()) && one.failed().covers(edge.failed())
        }
        (Some(_), None) => false,
    }
}

impl Facts {
    /// Whether the same iterations are open: with a count at the same ones, and as many pushes at
    /// each <.
    pub fn has_iterations_of(&self, edge: &Facts) -> bool
        ensures { result ≡ covers.each_covers covers.is_same_iteration self.now.iterations
            edge.now.iterations }
    {
        each_covers(
            self.known.iterations.as_slice(),
            edge.known.iterations.as_slice(),
        )
    }

    /// Whether what is known here covers what is known at the end of an edge: it says no more.
    pub fn covers(&self, edge: &Facts) -> bool
        ensures { result ≡ covers.covers self.now edge.now }
    {
        let (known, arriving) = (&*self.known, &*edge.known);
        let (registers, others) = (&*known.registers, &*arriving.registers);
        known
            .arguments
            .covers(&arriving.arguments, arriving.position.margins)
            && covers_answer(&known.answer, &arriving.answer)
            && known.position.covers(&arriving.position)
            && self.has_iterations_of(edge)
            && arriving.held.le(&known.held)
            && each_covers(&registers.numbers, &others.numbers)
            && each_covers(&registers.texts, &others.texts)
            && covers_pairs(known.pushes.chain(), arriving.pushes.chain())
    }
}
