//! One step of a path.
ghost use Rattle.std.specs.Prelude.{◌≡◌, ◌<◌, ◌≤◌, ◌≤ℤ◌, ◌+ℤ◌, ◌++◌, ℕ, length, pos, IfOk};
ghost use Rattle.teco_rows.specs.declared.measure.Single.TheVariants.{EntryHeld, Held};
ghost use Rattle.std.specs.Bool.{OnTrue};
ghost use Rattle.std.specs.List.{All};
ghost use Rattle.teco_model.specs.Element.{seen};
ghost use Rattle.teco_poly.specs.Polynomial.{value};
ghost use Rattle.teco_rows.specs.States.{Describes, Point, single as measure};
ghost use Rattle.teco_paths.specs.Paths.{Leads, LeadsOn};
ghost use Rattle.teco_paths.specs.Steps.{AreKept, AreSpots, GoOn, IsAskedAt, IsInTime, IsPlain, IsRead};
ghost use Rattle.teco_paths.specs.Steps.{GrowsNoMore, IsSmall, IsTextEnd, TypesNoMore};

use crate::course::{MacroGraph, form_of};
use crate::fault::PathFault;
use crate::outcomes::{outcomes_at, passing, wrapped_at};
use crate::possible::{MOST_CASES, possible};
use crate::spot::NodeCase;
use crate::targets::target;
use std::alloc::Global;
use teco_expansion::Nodes;
use teco_implied::{are_met, is_so};
use teco_model::kind::{Command, Stack, Storage};
use teco_model::{Element, Kind};
use teco_rows::case::Case;
use teco_rows::forms::single;
use teco_rows::measure::Single;
use teco_rows::outcomes::Outcomes;

// The spots of cases behind a node, by the way.
fn kept(
    nodes: &Nodes<'_>,
    number: usize,
    is_away: bool,
    cases: Vec<Case>,
    alloc: Global,
) -> Result<Vec<NodeCase>, PathFault>
    requires one { 0 < number }
    requires last { number ≤ length nodes.now }
    ensures { IfOk result (λ spots. AreKept nodes.now number is_away cases.items spots.items) }
{
    let mut rest = cases;
    let mut spots = Vec::new(alloc);
    'cases: for _ in 0..MOST_CASES {
        let Some(case) = rest.pop() else {
            return Ok(spots);
        };
        let number = target(nodes, number, is_away, &case)?;
        spots.push(NodeCase { number, case })?;
    }
    Err(PathFault::TooLong)
}

/// Whether an element may be followed: it writes no text of the library, and is no command of
/// files.
pub fn is_plain(nodes: &Nodes<'_>, number: usize, kind: Kind) -> bool
    requires one { 0 < number }
    requires last { number ≤ length nodes.now }
    ensures { OnTrue result (IsPlain nodes.now number kind) }
{
    match kind {
        Kind::File(_) | Kind::Call(_) => false,
        Kind::Stack(Stack::Pop(_)) => !nodes.names_macro(number),
        Kind::Command(Command::Storage(Storage::Copy(_))) => !nodes.names_macro(number),
        Kind::Command(Command::Storage(Storage::SetText(_))) => !nodes.names_macro(number),
        _ => true,
    }
}

// Whether what a case says of a measure is within a polynomial in N.
fn is_bounded(
    polynomial: &[u64],
    case: &Case,
    which: Single,
    alloc: Global,
) -> Result<bool, PathFault>
    ensures { IfOk result (λ answer. OnTrue answer ((n : ℕ) (s : Point) → Describes n case.now s
        → measure s which ≤ℤ pos (value polynomial.now n))) }
{
    let most = form_of(polynomial, alloc)?;
    let measured = single(case, which, alloc)?;
    let is_within = is_so(case, &most.sub(&measured, alloc)?, alloc)?;
    Ok(is_within)
}

// Whether a case says that no more is held than at the entry, with a polynomial in N.
fn is_grown_within(polynomial: &[u64], case: &Case, alloc: Global) -> Result<bool, PathFault>
    ensures { IfOk result (λ answer. OnTrue answer ((n : ℕ) (s : Point) → Describes n case.now s
        → measure s Held ≤ℤ (measure s EntryHeld +ℤ pos (value polynomial.now n)))) }
{
    let more = form_of(polynomial, alloc)?;
    let before = single(case, Single::EntryHeld, alloc)?;
    let most = before.add(&more, alloc)?;
    let held = single(case, Single::Held, alloc)?;
    let is_within = is_so(case, &most.sub(&held, alloc)?, alloc)?;
    Ok(is_within)
}

// Whether it says that the text has got no longer than is claimed, if that is.
fn grows_no_more(course: &MacroGraph<'_>, case: &Case, alloc: Global) -> Result<bool, PathFault>
    ensures { IfOk result (λ answer. OnTrue answer (GrowsNoMore course.now case.now)) }
{
    match course.grows {
        Some(grows) => is_grown_within(grows, case, alloc),
        None => Ok(true),
    }
}

/// Whether what a case says of how much is held is within the size that is claimed, and within how
/// much longer the text may get, if that is claimed.
pub fn is_small(course: &MacroGraph<'_>, case: &Case, alloc: Global) -> Result<bool, PathFault>
    ensures { IfOk result (λ answer. OnTrue answer (IsSmall course.now case.now)) }
{
    let is_fitting = is_bounded(course.size, case, Single::Held, alloc)?;
    let is_grown = grows_no_more(course, case, alloc)?;
    Ok(is_fitting && is_grown)
}

/// Whether the steps that a case says are within the commands that are claimed.
pub fn is_in_time(course: &MacroGraph<'_>, case: &Case, alloc: Global) -> Result<bool, PathFault>
    ensures { IfOk result (λ answer. OnTrue answer (IsInTime course.now case.now)) }
{
    is_bounded(course.commands, case, Single::Steps, alloc)
}

/// Whether the bytes that a case says were typed are within the bound that is claimed, if one is.
pub fn types_no_more(course: &MacroGraph<'_>, case: &Case, alloc: Global) -> Result<bool, PathFault>
    ensures { IfOk result (λ answer. OnTrue answer (TypesNoMore course.now case.now)) }
{
    match course.types {
        Some(types) => is_bounded(types, case, Single::Typed, alloc),
        None => Ok(true),
    }
}

// The spots of both ways.
fn joined(first: Vec<NodeCase>, second: Vec<NodeCase>) -> Result<Vec<NodeCase>, PathFault>
    ensures { IfOk result (λ all. all.items ≡ first.items ++ second.items) }
{
    let mut all = first;
    let mut rest = second;
    all.append(&mut rest)?;
    Ok(all)
}

// The spots of outcomes behind a node, where so many constraints are those of the case before.
fn spots_of(
    nodes: &Nodes<'_>,
    number: usize,
    known: usize,
    outcomes: Outcomes,
    alloc: Global,
) -> Result<Vec<NodeCase>, PathFault>
    requires one { 0 < number }
    requires last { number ≤ length nodes.now }
    ensures { IfOk result (λ spots. AreSpots nodes.now number outcomes spots.items) }
{
    let Outcomes {
        conditions: _conditions,
        guarded: _guarded,
        cases,
        away,
    } = outcomes;
    let here = possible(cases, known, alloc)?;
    let there = possible(away, known, alloc)?;
    let behind = kept(nodes, number, false, here, alloc)?;
    let elsewhere = kept(nodes, number, true, there, alloc)?;
    joined(behind, elsewhere)
}

// The outcomes of an element whose conditions a case implies: those where a sum fits 32 bits, or else
// those where it may not.
fn asked_at(
    course: &MacroGraph<'_>,
    number: usize,
    case: &Case,
    element: &Element,
    alloc: Global,
) -> Result<Outcomes, PathFault>
    requires one { 0 < number }
    requires last { number ≤ length course.now.nodes }
    requires reads { IsRead course.now.nodes number (Some (seen element.now)) }
    ensures { IfOk result (λ all. IsAskedAt course.now.nodes course.now.needs number (seen element.now) case.now all) }
{
    let outcomes = outcomes_at(course, number, case, element, alloc)?;
    let is_asked = are_met(case, &outcomes, alloc)?;
    if is_asked {
        return Ok(outcomes);
    }
    let wrapped = wrapped_at(course, number, case, element, alloc)?;
    let is_so = are_met(case, &wrapped, alloc)?;
    if !is_so {
        return Err(PathFault::Condition(number));
    }
    Ok(wrapped)
}

// The spots behind an element.
fn behind_element(
    course: &MacroGraph<'_>,
    number: usize,
    case: &Case,
    element: &Element,
    alloc: Global,
) -> Result<Vec<NodeCase>, PathFault>
    requires one { 0 < number }
    requires last { number ≤ length course.now.nodes }
    requires reads { IsRead course.now.nodes number (Some (seen element.now)) }
    ensures { IfOk result (λ spots. GoOn course.now.nodes course.now.needs number case.now spots.items) }
{
    teco_law_runs::laws::whole_is_kept();
    teco_law_runs::laws::steps_go_along_nodes();
    teco_law_runs::laws::stays_loaded();
    teco_law_runs::laws::nodes_are_sound();
    teco_law_runs::laws::files_stay_open();
    if !is_plain(course.nodes, number, element.kind) {
        return Err(PathFault::NotTold(number));
    }
    let outcomes = asked_at(course, number, case, element, alloc)?;
    spots_of(
        course.nodes,
        number,
        case.constraints.len(),
        outcomes,
        alloc,
    )
}

// The spots behind a call, or behind the end of a text.
fn behind_text(
    course: &MacroGraph<'_>,
    number: usize,
    case: &Case,
    alloc: Global,
) -> Result<Vec<NodeCase>, PathFault>
    requires one { 0 < number }
    requires last { number ≤ length course.now.nodes }
    requires reads { IsTextEnd course.now.nodes number }
    ensures { IfOk result (λ spots. GoOn course.now.nodes course.now.needs number case.now spots.items) }
{
    teco_law_runs::laws::whole_is_kept();
    teco_law_runs::laws::steps_go_along_nodes();
    teco_law_runs::laws::stays_loaded();
    teco_law_runs::laws::nodes_are_sound();
    teco_law_runs::laws::files_stay_open();
    if course.nodes.ways(number) != 1 {
        return Err(PathFault::NotTold(number));
    }
    let outcomes = passing(case, alloc)?;
    let is_asked = are_met(case, &outcomes, alloc)?;
    if !is_asked {
        return Err(PathFault::Condition(number));
    }
    spots_of(
        course.nodes,
        number,
        case.constraints.len(),
        outcomes,
        alloc,
    )
}

// The spots behind a node.
fn behind_node(
    course: &MacroGraph<'_>,
    number: usize,
    case: &Case,
    alloc: Global,
) -> Result<Vec<NodeCase>, PathFault>
    requires one { 0 < number }
    requires last { number ≤ length course.now.nodes }
    ensures { IfOk result (λ spots. GoOn course.now.nodes course.now.needs number case.now spots.items) }
{
    match course.nodes.element(number) {
        Some(element) => match element.kind {
            Kind::Call(_) => behind_text(course, number, case, alloc),
            _ => behind_element(course, number, case, &element, alloc),
        },
        None => behind_text(course, number, case, alloc),
    }
}

/// The spots behind one, from which a run ends if it does so from them, and holds no more than it
/// may, where all is as is said at the cut points there.
pub fn behind(
    course: &MacroGraph<'_>,
    number: usize,
    case: &Case,
    alloc: Global,
) -> Result<Vec<NodeCase>, PathFault>
    ensures { IfOk result (λ spots.
        All (LeadsOn course.now) spots.items → Leads course.now number case.now) }
{
    if number == 0 || number > course.nodes.len() {
        return Err(PathFault::NoElement(number));
    }
    let is_within = is_small(course, case, alloc)?;
    if !is_within {
        return Err(PathFault::Size(number));
    }
    behind_node(course, number, case, alloc)
}
