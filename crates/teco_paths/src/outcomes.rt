//! What comes of the element of a node.
ghost use Rattle.std.specs.Prelude.{◌≡◌, ◌<◌, ◌≤◌, length, IfOk, Some, true, false};
ghost use Rattle.std.specs.Bool.{OnTrue};
ghost use Rattle.teco_model.specs.declared.kind.Kind.TheVariants as kinds;
ghost use Rattle.teco_model.specs.Element as model;
ghost use Rattle.teco_model.specs.Element.{seen};
ghost use Rattle.teco_search_outcomes.specs.Pages.{PageLaw};
ghost use Rattle.teco_paths.specs.Steps.{HasPair, IsMet, IsRead, LawAt, Passes};

use crate::course::MacroGraph;
use crate::fault::PathFault;
use std::alloc::Global;
use teco_flow_outcomes::flow::turn;
use teco_model::kind::{Flow, Page, Search};
use teco_model::{Element, Kind, Needs};
use teco_outcomes::elements::outcomes_of;
use teco_rows::case::Case;
use teco_rows::fault::RowFault;
use teco_rows::outcomes::Outcomes;
use teco_search_outcomes::page_searches::search_pages;
use teco_search_outcomes::pages::{read_pages, write_pages};
use teco_search_outcomes::searches::search;

/// The outcomes of a step that changes nothing but the text that is executed.
pub fn passing(case: &Case, alloc: Global) -> Result<Outcomes, RowFault>
    ensures { IfOk result (λ all. Passes case.now all) }
{
    turn(case, Flow::EndTest, 0, alloc)
}

// Whether the law of an element is told without what is behind it.
fn has_pair(kind: Kind) -> bool
    ensures { OnTrue result (HasPair kind) }
{
    match kind {
        Kind::File(_) | Kind::Search(_) | Kind::Call(_) => false,
        _ => true,
    }
}

// Whether a search may be told: where it does not answer, it is in an iteration.
fn is_told(answers: bool, is_inside: bool) -> bool
    ensures { OnTrue result (answers ≡ false → true ≡ is_inside) }
{
    answers || is_inside
}

// The outcomes of a command on pages.
fn told_of(case: &Case, page: Page, alloc: Global) -> Result<Outcomes, RowFault>
    ensures { IfOk result (λ all. (e : model.Element) → e.kind ≡ kinds.Page page → PageLaw page e case.now all) }
{
    match page {
        Page::Next | Page::Write => write_pages(case, page, alloc),
        Page::Append | Page::Yank => read_pages(case, page, alloc),
    }
}

// The outcomes of a search. It answers where it has a colon or ; is behind it, and else leaves its
// iteration, where one is open in its text.
fn search_at(
    course: &MacroGraph<'_>,
    number: usize,
    case: &Case,
    element: &Element,
    alloc: Global,
) -> Result<Outcomes, PathFault>
    requires one { 0 < number }
    requires last { number ≤ length course.now.nodes }
    requires reads { IsRead course.now.nodes number (Some (seen element.now)) }
    ensures { IfOk result (λ all. LawAt course.now.nodes course.now.needs number (seen element.now) case.now all) }
{
    teco_law_runs::laws::nodes_are_sound();
    let Kind::Search(kind) = element.kind else {
        return Err(PathFault::NotTold(number));
    };
    let answers = course.nodes.colon(number);
    let is_inside = course.nodes.inside(number);
    if !is_told(answers, is_inside) {
        return Err(PathFault::NotTold(number));
    }
    match search(case, kind, element, answers, alloc) {
        Ok(all) => Ok(all),
        Err(_) => Err(PathFault::NotTold(number)),
    }
}

// Whether the file that a command on pages wants is open.
fn is_met(needs: Needs, page: Page) -> bool
    ensures { OnTrue result (IsMet needs page) }
{
    match page {
        Page::Next | Page::Write => needs.output,
        Page::Append | Page::Yank => needs.input,
    }
}

// The outcomes of a search over pages, where an output is open.
fn long_search_at(
    course: &MacroGraph<'_>,
    number: usize,
    case: &Case,
    element: &Element,
    alloc: Global,
) -> Result<Outcomes, PathFault>
    requires one { 0 < number }
    requires last { number ≤ length course.now.nodes }
    requires reads { IsRead course.now.nodes number (Some (seen element.now)) }
    ensures { IfOk result (λ all. LawAt course.now.nodes course.now.needs number (seen element.now) case.now all) }
{
    teco_law_runs::laws::nodes_are_sound();
    let Kind::Search(kind) = element.kind else {
        return Err(PathFault::NotTold(number));
    };
    if !is_met(course.needs, Page::Next) {
        return Err(PathFault::NotOpen(number));
    }
    let answers = course.nodes.colon(number);
    let is_inside = course.nodes.inside(number);
    if !is_told(answers, is_inside) {
        return Err(PathFault::NotTold(number));
    }
    match search_pages(case, kind, element, answers, alloc) {
        Ok(all) => Ok(all),
        Err(_) => Err(PathFault::NotTold(number)),
    }
}

// The outcomes of a command on pages, where its file is open.
fn page_at(
    course: &MacroGraph<'_>,
    number: usize,
    case: &Case,
    element: &Element,
    alloc: Global,
) -> Result<Outcomes, PathFault>
    requires one { 0 < number }
    requires last { number ≤ length course.now.nodes }
    requires reads { IsRead course.now.nodes number (Some (seen element.now)) }
    ensures { IfOk result (λ all. LawAt course.now.nodes course.now.needs number (seen element.now) case.now all) }
{
    teco_law_runs::laws::nodes_are_sound();
    let Kind::Page(page) = element.kind else {
        return Err(PathFault::NotTold(number));
    };
    if !is_met(course.needs, page) {
        return Err(PathFault::NotOpen(number));
    }
    match told_of(case, page, alloc) {
        Ok(all) => Ok(all),
        Err(_) => Err(PathFault::NotTold(number)),
    }
}

// The outcomes of any other element, where a sum fits 32 bits.
fn fitting_at(
    course: &MacroGraph<'_>,
    number: usize,
    case: &Case,
    element: &Element,
    alloc: Global,
) -> Result<Outcomes, PathFault>
    requires one { 0 < number }
    requires last { number ≤ length course.now.nodes }
    requires reads { IsRead course.now.nodes number (Some (seen element.now)) }
    ensures { IfOk result (λ all. LawAt course.now.nodes course.now.needs number (seen element.now) case.now all) }
{
    teco_law_runs::laws::nodes_are_sound();
    if !has_pair(element.kind) {
        return Err(PathFault::NotTold(number));
    }
    match outcomes_of(case, element, false, alloc) {
        Ok(all) => Ok(all),
        Err(_) => Err(PathFault::NotTold(number)),
    }
}

// The outcomes of a command on pages, or of `nA`, which tells a character.
fn page_or_character(
    course: &MacroGraph<'_>,
    number: usize,
    case: &Case,
    element: &Element,
    alloc: Global,
) -> Result<Outcomes, PathFault>
    requires one { 0 < number }
    requires last { number ≤ length course.now.nodes }
    requires reads { IsRead course.now.nodes number (Some (seen element.now)) }
    ensures { IfOk result (λ all. LawAt course.now.nodes course.now.needs number (seen element.now) case.now all) }
{
    match fitting_at(course, number, case, element, alloc) {
        Ok(all) => Ok(all),
        Err(_) => page_at(course, number, case, element, alloc),
    }
}

/// The outcomes of an element at its node, where a sum fits 32 bits.
pub fn outcomes_at(
    course: &MacroGraph<'_>,
    number: usize,
    case: &Case,
    element: &Element,
    alloc: Global,
) -> Result<Outcomes, PathFault>
    requires one { 0 < number }
    requires last { number ≤ length course.now.nodes }
    requires reads { IsRead course.now.nodes number (Some (seen element.now)) }
    ensures { IfOk result (λ all. LawAt course.now.nodes course.now.needs number (seen element.now) case.now all) }
{
    match element.kind {
        Kind::Search(Search::FindInPages | Search::ReplaceInPages) => {
            long_search_at(course, number, case, element, alloc)
        }
        Kind::Search(_) => search_at(course, number, case, element, alloc),
        Kind::Page(_) => page_or_character(course, number, case, element, alloc),
        _ => fitting_at(course, number, case, element, alloc),
    }
}

/// The outcomes of an element at its node, where a sum may be any number of 32 bits.
pub fn wrapped_at(
    course: &MacroGraph<'_>,
    number: usize,
    case: &Case,
    element: &Element,
    alloc: Global,
) -> Result<Outcomes, PathFault>
    requires one { 0 < number }
    requires last { number ≤ length course.now.nodes }
    requires reads { IsRead course.now.nodes number (Some (seen element.now)) }
    ensures { IfOk result (λ all. LawAt course.now.nodes course.now.needs number (seen element.now) case.now all) }
{
    teco_law_runs::laws::nodes_are_sound();
    if !has_pair(element.kind) {
        return Err(PathFault::Condition(number));
    }
    match outcomes_of(case, element, true, alloc) {
        Ok(all) => Ok(all),
        Err(_) => Err(PathFault::Condition(number)),
    }
}
