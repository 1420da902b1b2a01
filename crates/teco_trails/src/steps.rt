//! One step of a path of the search.
ghost use Rattle.std.specs.Prelude.{◌<◌, ◌≤◌, length};

use crate::cuts::kind_at;
use crate::fault::{SearchRefusal, SearchStop};
use crate::notes::PathNotes;
use crate::trail::{AskedTrail, Trail};
use teco_bounds::bounds::Bounds;
use teco_bounds::forms::{constant, form_in};
use teco_bounds::measures::{HELD, LENGTH, place_of};
use teco_bounds::workspace::Workspace;
use teco_linear::Form;
use teco_model::Kind;
use teco_model::kind::{Command, Stack, Storage};
use teco_paths::course::MacroGraph;
use teco_paths::fault::PathFault;
use teco_paths::outcomes::{outcomes_at, passing, wrapped_at};
use teco_paths::steps::is_plain;
use teco_paths::targets::target;
use teco_rows::case::Case;
use teco_rows::outcomes::{Guarded, Outcomes};

// Numbers from here on are limits, and not numbers of a macro.
const LARGE: i128 = 1 << 24;

// The greatest length.
const LONGEST: i128 = 1 << 28;

// Whether a condition says that a length is within the limit.
fn is_room(form: &Form) -> bool {
    let constant = constant(form);
    LARGE < constant && constant <= LONGEST + LARGE
}

// The constraints of a case behind those that are known at a trail.
fn more<'a>(trail: &Trail, constraints: &'a [Form]) -> &'a [Form] {
    let known = trail.case.constraints.len();
    constraints.get(known..).unwrap_or(&[])
}

// Whether a guarded condition is shown.
fn is_kept(trail: &Trail, guarded: &Guarded, space: &mut Workspace) -> bool {
    if is_room(&guarded.wanted) {
        return true;
    }
    let mut bounds = trail.bounds.copied(space);
    bounds.add_all(more(trail, &guarded.constraints), space);
    bounds.is_void() || bounds.shows(&guarded.wanted)
}

// The conditions that are not shown.
fn not_shown(trail: &Trail, conditions: Vec<Form>, notes: &mut PathNotes) -> Vec<Form> {
    let mut open = Vec::new(notes.space.alloc);
    let mut asked = AskedTrail::of(trail);
    for condition in conditions {
        if !asked.shows(&condition, notes) {
            notes.space.push(&mut open, condition);
        }
    }
    open
}

// The guarded conditions that are not shown.
fn not_kept(trail: &Trail, conditions: Vec<Guarded>, space: &mut Workspace) -> Vec<Guarded> {
    let mut open = Vec::new(space.alloc);
    for guarded in conditions {
        if !is_kept(trail, &guarded, space) {
            space.push(&mut open, guarded);
        }
    }
    open
}

// Leaves of the conditions of outcomes those that are not shown.
fn leave_open(trail: &Trail, outcomes: &mut Outcomes, notes: &mut PathNotes) {
    let alloc = notes.space.alloc;
    let conditions = std::mem::replace(&mut outcomes.conditions, Vec::new(alloc));
    outcomes.conditions = not_shown(trail, conditions, notes);
    let guarded = std::mem::replace(&mut outcomes.guarded, Vec::new(alloc));
    outcomes.guarded = not_kept(trail, guarded, &mut notes.space);
}

// What comes of an element that only passes.
fn passed(trail: &Trail, notes: &mut PathNotes) -> Option<Outcomes> {
    match passing(&trail.case, notes.space.alloc) {
        Ok(outcomes) => Some(outcomes),
        Err(fault) => {
            notes.stop(SearchStop::from(fault));
            None
        }
    }
}

// What comes of the element of a node, where a sum may pass 32 bits, if that is told.
fn wrapped(course: &MacroGraph<'_>, trail: &Trail, notes: &mut PathNotes) -> Option<Outcomes>
    requires one { 0 < trail.now.number }
    requires last { trail.now.number ≤ length course.now.nodes }
{
    let alloc = notes.space.alloc;
    let wrapped = match course.nodes.element(trail.number) {
        Some(element) => match element.kind {
            Kind::Call(_) => return None,
            _ => wrapped_at(course, trail.number, &trail.case, &element, alloc),
        },
        None => return None,
    };
    match wrapped {
        Err(PathFault::Memory) => {
            notes.refuse(SearchRefusal::Memory);
            None
        }
        wrapped => wrapped.ok(),
    }
}

// What comes of it.
fn fitting(course: &MacroGraph<'_>, trail: &Trail, notes: &mut PathNotes) -> Option<Outcomes>
    requires one { 0 < trail.now.number }
    requires last { trail.now.number ≤ length course.now.nodes }
{
    let alloc = notes.space.alloc;
    match course.nodes.element(trail.number) {
        Some(element) => match element.kind {
            Kind::Call(_) => passed(trail, notes),
            _ => {
                if !is_plain(course.nodes, trail.number, element.kind) {
                    notes.refuse(SearchRefusal::NotTold(trail.number));
                    return None;
                }
                notes.take(outcomes_at(course, trail.number, &trail.case, &element, alloc))
            }
        },
        None => passed(trail, notes),
    }
}

// Takes what comes of it where a sum may pass 32 bits in place of outcomes of which more is open.
fn take_wrapped(
    course: &MacroGraph<'_>,
    trail: &Trail,
    outcomes: &mut Outcomes,
    notes: &mut PathNotes,
)
    requires one { 0 < trail.now.number }
    requires last { trail.now.number ≤ length course.now.nodes }
{
    if let Some(mut second) = wrapped(course, trail, notes) {
        leave_open(trail, &mut second, notes);
        if second.conditions.len() < outcomes.conditions.len() {
            *outcomes = second;
        }
    }
}

// What comes of it, with those of its conditions that bounds do not show.
fn ask(course: &MacroGraph<'_>, trail: &Trail, notes: &mut PathNotes) -> Option<Outcomes>
    requires one { 0 < trail.now.number }
    requires last { trail.now.number ≤ length course.now.nodes }
{
    let mut outcomes = fitting(course, trail, notes)?;
    leave_open(trail, &mut outcomes, notes);
    if !outcomes.conditions.is_empty() || !outcomes.guarded.is_empty() {
        take_wrapped(course, trail, &mut outcomes, notes);
    }
    Some(outcomes)
}

// The place of the measure that a command on registers may raise to a limit.
fn text_of(storage: Storage) -> u32 {
    match storage {
        Storage::Copy(register) => place_of(LENGTH, register),
        Storage::SetText(register) => place_of(LENGTH, register),
        _ => HELD,
    }
}

// The place of the measure that an element may raise to a limit: a text's length, or what is held.
fn limited(course: &MacroGraph<'_>, number: usize) -> u32
    requires one { 0 < number }
    requires last { number ≤ length course.now.nodes }
{
    let Some(element) = course.nodes.element(number) else {
        return HELD;
    };
    match element.kind {
        Kind::Command(Command::Storage(storage)) => text_of(storage),
        _ => HELD,
    }
}

// Notes a condition that is not shown, and tells the last peak then.
fn note(
    course: &MacroGraph<'_>,
    trail: &Trail,
    form: &Form,
    peak: Option<usize>,
    notes: &mut PathNotes,
) -> Option<usize>
    requires one { 0 < trail.now.number }
    requires last { trail.now.number ≤ length course.now.nodes }
{
    let case = &trail.case;
    let space = &mut notes.space;
    if !is_room(form) {
        notes
            .record
            .open(trail.number, form, &case.constraints, &case.forms, space);
        return peak;
    }
    let place = limited(course, trail.number);
    let longest = space.constant(LONGEST);
    let most = space.difference(&longest, form);
    notes
        .record
        .peak(peak, place, &most, &case.constraints, space)
}

// Notes the conditions that are not shown, and tells the last peak.
fn noted(
    course: &MacroGraph<'_>,
    trail: &Trail,
    open: &Outcomes,
    notes: &mut PathNotes,
) -> Option<usize>
    requires one { 0 < trail.now.number }
    requires last { trail.now.number ≤ length course.now.nodes }
{
    let mut peak = trail.peak;
    for form in &open.conditions {
        peak = note(course, trail, form, peak, notes);
    }
    let forms = &trail.case.forms;
    for guarded in &open.guarded {
        let (wanted, constraints) = (&guarded.wanted, &guarded.constraints);
        notes
            .record
            .open(trail.number, wanted, constraints, forms, &mut notes.space);
    }
    peak
}

// Whether what is held was raised.
fn is_raised(trail: &Trail, next: &Trail, space: &mut Workspace) -> bool {
    let was = form_in(&trail.case.forms, HELD);
    let is = form_in(&next.case.forms, HELD);
    match (was, is) {
        (Some(was), Some(is)) => !next.bounds.shows(&space.difference(was, is)),
        _ => false,
    }
}

// What a case behind a trail says of differences.
fn bounds_behind(trail: &Trail, case: &Case, space: &mut Workspace) -> Bounds {
    let new = more(trail, &case.constraints);
    let mut bounds = trail.bounds.copied(space);
    bounds.add_all(new, space);
    if bounds.is_rough() {
        bounds.add_all(new, space);
    }
    bounds
}

// Notes how much is held at a trail.
fn note_held(trail: &mut Trail, notes: &mut PathNotes) {
    let case = &trail.case;
    if let Some(held) = form_in(&case.forms, HELD) {
        let space = &mut notes.space;
        trail.peak = notes
            .record
            .peak(trail.peak, HELD, held, &case.constraints, space);
    }
}

// Takes to the trail behind another what is known and asked besides; says whether it may be taken.
fn complete(trail: &Trail, next: &mut Trail, open: &[Form], notes: &mut PathNotes) -> bool {
    let space = &mut notes.space;
    let is_raised = notes.record.is_kept && is_raised(trail, next, space);
    next.passed = notes.record.pass(trail.passed, trail.number, space);
    if trail.is_lean {
        next.make_lean();
    }
    for form in open {
        next.assume(form, space);
    }
    if next.bounds.is_void() {
        return false;
    }
    next.sharpen(space);
    if is_raised {
        note_held(next, notes);
    }
    next.compact(notes.record.first, &mut notes.space);
    next.forget(&mut notes.space);
    true
}

// Ways behind an element: whether they lead elsewhere than behind the element, the last peak before
// them, and what is asked besides.
#[derive(Clone, Copy)]
struct WaysBehind<'a> {
    is_away: bool,
    peak: Option<usize>,
    open: &'a [Form],
}

// The trail behind a way that is a case, if it may be taken.
fn along(
    course: &MacroGraph<'_>,
    trail: &Trail,
    case: Case,
    ways: &WaysBehind<'_>,
    notes: &mut PathNotes,
) -> Option<Trail>
    requires one { 0 < trail.now.number }
    requires last { trail.now.number ≤ length course.now.nodes }
{
    let bounds = bounds_behind(trail, &case, &mut notes.space);
    if bounds.is_void() {
        return None;
    }
    let number = notes.take(target(course.nodes, trail.number, ways.is_away, &case))?;
    let mut next = Trail {
        number,
        case,
        bounds,
        peak: ways.peak,
        passed: None,
        is_lean: false,
    };
    if complete(trail, &mut next, ways.open, notes) {
        Some(next)
    } else {
        None
    }
}

// The trails behind ways that are cases.
fn all_along(
    course: &MacroGraph<'_>,
    trail: &Trail,
    cases: Vec<Case>,
    ways: &WaysBehind<'_>,
    notes: &mut PathNotes,
) -> Vec<Trail>
    requires one { 0 < trail.now.number }
    requires last { trail.now.number ≤ length course.now.nodes }
{
    let mut trails = Vec::new(notes.space.alloc);
    for case in cases {
        if let Some(next) = along(course, trail, case, ways, notes) {
            notes.space.push(&mut trails, next);
        }
    }
    trails
}

// Whether an element pops.
fn is_pop(course: &MacroGraph<'_>, number: usize) -> bool {
    matches!(
        kind_at(course.nodes, number),
        Some(Kind::Stack(Stack::Pop(_)))
    )
}

// The trails behind one, by what comes of its element.
fn behind(
    course: &MacroGraph<'_>,
    trail: &Trail,
    asked: Outcomes,
    notes: &mut PathNotes,
) -> Vec<Trail>
    requires one { 0 < trail.now.number }
    requires last { trail.now.number ≤ length course.now.nodes }
{
    let peak = noted(course, trail, &asked, notes);
    let conditions = asked.conditions;
    let mut ways = WaysBehind {
        is_away: false,
        peak,
        open: &conditions,
    };
    let mut trails = all_along(course, trail, asked.cases, &ways, notes);
    ways.is_away = true;
    let mut others = all_along(course, trail, asked.away, &ways, notes);
    notes.space.append(&mut trails, &mut others);
    trails
}

// The trails behind one.
pub fn onward(course: &MacroGraph<'_>, trail: &Trail, notes: &mut PathNotes) -> Vec<Trail> {
    if trail.number == 0 || trail.number > course.nodes.len() {
        notes.give_up();
    } else if trail.case.shape.pushes == 0 && is_pop(course, trail.number) {
        notes.refuse(SearchRefusal::Condition(trail.number));
    } else if let Some(asked) = ask(course, trail, notes) {
        return behind(course, trail, asked, notes);
    }
    Vec::new(notes.space.alloc)
}
