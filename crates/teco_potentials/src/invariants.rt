//! Invariants that show conditions which bounds do not.
use crate::known_claims::KnownClaims;
use crate::potentials::{PotentialProgram, lowest};
use teco_bounds::programs::{Coefficient, Multiple, add_form};
use teco_bounds::record::OpenCondition;
use teco_bounds::web::Web;
use teco_bounds::workspace::{Stop, Workspace};
use teco_linear::Form;
use teco_simplex::Assignment;

// The most pivots of a program.
const PIVOTS: usize = 2000;

// A span of nodes: that of an iteration's first element, and that of its last.
type Span = (usize, usize);

// Whether two conditions are the same.
fn is_same(one: &OpenCondition, other: &OpenCondition, space: &mut Workspace) -> bool {
    let is_alike = one.number == other.number && one.source == other.source;
    is_alike
        && space
            .difference(&one.wanted, &other.wanted)
            .terms()
            .is_empty()
}

// Takes away what is claimed at a key; at the entry that is nothing.
fn add_source(sought: &mut PotentialProgram<'_>, entries: &mut Vec<Coefficient>, source: usize) {
    let web = sought.web;
    match web.starts.get(source) {
        Some(start) if source != 0 => sought.add_sum(entries, source, &start.forms, -1),
        _ => {}
    }
}

// That what is claimed is so where paths lead to. By what is claimed where they begin that is shown for
// those in a span of nodes alone, if there is one.
fn add_legs(sought: &mut PotentialProgram<'_>, span: Option<Span>) {
    let web = sought.web;
    for leg in &web.legs {
        let Some(target) = leg.target else {
            continue;
        };
        let mut entries = sought.entries();
        sought.add_sum(&mut entries, target, &leg.forms, 1);
        let is_by_source = match span {
            Some(span) => web.is_within(leg, span),
            None => true,
        };
        if is_by_source {
            add_source(sought, &mut entries, leg.source);
        }
        sought.imply_on(leg, &entries);
    }
}

// What values claim at each key.
fn claims_of(sought: &mut PotentialProgram<'_>, values: &Assignment) -> Vec<Form> {
    let mut claims = Vec::new(sought.draft.space.alloc);
    for key in 0..sought.web.starts.len() {
        let form = sought.form_at(key, values);
        let claim = lowest(&form, &mut sought.draft.space);
        sought.draft.space.push(&mut claims, claim);
    }
    claims
}

// Makes the program of claims that show a condition.
fn want(sought: &mut PotentialProgram<'_>, open: &OpenCondition, span: Option<Span>) {
    add_legs(sought, span);
    let mut entries = sought.entries();
    add_source(sought, &mut entries, open.source);
    add_form(
        &mut entries,
        &open.wanted,
        &Multiple::of(1),
        &mut sought.draft.space,
    );
    sought.imply(open.source, &open.constraints, &entries);
    sought.settle();
}

// What is claimed at each key to show a condition, if that is found, and the work that is spent on it.
fn tried(
    web: &Web,
    known: &KnownClaims,
    open: &OpenCondition,
    span: Option<Span>,
    space: &mut Workspace,
) -> (Option<Vec<Form>>, usize) {
    let mut sought = PotentialProgram::of_measures(web, known, space.alloc);
    want(&mut sought, open, span);
    let claims = match sought.values(PIVOTS) {
        Some(values) => Some(claims_of(&mut sought, &values)),
        None => None,
    };
    space.follow(&sought.draft.space);
    (claims, sought.draft.work(PIVOTS))
}

// What is claimed at each key to show a condition, if that is found.
fn invariant(
    web: &Web,
    known: &mut KnownClaims,
    open: &OpenCondition,
    span: Option<Span>,
    space: &mut Workspace,
) -> Option<Vec<Form>> {
    let (found, work) = tried(web, known, open, span, space);
    known.spend(work);
    found
}

// What is claimed to show a condition: at all keys, or in one of the iterations round it.
fn any_invariant(
    web: &Web,
    known: &mut KnownClaims,
    open: &OpenCondition,
    space: &mut Workspace,
) -> Option<Vec<Form>> {
    let mut found = invariant(web, known, open, None, space);
    let Some(start) = web.starts.get(open.source) else {
        return found;
    };
    for span in &start.around {
        if found.is_some() || space.is_stopped() {
            break;
        }
        found = invariant(web, known, open, Some(*span), space);
    }
    found
}

// Whether a condition is none of others.
fn is_new(open: &OpenCondition, others: &[OpenCondition], space: &mut Workspace) -> bool {
    for other in others {
        if is_same(open, other, space) {
            return false;
        }
    }
    true
}

// Adds to what is known what shows all open conditions.
pub fn add_invariants(web: &Web, known: &mut KnownClaims, space: &mut Workspace) {
    let opens = &web.record.opens;
    for (at, open) in opens.iter().enumerate() {
        if space.is_stopped() {
            break;
        }
        if !is_new(open, opens.get(..at).unwrap_or(&[]), space) {
            continue;
        }
        match any_invariant(web, known, open, space) {
            Some(claims) => known.add(claims, &[], space),
            None => space.stop(Stop::Condition(open.number)),
        }
    }
}
