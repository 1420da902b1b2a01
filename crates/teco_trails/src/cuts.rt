//! Where paths are cut first.
use teco_bounds::workspace::Workspace;
use teco_expansion::Nodes;
use teco_model::Kind;
use teco_model::kind::Flow;

// Where the body of each iteration is cut.
#[derive(Clone, Copy)]
pub enum Cuts {
    // At its start.
    Starts,
    // At its end, so that paths go through its first turn.
    Ends,
    // Where a search of its own has answered, or else at its end.
    Answers,
}

// The kind of the element at a node, if one is there.
pub fn kind_at(nodes: &Nodes<'_>, number: usize) -> Option<Kind> {
    if number == 0 || number > nodes.len() {
        return None;
    }
    match nodes.element(number) {
        Some(element) => Some(element.kind),
        None => None,
    }
}

// Where the innermost iteration that is open at a node begins.
pub fn iteration_of(nodes: &Nodes<'_>, number: usize) -> Option<usize> {
    if number == 0 || number > nodes.len() {
        return None;
    }
    nodes.iteration(number, 0)
}

// Whether the answer of a search is asked for at a node.
fn is_asked(nodes: &Nodes<'_>, number: usize) -> bool {
    let is_search = matches!(
        kind_at(nodes, number.saturating_sub(1)),
        Some(Kind::Search(_))
    );
    let asks = matches!(
        kind_at(nodes, number),
        Some(Kind::Flow(Flow::Leave | Flow::Test(_)))
    );
    is_search && asks
}

// Marks a place.
fn mark(marks: &mut [bool], place: usize) {
    if let Some(slot) = marks.get_mut(place) {
        *slot = true;
    }
}

// Marks where the first search of each iteration has answered, and tells which iterations have one.
fn mark_answers(nodes: &Nodes<'_>, is_cut: &mut [bool], space: &mut Workspace) -> Vec<bool> {
    let mut has_search = space.repeated(false, nodes.len().saturating_add(2));
    for at in 0..nodes.len() {
        let number = at + 1;
        let Some(begin) = iteration_of(nodes, number) else {
            continue;
        };
        if is_asked(nodes, number) && has_search.get(begin) == Some(&false) {
            mark(&mut has_search, begin);
            mark(is_cut, number.saturating_add(1));
        }
    }
    has_search
}

// The node at which a turn of an iteration ends.
fn end_of(nodes: &Nodes<'_>, begin: usize) -> usize {
    for at in begin..nodes.len() {
        let number = at + 1;
        let is_end = matches!(kind_at(nodes, number), Some(Kind::Flow(Flow::EndTurn)));
        if is_end && iteration_of(nodes, number) == Some(begin) {
            return number;
        }
    }
    nodes.len()
}

// The iterations that are open at a node, the innermost first: where they begin and where they end.
pub fn around(nodes: &Nodes<'_>, number: usize, space: &mut Workspace) -> Vec<(usize, usize)> {
    let mut spans = Vec::new(space.alloc);
    if number == 0 || number > nodes.len() {
        return spans;
    }
    for at in 0..nodes.open(number) {
        if let Some(begin) = nodes.iteration(number, at) {
            space.push(&mut spans, (begin, end_of(nodes, begin)));
        }
    }
    spans
}

// Where the body whose end is at a node is cut, but where its search has answered.
fn mark_end(nodes: &Nodes<'_>, is_cut: &mut [bool], has_search: &[bool], number: usize) {
    let begin = iteration_of(nodes, number).unwrap_or(0);
    if has_search.get(begin) != Some(&true) {
        mark(is_cut, number);
    }
}

// The nodes where paths are cut first.
pub fn first_cuts(nodes: &Nodes<'_>, cuts: Cuts, space: &mut Workspace) -> Vec<bool> {
    let mut is_cut = space.repeated(false, nodes.len().saturating_add(2));
    let has_search = match cuts {
        Cuts::Answers => mark_answers(nodes, &mut is_cut, space),
        _ => Vec::new(space.alloc),
    };
    for number in 1..nodes.len().saturating_add(1) {
        match kind_at(nodes, number) {
            Some(Kind::Flow(Flow::Iterate)) if cuts == Cuts::Starts => {
                mark(&mut is_cut, number.saturating_add(1));
            }
            Some(Kind::Flow(Flow::EndTurn)) if cuts != Cuts::Starts => {
                mark_end(nodes, &mut is_cut, &has_search, number);
            }
            _ => {}
        }
    }
    is_cut
}
