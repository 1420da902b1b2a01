//! From a macro to claims.
use crate::reason::reason_for;
use crate::written::claims_of;
use std::alloc::Global;
use teco_base::LIMIT;
use teco_bounds::keys::{Flag, Keys};
use teco_bounds::measures::{NUMBER, family_of, place_of};
use teco_bounds::web::Web;
use teco_bounds::workspace::{Stop, Workspace};
use teco_claims::Claims;
use teco_expansion::Nodes;
use teco_model::kind::{Argument, Command, Query, Storage};
use teco_model::{Kind, Operator};
use teco_paths::claimed::Called;
use teco_paths::course::MacroGraph;
use teco_paths::fault::PathFault;
use teco_paths::search::{Attempt, Budget, ClaimSearch, SearchFailure, Shortfall};
use teco_potentials::known_claims::KnownClaims;
use teco_potentials::promises::all_promises;
use teco_trails::cuts::{Cuts, first_cuts, iteration_of, kind_at};
use teco_trails::fault::{SearchRefusal, SearchStop};
use teco_trails::pushes::check_pushes;
use teco_trails::rounds::SettledKeys;
use teco_trails::search::PathSearch;
use teco_trails::spoken::{spoken_of, used_of};

// How many steps all ways together may take.
const STEPS: usize = 120_000;

// What the first and the last way may take: steps of paths, and rows that programs go through.
const PATH_STEPS: usize = 80_000;

const WORK: usize = 6_000_000;

// What the others may.
const FEW_PATH_STEPS: usize = 20_000;

const FEW_WORK: usize = 3_000_000;

// How many rows count as one step.
const ROWS_A_STEP: usize = 256;

// A way to search.
#[derive(Clone, Copy)]
struct Strategy {
    // How many cases a node may have before it becomes a cut point.
    most_cases: usize,
    cuts: Cuts,
    // Whether numbers are taken to be tame.
    is_tame: bool,
    // Whether no more is taken of constraints than multipliers show.
    is_exact: bool,
    // Whether it is of use only where it differs from the first two ways in more than that.
    wants_new: bool,
    // Whether it is of use only where more nodes become cut points than in the first way.
    wants_cuts: bool,
    // Whether steep bounds are taken, for which other ways often find better ones.
    is_last: bool,
}

// How many ways there are.
const ATTEMPTS: usize = 6;

// The ways, one after the other.
const WAYS: [Strategy; ATTEMPTS] = [
    Strategy {
        most_cases: 26,
        cuts: Cuts::Starts,
        is_tame: false,
        is_exact: false,
        wants_new: false,
        wants_cuts: false,
        is_last: false,
    },
    Strategy {
        most_cases: 26,
        cuts: Cuts::Ends,
        is_tame: false,
        is_exact: false,
        wants_new: false,
        wants_cuts: false,
        is_last: false,
    },
    Strategy {
        most_cases: 26,
        cuts: Cuts::Starts,
        is_tame: true,
        is_exact: true,
        wants_new: false,
        wants_cuts: false,
        is_last: false,
    },
    Strategy {
        most_cases: 26,
        cuts: Cuts::Answers,
        is_tame: false,
        is_exact: true,
        wants_new: false,
        wants_cuts: false,
        is_last: false,
    },
    Strategy {
        most_cases: 10,
        cuts: Cuts::Starts,
        is_tame: false,
        is_exact: false,
        wants_new: false,
        wants_cuts: true,
        is_last: false,
    },
    Strategy {
        most_cases: 26,
        cuts: Cuts::Starts,
        is_tame: false,
        is_exact: false,
        wants_new: false,
        wants_cuts: false,
        is_last: true,
    },
];

// The most registers that tell cut points apart.
const MOST_FLAGS: usize = 4;

// A bound is steep where it passes 64 bits at this N: from the fifth power on.
const STEEP_AT: u64 = 1 << 13;

// How often it may begin again.
const TRIES: usize = 40;

// The number that digits are, if it is small.
fn number_of(digits: &[u8]) -> Option<i64> {
    let mut number = 0i64;
    for digit in digits {
        let value = i64::from(digit.checked_sub(b'0')?);
        number = number.checked_mul(10)?.checked_add(value)?;
        if number > 1_000_000 {
            return None;
        }
    }
    Some(number)
}

// The number of an element of digits.
fn digits_at(nodes: &Nodes<'_>, number: usize) -> Option<i64> {
    if number == 0 || number > nodes.len() {
        return None;
    }
    match nodes.element(number) {
        Some(element) => match element.kind {
            Kind::Argument(Argument::Digits) => number_of(element.text),
            _ => None,
        },
        None => None,
    }
}

// Whether an element takes away.
fn is_minus(nodes: &Nodes<'_>, number: usize) -> bool {
    matches!(
        kind_at(nodes, number),
        Some(Kind::Argument(Argument::Operate(Operator::Minus)))
    )
}

// The numbers that bounds are widened to, in order.
fn numbers_of(nodes: &Nodes<'_>, space: &mut Workspace) -> Vec<i64> {
    let mut numbers = space.listed(&[0, 1, -1, LIMIT as i64]);
    for at in 0..nodes.len() {
        if let Some(number) = digits_at(nodes, at + 1) {
            let less = number.saturating_neg();
            space.extend(
                &mut numbers,
                &[
                    number.saturating_sub(1),
                    number,
                    number.saturating_add(1),
                    less.saturating_sub(1),
                    less,
                    less.saturating_add(1),
                ],
            );
        }
    }
    if numbers.sort().is_err() {
        space.stop(Stop::Memory);
    }
    numbers.dedup();
    numbers
}

// Notes that a register is set to a number.
fn note(flags: &mut Vec<Flag>, place: u32, number: i64, space: &mut Workspace) {
    for flag in flags.iter_mut() {
        if flag.place == place {
            if !flag.numbers.contains(&number) {
                space.push(&mut flag.numbers, number);
            }
            return;
        }
    }
    let numbers = space.repeated(number, 1);
    space.push(flags, Flag { place, numbers });
}

// The place of the number that an element sets.
fn set_at(nodes: &Nodes<'_>, number: usize) -> Option<u32> {
    match kind_at(nodes, number) {
        Some(Kind::Command(Command::Storage(storage))) => match storage {
            Storage::SetNumber(register) => Some(place_of(NUMBER, register)),
            _ => None,
        },
        _ => None,
    }
}

// The place of the number that an element asks for.
fn asked_at(nodes: &Nodes<'_>, number: usize) -> Option<u32> {
    match kind_at(nodes, number) {
        Some(Kind::Query(query)) => match query {
            Query::Number(register) => Some(place_of(NUMBER, register)),
            _ => None,
        },
        _ => None,
    }
}

// Whether an element divides.
fn is_over(nodes: &Nodes<'_>, number: usize) -> bool {
    matches!(
        kind_at(nodes, number),
        Some(Kind::Argument(Argument::Operate(Operator::Over)))
    )
}

// Whether an element sets the number in this place to a part of itself, as `QN/8UN` does.
fn is_divided(nodes: &Nodes<'_>, number: usize, place: u32) -> bool {
    digits_at(nodes, number.saturating_sub(1)).is_some()
        && is_over(nodes, number.saturating_sub(2))
        && asked_at(nodes, number.saturating_sub(3)) == Some(place)
}

// Adds the registers that are set to parts of themselves.
fn add_quotients(flags: &mut Vec<Flag>, nodes: &Nodes<'_>, space: &mut Workspace) {
    for number in 1..nodes.len().saturating_add(1) {
        let Some(place) = set_at(nodes, number) else {
            continue;
        };
        let is_known = flags.iter().any(|flag| flag.place == place);
        if !is_known && flags.len() < MOST_FLAGS && is_divided(nodes, number, place) {
            let numbers = Vec::new(space.alloc);
            space.push(flags, Flag { place, numbers });
        }
    }
}

// The place that an element sets to a number, and the number; none where it is a part of itself.
fn number_set(nodes: &Nodes<'_>, number: usize) -> Option<(u32, i64)> {
    let place = set_at(nodes, number)?;
    let digits = digits_at(nodes, number.saturating_sub(1))?;
    if is_divided(nodes, number, place) {
        return None;
    }
    if is_minus(nodes, number.saturating_sub(2)) {
        return Some((place, digits.saturating_neg()));
    }
    Some((place, digits))
}

// Whether a register is set to several numbers, or to one below 0.
fn is_flag(flag: &Flag) -> bool {
    flag.numbers.len() > 1 || flag.numbers.iter().any(|number| *number < 0)
}

// The registers that are set to several numbers, or to one below 0, or to parts of themselves.
fn flags_of(nodes: &Nodes<'_>, space: &mut Workspace) -> Vec<Flag> {
    let mut flags = Vec::new(space.alloc);
    for at in 1..nodes.len() {
        if let Some((place, number)) = number_set(nodes, at + 1) {
            note(&mut flags, place, number, space);
        }
    }
    flags.retain(is_flag);
    flags.truncate(MOST_FLAGS);
    add_quotients(&mut flags, nodes, space);
    flags
}

// What a search may take: steps of paths, and rows that programs go through.
#[derive(Clone, Copy)]
struct SearchLimits {
    steps: usize,
    work: usize,
}

impl SearchLimits {
    // Those of a way by what is left.
    fn of(way: usize, budget: &Budget) -> SearchLimits {
        let (steps, work) = if way == 0 || way == ATTEMPTS - 1 {
            (PATH_STEPS, WORK)
        } else {
            (FEW_PATH_STEPS, FEW_WORK)
        };
        let work = budget.part(work / ROWS_A_STEP);
        SearchLimits {
            steps: budget.part(steps),
            work: work.saturating_mul(ROWS_A_STEP),
        }
    }

    // As how many steps they count.
    fn count(&self) -> usize {
        self.steps
            .saturating_add(self.work.saturating_div(ROWS_A_STEP))
    }
}

// What more would do where a search stops, if that is to be told, and what it may still take.
#[derive(Drop)]
struct Report {
    is_wanted: bool,
    shortfall: Option<Shortfall>,
    left: SearchLimits,
}

// How a try is made.
#[derive(Clone, Copy)]
struct Try {
    // Whether facts are narrowed.
    narrows: bool,
    // Whether claims may be found by it.
    is_of_use: bool,
}

// The claims that are found on the paths between keys, or why there are none.
fn claims_on(
    search: &mut PathSearch<'_>,
    web: &Web,
    keys: &Keys,
    known: &mut KnownClaims,
    report: &mut Report,
) -> Result<Claims, SearchStop> {
    let mut space = Workspace::new(search.alloc);
    let promises = all_promises(web, keys, &mut search.tame, known, &mut space);
    search.work = known.work;
    match space.finish() {
        Ok(()) => claims_of(search, keys, known, &promises),
        Err(stop) => {
            let stop = SearchStop::from(stop);
            search.at = web.busiest();
            if report.is_wanted {
                report.shortfall = reason_for(search, web, keys, known, stop);
            }
            Err(stop)
        }
    }
}

// The keys whose facts stay; these are narrowed where that is asked for.
fn keys_of(
    search: &mut PathSearch<'_>,
    settled: SettledKeys,
    narrows: bool,
) -> Result<Keys, SearchStop> {
    if narrows && settled.is_widened {
        return search.narrowed(settled);
    }
    Ok(settled.keys)
}

// A try with the cut points so far; where it stops for good, it reports why.
fn try_once(
    search: &mut PathSearch<'_>,
    by: Try,
    report: &mut Report,
) -> Result<Claims, SearchStop> {
    let settled = search.settled()?;
    if !by.is_of_use {
        return Err(SearchStop::Refused(SearchRefusal::Size));
    }
    let keys = keys_of(search, settled, by.narrows)?;
    let web = search.web(&keys)?;
    let mut known = KnownClaims::new(search.work, search.alloc);
    claims_on(search, &web, &keys, &mut known, report)
}

// Tries, with a cut point more where one is asked for. A way that wants cut points is of no use until
// then: the first way has looked so.
fn tried(
    search: &mut PathSearch<'_>,
    way: Strategy,
    report: &mut Report,
) -> Result<Claims, SearchRefusal> {
    let mut by = Try {
        narrows: true,
        is_of_use: !way.wants_cuts,
    };
    for _ in 0..TRIES {
        match try_once(search, by, report) {
            Ok(claims) => return Ok(claims),
            Err(SearchStop::Refused(refusal)) => return Err(refusal),
            Err(SearchStop::CutAt(number)) => {
                by.is_of_use = true;
                if let Some(mark) = search.is_cut.get_mut(number) {
                    *mark = true;
                }
            }
            Err(SearchStop::Wild) => {
                if way.wants_new && search.tame.is_empty() {
                    return Err(SearchRefusal::Size);
                }
            }
            Err(SearchStop::Unstable) => {
                if !by.narrows {
                    break;
                }
                by.narrows = false;
            }
        }
    }
    Err(SearchRefusal::TooMuch(None))
}

// A refusal where the search takes too much, with the iteration at which that was.
fn placed(search: &PathSearch<'_>, refusal: SearchRefusal) -> SearchRefusal {
    match refusal {
        SearchRefusal::TooMuch(None) => {
            SearchRefusal::TooMuch(iteration_of(search.course.nodes, search.at))
        }
        refusal => refusal,
    }
}

// The places of the numbers that are taken to be tame: those that are spoken of, or none.
fn tame_of(spoken: &[bool], is_tame: bool, space: &mut Workspace) -> Vec<u32> {
    let mut tame = Vec::new(space.alloc);
    for place in 0..u32::try_from(spoken.len()).unwrap_or(0) {
        let is_spoken = spoken.get(place as usize) == Some(&true);
        if is_tame && is_spoken && family_of(place) == Some(NUMBER) {
            space.push(&mut tame, place);
        }
    }
    tame
}

// That nothing is claimed yet of typed bytes and of how much longer the text gets, for as long as a macro is
// searched.
fn unclaimed(_used: &[bool]) -> Option<&[u64]> {
    None
}

// Whether a search takes numbers to be tame, or cuts where the first two ways do not.
fn is_new(search: &PathSearch<'_>, space: &mut Workspace) -> bool {
    let nodes = search.course.nodes;
    let is_known = |cuts: &[bool]| search.is_cut.as_slice() == cuts;
    !search.tame.is_empty()
        || !is_known(&first_cuts(nodes, Cuts::Starts, space))
            && !is_known(&first_cuts(nodes, Cuts::Ends, space))
}

// The search for claims of a macro, in a way, which reports why it stopped where that can be told.
fn searched(
    called: &Called<'_>,
    way: Strategy,
    report: &mut Report,
    alloc: Global,
) -> Result<Claims, SearchStop> {
    let mut space = Workspace::new(alloc);
    check_pushes(called.nodes, &mut space);
    let spoken = spoken_of(called.nodes, &mut space);
    let used = used_of(&spoken, &mut space);
    let flags = flags_of(called.nodes, &mut space);
    let has_quotients = flags.iter().any(|flag| flag.numbers.is_empty());
    let mut search = PathSearch {
        course: MacroGraph {
            nodes: called.nodes,
            lengths: called.lengths,
            needs: called.needs,
            used: &used,
            cuts: &[],
            commands: &[],
            size: &[],
            grows: unclaimed(&used),
            types: unclaimed(&used),
        },
        argument: called.argument,
        is_cut: first_cuts(called.nodes, way.cuts, &mut space),
        flags,
        numbers: numbers_of(called.nodes, &mut space),
        tame: tame_of(&spoken, way.is_tame, &mut space),
        is_exact: way.is_exact || has_quotients,
        spoken,
        most_cases: way.most_cases,
        steps: report.left.steps,
        work: report.left.work,
        at: 0,
        alloc,
    };
    let is_of_use = !way.wants_new || is_new(&search, &mut space);
    space.finish()?;
    if !is_of_use {
        return Err(SearchStop::Refused(SearchRefusal::Size));
    }
    let found = tried(&mut search, way, report);
    report.left = SearchLimits {
        steps: search.steps,
        work: search.work,
    };
    Ok(found.map_err(|refusal| placed(&search, refusal))?)
}

// The claims that a way finds, unless bounds are steep and another way may find better ones.
fn found_by(
    called: &Called<'_>,
    attempt: Attempt,
    report: &mut Report,
    alloc: Global,
) -> Result<Claims, SearchRefusal> {
    let Some(way) = WAYS.get(attempt.way) else {
        return Err(SearchRefusal::TooMuch(None));
    };
    let way = Strategy {
        wants_new: !attempt.is_behind_doubt && way.is_exact,
        ..*way
    };
    match searched(called, way, report, alloc) {
        Ok(claims) => {
            let is_steep = claims.commands.at(STEEP_AT).is_none();
            if is_steep && !way.is_last {
                return Err(SearchRefusal::NotAccepted(PathFault::TooLong));
            }
            Ok(claims)
        }
        Err(SearchStop::Refused(refusal)) => Err(refusal),
        Err(_) => Err(SearchRefusal::TooMuch(None)),
    }
}

/// The search for claims by linear programs over their coefficients.
pub struct Inference;

impl ClaimSearch for Inference {
    const WAYS: usize = ATTEMPTS;

    const STEPS: usize = STEPS;

    fn find(
        called: &Called<'_>,
        attempt: Attempt,
        budget: &mut Budget,
        alloc: Global,
    ) -> Result<Claims, SearchFailure> {
        let limits = SearchLimits::of(attempt.way, budget);
        let mut report = Report {
            is_wanted: attempt.way == 0,
            shortfall: None,
            left: limits,
        };
        let found = found_by(called, attempt, &mut report, alloc);
        budget.spend(limits.count().saturating_sub(report.left.count()));
        match found {
            Ok(claims) => Ok(claims),
            Err(refusal) => Err(SearchFailure {
                refusal,
                shortfall: report.shortfall,
            }),
        }
    }

    // Where the first way finds steep bounds, the next is the second, and then the last.
    fn next_way(first: SearchRefusal, refusal: SearchRefusal, way: usize) -> Option<usize> {
        let next = way.saturating_add(1);
        let last = ATTEMPTS - 1;
        if matches!(first, SearchRefusal::NotAccepted(PathFault::TooLong)) {
            let next = if way == 0 { next } else { last };
            return if way < last { Some(next) } else { None };
        }
        match refusal {
            SearchRefusal::NotTold(_)
            | SearchRefusal::NotOpen(_)
            | SearchRefusal::TooMuch(_)
            | SearchRefusal::Memory => None,
            _ if next < last => Some(next),
            _ => None,
        }
    }
}
