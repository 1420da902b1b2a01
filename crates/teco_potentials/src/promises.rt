//! What is promised of a macro: how much it holds, how many commands it takes, how much longer its text
//! gets, and how many bytes it types.
use crate::invariants::add_invariants;
use crate::known_claims::KnownClaims;
use crate::potentials::{FoundPromise, promised};
use crate::turns::add_turns;
use crate::unknowns::rounded_up;
use crate::wanted::{ADDED, Scope, Target, WantedBound};
use crate::ways::endless;
use crate::worth::promised_by_levels;
use teco_base::LIMIT;
use teco_bounds::forms::power_of;
use teco_bounds::keys::Keys;
use teco_bounds::measures::{ENTRY_HELD, HELD, STEPS, TURNS, TYPED, family_of, is_count};
use teco_bounds::reduced::UsedLimits;
use teco_bounds::web::Web;
use teco_bounds::workspace::{Stop, Workspace};
use teco_linear::Form;

// The highest degree of a promise.
const DEGREES: u32 = 3;

// The most pivots of a program, and where it may only better what was found.
const PIVOTS: usize = 4000;

const FEW_PIVOTS: usize = 500;

// The most rows of a program, and where it may only better what was found.
const ROWS: usize = 2000;

const FEW_ROWS: usize = 250;

// With more paths than this, each as often as the degree is, none of a higher degree is sought.
const MOST_LEGS: usize = 160;

// The polynomials of the commands and of the size, and, if bounds on them are found, of how much longer
// the text gets and of the bytes typed.
#[derive(Drop)]
pub struct Promises {
    pub commands: Vec<u64>,
    pub size: Vec<u64>,
    pub grows: Option<Vec<u64>>,
    pub types: Option<Vec<u64>>,
}

// The coefficients of a promise's polynomial, rounded up.
fn rounded(promise: &FoundPromise, space: &mut Workspace) -> Vec<u64> {
    let mut all = Vec::new(space.alloc);
    for numerator in &promise.numerators {
        let up = rounded_up(*numerator, promise.divisor);
        space.push(&mut all, u64::try_from(up).unwrap_or(0));
    }
    all
}

// A polynomial as a form.
fn form_of(coefficients: &[u64], space: &mut Workspace) -> Form {
    let mut sum = Form::zero(space.alloc);
    for (power, coefficient) in coefficients.iter().enumerate() {
        let power = u32::try_from(power).unwrap_or(0);
        let part = power_of(power, i128::from(*coefficient), space);
        sum = space.sum(&sum, &part);
    }
    sum
}

// That the measure is within the polynomial where paths begin at a key, if it has a form there.
fn bound_at(
    web: &Web,
    key: usize,
    promise: &FoundPromise,
    most: &Form,
    space: &mut Workspace,
) -> Form {
    if !web.has_form(key, promise.place) {
        return Form::zero(space.alloc);
    }
    let measure = space.symbol(promise.place);
    if promise.is_added {
        let before = space.symbol(ENTRY_HELD);
        let most = space.sum(most, &before);
        space.difference(&most, &measure)
    } else if promise.sign > 0 {
        space.difference(most, &measure)
    } else {
        space.sum(most, &measure)
    }
}

// That the measure is within the polynomial at each key.
fn bounds_of(
    web: &Web,
    promise: &FoundPromise,
    coefficients: &[u64],
    space: &mut Workspace,
) -> Vec<Form> {
    let most = form_of(coefficients, space);
    let mut bounds = Vec::new(space.alloc);
    for key in 0..web.starts.len() {
        let bound = bound_at(web, key, promise, &most, space);
        space.push(&mut bounds, bound);
    }
    bounds
}

// Takes what a promise claims: at each key at least that the measure is within the polynomial.
fn take(
    web: &Web,
    known: &mut KnownClaims,
    promise: FoundPromise,
    space: &mut Workspace,
) -> Vec<u64> {
    let coefficients = rounded(&promise, space);
    let bounds = bounds_of(web, &promise, &coefficients, space);
    known.add(promise.claims, &bounds, space);
    coefficients
}

// Raises coefficients to others.
fn raise(all: &mut Vec<u64>, others: &[u64], space: &mut Workspace) {
    for (at, other) in others.iter().enumerate() {
        match all.get_mut(at) {
            Some(coefficient) => *coefficient = (*coefficient).max(*other),
            None => space.push(all, *other),
        }
    }
}

// The places of the measures that are raised to a limit: what is held, and texts.
fn growing(web: &Web, space: &mut Workspace) -> Vec<u32> {
    let mut places = Vec::new(space.alloc);
    space.push(&mut places, HELD);
    for peak in &web.record.peaks {
        if !places.contains(&peak.place) {
            space.push(&mut places, peak.place);
        }
    }
    places
}

// The places of turns, numbers and lengths at the keys.
fn factors(keys: &Keys, space: &mut Workspace) -> Vec<u32> {
    let mut places = Vec::new(space.alloc);
    for key in &keys.keys {
        for place in &key.told {
            let is_factor = match family_of(*place) {
                Some(family) => family <= TURNS,
                None => false,
            };
            if is_factor && !places.contains(place) {
                space.push(&mut places, *place);
            }
        }
    }
    places
}

// A coefficient of a promise, times a divisor; none where that is too large.
fn scaled_at(promise: &FoundPromise, at: usize, divisor: i128) -> Option<i128> {
    let numerator = promise.numerators.get(at).copied().unwrap_or(0);
    numerator.checked_mul(divisor)
}

// Whether a promise is less than another: by the highest coefficients first.
fn is_less(one: &FoundPromise, other: &FoundPromise) -> bool {
    for at in (0..one.numerators.len()).rev() {
        let first = scaled_at(one, at, other.divisor);
        let second = scaled_at(other, at, one.divisor);
        match (first, second) {
            (Some(first), Some(second)) if first != second => return first < second,
            (Some(_), Some(_)) => {}
            _ => return false,
        }
    }
    false
}

// Whether none is less: what is held may be N, and what is counted or added none.
fn is_least(promise: &FoundPromise) -> bool {
    let least = if is_count(promise.place) || promise.is_added {
        0
    } else {
        promise.divisor
    };
    match promise.numerators.as_slice() {
        [number, times, ..] => *number == 0 && *times <= least,
        _ => false,
    }
}

// What is wanted of a measure: at first, or where that may only better what was found.
fn wanted_of(target: Target, degree: u32, scope: Scope, is_first: bool) -> WantedBound<'static> {
    WantedBound {
        place: target.place,
        is_added: target.is_added,
        sign: 1,
        degree,
        highest: degree,
        is_loose: false,
        limits: UsedLimits::None,
        scope,
        pivots: if is_first { PIVOTS } else { FEW_PIVOTS },
        rows: if is_first { ROWS } else { FEW_ROWS },
        only: None,
    }
}

// The lesser of two promises, if there are two.
fn lesser(one: Option<FoundPromise>, other: Option<FoundPromise>) -> Option<FoundPromise> {
    match (one, other) {
        (Some(one), Some(other)) => Some(if is_less(&other, &one) { other } else { one }),
        (None, other) => other,
        (one, None) => one,
    }
}

// The least promise of a degree that is found.
fn least_promise(
    web: &Web,
    known: &mut KnownClaims,
    target: Target,
    degree: u32,
    space: &mut Workspace,
) -> Option<FoundPromise> {
    if degree > 1 && web.legs.len().saturating_mul(degree as usize) > MOST_LEGS {
        return None;
    }
    let few = wanted_of(target, degree, Scope::Few, true);
    let found = promised(web, known, &few, space);
    if found.as_ref().is_some_and(is_least) {
        return found;
    }
    let all = wanted_of(target, degree, Scope::All, found.is_none());
    let other = promised(web, known, &all, space);
    lesser(found, other)
}

// That a measure, taken so often, is within a polynomial at keys.
fn loosely(place: u32, sign: i128) -> WantedBound<'static> {
    WantedBound {
        place,
        is_added: false,
        sign,
        degree: 1,
        highest: 1,
        is_loose: true,
        limits: UsedLimits::None,
        scope: Scope::All,
        pivots: PIVOTS,
        rows: ROWS,
        only: None,
    }
}

// Whether facts show at each key that a measure is within the greatest length.
fn is_near(keys: &Keys, place: u32, sign: i128) -> bool {
    let limit = LIMIT as i64;
    keys.keys.iter().zip(keys.facts.iter()).skip(1).all(|(key, facts)| {
        let most = if sign > 0 {
            facts.bound(Some(place), None)
        } else {
            facts.bound(None, Some(place))
        };
        most <= limit || !key.told.contains(&place)
    })
}

// What is taken of the least promise of a degree, if one is found: the polynomial.
fn taken(
    web: &Web,
    known: &mut KnownClaims,
    target: Target,
    degree: u32,
    space: &mut Workspace,
) -> Option<Vec<u64>> {
    let promise = least_promise(web, known, target, degree, space)?;
    Some(take(web, known, promise, space))
}

// What a number that was taken to be tame is within, if it is tame.
fn tame_within(
    web: &Web,
    keys: &Keys,
    place: u32,
    known: &mut KnownClaims,
    space: &mut Workspace,
) -> Option<Vec<u64>> {
    let mut size = Vec::new(space.alloc);
    for sign in [1, -1] {
        match promised(web, known, &loosely(place, sign), space) {
            Some(promise) => {
                let most = take(web, known, promise, space);
                raise(&mut size, &most, space);
            }
            None if is_near(keys, place, sign) => {}
            None => return None,
        }
    }
    Some(size)
}

// Shows that the numbers are tame that were taken to be so: they are within what may be held. Those
// that are not are taken out.
fn add_tame(
    web: &Web,
    keys: &Keys,
    tame: &mut Vec<u32>,
    known: &mut KnownClaims,
    space: &mut Workspace,
) -> Vec<u64> {
    let mut size = Vec::new(space.alloc);
    let mut shown = Vec::new(space.alloc);
    for place in tame.iter() {
        if let Some(within) = tame_within(web, keys, *place, known, space) {
            raise(&mut size, &within, space);
            space.push(&mut shown, *place);
        }
    }
    if shown.len() < tame.len() {
        space.stop(Stop::Wild);
    }
    *tame = shown;
    size
}

// Adds bounds on turns, numbers and lengths to what is known, each sought like this one. Without limits each is
// sought once.
fn add_factors(
    web: &Web,
    keys: &Keys,
    like: &WantedBound<'_>,
    known: &mut KnownClaims,
    space: &mut Workspace,
) {
    let is_once = like.limits == UsedLimits::None;
    for place in factors(keys, space) {
        if is_once && known.sought.contains(&place) {
            continue;
        }
        if is_once {
            space.push(&mut known.sought, place);
        }
        let wanted = WantedBound { place, ..*like };
        if let Some(promise) = promised(web, known, &wanted, space) {
            let _most = take(web, known, promise, space);
        }
    }
}

// What is held, and the texts that grow.
fn sizes(web: &Web, keys: &Keys, known: &mut KnownClaims, space: &mut Workspace) -> Vec<u64> {
    let mut size = space.listed(&[0, 1]);
    let mut left = growing(web, space);
    for degree in 1..=DEGREES {
        if degree == 2 {
            add_factors(web, keys, &loosely(STEPS, 1), known, space);
        }
        for place in std::mem::replace(&mut left, Vec::new(space.alloc)) {
            match taken(web, known, Target::of(place), degree, space) {
                Some(most) => raise(&mut size, &most, space),
                None => space.push(&mut left, place),
            }
        }
        if left.is_empty() {
            return size;
        }
    }
    space.stop(Stop::Size);
    size
}

// The steps by coefficients of a higher degree.
fn steps_by_degrees(
    web: &Web,
    keys: &Keys,
    known: &mut KnownClaims,
    space: &mut Workspace,
) -> Option<FoundPromise> {
    add_factors(web, keys, &loosely(STEPS, 1), known, space);
    for degree in 2..=DEGREES {
        let promise = least_promise(web, known, Target::of(STEPS), degree, space);
        if promise.is_some() {
            return promise;
        }
    }
    None
}

// The steps level by level, where turns are within the square of N.
fn steps_by_levels(
    web: &Web,
    known: &mut KnownClaims,
    space: &mut Workspace,
) -> Option<FoundPromise> {
    let like = WantedBound {
        highest: 2,
        ..loosely(STEPS, 1)
    };
    add_turns(web, known, &like, space);
    promised_by_levels(web, known, 2, space)
}

// The steps, where turns may be as many as a number of 32 bits says.
fn steps_by_limits(
    web: &Web,
    keys: &Keys,
    known: &mut KnownClaims,
    space: &mut Workspace,
) -> Option<FoundPromise> {
    let like = WantedBound {
        limits: UsedLimits::Numbers,
        ..loosely(STEPS, 1)
    };
    add_factors(web, keys, &like, known, space);
    for degree in 1..=2 {
        let wanted = WantedBound {
            limits: UsedLimits::Numbers,
            ..wanted_of(Target::of(STEPS), degree, Scope::All, true)
        };
        let promise = promised(web, known, &wanted, space);
        if promise.is_some() {
            return promise;
        }
    }
    None
}

// The steps, if a bound on them is found: where iterations are nested deeper than degrees are high, level by level.
fn found_steps(
    web: &Web,
    keys: &Keys,
    known: &mut KnownClaims,
    space: &mut Workspace,
) -> Option<FoundPromise> {
    let is_deep = web.depth() > DEGREES as usize;
    let mut found = least_promise(web, known, Target::of(STEPS), 1, space);
    if found.is_none() && is_deep && web.legs.len() <= MOST_LEGS {
        found = steps_by_levels(web, known, space);
    }
    if found.is_none() {
        found = steps_by_degrees(web, keys, known, space);
    }
    if found.is_none() {
        found = steps_by_limits(web, keys, known, space);
    }
    found
}

// The steps.
fn steps(web: &Web, keys: &Keys, known: &mut KnownClaims, space: &mut Workspace) -> Vec<u64> {
    match found_steps(web, keys, known, space) {
        Some(promise) => take(web, known, promise, space),
        None => {
            let number = endless(web, known, space);
            space.stop(Stop::Steps(number));
            Vec::new(space.alloc)
        }
    }
}

// Whether no path types a byte.
fn is_quiet(web: &Web) -> bool {
    web.legs.iter().all(|leg| match leg.forms.get(TYPED as usize) {
        Some(Some(form)) => form.terms().is_empty(),
        _ => true,
    })
}

// That no byte is typed.
fn quiet(web: &Web, space: &mut Workspace) -> FoundPromise {
    let mut claims = Vec::new(space.alloc);
    let zero = Form::zero(space.alloc);
    for _ in &web.starts {
        let typed = space.symbol(TYPED);
        let claim = space.difference(&zero, &typed);
        space.push(&mut claims, claim);
    }
    FoundPromise {
        place: TYPED,
        is_added: false,
        sign: 1,
        numerators: space.repeated(0, 1),
        divisor: 1,
        claims,
    }
}

// A bound on what is not owed one, if it is found.
fn bounded(
    web: &Web,
    keys: &Keys,
    target: Target,
    known: &mut KnownClaims,
    space: &mut Workspace,
) -> Option<Vec<u64>> {
    for degree in 1..=DEGREES {
        if degree == 2 {
            add_factors(web, keys, &loosely(STEPS, 1), known, space);
        }
        let found = taken(web, known, target, degree, space);
        if found.is_some() {
            return found;
        }
    }
    None
}

// What was found by the work that was left: nothing, where that was too little.
fn if_found(found: Option<Vec<u64>>, space: &mut Workspace) -> Option<Vec<u64>> {
    match space.finish() {
        Ok(()) => found,
        Err(Stop::TooMuch) => None,
        Err(stop) => {
            space.stop(stop);
            None
        }
    }
}

// The bytes typed, if a bound on them is found by the work that is left.
fn types(
    web: &Web,
    keys: &Keys,
    known: &mut KnownClaims,
    space: &mut Workspace,
) -> Option<Vec<u64>> {
    if space.is_stopped() {
        return None;
    }
    let found = if is_quiet(web) {
        let promise = quiet(web, space);
        Some(take(web, known, promise, space))
    } else {
        bounded(web, keys, Target::of(TYPED), known, space)
    };
    if_found(found, space)
}

// How much longer the text gets, if a bound on that is found by the work that is left.
fn grows(
    web: &Web,
    keys: &Keys,
    known: &mut KnownClaims,
    space: &mut Workspace,
) -> Option<Vec<u64>> {
    if space.is_stopped() {
        return None;
    }
    let found = bounded(web, keys, ADDED, known, space);
    if_found(found, space)
}

// All promises by paths between keys, where some numbers were taken to be tame.
pub fn all_promises(
    web: &Web,
    keys: &Keys,
    tame: &mut Vec<u32>,
    known: &mut KnownClaims,
    space: &mut Workspace,
) -> Promises {
    let within = add_tame(web, keys, tame, known, space);
    add_invariants(web, known, space);
    let mut size = sizes(web, keys, known, space);
    raise(&mut size, &within, space);
    let commands = steps(web, keys, known, space);
    let types = types(web, keys, known, space);
    let grows = grows(web, keys, known, space);
    Promises {
        commands,
        size,
        grows,
        types,
    }
}
