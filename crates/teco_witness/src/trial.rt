//! The trial of a macro on one small world.
ghost use Rattle.std.specs.Prelude.{◌≡◌, ◌≤◌, ◌||◌, IfOk, IfSome, length};
ghost use Rattle.teco_base.specs.declared.TheConstants.{LIMIT};
ghost use Rattle.teco_model.specs.State.{start};
ghost use Rattle.teco_witness.specs.Witness.{Comes, ComesTo, IsReady};

use crate::bench::Bench;
use crate::commands::{call_text, preparation, takes};
use crate::witness::{SmallWorld, Subject, WitnessEnd};
use std::alloc::{AllocError, Global};
use teco_base::{Code, LIMIT};
use teco_model::Stop;

/// How many steps it may take to make a world ready.
const PREPARING: u64 = 10_000;

/// How many steps a run may take at first. A longer run is begun anew with half as many more.
const FIRST: u64 = 64;

/// How often a run is begun at most; and where the world is not small.
const ROUNDS: usize = 24;

const FEW_ROUNDS: usize = 9;

/// After so many steps a run takes very long.
const LONG: u64 = 200_000;

/// A run that holds so many characters grows.
const GROWN: u128 = 1 << 13;

/// A step may pass all characters that are held; by so many it counts as one more.
const PASSED: u128 = 256;

/// Numbers up to this one are small, and so are texts of so many characters.
const SMALL: u32 = 100;

const SHORT: usize = 64;

/// Are files open before the call? So they are where the macro needs any.
pub fn opens_files(subject: &Subject<'_>) -> bool
    ensures { result ≡ (subject.now.needs.input || subject.now.needs.output) }
{
    subject.needs.input || subject.needs.output
}

// The world of a machine that is ready for the call; none where it can't be made so.
fn ready(
    alloc: Global,
    subject: &Subject<'_>,
    world: &SmallWorld,
) -> Result<Option<Bench>, AllocError>
    ensures { IfOk result (λ made. IfSome made (IsReady subject.now.library world.now)) }
{
    let commands = preparation(alloc, world)?;
    if commands.len() > LIMIT {
        return Ok(None);
    }
    let mut bench = Bench::new(alloc, subject.library, world)?;
    match bench.run(&commands, PREPARING).stop {
        Stop::Ended { .. } => Ok(Some(bench)),
        _ => Ok(None),
    }
}

// How a command string fails on a machine.
fn end_of(bench: &mut Bench, command: &[u8], limit: u64) -> Option<WitnessEnd>
    requires { length command.now ≤ LIMIT }
    ensures { IfSome result (λ end. Comes end (start command.now bench.old)) }
{
    let stopped = bench.run(command, limit);
    match stopped.stop {
        Stop::Error(code) => Some(WitnessEnd::Code {
            code,
            site: stopped.site,
        }),
        Stop::Limit => Some(WitnessEnd::Long {
            steps: stopped.steps,
            held: bench.held(),
        }),
        _ => None,
    }
}

// How a macro fails on a small world, in so many steps; nothing where it is not seen to.
fn end_within(
    alloc: Global,
    subject: &Subject<'_>,
    world: &SmallWorld,
    limit: u64,
) -> Result<Option<WitnessEnd>, AllocError>
    ensures { IfOk result (λ found. IfSome found (ComesTo subject.now world.now)) }
{
    if world.is_input != opens_files(subject) || !takes(subject.argument, world.given) {
        return Ok(None);
    }
    let command = call_text(alloc, subject.entry, world.given)?;
    if command.len() > LIMIT {
        return Ok(None);
    }
    let Some(mut bench) = ready(alloc, subject, world)? else {
        return Ok(None);
    };
    Ok(end_of(&mut bench, &command, limit))
}

// Are the text and the numbers of a world so small that a run by their count is no long one?
fn is_small(world: &SmallWorld) -> bool {
    let is_few = |n: i32| n.unsigned_abs() <= SMALL;
    world.text.len() <= SHORT
        && world.given.is_none_or(is_few)
        && world.settings.iter().all(|s| is_few(s.number))
}

// Is an end one to be told? A run that goes on is, where it is long, or grows. Where no file is open, want of
// one says nothing.
fn is_told(end: &WitnessEnd, world: &SmallWorld) -> bool {
    match *end {
        WitnessEnd::Code {
            code: Code::Nfi | Code::Nfo,
            ..
        } => world.is_input,
        WitnessEnd::Code { .. } => true,
        WitnessEnd::Long { steps, held } => is_small(world) && (steps >= LONG || held >= GROWN),
    }
}

// Would more steps tell more? Not behind a code, and not of a run that grows.
fn is_open(end: &WitnessEnd) -> bool {
    matches!(*end, WitnessEnd::Long { held, .. } if held < GROWN)
}

// What a run of so many steps costs, with that end.
fn cost_of(limit: u64, end: &WitnessEnd) -> u64 {
    match *end {
        WitnessEnd::Code { .. } => limit,
        WitnessEnd::Long { held, .. } => {
            let passes = u64::try_from(held / PASSED).unwrap_or(u64::MAX);
            limit.saturating_mul(passes.saturating_add(1))
        }
    }
}

/// How a macro fails on a small world. It takes steps off those that are left, and says nothing where
/// too few are.
pub fn end_on(
    alloc: Global,
    subject: &Subject<'_>,
    world: &SmallWorld,
    left: &mut u64,
) -> Result<Option<WitnessEnd>, AllocError>
    ensures { IfOk result (λ found. IfSome found (ComesTo subject.now world.now)) }
{
    let mut limit = FIRST;
    let rounds = if is_small(world) { ROUNDS } else { FEW_ROUNDS };
    for _ in 0..rounds {
        if *left < limit {
            return Ok(None);
        }
        let Some(end) = end_within(alloc, subject, world, limit)? else {
            *left = left.saturating_sub(FIRST);
            return Ok(None);
        };
        *left = left.saturating_sub(cost_of(limit, &end));
        if is_told(&end, world) {
            return Ok(Some(end));
        }
        if !is_open(&end) {
            return Ok(None);
        }
        limit = (limit / 2).saturating_mul(3);
    }
    Ok(None)
}
