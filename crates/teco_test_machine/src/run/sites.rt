//! Where runs stop, and runs that are done one step at a time.
use super::*;
use teco_run::{Execution, Progress, Site};

// Where a run stands: the steps that were done, the register whose text it is in, or 0, the place, and the pointer.
type SiteStand = (u64, u8, usize, usize);

fn stand_of(steps: u64, site: Site, dot: usize) -> SiteStand {
    let name = match site.register {
        Some(register) => register.name(),
        None => 0,
    };
    (steps, name, site.place, dot)
}

// Runs a command string on a machine, beside no file: where it stops, and what it comes to.
fn run_on(
    machine: &mut Machine<VecText>,
    alloc: Global,
    command: &[u8],
    limit: u64,
) -> (SiteStand, RunAnswer) {
    if command.len() > LIMIT {
        return ((0, 0, 0, 0), Err(Code::Lim));
    }
    let stopped = machine.run_to_stop(command, limit, &mut MemHost::new(alloc));
    let stand = stand_of(stopped.steps, stopped.site, machine.dot());
    (stand, answer(stopped.stop))
}

// Runs a command string on a new machine: where it stops, what it comes to, and what it types.
fn run_whole(
    alloc: Global,
    command: &[u8],
    limit: u64,
    typed: &mut Vec<u8>,
) -> (SiteStand, RunAnswer) {
    let Some(mut machine) = new_machine(alloc) else {
        return ((0, 0, 0, 0), Err(Code::Mem));
    };
    let came = run_on(machine.as_mut(), alloc, command, limit);
    *typed = machine.as_mut().take_typed();
    came
}

// A command string, the limit on its steps, how many it does, what it comes to, the register, or 0, and the place.
type SiteRow = (&'static [u8], u64, u64, RunAnswer, (u8, usize));

// Is a stop as a row says?
fn stops_so((steps, name, place, _): SiteStand, came: RunAnswer, row: &SiteRow) -> bool {
    (steps, name, place) == (row.2, row.4.0, row.4.1) && came == row.3
}

const STOPPED: &[SiteRow] = &[
    (b"", 9, 0, Ok(0), (0, 0)),
    (b"1=2=", 0, 0, Err(Code::Lim), (0, 0)),
    (b"1=  2=", 2, 2, Err(Code::Lim), (0, 4)),
    (b" 1= \r\n", 9, 2, Ok(2), (0, 6)),
    (b"1=\x1b\x1b", 9, 4, Ok(4), (0, 4)),
    (b"1= EX", 9, 2, Ok(3), (0, 3)),
    (b"Iab\x1b  -3D", 9, 3, Err(Code::Dtb), (0, 8)),
    (b"1= ^Y 2 ,", 9, 4, Err(Code::Arg), (0, 8)),
    (b"<1= ", 9, 3, Err(Code::Utc), (0, 4)),
    (b"1= ERno\x1b", 9, 2, Err(Code::Fnf), (0, 3)),
    (b"@^UA/9C/MA", 9, 3, Err(Code::Pop), (b'A', 1)),
    (b"@^UA/ <1=/ MA", 9, 5, Err(Code::Utm), (b'A', 4)),
    (b"@^UA/1=  2=/ MA 3=", 4, 4, Err(Code::Lim), (b'A', 4)),
    (b"@^UA/1=/MA -D", 9, 6, Err(Code::Dtb), (0, 12)),
    (b"@^UB/ 9C/@^UA/1= MB/MA", 9, 7, Err(Code::Pop), (b'B', 2)),
];

// Does a command string stop on a new machine as its row says?
fn is_stopped_so(alloc: Global, row: &SiteRow) -> bool {
    let mut typed = Vec::new(alloc);
    let (stand, came) = run_whole(alloc, row.0, row.1, &mut typed);
    stops_so(stand, came, row)
}

// The second time at the latest: a growth may be refused the first time.
#[test]
fn runs_stop_at_sites(rt: HostRuntime) {
    for row in STOPPED {
        let is_so = is_stopped_so(rt.alloc(), row) || is_stopped_so(rt.alloc(), row);
        assert!(rt; is_so, "{:?}", row.0);
    }
}

// Does a run that may type nothing stop at its second element? At the first an allocation failed: it runs again.
fn is_memory_sited(alloc: Global) -> bool {
    let Some(mut machine) = new_machine(alloc) else {
        return false;
    };
    let row: SiteRow = (b"1 =", 9, 1, Err(Code::Mem), (0, 2));
    machine.as_mut().set_cap(2);
    let (mut stand, mut came) = run_on(machine.as_mut(), alloc, row.0, row.1);
    if stand.0 == 0 {
        (stand, came) = run_on(machine.as_mut(), alloc, row.0, row.1);
    }
    stops_so(stand, came, &row)
}

#[test]
fn want_of_memory_has_a_site(rt: HostRuntime) {
    assert!(rt; is_memory_sited(rt.alloc()) || is_memory_sited(rt.alloc()));
}

// Does the last step come to what the run answers? A run looks whether it is at its end where its limit is reached.
fn agrees(came: RunAnswer, progress: Progress) -> bool {
    match (came, progress) {
        (Ok(_), Progress::Ended | Progress::Exit | Progress::On) => true,
        (Err(code), Progress::Error(other)) => code == other,
        (Err(code), Progress::On) => code == Code::Lim,
        (Err(code), Progress::HostFault(_)) => code == Code::Fnf,
        _ => false,
    }
}

// Does steps until the run stops, as many at most as the limit; answers how many were done, and what the last came to.
fn step_on(
    machine: &mut Machine<VecText>,
    execution: &mut Execution<'_>,
    limit: u64,
    host: &mut MemHost,
) -> (u64, Progress) {
    let mut progress = Progress::On;
    for steps in 0..limit {
        progress = machine.step(execution, host);
        if !matches!(progress, Progress::On) {
            return (steps, progress);
        }
    }
    (limit, progress)
}

// Does the steps of a command string on a machine, as it is run.
fn step_through(
    machine: &mut Machine<VecText>,
    alloc: Global,
    command: &[u8],
    limit: u64,
) -> (SiteStand, Progress) {
    if command.len() > LIMIT {
        return ((0, 0, 0, 0), Progress::Memory);
    }
    match machine.begin(command) {
        Ok(mut execution) => {
            let host = &mut MemHost::new(alloc);
            let (steps, progress) = step_on(machine, &mut execution, limit, host);
            (stand_of(steps, execution.site(), machine.dot()), progress)
        }
        Err(AllocError) => ((0, 0, 0, 0), Progress::Memory),
    }
}

// Does the steps of a command string on a new machine: what comes of them, and what they type.
fn run_by_steps(
    alloc: Global,
    command: &[u8],
    limit: u64,
    typed: &mut Vec<u8>,
) -> (SiteStand, Progress) {
    let Some(mut machine) = new_machine(alloc) else {
        return ((0, 0, 0, 0), Progress::Memory);
    };
    let came = step_through(machine.as_mut(), alloc, command, limit);
    *typed = machine.as_mut().take_typed();
    came
}

// Are the steps of a command string on one machine a run of that limit on another, which types the same?
fn are_steps_a_run(alloc: Global, command: &[u8], limit: u64) -> bool {
    let (mut whole, mut parts) = (Vec::new(alloc), Vec::new(alloc));
    let (stand, came) = run_whole(alloc, command, limit, &mut whole);
    let (stood, progress) = run_by_steps(alloc, command, limit, &mut parts);
    let is_there = stand == stood && agrees(came, progress);
    is_there && whole.as_slice() == parts.as_slice()
}

const STEPPED: &[&[u8]] = &[
    b"Iabc\x1b J 2C HT",
    b"@^UA/1=  2=/MA MA 3=",
    b"3<1=> EX",
    b"1= ERno\x1b",
    b"Iab\x1b<1=0;>-3D",
    b"@^UA/<1=/ MA",
];

// Up to each of some limits, the second time at the latest: a growth may be refused the first time.
#[test]
fn steps_are_a_run(rt: HostRuntime) {
    for command in STEPPED {
        for limit in 0..16 {
            let is_so = are_steps_a_run(rt.alloc(), command, limit)
                || are_steps_a_run(rt.alloc(), command, limit);
            assert!(rt; is_so, "{command:?} up to {limit}");
        }
    }
}
