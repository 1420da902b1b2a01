//! Sessions that are heard, and that the first code ends. One in which an allocation may have failed runs once more.
use crate::trial::machine_over;
use std::alloc::Global;
use teco_base::{Code, LIMIT};
use teco_hosts::{Host, MemHost};
use teco_run::{Machine, Site, Stopped};
use teco_session::{Conduct, Done, Limits, Listener, SessionFault, session_heard};
use teco_text::{TextStore, VecText};

// What was heard: how many strings stopped, the length of the last, its steps and its site; and the code of a rest.
#[derive(Clone, Copy, Default, PartialEq)]
struct Notes {
    strings: usize,
    length: usize,
    steps: u64,
    site: Option<Site>,
    rest: Option<Code>,
}

impl<H: Host> Listener<H> for Notes {
    fn stopped<T: TextStore>(
        &mut self,
        text: &[u8],
        stopped: &Stopped,
        _machine: &Machine<T>,
        _host: &H,
    ) {
        self.strings = self.strings.saturating_add(1);
        self.length = text.len();
        self.steps = stopped.steps;
        self.site = Some(stopped.site);
    }

    fn rest(&mut self, code: Option<Code>) {
        self.rest = code;
    }
}

// What comes of a session of an input, which a code ends, or none.
fn hear(alloc: Global, input: &[u8], until: bool, to: &mut Vec<u8>, notes: &mut Notes) -> HeardRow {
    let Some(mut machine) = machine_over(alloc, VecText::new(alloc)) else {
        return Err(SessionFault::Memory);
    };
    let (mut reader, until_code, steps, length) = (input, until, 100, LIMIT);
    let limits = Limits { steps, length };
    let conduct = Conduct { limits, until_code };
    let (on, from, files) = (machine.as_mut(), &mut reader, &mut MemHost::new(alloc));
    session_heard(alloc, on, from, to, files, conduct, notes)
}

type HeardRow = Result<Done, SessionFault>;

// Does the first code end the session, has what is written a code, does a string end it; how many
// strings are heard, the length, the steps and the place of the last, and is a rest heard that has a
// code; the input, and what is written.
const HEARD: &[&str] = &[
    "0 1 0 3 5 4 5 0 1=\x1b\x1b9C\x1b\x1b 2=\x1b\x1b => 1\r\n?POP\r\n2\r\n",
    "1 1 0 2 4 1 1 0 1=\x1b\x1b9C\x1b\x1b 2=\x1b\x1b => 1\r\n?POP\r\n",
    "1 0 0 2 4 4 4 0 1=\x1b\x1b2=\x1b\x1b => 1\r\n2\r\n",
    "1 1 0 1 4 4 4 1 1=\x1b\x1b2= => 1\r\n?UTC\r\n",
    "1 1 0 1 4 1 1 0 9C\x1b\x1b2= => ?POP\r\n",
    "0 1 0 1 4 1 1 1 9C\x1b\x1b2= => ?POP\r\n?UTC\r\n",
    "1 0 0 1 4 4 4 0 1=\x1b\x1b\r\n => 1\r\n",
    "1 0 1 1 5 0 1 0  EX\x1b\x1b9C\x1b\x1b => ",
    "0 1 1 2 4 0 0 0 9C\x1b\x1bEX\x1b\x1b => ?POP\r\n",
    "1 0 0 0 0 0 0 0  => ",
];

// What a line has before a mark, or all; the line keeps what stands behind the mark.
fn part_before<'a>(line: &mut &'a str, mark: &str) -> &'a str {
    let (part, rest) = line.split_once(mark).unwrap_or((*line, ""));
    *line = rest;
    part
}

// The eight numbers that a line begins with, each before a blank.
fn numbers_of(line: &mut &str) -> [u64; 8] {
    let mut numbers = [0; 8];
    for number in numbers.iter_mut() {
        *number = part_before(line, " ").parse().unwrap_or(0);
    }
    numbers
}

// Is a session heard as the row says?
fn is_heard(alloc: Global, line: &str) -> bool {
    let mut rest = line;
    let [until, coded, exit, strings, length, steps, place, code] = numbers_of(&mut rest);
    let input = part_before(&mut rest, " => ").as_bytes();
    let (register, place) = (None, place as usize);
    let site = Site { register, place };
    let wanted = Notes {
        strings: strings as usize,
        length: length as usize,
        steps,
        site: (strings > 0).then_some(site),
        rest: (code == 1).then_some(Code::Utc),
    };
    let (mut written, mut found) = (Vec::new(alloc), Notes::default());
    let done = hear(alloc, input, until == 1, &mut written, &mut found);
    let is_ended = matches!(done, Ok(done) if (done.coded, done.exit) == (coded == 1, exit == 1));
    is_ended && found == wanted && written.as_slice() == rest.as_bytes()
}

#[test]
fn sessions_are_heard(rt: HostRuntime) {
    for line in HEARD {
        let is_good = is_heard(rt.alloc(), line) || is_heard(rt.alloc(), line);
        assert!(rt; is_good, "{line}");
    }
}
