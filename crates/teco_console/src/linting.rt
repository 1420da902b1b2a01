//! What is said of searches of accepted macros that may not do what was meant.
use crate::console::{Console, Voice};
use crate::sourced::{NAMES, Sourced};
use std::alloc::Global;
use std::fmt;
use std::io::Write;
use teco_base::Reg;
use teco_base::bytes::control;
use teco_expansion::{Nodes, expand};
use teco_explain::{Modes, Slips, place_in};
use teco_library::Library;
use teco_source::{LineAndByte, Shown, Source};

/// How many lines are said at most.
const MOST: usize = 5;

/// How many bytes of a search text are shown at most.
const SHOWN: usize = 24;

// A search that may not do what was meant: where it stands, and its text.
#[derive(Clone, Copy)]
struct SearchDoubt<'a> {
    register: Option<Reg>,
    place: usize,
    text: &'a [u8],
    slips: Slips,
}

// A search text for a message, cut short where it is long.
#[derive(Clone, Copy)]
struct Short<'a>(&'a [u8]);

impl fmt::Display for Short<'_> {
    fn fmt<W: fmt::Write>(&self, f: &mut fmt::Formatter<W>) -> fmt::Result {
        match self.0.get(..SHOWN) {
            Some(front) if front.len() < self.0.len() => write!(f, "{}..", Shown(front)),
            _ => write!(f, "{}", Shown(self.0)),
        }
    }
}

/// What was said of the searches of a library, and how many lines may still be said.
#[derive(Drop)]
pub struct SearchDoubts<'a> {
    alloc: Global,
    source: &'a Source,
    // are searches exact as a macro begins?
    is_exact: bool,
    // the registers and the places of which something was said
    told: Vec<(usize, usize)>,
    left: usize,
}

impl<'a> SearchDoubts<'a> {
    /// Nothing is said yet of a library, whose macros begin with exact searches or with others.
    pub fn new(alloc: Global, source: &'a Source, is_exact: bool) -> SearchDoubts<'a> {
        SearchDoubts {
            alloc,
            source,
            is_exact,
            told: Vec::new(alloc),
            left: MOST,
        }
    }

    // Says a line of a search, if one may still be said.
    fn say<E: Write + Drop, D: fmt::Display + Drop>(
        &mut self,
        voice: &mut Voice<E>,
        finding: &SearchDoubt<'_>,
        what: D,
    ) {
        if self.left == 0 {
            return;
        }
        self.left -= 1;
        if let Some(place) = place_in(self.source.text(), finding.register, finding.place) {
            let name = Shown(self.source.name_at(place).as_bytes());
            let LineAndByte { line, column } = self.source.position(place);
            voice.say(format_args!("{name}:{line}:{column}: {what}"));
        }
    }

    // Says that letters of a search match either case.
    fn tell_case<E: Write + Drop>(&mut self, voice: &mut Voice<E>, finding: &SearchDoubt<'_>) {
        let text = Short(finding.text);
        self.say(
            voice,
            finding,
            format_args!("finds {text} in either case; 1^X before it makes it exact"),
        );
    }

    // Says that a caret and a letter of a search match a control byte.
    fn tell_caret<E: Write + Drop>(
        &mut self,
        voice: &mut Voice<E>,
        finding: &SearchDoubt<'_>,
        letter: u8,
    ) {
        let byte = control(letter).unwrap_or(0);
        let letter = char::from(letter);
        self.say(
            voice,
            finding,
            format_args!("^{letter} finds byte {byte}; for a caret write ^Q^"),
        );
    }

    // Says what a search may do that was not meant.
    fn tell_finding<E: Write + Drop>(&mut self, voice: &mut Voice<E>, finding: &SearchDoubt<'_>) {
        if finding.slips.ignores_case {
            self.tell_case(voice, finding);
        }
        if let Some(letter) = finding.slips.caret {
            self.tell_caret(voice, finding, letter);
        }
    }

    // Was nothing said yet of the element at a place? From now on it was.
    fn is_new(&mut self, register: usize, place: usize) -> bool {
        let site = (register, place);
        !self.told.contains(&site) && self.told.push(site).is_ok()
    }

    // Looks at each element of a macro.
    fn tell_nodes<E: Write + Drop>(&mut self, voice: &mut Voice<E>, nodes: &Nodes<'_>) {
        let mut modes = Modes::new(self.is_exact);
        for before in 0..nodes.len() {
            let number = before + 1;
            let Some(found) = nodes.element(number) else {
                continue;
            };
            let slips = modes.pass(&found);
            let (register, place) = (nodes.register(number), nodes.place(number));
            if slips == Slips::default() || self.left == 0 || !self.is_new(register, place) {
                continue;
            }
            let finding = SearchDoubt {
                register: NAMES.get(register).and_then(|name| Reg::of(*name)),
                place,
                text: found.text,
                slips,
            };
            self.tell_finding(voice, &finding);
        }
    }

    /// Says what the searches of a macro of the library may do that was not meant.
    pub fn tell<E: Write + Drop>(&mut self, voice: &mut Voice<E>, library: &Library, entry: Reg) {
        if let Ok(nodes) = expand(self.alloc, library, entry) {
            self.tell_nodes(voice, &nodes);
        }
    }
}

/// Says what the searches of a macro may do that was not meant, at most five lines: where a letter
/// matches either case since no `1^X` stands before it, and where a caret and a letter match a
/// control byte. The elements that the macro comes to are looked at once each, one behind the
/// other, so a mode that is set on one way alone counts on the others too. Searches may be exact as
/// it begins.
pub fn lint<O: Write + Drop, E: Write + Drop>(
    console: &mut Console<O, E>,
    sourced: &Sourced,
    entry: Reg,
    is_exact: bool,
) {
    let mut findings = SearchDoubts::new(console.alloc, &sourced.source, is_exact);
    findings.tell(&mut console.voice, &sourced.library, entry);
}
