//! `run`: sessions on standard input, on files and on words of the command line.
ghost use Rattle.std.specs.Prelude.{◌≡◌, ◌≤◌, List, Option, Some, None, ℕ, IfOk};
ghost use Rattle.teco_base.specs.declared.TheConstants.{LIMIT};
ghost use Rattle.teco_run.specs.Holdings.{Joined};
ghost use Rattle.teco_session.specs.FirstCode.{Hears};
ghost use Rattle.teco_session.specs.Sessions.{setting};
ghost use Rattle.teco_tools.specs.Scripts as scripts;
ghost use Rattle.teco_tools.specs.Scripts.{Concludes, FileSays, HearsScript, IsInput, IsOutcome, PlaysOut};
ghost use Rattle.teco_tools.specs.Scripts.{RunsScripts, around, conduct_of, terms_of};

use crate::fault::ToolFault;
use crate::machines::machine_with;
use crate::reporting::{Reporting, tell_trouble};
use crate::setting::{Start, prepare};
use crate::strings::StringProgress;
use crate::telling::{Scene, code_of, size_of, tell_macro};
use std::alloc::{AllocError, Global};
use std::io::{Read, Write};
use teco_base::bytes::ESC;
use teco_base::{Code, LIMIT};
use teco_console::{
    Console, Escape, Outcome, Shelf, Voice, form_of, form_of_word, letters, read_file,
};
use teco_hosts::Host;
use teco_model::Limits;
use teco_options::Script;
use teco_run::{Machine, Stop, Stopped};
use teco_session::{Conduct, Done, Listener, SessionFault, session_heard};
use teco_source::{LineAndByte, Shown, Source};
use teco_text::{GapText, TextStore};

/// What people type who look for help, or for the way out.
const WORDS_FOR_HELP: [&str; 4] = ["help", "quit", "exit", "?"];

/// What is run, and how.
#[derive(Clone, Copy)]
pub struct Run<'a, 's> {
    pub scripts: &'a [Script<'a>],
    pub escape: Escape,
    /// Steps that each command string may take.
    pub limit: u64,
    /// Bytes that each command string may type, and that its calls may take.
    pub cap: usize,
    /// Does the first code end it?
    pub until_code: bool,
    /// What the machine has before it.
    pub start: Start<'s>,
}

// Says to people what a session stopped at.
#[derive(Drop)]
struct Teller<'a, E: Write + Drop> {
    voice: &'a mut Voice<E>,
    source: Option<&'a Source>,
    // where the next command string begins in the source, and its number
    begin: usize,
    number: u64,
}

impl<'a, E: Write + Drop> Teller<'a, E> {
    // Tells of the command strings of a stream.
    fn of_stream(voice: &'a mut Voice<E>) -> Teller<'a, E> {
        Teller {
            voice,
            source: None,
            begin: 0,
            number: 0,
        }
    }

    // Tells of the command strings of a source, by their lines.
    fn of_source(voice: &'a mut Voice<E>, source: &'a Source) -> Teller<'a, E> {
        Teller {
            voice,
            source: Some(source),
            begin: 0,
            number: 0,
        }
    }

    // Says where in a command string of a stream it stopped.
    fn tell_in_stream(&mut self, place: usize, scene: Scene<'_>) {
        let name = scene.letters();
        let number = self.number;
        let byte = place.saturating_add(1);
        self.voice.say(format_args!("?{name} in command string {number} at byte {byte}: {scene}"));
    }

    // Says where in a source it stopped.
    fn tell_in_source(&mut self, source: &Source, place: usize, scene: Scene<'_>) {
        let name = scene.letters();
        let at = self.begin.saturating_add(place);
        let file = Shown(source.name().as_bytes());
        let LineAndByte { line, column } = source.position(at);
        let excerpt = source.excerpt(at);
        self.voice.say(format_args!("{file}:{line}:{column}: ?{name} at {scene}\n{excerpt}"));
    }

    // Says where it stopped with a code: in a command string, or in a macro.
    fn tell_code<T: TextStore>(
        &mut self,
        text: &[u8],
        stopped: &Stopped,
        machine: &Machine<T>,
        code: Code,
    ) {
        let place = stopped.site.place;
        if stopped.site.register.is_some() {
            tell_macro(self.voice, None, stopped, machine, code);
            return;
        }
        let scene = Scene::of(text, place, machine, code);
        match self.source {
            None => {
                self.tell_in_stream(place, scene);
                tell_help(self.voice, text);
            }
            Some(source) => self.tell_in_source(source, place, scene),
        }
    }

    // Says that the last command string of a stream has no end.
    fn tell_open_stream(&mut self, name: &str) {
        let number = self.number.saturating_add(1);
        self.voice.say(format_args!(
            "?{name} in command string {number}: it has no end, which is two ESC; $ is ESC with \
                teco run --esc '$' - and in files named .tes"
        ));
    }

    // Says that the last command string of a source has no end.
    fn tell_open_source(&mut self, source: &Source, name: &str) {
        let file = Shown(source.name().as_bytes());
        let LineAndByte { line, column } = source.position(self.begin);
        self.voice.say(format_args!(
            "{file}:{line}:{column}: ?{name}: the command string that begins here has no end, \
                which is two ESC"
        ));
    }
}

impl<H, E> Listener<H> for Teller<'_, E>
where
    H: Host + Reporting,
    E: Write + Drop,
{
    fn stopped<T: TextStore>(
        &mut self,
        text: &[u8],
        stopped: &Stopped,
        machine: &Machine<T>,
        host: &H,
    ) {
        self.number = self.number.saturating_add(1);
        if let Some(code) = code_of(stopped.stop) {
            self.tell_code(text, stopped, machine, code);
            if let Stop::HostFault(_) = stopped.stop {
                tell_trouble(self.voice, host);
            }
        }
        self.begin = self.begin.saturating_add(text.len());
    }

    fn rest(&mut self, code: Option<Code>) {
        let name = code.map_or("", letters);
        match self.source {
            None => self.tell_open_stream(name),
            Some(source) => self.tell_open_source(source, name),
        }
    }
}

// Is a command string a call for help, or for the end, as in other programs?
fn is_call_for_help(text: &[u8]) -> bool {
    let end = text
        .iter()
        .position(|byte| *byte == ESC)
        .unwrap_or(text.len());
    let word = text.get(..end).unwrap_or(text).trim_ascii();
    WORDS_FOR_HELP
        .iter()
        .any(|other| word.eq_ignore_ascii_case(other.as_bytes()))
}

// Says where help is, if a command string calls for it.
fn tell_help<E: Write + Drop>(voice: &mut Voice<E>, text: &[u8]) {
    if is_call_for_help(text) {
        voice.say(
            "  teco explain lists commands and codes, and teco explain FS says what FS does; EX and \
                two ESC end the session",
        );
    }
}

// The source of a word, with the ESC at its end that it lacks.
fn word_source(alloc: Global, word: &str, escape: Escape) -> Result<Source, AllocError> {
    let form = form_of_word(escape);
    let bytes = word.as_bytes().to_vec(alloc)?;
    let source = Source::new(alloc, "-e", bytes, form)?;
    let count = StringProgress::None.behind(source.text()).lacking();
    source.ended(count)
}

// The source of a script that is a file.
fn file_source<R: Shelf>(
    rt: &R,
    alloc: Global,
    name: &str,
    escape: Escape,
) -> Result<Source, ToolFault>
    ensures { IfOk result (FileSays (R.holds rt.now) escape name.now) }
{
    let bytes = read_file(rt, alloc, name)?;
    Ok(Source::script(alloc, name, bytes, form_of(name, escape))?)
}

// The source of a script that is none of standard input.
fn source_of<R: Shelf>(
    rt: &R,
    alloc: Global,
    script: Script<'_>,
    escape: Escape,
) -> Result<Option<Source>, ToolFault>
    ensures { IfOk result (IsInput (R.holds rt.now) escape script.entry) }
{
    match script {
        Script::Stream => Ok(None),
        Script::Word(word) => Ok(Some(word_source(alloc, word, escape)?)),
        Script::File(name) => Ok(Some(file_source(rt, alloc, name, escape)?)),
    }
}

impl Run<'_, '_> {
    // How a session is conducted.
    fn conduct(&self) -> Conduct
        ensures { result ≡ conduct_of self.now }
    {
        Conduct {
            limits: Limits {
                steps: self.limit,
                length: LIMIT,
            },
            until_code: self.until_code,
        }
    }
}

// Runs what a reader gives.
fn run_stream<S, H, O, E>(
    console: &mut Console<O, E>,
    machine: &mut Machine<GapText>,
    conduct: Conduct,
    reader: &mut S,
    host: &mut H,
) -> Result<Done, SessionFault>
where
    S: Read,
    H: Host + Reporting,
    O: Write + Drop,
    E: Write + Drop,
    requires { conduct.limits.length ≤ LIMIT }
    ensures { Joined (λ old new. HearsScript conduct.until_code conduct.limits None
        (setting old (H.failures host.old) (S.remaining reader.old) (O.contents console.old.out))
        (setting new (H.failures host.new) (S.remaining reader.new) (O.contents console.new.out))
        result) machine.old machine.new (H.files host.old) (H.files host.new) }
{
    let mut teller = Teller::of_stream(&mut console.voice);
    let out = &mut console.out;
    session_heard(
        console.alloc,
        machine,
        reader,
        out,
        host,
        conduct,
        &mut teller,
    )
}

// Runs what a source says.
fn run_source<H, O, E>(
    console: &mut Console<O, E>,
    machine: &mut Machine<GapText>,
    conduct: Conduct,
    source: &Source,
    host: &mut H,
) -> Result<Done, SessionFault>
where
    H: Host + Reporting,
    O: Write + Drop,
    E: Write + Drop,
    requires { conduct.limits.length ≤ LIMIT }
    ensures { (unread : Option (List ℕ)) → Joined (λ old new. HearsScript conduct.until_code
        conduct.limits (Some source.now)
        (setting old (H.failures host.old) unread (O.contents console.old.out))
        (setting new (H.failures host.new) unread (O.contents console.new.out))
        result) machine.old machine.new (H.files host.old) (H.files host.new) }
{
    let mut text = source.text();
    let mut teller = Teller::of_source(&mut console.voice, source);
    let out = &mut console.out;
    session_heard(
        console.alloc,
        machine,
        &mut text,
        out,
        host,
        conduct,
        &mut teller,
    )
}

// A script that is to be played: how its session is conducted, and its text, where it is none of the
// stream.
#[derive(Drop)]
struct PlayedScript {
    conduct: Conduct,
    source: Option<Source>,
}

// Runs what a source says, or what a reader gives where there is none.
fn run_script<S, H, O, E>(
    console: &mut Console<O, E>,
    machine: &mut Machine<GapText>,
    part: PlayedScript,
    reader: &mut S,
    host: &mut H,
) -> Result<Done, SessionFault>
where
    S: Read,
    H: Host + Reporting,
    O: Write + Drop,
    E: Write + Drop,
    requires { part.conduct.limits.length ≤ LIMIT }
    ensures { Joined (λ old new. HearsScript part.conduct.until_code
        part.conduct.limits part.source
        (setting old (H.failures host.old) (S.remaining reader.old) (O.contents console.old.out))
        (setting new (H.failures host.new) (S.remaining reader.new) (O.contents console.new.out))
        result) machine.old machine.new (H.files host.old) (H.files host.new) }
{
    let PlayedScript { conduct, source } = part;
    match source {
        None => run_stream(console, machine, conduct, reader, host),
        Some(source) => run_source(console, machine, conduct, &source, host),
    }
}

// Does a session end the run?
fn is_last(done: Done, until_code: bool) -> bool
    ensures { result ≡ scripts.is_last until_code done }
{
    done.exit || (done.coded && until_code)
}

// Scripts that are to be played, over files that are read by name.
#[derive(Clone, Copy)]
struct PlayedScripts<'t, 'a, R: Shelf> {
    rt: &'t R,
    scripts: &'t [Script<'a>],
    escape: Escape,
    conduct: Conduct,
}

// Runs scripts in turn, and says what came of them, and whether the session was ended.
fn run_each<R, S, H, O, E>(
    task: PlayedScripts<'_, '_, R>,
    console: &mut Console<O, E>,
    machine: &mut Machine<GapText>,
    reader: &mut S,
    host: &mut H,
) -> Result<Done, ToolFault>
where
    R: Shelf,
    S: Read,
    H: Host + Reporting,
    O: Write + Drop,
    E: Write + Drop,
    requires { task.conduct.limits.length ≤ LIMIT }
    ensures { Joined (λ old new. PlaysOut
        (terms_of (R.holds task.entry.rt.now) task.entry.escape task.entry.conduct)
        task.entry.scripts.now
        (setting old (H.failures host.old) (S.remaining reader.old) (O.contents console.old.out))
        (setting new (H.failures host.new) (S.remaining reader.new) (O.contents console.new.out))
        result) machine.old machine.new (H.files host.old) (H.files host.new) }
{
    let mut coded = false;
    for script in task.scripts {
        let source = source_of(task.rt, console.alloc, *script, task.escape)?;
        let part = PlayedScript {
            conduct: task.conduct,
            source,
        };
        let done = run_script(console, machine, part, reader, host)?;
        coded |= done.coded;
        if is_last(done, task.conduct.until_code) {
            return Ok(Done {
                coded,
                exit: done.exit,
            });
        }
    }
    Ok(Done { coded, exit: false })
}

// Says what a run leaves that is lost: an output that isn't closed, and text that the end of the
// session drops. Answers whether what was written to an output is kept.
fn tell_left<E: Write + Drop>(
    voice: &mut Voice<E>,
    machine: &Machine<GapText>,
    is_exit: bool,
) -> bool {
    let (_, length) = size_of(machine);
    if machine.has_output() {
        voice.complain(
            "an output is still open, and what was written to it is dropped: \
                close it with EC or EF",
        );
        return false;
    }
    if is_exit && length > 0 {
        voice.complain(format_args!(
            "EX ended the session with {length} characters in the buffer and no output, \
                and they are dropped"
        ));
    }
    true
}

// What is answered of scripts that were played.
fn outcome_of(done: Done, is_all_kept: bool) -> Outcome
    ensures { IsOutcome done result }
{
    if done.coded || !is_all_kept {
        Outcome::Coded
    } else {
        Outcome::Done
    }
}

// Runs scripts in turn, and says what they leave that is lost.
fn play_out<R, S, H, O, E>(
    task: PlayedScripts<'_, '_, R>,
    console: &mut Console<O, E>,
    machine: &mut Machine<GapText>,
    reader: &mut S,
    host: &mut H,
) -> Result<Outcome, ToolFault>
where
    R: Shelf,
    S: Read,
    H: Host + Reporting,
    O: Write + Drop,
    E: Write + Drop,
    requires { task.conduct.limits.length ≤ LIMIT }
    ensures { Concludes (terms_of (R.holds task.entry.rt.now) task.entry.escape task.entry.conduct)
        task.entry.scripts.now
        (around (H.failures host.old) (S.remaining reader.old) (O.contents console.old.out))
        (around (H.failures host.new) (S.remaining reader.new) (O.contents console.new.out))
        machine.old machine.new (H.files host.old) (H.files host.new) result }
{
    let done = run_each(task, console, machine, reader, host)?;
    let is_all_kept = tell_left(&mut console.voice, machine, done.exit);
    Ok(outcome_of(done, is_all_kept))
}

/// Runs scripts one after another on one machine, over the files of a host; the stream among them
/// is what the reader gives. A code does not keep later ones from running, unless the first is to
/// end it; a command string that ends the session does.
pub fn run_scripts<R, S, H, O, E>(
    rt: &R,
    console: &mut Console<O, E>,
    run: &Run<'_, '_>,
    reader: &mut S,
    host: &mut H,
) -> Result<Outcome, ToolFault>
where
    R: Shelf,
    S: Read,
    H: Host + Reporting,
    O: Write + Drop,
    E: Write + Drop,
    ensures { RunsScripts (terms_of (R.holds rt.now) run.now.escape (conduct_of run.now)) run.now
        (around (H.failures host.old) (S.remaining reader.old) (O.contents console.old.out))
        (around (H.failures host.new) (S.remaining reader.new) (O.contents console.new.out))
        (H.files host.old) (H.files host.new) result }
{
    let mut machine = machine_with(console.alloc, run.cap);
    prepare(&mut machine, run.start, host)?;
    let task = PlayedScripts {
        rt,
        scripts: run.scripts,
        escape: run.escape,
        conduct: run.conduct(),
    };
    play_out(task, console, &mut machine, reader, host)
}
