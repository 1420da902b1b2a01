//! The program: sessions on standard input, and verified macros.
#![tactic(auto)]

ghost use Rattle.std.specs.Prelude.{◌≡◌, ◌≤◌, [], length};
ghost use Rattle.teco_hosts.specs.HostFiles.{Notes};
ghost use Rattle.teco_options.specs.declared.editing.TheConstants.{NAME};

mod fault;
mod named;

use crate::fault::ProgramFault;
use crate::named::{applied_to, behind, called, called_by, calls_name, tell_file, texts_of};
use clap::ArgMatches;
use std::alloc::Global;
use std::io::{Input, IsTerminal, Write};
use std::process::ExitCode;
use std::{env, io};
use teco_applied::{Errand, apply_macro, edit_files, trace_macro};
use teco_base::Reg;
use teco_console::{
    Console, Outcome, Request, Setting, explain, explain_all, explain_as_json, method_for, show,
    show_source, tell_near,
};
use teco_edit_parts::{ChosenFile, choose};
use teco_edits::{EditOutcome, InPlaceEdits};
use teco_examples::{Tests, fuzz_macro, test_examples};
use teco_files::Closing;
use teco_hosts::Host;
use teco_infer::Inference;
use teco_jobs::{CountsForm, Listing, Names, Task};
use teco_judging::Judged;
use teco_named::{
    BoundTexts, CalledMacro, GivenTexts, MacroFolders, NamedFault, list_macros, show_macro,
};
use teco_pages::FileHost;
use teco_policy::Policy;
use teco_tools::{
    Escaping, OUTPUT, Prompting, Reporting, Run, Start, Streams, ToolFault, run_scripts,
};
use teco_verdicts::{
    ChangesForm, check_macro, check_macro_as_json, explain_macro, explain_macro_as_json,
    tell_changes, verify_library, verify_library_as_json, verify_macro, verify_macro_as_json,
};
use teco_words::{AppliedTo, BehindName, CommandLine, VerdictForm, WordsFault};

/// The command line names no command, or a file of macros, a certificate, standard input, standard
/// output or memory failed.
const FAILED: u8 = 2;

/// Who reads standard output has closed it: what shells say of a program that ends by that signal.
const CLOSED_PIPE: u8 = 141;

// The texts that registers are given before a run, those of files last.
fn settings(rt: &HostRuntime, given: &ArgMatches<'_>) -> Result<Vec<Setting>, ProgramFault> {
    let escape = teco_words::escape_of(given)?;
    let mut settings = teco_words::settings(rt.alloc(), given, escape)?;
    for word in teco_words::setting_files(given) {
        match Setting::read_file(rt, rt.alloc(), *word)? {
            Some(setting) => settings.push(setting)?,
            None => return Err(WordsFault::Setting.into()),
        }
    }
    Ok(settings)
}

// What a machine has before a run.
fn start<'s>(given: &ArgMatches<'_>, settings: &'s [Setting]) -> Result<Start<'s>, WordsFault> {
    Ok(Start {
        settings,
        case: teco_words::case(given)?,
    })
}

// Runs scripts over the files of the system, and asks for their input.
fn run_over<O: Write + Drop, E: Write + Drop>(
    rt: &HostRuntime,
    console: &mut Console<O, E>,
    run: &Run<'_, '_>,
) -> Result<Outcome, ToolFault> {
    let errors = rt.stderr();
    let is_terminal = rt.stdin().is_terminal() && errors.is_terminal();
    let mut reader = Prompting::new(rt.reader(), io::writer(&errors), is_terminal);
    let mut host = FileHost::new(rt.alloc(), *rt);
    run_scripts(rt, console, run, &mut reader, &mut host)
}

// `run`.
fn run<O: Write + Drop, E: Write + Drop>(
    rt: &HostRuntime,
    console: &mut Console<O, E>,
    given: &ArgMatches<'_>,
) -> Result<Outcome, ProgramFault> {
    let escape = teco_words::escape_of(given)?;
    let scripts = teco_words::scripts(rt.alloc(), given)?;
    teco_words::check_escape(escape, &scripts)?;
    let settings = settings(rt, given)?;
    let run = Run {
        scripts: &scripts,
        escape,
        limit: u64::from(teco_words::limit(given)),
        cap: teco_words::cap(given),
        until_code: given.get_flag("stop"),
        start: start(given, &settings)?,
    };
    Ok(run_over(rt, console, &run)?)
}

// The library that is named, how it writes ESC, and by which rules it is verified.
fn request<'m>(
    given: &'m ArgMatches<'_>,
    called: Option<&'m CalledMacro>,
    is_best: bool,
) -> Result<Request<'m>, WordsFault> {
    let library = match called {
        Some(called) => called.origin(),
        None => teco_words::origin(given)?,
    };
    let escape = teco_words::escape_of(given)?;
    let is_best = is_best || library.is_readable(escape);
    Ok(Request {
        library,
        escape,
        method: method_for(teco_words::method_of(given)?, is_best),
        searches: &[],
    })
}

// The register of the macro.
fn entry(given: &ArgMatches<'_>, called: Option<&CalledMacro>) -> Result<Reg, WordsFault> {
    match called {
        Some(called) => Ok(called.entry()),
        None => teco_words::entry(given),
    }
}

// The register of the macro, if one is named.
fn named_entry(
    given: &ArgMatches<'_>,
    called: Option<&CalledMacro>,
    is_named: bool,
) -> Result<Option<Reg>, WordsFault> {
    if called.is_some() {
        teco_words::check_name(given)?;
    } else if !is_named {
        return Ok(None);
    }
    Ok(Some(entry(given, called)?))
}

// `list`.
fn list<O: Write + Drop, E: Write + Drop>(
    rt: &HostRuntime,
    console: &mut Console<O, E>,
) -> Result<Outcome, ProgramFault> {
    let folders = MacroFolders::read(rt)?;
    Ok(list_macros(rt, console, &folders)?)
}

// `show`, in a form that people read or that reads as the same bytes; a macro that is called by its name
// as it is written.
fn show_file<O: Write + Drop, E: Write + Drop>(
    rt: &HostRuntime,
    console: &mut Console<O, E>,
    given: &ArgMatches<'_>,
) -> Result<Outcome, ProgramFault> {
    let escape = teco_words::escape_of(given)?;
    let called = called_by(rt, teco_words::name_in(given, "FILE"))?;
    let name = match &called {
        Some(called) => called.path(),
        None => teco_words::word(given, "FILE"),
    };
    if given.get_flag("source") {
        let form = teco_words::form_of_source(escape);
        return Ok(show_source(rt, console, name, form)?);
    }
    if let Some(called) = &called {
        return Ok(show_macro(rt, console, called)?);
    }
    let mark = teco_words::mark_of(escape);
    Ok(show(rt, console, name, mark)?)
}

// `verify`, of a macro or of a library.
fn verify<O: Write + Drop, E: Write + Drop>(
    rt: &HostRuntime,
    console: &mut Console<O, E>,
    given: &ArgMatches<'_>,
) -> Result<Outcome, ProgramFault> {
    console.effort = teco_words::effort_of(given)?;
    let called = called(rt, given)?;
    let entry = named_entry(given, called.as_ref(), teco_words::names_macro(given))?;
    let request = request(given, called.as_ref(), entry.is_none())?;
    Ok(match (teco_words::verdict_form(given), entry) {
        (VerdictForm::Changes, entry) => {
            tell_changes::<Inference, _, _, _>(rt, console, request, entry, ChangesForm::Words)?
        }
        (VerdictForm::ChangesObject, entry) => {
            tell_changes::<Inference, _, _, _>(rt, console, request, entry, ChangesForm::Object)?
        }
        (VerdictForm::Certificate, Some(entry)) => {
            verify_macro::<Inference, _, _, _>(rt, console, request, entry)?
        }
        (VerdictForm::Certificate, None) => {
            verify_library::<Inference, _, _, _>(rt, console, request)?
        }
        (VerdictForm::Object, Some(entry)) => {
            verify_macro_as_json::<Inference, _, _, _>(rt, console, request, entry)?
        }
        (VerdictForm::Object, None) => {
            verify_library_as_json::<Inference, _, _, _>(rt, console, request)?
        }
    })
}

// `check`.
fn check<O: Write + Drop, E: Write + Drop>(
    rt: &HostRuntime,
    console: &mut Console<O, E>,
    given: &ArgMatches<'_>,
) -> Result<Outcome, ProgramFault> {
    let request = request(given, None, false)?;
    let entry = teco_words::entry(given)?;
    let certificate = teco_words::word(given, "CERT");
    if given.get_flag("json") {
        return Ok(check_macro_as_json::<Inference, _, _, _>(
            rt,
            console,
            request,
            entry,
            certificate,
        )?);
    }
    Ok(check_macro(rt, console, request, entry, certificate)?)
}

// How it is said how many commands runs took, if it is: objects are asked for alone, too.
fn counts(given: &ArgMatches<'_>) -> Option<CountsForm> {
    if given.get_flag("json") {
        Some(CountsForm::AsObject)
    } else {
        given.get_flag("stats").then_some(CountsForm::InWords)
    }
}

// How a macro edits files.
fn task<'m>(
    given: &'m ArgMatches<'_>,
    called: Option<&'m CalledMacro>,
    texts: &'m BoundTexts,
    is_best: bool,
) -> Result<Task<'m, 'm>, ProgramFault> {
    Ok(Task {
        library: Request {
            searches: &texts.searches,
            ..request(given, called, is_best)?
        },
        entry: entry(given, called)?,
        certificate: given.get_str("cert"),
        argument: teco_words::given(given)?,
        pages: teco_words::pages(given)?,
        start: start(given, &texts.settings)?,
        cap: teco_words::cap(given),
        is_strict: given.get_flag("strict"),
        wants_all: given.get_flag("strict"),
        counts: counts(given),
        tells_promise: false,
    })
}

// How an answer is given aside: what is said, and how many times the usual steps a search may take.
#[derive(Clone, Copy)]
struct AsideManner {
    is_quiet: bool,
    effort: u32,
}

// Applies a macro, and tells on standard error what there is to tell.
fn apply_aside<'p, H: Host + Reporting + Drop>(
    rt: &HostRuntime,
    manner: AsideManner,
    task: &Task<'_, '_>,
    errand: Errand<'_>,
    host: &mut Judged<'p, H>,
) -> Result<Outcome, ToolFault>
    requires fresh { ⟦<Judged<'p, H> as Host>⟧.files host.old ≡ Notes [] }
{
    let errors = rt.stderr();
    let mut aside = Console::new(rt.alloc(), io::writer(&errors), io::writer(&errors));
    aside.effort = manner.effort;
    if manner.is_quiet {
        aside.voice.hush();
    }
    apply_macro::<Inference, _, _, _, _>(rt, &mut aside, task, errand, host)
}

// Applies a macro to files of the system, or to its streams.
fn apply_over<O: Write + Drop, E: Write + Drop>(
    rt: &HostRuntime,
    console: &mut Console<O, E>,
    manner: AsideManner,
    task: &Task<'_, '_>,
    errand: Errand<'_>,
) -> Result<Outcome, ToolFault> {
    let mut files = FileHost::new(rt.alloc(), *rt);
    files.set_closing(Closing::ReplacesOther);
    let streams = Streams::new(rt.alloc(), files, rt.reader(), io::writer(rt));
    let mut host = Judged::new(rt.alloc(), streams, errand.policies);
    if errand.names.target == OUTPUT {
        apply_aside(rt, manner, task, errand, &mut host)
    } else {
        apply_macro::<Inference, _, _, _, _>(rt, console, task, errand, &mut host)
    }
}

// The files that words name, and the policies that they ask for.
#[derive(Drop)]
struct NamedErrand {
    source: Vec<u8>,
    target: Vec<u8>,
    policies: Vec<Policy>,
    ghost short_source: { length source.items ≤ NAME },
    ghost short_target: { length target.items ≤ NAME },
}

impl NamedErrand {
    // What words say.
    fn read(
        alloc: Global,
        given: &ArgMatches<'_>,
        to: &AppliedTo<'_>,
    ) -> Result<NamedErrand, ProgramFault> {
        Ok(NamedErrand {
            source: to.source_name()?.to_vec(alloc)?,
            target: to.target_name()?.to_vec(alloc)?,
            policies: teco_words::policies_of(alloc, given)?,
        })
    }

    // The errand.
    fn errand(&self) -> Errand<'_> {
        let names = Names {
            source: &self.source,
            target: &self.target,
        };
        Errand {
            names,
            policies: &self.policies,
        }
    }
}

// The texts of a macro that is applied.
fn texts_to_apply(
    rt: &HostRuntime,
    given: &ArgMatches<'_>,
    called: Option<&CalledMacro>,
    to: &AppliedTo<'_>,
) -> Result<BoundTexts, ProgramFault> {
    let texts = GivenTexts {
        words: to.given.clone()?,
        settings: settings(rt, given)?,
    };
    texts_of(rt, called, teco_words::escape_of(given)?, texts)
}

// `apply`. Where the text goes to standard output, all else goes to standard error.
fn apply<'a, O: Write + Drop, E: Write + Drop>(
    rt: &HostRuntime,
    console: &mut Console<O, E>,
    given: &ArgMatches<'a>,
    arguments: &'a CommandLine,
) -> Result<Outcome, ProgramFault> {
    if given.get_flag("quiet") {
        console.voice.hush();
    }
    console.effort = teco_words::effort_of(given)?;
    let called = called(rt, given)?;
    let called = called.as_ref();
    let to = applied_to(rt.alloc(), called, given, arguments, true)?;
    let texts = texts_to_apply(rt, given, called, &to)?;
    let task = task(given, called, &texts, false)?;
    to.check_streams(given, task.is_strict)?;
    let named = NamedErrand::read(rt.alloc(), given, &to)?;
    tell_file(console, called);
    let manner = AsideManner {
        is_quiet: given.get_flag("quiet"),
        effort: console.effort,
    };
    Ok(apply_over(rt, console, manner, &task, named.errand())?)
}

// Are colours shown where the words leave that open?
fn shows_colours(rt: &HostRuntime) -> bool {
    let is_refused = match env::var(rt, "NO_COLOR") {
        Ok(text) => !text.is_empty(),
        Err(_) => false,
    };
    let is_dumb = match env::var(rt, "TERM") {
        Ok(terminal) => terminal.as_str() == "dumb",
        Err(_) => false,
    };
    rt.stdout().is_terminal() && !is_refused && !is_dumb
}

// `test`.
fn test<O: Write + Drop, E: Write + Drop>(
    rt: &HostRuntime,
    console: &mut Console<O, E>,
    given: &ArgMatches<'_>,
) -> Result<Outcome, ProgramFault> {
    console.effort = teco_words::effort_of(given)?;
    let called = called(rt, given)?;
    let called = called.as_ref();
    let is_named = given.get_flag("fuzz") || teco_words::names_register(given);
    let entry = named_entry(given, called, is_named)?;
    if given.get_flag("fuzz")
        && let Some(entry) = entry
    {
        let case = teco_words::case(given)?;
        return Ok(fuzz_macro::<Inference, _, _, _>(
            rt,
            console,
            request(given, called, true)?,
            entry,
            case,
        )?);
    }
    let tests = Tests {
        entry,
        case: teco_words::case(given)?,
        look: teco_words::look(given, shows_colours(rt))?,
        prints_objects: given.get_flag("json"),
    };
    let request = request(given, called, true)?;
    Ok(test_examples::<Inference, _, _, _>(rt, console, request, tests)?)
}

// Do the examples of the library stand? One from standard input can't be read twice.
fn is_tested<O: Write + Drop, E: Write + Drop>(
    rt: &HostRuntime,
    console: &mut Console<O, E>,
    given: &ArgMatches<'_>,
    called: Option<&CalledMacro>,
) -> Result<bool, ProgramFault> {
    teco_words::check_tested(given)?;
    let tests = Tests {
        entry: None,
        case: teco_words::case(given)?,
        look: teco_words::look(given, shows_colours(rt))?,
        prints_objects: false,
    };
    let request = request(given, called, true)?;
    let outcome = test_examples::<Inference, _, _, _>(rt, console, request, tests)?;
    Ok(matches!(outcome, Outcome::Done))
}

// The files that are edited.
fn chosen_files<'a, O: Write + Drop, E: Write + Drop>(
    rt: &HostRuntime,
    console: &mut Console<O, E>,
    given: &ArgMatches<'a>,
    names: &[&[u8]],
) -> Result<Vec<ChosenFile>, ProgramFault> {
    let choice = teco_words::choice(given, names)?;
    Ok(choose(rt, &mut console.voice, &choice)?)
}

// Is nothing printed but the names of files and what macros type, at a terminal? With NULs behind
// names, or differences, it is for programs or safe as it is.
fn prints_names(rt: &HostRuntime, given: &ArgMatches<'_>) -> bool {
    rt.stdout().is_terminal() && !given.get_flag("null") && !given.get_flag("diff")
}

// Edits files by a macro, with what stands behind it in the command line.
fn edit_behind<O: Write + Drop, E: Write + Drop>(
    rt: &HostRuntime,
    console: &mut Console<Escaping<O>, E>,
    given: &ArgMatches<'_>,
    called: Option<&CalledMacro>,
    behind: BehindName<'_>,
) -> Result<EditOutcome, ProgramFault> {
    let texts = GivenTexts {
        words: behind.given,
        settings: settings(rt, given)?,
    };
    let texts = texts_of(rt, called, teco_words::escape_of(given)?, texts)?;
    let task = Task {
        is_strict: !given.get_flag("beyond-promise"),
        wants_all: false,
        tells_promise: called.is_some() || teco_words::has_macro_options(given),
        // objects have the counts
        counts: given.get_flag("stats").then_some(CountsForm::InWords),
        ..task(given, called, &texts, true)?
    };
    let files = chosen_files(rt, console, given, &behind.files)?;
    let policies = teco_words::policies_of(rt.alloc(), given)?;
    let edit = in_place(rt, given, &files)?;
    tell_file(console, called);
    Ok(edit_files::<Inference, _, _, _>(rt, console, &task, &edit, policies)?)
}

// How files are edited in place.
fn in_place<'m>(
    rt: &HostRuntime,
    given: &'m ArgMatches<'_>,
    files: &'m [ChosenFile],
) -> Result<InPlaceEdits<'m>, WordsFault> {
    let look = teco_words::look(given, shows_colours(rt))?;
    Ok(InPlaceEdits {
        files,
        policies: &[],
        takes_binary: given.get_flag("binary"),
        diff: given.get_flag("diff").then_some(look),
        shows_progress: rt.stderr().is_terminal() && !given.get_flag("quiet"),
        change: teco_words::change(given),
        ends_by_nul: given.get_flag("null"),
        prints_objects: given.get_flag("json"),
        keeping: teco_words::keeping(given),
        is_durable: given.get_flag("durable"),
        naming: teco_words::naming(given),
    })
}

// `edit`.
fn edit<'a, O: Write + Drop, E: Write + Drop>(
    rt: &HostRuntime,
    console: &mut Console<Escaping<O>, E>,
    given: &ArgMatches<'a>,
    arguments: &'a CommandLine,
) -> Result<EditOutcome, ProgramFault> {
    if given.get_flag("quiet") {
        console.voice.hush();
    }
    console.effort = teco_words::effort_of(given)?;
    if prints_names(rt, given) {
        console.out.turn_on();
    }
    let called = called(rt, given)?;
    let called = called.as_ref();
    let behind = behind(rt.alloc(), called, given, arguments)?;
    if given.get_flag("tested") && !is_tested(rt, console, given, called)? {
        return Ok(EditOutcome::Refused);
    }
    edit_behind(rt, console, given, called, behind)
}

// Traces a macro over files of the system, or standard input. What it writes to files is dropped.
fn trace_over<O: Write + Drop, E: Write + Drop>(
    rt: &HostRuntime,
    console: &mut Console<O, E>,
    task: &Task<'_, '_>,
    listing: Listing<'_>,
) -> Result<Outcome, ToolFault> {
    let mut files = FileHost::new(rt.alloc(), *rt);
    files.set_closing(Closing::Compares);
    let mut host = Streams::new(rt.alloc(), files, rt.reader(), io::sink());
    trace_macro::<Inference, _, _, _, _>(rt, console, task, listing, &mut host)
}

// `trace`.
fn trace<'a, O: Write + Drop, E: Write + Drop>(
    rt: &HostRuntime,
    console: &mut Console<O, E>,
    given: &ArgMatches<'a>,
    arguments: &'a CommandLine,
) -> Result<Outcome, ProgramFault> {
    console.effort = teco_words::effort_of(given)?;
    let called = called(rt, given)?;
    let called = called.as_ref();
    let to = applied_to(rt.alloc(), called, given, arguments, false)?;
    let texts = texts_to_apply(rt, given, called, &to)?;
    let task = Task {
        certificate: None,
        is_strict: !given.get_flag("beyond-promise"),
        wants_all: false,
        counts: None,
        ..task(given, called, &texts, true)?
    };
    to.check_streams(given, false)?;
    let listing = Listing {
        names: Names {
            source: to.source_name()?,
            target: OUTPUT,
        },
        most: u64::from(teco_words::limit(given)),
    };
    tell_file(console, called);
    Ok(trace_over(rt, console, &task, listing)?)
}

// `explain`, of what is known at each element of a macro.
fn explain_known<O: Write + Drop, E: Write + Drop>(
    rt: &HostRuntime,
    console: &mut Console<O, E>,
    given: &ArgMatches<'_>,
    called: Option<&CalledMacro>,
) -> Result<Outcome, ProgramFault> {
    let entry = entry(given, called)?;
    let request = request(given, called, true)?;
    Ok(if given.get_flag("json") {
        explain_macro_as_json::<Inference, _, _, _>(rt, console, request, entry)?
    } else {
        explain_macro::<Inference, _, _, _>(rt, console, request, entry)?
    })
}

// `explain`, of the macro that a word calls by its name, if there is one; or else what is near to the word
// is said.
fn explain_called<O: Write + Drop, E: Write + Drop>(
    rt: &HostRuntime,
    console: &mut Console<O, E>,
    given: &ArgMatches<'_>,
    word: &str,
) -> Result<Outcome, ProgramFault> {
    match called(rt, given) {
        Ok(Some(called)) => explain_known(rt, console, given, Some(&called)),
        Ok(None) | Err(ProgramFault::Named(NamedFault::Unfound { .. })) => {
            tell_near(console, word)?;
            Err(WordsFault::Unknown.into())
        }
        Err(fault) => Err(fault),
    }
}

// `explain`, of a macro where a register is named, or of a word.
fn explain_what<O: Write + Drop, E: Write + Drop>(
    rt: &HostRuntime,
    console: &mut Console<O, E>,
    given: &ArgMatches<'_>,
) -> Result<Outcome, ProgramFault> {
    console.effort = teco_words::effort_of(given)?;
    if teco_words::names_macro(given) {
        let called = called(rt, given)?;
        if called.is_some() {
            teco_words::check_name(given)?;
        }
        return explain_known(rt, console, given, called.as_ref());
    }
    let Some(word) = given.get_str("LIB") else {
        return Ok(explain_all(console)?);
    };
    let explained = if given.get_flag("json") {
        explain_as_json(console, word)?
    } else {
        explain(console, word)?
    };
    match explained {
        Some(outcome) => Ok(outcome),
        None => explain_called(rt, console, given, word),
    }
}

// Says what leads on, where a macro in words is in the form of another program.
fn tell_hint<O: Write + Drop, E: Write + Drop>(
    rt: &HostRuntime,
    console: &mut Console<O, E>,
    given: &ArgMatches<'_>,
) {
    let texts = given.get_strs("text").unwrap_or(&[]);
    if let Some(hint) = teco_words::hint_for(rt.alloc(), texts) {
        console.voice.say(format_args!("  {hint}"));
    }
}

// Does what the words say, and leads on where that came to nothing. Answers the status.
fn obey_and_hint<'a, O: Write + Drop, E: Write + Drop>(
    rt: &HostRuntime,
    console: &mut Console<Escaping<O>, E>,
    matches: &ArgMatches<'a>,
    arguments: &'a CommandLine,
) -> Result<u8, ProgramFault> {
    let status = obey(rt, console, matches, arguments)?;
    match matches.subcommand() {
        Some((name, given)) if name != "show" && name != "list" && status > 0 => {
            tell_hint(rt, console, given);
        }
        _ => {}
    }
    Ok(status)
}

// Does what the words say. Answers the status.
fn obey<'a, O: Write + Drop, E: Write + Drop>(
    rt: &HostRuntime,
    console: &mut Console<Escaping<O>, E>,
    matches: &ArgMatches<'a>,
    arguments: &'a CommandLine,
) -> Result<u8, ProgramFault> {
    let Some((name, given)) = matches.subcommand() else {
        return Err(WordsFault::Unknown.into());
    };
    teco_words::check_texts(rt.alloc(), name, given, arguments)?;
    match name {
        "run" => Ok(run(rt, console, given)?.status()),
        "verify" => Ok(verify(rt, console, given)?.status()),
        "check" => Ok(check(rt, console, given)?.status()),
        "apply" => Ok(apply(rt, console, given, arguments)?.status()),
        "edit" => Ok(edit(rt, console, given, arguments)?.status()),
        "test" => Ok(test(rt, console, given)?.status()),
        "trace" => Ok(trace(rt, console, given, arguments)?.status()),
        "list" => Ok(list(rt, console)?.status()),
        "show" => Ok(show_file(rt, console, given)?.status()),
        "explain" => Ok(explain_what(rt, console, given)?.status()),
        _ => Err(WordsFault::Unknown.into()),
    }
}

// Prints why words are no command, or the help that they ask for, safe for a terminal.
fn print_refusal(
    rt: &HostRuntime,
    arguments: &CommandLine,
    error: &clap::Error,
) -> Result<ExitCode, ProgramFault> {
    let text = format!(in rt.alloc(); "{error}")?;
    let shown = arguments.shown(rt.alloc(), text.as_str())?;
    if error.use_stderr() {
        eprint!(rt; "{shown}")?;
    } else {
        print!(rt; "{shown}")?;
    }
    Ok(ExitCode::from(error.exit_code() as u8))
}

// Reads the words, and does what they say.
fn read_and_obey(rt: &HostRuntime) -> Result<ExitCode, ProgramFault> {
    let arguments = CommandLine::read(rt)?;
    let calls_name = calls_name(rt, arguments.texts())?;
    let command = teco_words::command(rt.alloc(), arguments.texts(), calls_name)?;
    let matches = match command.try_get_matches_from(arguments.texts()) {
        Ok(matches) => matches,
        Err(error) => return print_refusal(rt, &arguments, &error),
    };
    let errors = rt.stderr();
    let out = Escaping::new(rt.alloc(), io::writer(rt));
    let mut console = Console::new(rt.alloc(), out, io::writer(&errors));
    let status = obey_and_hint(rt, &mut console, &matches, &arguments)?;
    Ok(ExitCode::from(status))
}

fn main(rt: HostRuntime) -> ExitCode {
    match read_and_obey(&rt) {
        Ok(status) => status,
        Err(error) if error.is_closed_pipe() => ExitCode::from(CLOSED_PIPE),
        Err(error) => {
            let _ = eprintln!(rt; "teco: {error}");
            ExitCode::from(FAILED)
        }
    }
}
