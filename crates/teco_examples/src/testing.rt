//! `test`: the examples of a library are tried.
ghost use Rattle.std.specs.Prelude.{◌≡◌, false, IfOk, IsTrue};
ghost use Rattle.teco_console.specs.declared.outcome.Outcome.TheVariants.{Done};
ghost use Rattle.teco_examples.specs.Examples.{AllHold, Holds, IsAsked, NoteHolds};
ghost use Rattle.teco_policy.specs.Policies.{KeepEach};

use crate::keeping::{first_breaking, is_exact, print_lines};
use crate::report::ExampleReport;
use crate::running::TextRun;
use std::fmt;
use std::io::{Input, Write};
use std::rt::Files;
use teco_acceptance::read_library;
use teco_base::{Code, Reg};
use teco_console::{Console, Outcome, Request, Sourced, letters};
use teco_edit_parts::write_diff;
use teco_explain::note_of_code;
use teco_jobs::Came;
use teco_notes::{Example, FoundNote, NoPolicy, NoTakes, Note, NoteSite, notes_of};
use teco_options::{LetterCase, Look};
use teco_paths::search::ClaimSearch;
use teco_source::{LineAndByte, Source};
use teco_tools::ToolFault;

/// Which examples of a library are tried, and how.
#[derive(Clone, Copy)]
pub struct Tests {
    /// Those of this macro; of all where it is none.
    pub entry: Option<Reg>,
    /// How searches treat case as a macro begins.
    pub case: Option<LetterCase>,
    /// How it is printed what differs.
    pub look: Look,
    /// Is an object of JSON printed for each, in place of what is wrong?
    pub prints_objects: bool,
}

impl Tests {
    // Is an example tried of the macro of this register?
    fn has(&self, register: Reg) -> bool
        ensures { IsAsked self.now.entry register → IsTrue result }
    {
        match self.entry {
            Some(entry) => entry.index() == register.index(),
            None => true,
        }
    }
}

// How many examples were tried, and how many of them failed.
#[derive(Clone, Copy)]
struct ExampleTally {
    tried: usize,
    failed: usize,
}

impl ExampleTally {
    // With one more that was tried.
    fn with(self, holds: bool) -> ExampleTally
        ensures { result.failed ≡ 0 → (self.failed ≡ 0) × IsTrue holds }
    {
        let failed = if holds { 0 } else { 1 };
        ExampleTally {
            tried: self.tried.saturating_add(1),
            failed: self.failed.saturating_add(failed),
        }
    }
}

// Says what is wrong about an example.
fn tell_failed<O: Write + Drop, E: Write + Drop, D: fmt::Display + Drop>(
    console: &mut Console<O, E>,
    source: &Source,
    finding: &FoundNote,
    what: D,
) -> Result<(), ToolFault> {
    let site = NoteSite {
        source,
        place: finding.place,
    };
    let name = char::from(finding.register.name());
    console.answer(format_args!("{site}: macro {name}: {what}\n"))?;
    Ok(())
}

// Says what differs where a macro made another text than the one that is wanted. Is it that one?
fn tell_text<O: Write + Drop, E: Write + Drop>(
    console: &mut Console<O, E>,
    source: &Source,
    finding: &FoundNote,
    look: Look,
    texts: (&[u8], &[u8]),
) -> Result<bool, ToolFault>
    ensures { IfOk result (λ is_wanted. IsTrue is_wanted → texts.entry.1.now ≡ texts.entry.0.now) }
{
    let (wanted, made) = texts;
    if *made == *wanted {
        return Ok(true);
    }
    let what = "made another text: - as wanted, + as made";
    tell_failed(console, source, finding, what)?;
    let alloc = console.alloc;
    write_diff(alloc, &mut console.out, look, b"text", (wanted, made))?;
    Ok(false)
}

// Says with which code a macro stopped, so that the example does not hold.
fn tell_code<O: Write + Drop, E: Write + Drop>(
    console: &mut Console<O, E>,
    source: &Source,
    finding: &FoundNote,
    code: Code,
) -> Result<bool, ToolFault>
    ensures { IfOk result (λ is_kept. is_kept ≡ false) }
{
    let name = letters(code);
    let summary = note_of_code(code).summary;
    let what = format!(in console.alloc; "?{name}: {summary}")?;
    tell_failed(console, source, finding, what.as_str())?;
    Ok(false)
}

// Says which policy an example breaks, if it does one. Are all kept?
fn tell_broken<O: Write + Drop, E: Write + Drop>(
    console: &mut Console<O, E>,
    source: &Source,
    finding: &FoundNote,
    example: &Example,
    made: &[u8],
) -> Result<bool, ToolFault>
    ensures { IfOk result (λ is_kept.
        IsTrue is_kept → KeepEach example.now.policies.items example.now.before.items made.now) }
{
    let Some(breaking) = first_breaking(&example.policies, &example.before, made) else {
        return Ok(true);
    };
    tell_failed(console, source, finding, breaking)?;
    print_lines(console, &breaking)?;
    Ok(false)
}

// Do both hold?
fn are_both(one: bool, other: bool) -> bool
    ensures { IsTrue result → IsTrue one × IsTrue other }
{
    one && other
}

// A library whose examples are tried, with its notes, and how that is done.
#[derive(Clone, Copy)]
struct Trial<'a> {
    sourced: &'a Sourced,
    notes: &'a [FoundNote],
    tests: &'a Tests,
}

impl Trial<'_> {
    // Tries an example. Does it hold?
    fn try_example<S: ClaimSearch, O: Write + Drop, E: Write + Drop>(
        &self,
        console: &mut Console<O, E>,
        finding: &FoundNote,
        example: &Example,
    ) -> Result<bool, ToolFault>
        ensures { IfOk result (λ holds. IsTrue holds → Holds self.now.sourced.now.library
            finding.now.register self.now.tests.now.case example.now) }
    {
        let source = &self.sourced.source;
        let Tests { case, look, .. } = *self.tests;
        let subject = TextRun::of::<S>(console.means(), self.sourced, finding.register, case);
        match subject.run_on(&self.sourced.library, example, &example.before)? {
            Came::Text(made) => {
                let wanted = tell_text(console, source, finding, look, (&example.after, &made))?;
                let kept = tell_broken(console, source, finding, example, &made)?;
                Ok(are_both(wanted, kept))
            }
            Came::Code(code) => tell_code(console, source, finding, code),
        }
    }

    // Tries a note, and counts it if it is an example. One that is meant to be an example or a policy
    // and is none counts as one that failed.
    fn try_note<S: ClaimSearch, O: Write + Drop, E: Write + Drop>(
        &self,
        console: &mut Console<O, E>,
        finding: &FoundNote,
        tally: ExampleTally,
    ) -> Result<ExampleTally, ToolFault>
        ensures { IfOk result (λ after. after.failed ≡ 0 → (tally.failed ≡ 0)
            × NoteHolds self.now.sourced.now.library self.now.tests.now.case
            finding.now.register finding.now.note) }
    {
        let source = &self.sourced.source;
        match &finding.note {
            Note::Example(Some(example)) => {
                Ok(tally.with(self.try_example::<S, _, _>(console, finding, example)?))
            }
            Note::Example(None) => {
                let what = "this is no example: write !EXAMPLE text => text!, as the manual says";
                tell_failed(console, source, finding, what)?;
                Ok(tally.with(false))
            }
            Note::Keeps(Err(refusal)) => {
                tell_failed(console, source, finding, NoPolicy(*refusal))?;
                Ok(tally.with(false))
            }
            Note::Takes(None) => {
                tell_failed(console, source, finding, NoTakes)?;
                Ok(tally.with(false))
            }
            Note::Keeps(Ok(_)) | Note::Takes(Some(_)) => Ok(tally),
        }
    }

    // Prints an object of what came of an example.
    fn print_report<O: Write + Drop, E: Write + Drop>(
        &self,
        console: &mut Console<O, E>,
        finding: &FoundNote,
        printed: &[u8],
    ) -> Result<(), ToolFault> {
        let source = &self.sourced.source;
        let LineAndByte { line, column } = source.position(finding.place);
        let report = ExampleReport {
            file: source.name_at(finding.place).as_bytes(),
            line: line as u64,
            column: column as u64,
            register: finding.register.name(),
            has_passed: printed.is_empty(),
            said: printed.strip_suffix(b"\n"),
        };
        console.out.write_all(&report.object(console.alloc)?)?;
        Ok(())
    }

    // Tries a note, and prints an object of it if it counts as an example.
    fn try_as_object<S: ClaimSearch, O: Write + Drop, E: Write + Drop>(
        &self,
        console: &mut Console<O, E>,
        finding: &FoundNote,
        tally: ExampleTally,
    ) -> Result<ExampleTally, ToolFault>
        ensures { IfOk result (λ after. after.failed ≡ 0 → (tally.failed ≡ 0)
            × NoteHolds self.now.sourced.now.library self.now.tests.now.case
            finding.now.register finding.now.note) }
    {
        let mut apart = console.apart();
        let after = self.try_note::<S, _, _>(&mut apart, finding, tally)?;
        let (printed, _) = apart.into_parts();
        if after.tried > tally.tried {
            self.print_report(console, finding, &printed)?;
        }
        Ok(after)
    }

    // Tries a note, and prints an object of it if objects are asked for.
    fn try_one<S: ClaimSearch, O: Write + Drop, E: Write + Drop>(
        &self,
        console: &mut Console<O, E>,
        finding: &FoundNote,
        tally: ExampleTally,
    ) -> Result<ExampleTally, ToolFault>
        ensures { IfOk result (λ after. after.failed ≡ 0 → (tally.failed ≡ 0)
            × NoteHolds self.now.sourced.now.library self.now.tests.now.case
            finding.now.register finding.now.note) }
    {
        if self.tests.prints_objects {
            self.try_as_object::<S, _, _>(console, finding, tally)
        } else {
            self.try_note::<S, _, _>(console, finding, tally)
        }
    }

    // Tries those of the notes that are asked for.
    fn try_all<S: ClaimSearch, O: Write + Drop, E: Write + Drop>(
        &self,
        console: &mut Console<O, E>,
    ) -> Result<ExampleTally, ToolFault>
        ensures { IfOk result (λ tally. tally.failed ≡ 0 → AllHold self.now.sourced.now.library
            self.now.tests.now.case self.now.tests.now.entry self.now.notes.now) }
    {
        let mut tally = ExampleTally {
            tried: 0,
            failed: 0,
        };
        for finding in self.notes {
            if !self.tests.has(finding.register) {
                continue;
            }
            tally = self.try_one::<S, _, _>(console, finding, tally)?;
        }
        Ok(tally)
    }
}

// Says how many examples were tried.
fn tell_tally<O: Write + Drop, E: Write + Drop>(
    console: &mut Console<O, E>,
    tally: ExampleTally,
) -> Outcome
    ensures { result ≡ Done → tally.failed ≡ 0 }
{
    let ExampleTally { tried, failed } = tally;
    console.say(format_args!("examples: {tried}, failed: {failed}"));
    if failed > 0 {
        Outcome::Coded
    } else {
        Outcome::Done
    }
}

/// Tries those of a library's notes that are asked for: prints what differs where a macro makes another
/// text of an example, and which policy of the macro it breaks. The macros need not be ones that are
/// accepted. Where all is done, all of them hold.
pub fn test_notes<S: ClaimSearch, O: Write + Drop, E: Write + Drop>(
    console: &mut Console<O, E>,
    sourced: &Sourced,
    notes: &[FoundNote],
    tests: &Tests,
) -> Result<Outcome, ToolFault>
    ensures { IfOk result (λ outcome. outcome ≡ Done
        → AllHold sourced.now.library tests.now.case tests.now.entry notes.now) }
{
    let trial = Trial {
        sourced,
        notes,
        tests,
    };
    let tally = trial.try_all::<S, _, _>(console)?;
    Ok(tell_tally(console, tally))
}

/// Reads a library, and tries what is noted in its comments.
pub fn test_examples<S: ClaimSearch, R: Files + Input, O: Write + Drop, E: Write + Drop>(
    rt: &R,
    console: &mut Console<O, E>,
    request: Request<'_>,
    tests: Tests,
) -> Result<Outcome, ToolFault> {
    let Some(sourced) = read_library(rt, console, request)? else {
        return Ok(Outcome::Refused);
    };
    let notes = notes_of(console.alloc, sourced.source.text(), is_exact(tests.case))?;
    test_notes::<S, _, _>(console, &sourced, &notes, &tests)
}
