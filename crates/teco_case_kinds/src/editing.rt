//! Edits of a file by a verified macro, and what they promise.
use crate::case_file::NamedText;
use crate::fault::CaseFault;
use crate::findings::Findings;
use crate::running::{CaseRun, CaseRunner, FilesLeft, buffer_of, run_over_each};
use crate::settings::{IN_FOLDER, IN_MEMORY};
use std::alloc::{AllocError, Global};
use std::rt::Env;
use teco_apply::{Edit, Edited, PageChoice, Willing, edit_file};
use teco_base::bytes::FF;
use teco_console::Premise;
use teco_files::System;
use teco_hosts::Host;
use teco_poly::Poly;
use teco_promise::Promise;
use teco_run::Machine;
use teco_session::SessionFault;
use teco_text::TextStore;

/// The names of the file that is edited, and of the one that is made.
const SOURCE: &[u8] = b"in";

const TARGET: &[u8] = b"out";

/// The exit status where a macro is given an argument that it does not take.
const NOT_TAKEN: u64 = 2;

/// What is edited, and how.
#[derive(Clone, Copy)]
pub struct EditTask<'a> {
    pub promise: &'a Promise<'a>,
    pub argument: Option<i32>,
    pub pages: PageChoice,
    pub input: &'a [u8],
}

/// What is to come of an edit.
#[derive(Clone, Copy)]
pub struct ExpectedEdit<'a> {
    pub typed: &'a [u8],
    pub status: u64,
    /// The file that is made; none where none is.
    pub output: Option<&'a [u8]>,
    /// The steps of the run, where they are told.
    pub steps: Option<u64>,
}

// The exit status of an edit, and its steps.
fn status_of(edited: Result<Edited, SessionFault>) -> Result<(u64, u64), SessionFault> {
    match edited {
        Ok(edited) => Ok((u64::from(edited.coded), edited.steps)),
        Err(SessionFault::Argument) => Ok((NOT_TAKEN, 0)),
        Err(fault) => Err(fault),
    }
}

impl EditTask<'_> {
    // What a promised polynomial is at the N of its only run.
    fn most(&self, promised: Poly) -> Option<u64> {
        let PageChoice::First = self.pages else {
            return None;
        };
        let n = self.held();
        if !Premise::of_promise(self.promise).holds_at(u128::from(n)) {
            return None;
        }
        promised.at(n)
    }

    /// How many characters are held as the run on the first page begins: the texts of the library,
    /// and the file but for the form feed that ends the page.
    pub fn held(&self) -> u64 {
        let mut held = self.input.len() as u64;
        if self.input.contains(&FF) {
            held = held.saturating_sub(1);
        }
        for text in self.promise.library().texts() {
            held = held.saturating_add(text.unwrap_or(b"").len() as u64);
        }
        held
    }
}

// Finds that more was done than is promised.
fn compare_most(
    findings: &mut Findings,
    what: &str,
    most: Option<u64>,
    done: u64,
) -> Result<(), AllocError> {
    match most {
        Some(most) if done > most => findings.add(what, format_args!("at most {most}"), done),
        _ => Ok(()),
    }
}

// A task, and what is to come of it.
#[derive(Drop)]
struct Trial<'a> {
    alloc: Global,
    task: EditTask<'a>,
    files: [NamedText<'a>; 1],
    wanted: ExpectedEdit<'a>,
}

impl<'a> Trial<'a> {
    // The trial of a task.
    fn new(alloc: Global, task: EditTask<'a>, wanted: ExpectedEdit<'a>) -> Trial<'a> {
        Trial {
            alloc,
            task,
            files: [NamedText {
                name: SOURCE,
                text: task.input,
            }],
            wanted,
        }
    }

    // Finds files beside the one that is edited and the one that is made.
    fn compare_names(
        &self,
        findings: &mut Findings,
        left: FilesLeft<'_>,
    ) -> Result<(), AllocError> {
        for name in left.names {
            let name = name.as_bytes();
            if name != SOURCE && name != TARGET {
                findings.compare_files(name, None, left.files.file(name))?;
            }
        }
        Ok(())
    }

    // Edits the file: the exit status and the steps.
    fn edited<T: TextStore, H: Host>(
        &self,
        machine: &mut Machine<T>,
        host: &mut H,
        typed: &mut Vec<u8>,
    ) -> Result<(u64, u64), SessionFault> {
        let edit = Edit {
            alloc: self.alloc,
            promise: self.task.promise,
            source: SOURCE,
            target: TARGET,
            given: self.task.argument,
            pages: self.task.pages,
            guard: &Willing,
        };
        status_of(edit_file(machine, &edit, host, typed, &mut Willing))
    }

    // Edits the file on a machine.
    fn run_on<T: TextStore, H: Host>(
        &self,
        machine: &mut Machine<T>,
        host: &mut H,
    ) -> Result<CaseRun, CaseFault> {
        let mut typed = Vec::new(self.alloc);
        let (status, steps) = self.edited(machine, host, &mut typed)?;
        let buffer = buffer_of(self.alloc, machine)?;
        Ok(CaseRun {
            typed,
            status,
            steps,
            buffer,
            pointer: machine.dot(),
        })
    }

    // Compares the steps of the run.
    fn compare_steps(&self, findings: &mut Findings, steps: u64) -> Result<(), AllocError> {
        if let Some(wanted) = self.wanted.steps {
            findings.compare_numbers("steps", wanted, steps)?;
        }
        compare_most(
            findings,
            "steps",
            self.task.most(self.task.promise.commands()),
            steps,
        )
    }

    // Compares how much longer the text got with what is promised of that, where no page was written.
    fn compare_grown(
        &self,
        findings: &mut Findings,
        output: Option<&[u8]>,
    ) -> Result<(), AllocError> {
        let promise = self.task.promise;
        let (Some(grows), Some(output)) = (promise.grows(), output) else {
            return Ok(());
        };
        if promise.needs().output || self.task.input.contains(&FF) {
            return Ok(());
        }
        let before = self.task.input.len() as u64;
        let most = self
            .task
            .most(grows)
            .map(|more| more.saturating_add(before));
        compare_most(findings, "length", most, output.len() as u64)
    }

    // Compares the bytes that the run typed with what is promised of them.
    fn compare_typed(&self, findings: &mut Findings, typed: u64) -> Result<(), AllocError> {
        match self.task.promise.types() {
            Some(types) => compare_most(findings, "bytes typed", self.task.most(types), typed),
            None => Ok(()),
        }
    }
}

impl CaseRunner for Trial<'_> {
    fn files(&self) -> &[NamedText<'_>] {
        &self.files
    }

    fn run<T: TextStore + Drop, H: Host>(
        &self,
        text: T,
        _piece: usize,
        host: &mut H,
    ) -> Result<CaseRun, CaseFault> {
        let mut machine = Machine::new(self.alloc, text);
        self.run_on(&mut machine, host)
    }

    fn compare(
        &self,
        findings: &mut Findings,
        ran: &CaseRun,
        left: FilesLeft<'_>,
    ) -> Result<(), AllocError> {
        let wanted = self.wanted;
        findings.compare("typed", wanted.typed, &ran.typed)?;
        findings.compare_numbers("status", wanted.status, ran.status)?;
        findings.compare_files(TARGET, wanted.output, left.files.file(TARGET))?;
        findings.compare_files(SOURCE, Some(self.task.input), left.files.file(SOURCE))?;
        self.compare_names(findings, left)?;
        if ran.status == 0 {
            self.compare_typed(findings, ran.typed.len() as u64)?;
            self.compare_grown(findings, left.files.file(TARGET))?;
        }
        self.compare_steps(findings, ran.steps)
    }
}

/// Edits over files in memory and over files of the system, and compares, up to the first setting in
/// which something is not as it is wanted.
pub fn try_edit<R: System + Env + AllocGlobal + Copy>(
    rt: &R,
    task: EditTask<'_>,
    wanted: ExpectedEdit<'_>,
) -> Result<Findings, CaseFault> {
    let trial = Trial::new(rt.alloc(), task, wanted);
    let findings = run_over_each(rt, &trial, IN_MEMORY)?;
    if !findings.is_empty() {
        return Ok(findings);
    }
    run_over_each(rt, &trial, IN_FOLDER)
}
