//! Cases of sessions: what is typed, and the files that are left.
use crate::case_file::{CaseKeys, NamedCase, NamedText};
use crate::fault::CaseFault;
use crate::findings::Findings;
use crate::pieces::PieceReader;
use crate::running::{CaseRun, CaseRunner, FilesLeft, buffer_of, run_over_each};
use crate::settings::Extent;
use std::alloc::{AllocError, Global};
use std::rt::Env;
use teco_files::System;
use teco_hosts::Host;
use teco_run::Machine;
use teco_session::{SessionFault, session};
use teco_text::TextStore;

const KEYS: CaseKeys = CaseKeys {
    plain: &[
        "input", "limit", "over", "typed", "words", "status", "buffer", "pointer",
    ],
    named: &["file", "left"],
    bare: &["kept"],
};

/// How many steps a command string may take where a case names no limit.
const STEPS: u64 = 1_000_000;

// What is to be typed.
#[derive(Clone, Copy)]
enum Typed<'a> {
    // these bytes
    Exactly(&'a [u8]),
    // these, with blanks and line ends anywhere
    Words(&'a [u8]),
}

impl<'a> Typed<'a> {
    // What a case says of it.
    fn of(case: &'a NamedCase<'_>) -> Result<Typed<'a>, CaseFault> {
        match (case.text_if_any("words"), case.text_if_any("typed")) {
            (Some(words), None) => Ok(Typed::Words(words)),
            (None, Some(typed)) => Ok(Typed::Exactly(typed)),
            (Some(_), Some(_)) => Err(case.wrong("words")),
            (None, None) => Err(case.lacks("typed")),
        }
    }

    fn compare(self, alloc: Global, findings: &mut Findings, got: &[u8]) -> Result<(), AllocError> {
        match self {
            Typed::Exactly(typed) => findings.compare("typed", typed, got),
            Typed::Words(words) => {
                let words = without_blanks(alloc, words)?;
                findings.compare("words", &words, &without_blanks(alloc, got)?)
            }
        }
    }
}

// Is a file of this name among some?
fn is_among(files: &[NamedText<'_>], name: &[u8]) -> bool {
    for file in files {
        if file.name == name {
            return true;
        }
    }
    false
}

// A text without its blanks and line ends.
fn without_blanks(alloc: Global, text: &[u8]) -> Result<Vec<u8>, AllocError> {
    let mut rest = Vec::new(alloc);
    for byte in text {
        if !byte.is_ascii_whitespace() {
            rest.push(*byte)?;
        }
    }
    Ok(rest)
}

// A session: what it is given, and what is to come of it.
#[derive(Drop)]
struct Session<'a> {
    alloc: Global,
    input: &'a [u8],
    limit: u64,
    files: Vec<NamedText<'a>>,
    typed: Typed<'a>,
    status: u64,
    buffer: Option<&'a [u8]>,
    pointer: Option<u64>,
    left: Vec<NamedText<'a>>,
}

impl<'a> Session<'a> {
    // The session of a case.
    fn of(alloc: Global, case: &'a NamedCase<'_>) -> Result<Session<'a>, CaseFault> {
        Ok(Session {
            alloc,
            input: case.text("input")?,
            limit: case.number_if_any("limit")?.unwrap_or(STEPS),
            files: case.named_texts(alloc, "file")?,
            typed: Typed::of(case)?,
            status: case.status()?,
            buffer: case.text_if_any("buffer"),
            pointer: case.number_if_any("pointer")?,
            left: left_of(alloc, case)?,
        })
    }

    // Are there files, before or behind?
    fn has_files(&self) -> bool {
        !self.files.is_empty() || !self.left.is_empty()
    }

    // Has a machine read the input, so many bytes at a time. Does the session end in a code?
    fn coded<T: TextStore, H: Host>(
        &self,
        machine: &mut Machine<T>,
        piece: usize,
        host: &mut H,
        typed: &mut Vec<u8>,
    ) -> Result<bool, SessionFault> {
        let mut reader = PieceReader {
            bytes: self.input,
            piece,
        };
        let done = session(self.alloc, machine, &mut reader, typed, host, self.limit)?;
        Ok(done.coded)
    }

    // Has a machine read the input, and takes what it has typed.
    fn run_on<T: TextStore, H: Host>(
        &self,
        machine: &mut Machine<T>,
        piece: usize,
        host: &mut H,
    ) -> Result<CaseRun, CaseFault> {
        let mut typed = Vec::new(self.alloc);
        let coded = self.coded(machine, piece, host, &mut typed)?;
        let buffer = buffer_of(self.alloc, machine)?;
        Ok(CaseRun {
            typed,
            status: u64::from(coded || machine.has_output()),
            steps: 0,
            buffer,
            pointer: machine.dot(),
        })
    }

    // Compares the buffer and the pointer, where these are told.
    fn compare_buffer(&self, findings: &mut Findings, ran: &CaseRun) -> Result<(), AllocError> {
        if let Some(buffer) = self.buffer {
            findings.compare("buffer", buffer, &ran.buffer)?;
        }
        if let Some(pointer) = self.pointer {
            findings.compare_numbers("pointer", pointer, ran.pointer as u64)?;
        }
        Ok(())
    }

    // Compares the files that are left.
    fn compare_left(&self, findings: &mut Findings, left: FilesLeft<'_>) -> Result<(), AllocError> {
        for file in self.left.iter() {
            findings.compare_files(file.name, Some(file.text), left.files.file(file.name))?;
        }
        for file in self.files.iter() {
            if !is_among(&self.left, file.name) {
                findings.compare_files(file.name, None, left.files.file(file.name))?;
            }
        }
        for name in left.names {
            let name = name.as_bytes();
            if !is_among(&self.left, name) && !is_among(&self.files, name) {
                findings.compare_files(name, None, left.files.file(name))?;
            }
        }
        Ok(())
    }
}

impl CaseRunner for Session<'_> {
    fn files(&self) -> &[NamedText<'_>] {
        &self.files
    }

    fn run<T: TextStore + Drop, H: Host>(
        &self,
        text: T,
        piece: usize,
        host: &mut H,
    ) -> Result<CaseRun, CaseFault> {
        let mut machine = Machine::new(self.alloc, text);
        self.run_on(&mut machine, piece, host)
    }

    fn compare(
        &self,
        findings: &mut Findings,
        ran: &CaseRun,
        left: FilesLeft<'_>,
    ) -> Result<(), AllocError> {
        self.typed.compare(self.alloc, findings, &ran.typed)?;
        findings.compare_numbers("status", self.status, ran.status)?;
        self.compare_buffer(findings, ran)?;
        self.compare_left(findings, left)
    }
}

// The files that a case is to leave: those that it tells, and those that it keeps as they were.
fn left_of<'a>(alloc: Global, case: &'a NamedCase<'_>) -> Result<Vec<NamedText<'a>>, CaseFault> {
    let mut left = case.named_texts(alloc, "left")?;
    for kept in case.named_texts(alloc, "kept")? {
        let name = kept.name;
        match case.named_text("file", name) {
            Some(text) => left.push(NamedText { name, text })?,
            None => return Err(case.wrong("kept")),
        }
    }
    Ok(left)
}

// Is a case about what only the files of the system do?
fn is_of_folder(case: &NamedCase<'_>) -> Result<bool, CaseFault> {
    match case.word_if_any("over")? {
        None => Ok(false),
        Some("folder") => Ok(true),
        Some(_) => Err(case.wrong("over")),
    }
}

/// Runs a case over files in memory and, where it has files, over files of the system.
pub fn run_session<R: System + Env + AllocGlobal + Copy>(
    rt: &R,
    case: &NamedCase<'_>,
    extent: Extent,
) -> Result<Findings, CaseFault> {
    case.check(KEYS)?;
    let session = Session::of(rt.alloc(), case)?;
    if is_of_folder(case)? {
        return run_over_each(rt, &session, extent.in_folder());
    }
    let findings = run_over_each(rt, &session, extent.in_memory())?;
    if !findings.is_empty() || !session.has_files() {
        return Ok(findings);
    }
    run_over_each(rt, &session, extent.in_folder())
}
