//! Runs files of cases, and says which cases fail.
#![tactic(auto)]

mod edits;
mod macros;
mod verdicts;

use crate::edits::run_edit;
use crate::macros::run_macro;
use crate::verdicts::{run_certificate, run_verdict};
use std::process::ExitCode;
use std::{env, fs, io};
use teco_case_kinds::case_file::{CaseFile, CaseKind, NamedCase};
use teco_case_kinds::claims::run_claims;
use teco_case_kinds::fault::CaseFault;
use teco_case_kinds::findings::Findings;
use teco_case_kinds::formats::run_format;
use teco_case_kinds::implications::run_implication;
use teco_case_kinds::outcomes::run_outcomes;
use teco_case_kinds::paths::run_paths;
use teco_case_kinds::programs::run_program;
use teco_case_kinds::sessions::run_session;
use teco_case_kinds::settings::Extent;

/// What the names of files of cases end in.
const SUFFIX: &str = ".cases";

// How many cases were run, and how many of them passed.
#[derive(Clone, Copy)]
struct CaseTally {
    passed: usize,
    cases: usize,
}

/// None yet.
const NONE: CaseTally = CaseTally {
    passed: 0,
    cases: 0,
};

impl CaseTally {
    // These, and one more.
    fn with(self, is_passed: bool) -> CaseTally {
        CaseTally {
            passed: self.passed.saturating_add(usize::from(is_passed)),
            cases: self.cases.saturating_add(1),
        }
    }

    // These and those.
    fn and(self, other: CaseTally) -> CaseTally {
        CaseTally {
            passed: self.passed.saturating_add(other.passed),
            cases: self.cases.saturating_add(other.cases),
        }
    }

    // Did all pass?
    fn is_all(self) -> bool {
        self.passed == self.cases
    }
}

// Runs a case.
fn run_case(
    rt: &HostRuntime,
    kind: CaseKind,
    case: &NamedCase<'_>,
    extent: Extent,
) -> Result<Findings, CaseFault> {
    match kind {
        CaseKind::Sessions => run_session(rt, case, extent),
        CaseKind::Verdicts => run_verdict(rt, case),
        CaseKind::Certificates => run_certificate(rt, case),
        CaseKind::Edits => run_edit(rt, case),
        CaseKind::Macros => run_macro(rt, case),
        CaseKind::Formats => run_format(rt.alloc(), case),
        CaseKind::Programs => run_program(rt.alloc(), case),
        CaseKind::Implications => run_implication(rt.alloc(), case),
        CaseKind::Claims => run_claims(rt.alloc(), case),
        CaseKind::Outcomes => run_outcomes(rt.alloc(), case),
        CaseKind::Paths => run_paths(rt.alloc(), case),
    }
}

// Runs the cases of a file, and says which fail.
fn run_cases(
    rt: &HostRuntime,
    path: &str,
    file: &CaseFile<'_>,
    extent: Extent,
) -> Result<CaseTally, CaseFault> {
    let mut tally = NONE;
    for case in file.cases.iter() {
        let findings = run_case(rt, file.kind, case, extent)?;
        if !findings.is_empty() {
            let line = case.line();
            let name = case.name();
            print!(rt; "{path}:{line}: {name}\n{findings}")?;
        }
        tally = tally.with(findings.is_empty());
    }
    Ok(tally)
}

// Runs a file of cases.
fn run_file(rt: &HostRuntime, path: &str, extent: Extent) -> Result<CaseTally, CaseFault> {
    let text = fs::read_to_string(rt, path)?;
    let file = CaseFile::read(rt.alloc(), text.as_str())?;
    run_cases(rt, path, &file, extent)
}

// What a file of cases is called: its name without its folder and its suffix.
fn subject_of(path: &str) -> &str {
    let name = match path.rsplit_once("/") {
        Some((_, name)) => name,
        None => path,
    };
    name.strip_suffix(SUFFIX).unwrap_or(name)
}

// Runs files of cases, and prints how many of each pass. Says whether all do.
fn run_files(rt: &HostRuntime, paths: &[String], extent: Extent) -> io::Result<bool> {
    let mut all = NONE;
    let mut is_good = true;
    for path in paths {
        let path = path.as_str();
        match run_file(rt, path, extent) {
            Ok(tally) => {
                let CaseTally { passed, cases } = tally;
                println!(rt; "{}: {passed} of {cases}", subject_of(path))?;
                is_good = is_good && tally.is_all();
                all = all.and(tally);
            }
            Err(fault) => {
                println!(rt; "{path}: {fault}")?;
                is_good = false;
            }
        }
    }
    let CaseTally { passed, cases } = all;
    println!(rt; "all: {passed} of {cases}")?;
    Ok(is_good)
}

/// The word before the names of files that has sessions run over little.
const QUICK: &str = "quick";

// The words of the command line: names of files, and the word before them if it is there.
fn words(rt: &HostRuntime) -> io::Result<(Extent, Vec<String>)> {
    let mut paths = Vec::new(rt.alloc());
    let mut extent = Extent::Whole;
    let mut args = env::args(rt)?;
    let _program = args.next();
    for word in args {
        if paths.is_empty() && word.as_str() == QUICK {
            extent = Extent::Quick;
        } else {
            paths.push(word)?;
        }
    }
    Ok((extent, paths))
}

// The files of cases in the folder that the program is run in, in the order of their names.
fn files_here(rt: &HostRuntime) -> io::Result<Vec<String>> {
    let mut paths = Vec::new(rt.alloc());
    for entry in fs::read_dir(rt, ".")? {
        let entry = entry?;
        if entry.file_name().ends_with(SUFFIX) {
            paths.push(String::from_str(rt.alloc(), entry.file_name())?)?;
        }
    }
    paths.sort()?;
    Ok(paths)
}

fn main(rt: HostRuntime) -> io::Result<ExitCode> {
    let (extent, mut paths) = words(&rt)?;
    if paths.is_empty() {
        paths = files_here(&rt)?;
    }
    Ok(if run_files(&rt, &paths, extent)? {
        ExitCode::SUCCESS
    } else {
        ExitCode::FAILURE
    })
}
