//! Cases of macros: by which edition each is accepted, what it promises, and what it makes of a file.
use crate::edits::refused;
use crate::verdicts::accepted_by;
use std::alloc::Global;
use std::str;
use teco_acceptance::{Accepted, Unaccepted, Verdict, verified_by};
use teco_apply::PageChoice;
use teco_base::Reg;
use teco_case_kinds::case_file::{CaseKeys, NamedCase};
use teco_case_kinds::editing::{EditTask, ExpectedEdit, try_edit};
use teco_case_kinds::fault::CaseFault;
use teco_case_kinds::findings::Findings;
use teco_case_kinds::subject::{METHODS, MacroSubject, library_of};
use teco_console::Means;
use teco_infer::Inference;
use teco_library::Library;
use teco_poly::Poly;
use teco_promise::Promise;

const KEYS: CaseKeys = CaseKeys {
    plain: &[
        "library",
        "entry",
        "rules",
        "commands",
        "size",
        "grows",
        "types",
        "needs",
        "certificate",
        "held",
        "steps",
        "in",
        "typed",
        "out",
    ],
    named: &["verdict", "bound"],
    bare: &[],
};

/// What a case tells of what its macro promises.
const PROMISE_KEYS: &[&str] = &["commands", "size", "grows", "types", "needs", "certificate"];

/// What a case tells of a run that keeps the promise.
const RUN_KEYS: &[&str] = &["held", "steps", "in", "typed", "out"];

/// The N at which what is promised is compared with the bound that a case tells.
const BOUND_AT: u64 = 2_000;

/// The lines of a certificate that a case may tell.
const LINES: &[&str] = &["commands", "size", "grows", "types", "needs"];

// What a case says of a verdict: that the macro is accepted, or why and where it is refused.
fn words_of(
    alloc: Global,
    accepted: Result<Accepted<'_>, Unaccepted>,
) -> Result<String, CaseFault> {
    let unaccepted = match accepted {
        Ok(_) => return Ok(String::from_str(alloc, "accepted")?),
        Err(unaccepted) => unaccepted,
    };
    let Some(verdict) = Verdict::of(&unaccepted.refusal) else {
        return Err(CaseFault::Memory);
    };
    let line = format!(in alloc; "{verdict}")?;
    let words = line.as_str().strip_prefix("refused ").unwrap_or("");
    Ok(String::from_str(alloc, words)?)
}

// So much of a verdict as a case says: its first word, or all.
fn as_said<'a>(words: &'a str, wanted: &[u8]) -> &'a str {
    match words.split_once(" ") {
        Some((reason, _)) if !wanted.contains(&b' ') => reason,
        _ => words,
    }
}

// How many commands an accepted macro takes at most, at the N where bounds are compared.
fn most_of(accepted: &Result<Accepted<'_>, Unaccepted>) -> Option<u64> {
    match accepted {
        Ok(accepted) => accepted.promise().commands().at(BOUND_AT),
        Err(_) => None,
    }
}

// Finds that more commands are promised than the bound that a case tells.
fn compare_bound(
    alloc: Global,
    findings: &mut Findings,
    wanted: &[u8],
    most: Option<u64>,
) -> Result<(), CaseFault> {
    let bound = Poly::read(wanted).and_then(|bound| bound.at(BOUND_AT));
    match (bound, most) {
        (Some(bound), Some(most)) if most <= bound => Ok(()),
        (Some(bound), Some(most)) => {
            let wanted = format!(in alloc; "at most {bound}")?;
            Ok(findings.add("commands at 2000", wanted.as_str(), most)?)
        }
        _ => Ok(findings.add("commands at 2000", "a number", "none")?),
    }
}

// Compares the verdicts of the editions that a case names.
fn compare_verdicts(
    alloc: Global,
    findings: &mut Findings,
    case: &NamedCase<'_>,
    library: &Library,
    entry: Reg,
) -> Result<(), CaseFault> {
    for (name, method) in METHODS.iter() {
        let Some(wanted) = case.named_text("verdict", name.as_bytes()) else {
            continue;
        };
        let accepted = verified_by::<Inference>(Means::usual(alloc), library, entry, *method);
        if let Some(bound) = case.named_text("bound", name.as_bytes()) {
            compare_bound(alloc, findings, bound, most_of(&accepted))?;
        }
        let words = words_of(alloc, accepted)?;
        let said = as_said(words.as_str(), wanted);
        let what = format!(in alloc; "verdict {name}")?;
        findings.compare(what.as_str(), wanted, said.as_bytes())?;
    }
    Ok(())
}

// The rest of the line of a certificate that begins with a word.
fn line_of<'a>(certificate: &'a str, word: &str) -> &'a str {
    for line in certificate.lines() {
        match line.split_once(" ") {
            Some((key, rest)) if key == word => return rest,
            _ => {}
        }
    }
    ""
}

// Compares what a case says of the certificate of its macro.
fn compare_promise(
    findings: &mut Findings,
    case: &NamedCase<'_>,
    certificate: &[u8],
) -> Result<(), CaseFault> {
    let lines = str::from_utf8(certificate).unwrap_or("");
    for word in LINES.iter() {
        if let Some(wanted) = case.text_if_any(word) {
            findings.compare(word, wanted, line_of(lines, word).as_bytes())?;
        }
    }
    if let Some(wanted) = case.text_if_any("certificate") {
        findings.compare("certificate", wanted, certificate)?;
    }
    Ok(())
}

// Checks the certificate of a macro, which is to be accepted.
fn compare_checked(
    rt: &HostRuntime,
    findings: &mut Findings,
    library: &Library,
    subject: MacroSubject,
    certificate: &[u8],
) -> Result<(), CaseFault> {
    let checked = accepted_by(rt, library, subject, certificate)?;
    let words = words_of(rt.alloc(), checked)?;
    findings.compare("check", b"accepted", words.as_bytes())?;
    Ok(())
}

// Runs the macro of a case on its file.
fn run_task(
    rt: &HostRuntime,
    case: &NamedCase<'_>,
    promise: &Promise<'_>,
) -> Result<Findings, CaseFault> {
    let task = EditTask {
        promise,
        argument: None,
        pages: PageChoice::First,
        input: case.text("in")?,
    };
    let mut findings = Findings::new(rt.alloc());
    if let Some(held) = case.number_if_any("held")? {
        findings.compare_numbers("held", held, task.held())?;
    }
    if !findings.is_empty() {
        return Ok(findings);
    }
    let wanted = ExpectedEdit {
        typed: case.text_if_any("typed").unwrap_or(b""),
        status: 0,
        output: Some(case.text("out")?),
        steps: case.number_if_any("steps")?,
    };
    try_edit(rt, task, wanted)
}

// What is found of the certificate of an accepted macro.
fn certificate_findings(
    rt: &HostRuntime,
    case: &NamedCase<'_>,
    library: &Library,
    subject: MacroSubject,
    accepted: &Accepted<'_>,
) -> Result<Findings, CaseFault> {
    let certificate = accepted.certificate(rt.alloc())?;
    let mut findings = Findings::new(rt.alloc());
    compare_promise(&mut findings, case, &certificate)?;
    compare_checked(rt, &mut findings, library, subject, &certificate)?;
    Ok(findings)
}

// Runs a case whose macro is accepted.
fn run_accepted(
    rt: &HostRuntime,
    case: &NamedCase<'_>,
    library: &Library,
    subject: MacroSubject,
    accepted: &Accepted<'_>,
) -> Result<Findings, CaseFault> {
    let findings = certificate_findings(rt, case, library, subject, accepted)?;
    if !findings.is_empty() || !case.has_any(RUN_KEYS) {
        return Ok(findings);
    }
    run_task(rt, case, &accepted.promise())
}

// Runs a case whose macro makes a promise.
fn run_promise(
    rt: &HostRuntime,
    case: &NamedCase<'_>,
    library: &Library,
    subject: MacroSubject,
) -> Result<Findings, CaseFault> {
    match verified_by::<Inference>(
        Means::usual(rt.alloc()),
        library,
        subject.entry,
        subject.method,
    ) {
        Ok(accepted) => run_accepted(rt, case, library, subject, &accepted),
        Err(unaccepted) => refused(rt.alloc(), &unaccepted.refusal),
    }
}

/// Verifies the macro of a case and, where it tells what is promised, runs it on its file.
pub fn run_macro(rt: &HostRuntime, case: &NamedCase<'_>) -> Result<Findings, CaseFault> {
    let alloc = rt.alloc();
    case.check(KEYS)?;
    let subject = MacroSubject::of(case)?;
    let library = library_of(alloc, case)?;
    let mut findings = Findings::new(alloc);
    compare_verdicts(alloc, &mut findings, case, &library, subject.entry)?;
    let is_promised = case.has_any(PROMISE_KEYS) || case.has_any(RUN_KEYS);
    if !findings.is_empty() || !is_promised {
        return Ok(findings);
    }
    run_promise(rt, case, &library, subject)
}
