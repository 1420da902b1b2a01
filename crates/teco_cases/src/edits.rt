//! Cases of edits: files that a verified macro edits.
use std::alloc::Global;
use teco_acceptance::{Verdict, verified_by};
use teco_apply::PageChoice;
use teco_case_kinds::case_file::{CaseKeys, NamedCase};
use teco_case_kinds::editing::{EditTask, ExpectedEdit, try_edit};
use teco_case_kinds::fault::CaseFault;
use teco_case_kinds::findings::Findings;
use teco_case_kinds::subject::{MacroSubject, library_of};
use teco_console::Means;
use teco_infer::Inference;
use teco_promise::Promise;
use teco_verify::Refusal;

const KEYS: &[&str] = &[
    "library", "entry", "rules", "argument", "pages", "in", "typed", "status", "out",
];

// The argument that the macro of a case is given, if it is.
fn argument_of(case: &NamedCase<'_>) -> Result<Option<i32>, CaseFault> {
    let Some(word) = case.word_if_any("argument")? else {
        return Ok(None);
    };
    match word.parse() {
        Ok(argument) => Ok(Some(argument)),
        Err(_) => Err(case.wrong("argument")),
    }
}

// The pages that are edited: the first where the case names none.
fn pages_of(case: &NamedCase<'_>) -> Result<PageChoice, CaseFault> {
    match case.word_if_any("pages")? {
        None | Some("first") => Ok(PageChoice::First),
        Some("each") => Ok(PageChoice::Each),
        Some("whole") => Ok(PageChoice::Whole),
        Some(_) => Err(case.wrong("pages")),
    }
}

/// The finding that a macro is refused which is to be accepted.
pub fn refused(alloc: Global, refusal: &Refusal) -> Result<Findings, CaseFault> {
    let Some(verdict) = Verdict::of(refusal) else {
        return Err(CaseFault::Memory);
    };
    let words = format!(in alloc; "{verdict}")?;
    let mut findings = Findings::new(alloc);
    findings.add("verdict", "accepted", words.as_str())?;
    Ok(findings)
}

// Edits the file of a case by its macro, which makes this promise.
fn edit_promised(
    rt: &HostRuntime,
    case: &NamedCase<'_>,
    promise: &Promise<'_>,
) -> Result<Findings, CaseFault> {
    let task = EditTask {
        promise,
        argument: argument_of(case)?,
        pages: pages_of(case)?,
        input: case.text("in")?,
    };
    let wanted = ExpectedEdit {
        typed: case.text_if_any("typed").unwrap_or(b""),
        status: case.status()?,
        output: case.text_if_any("out"),
        steps: None,
    };
    try_edit(rt, task, wanted)
}

/// Edits the file of a case.
pub fn run_edit(rt: &HostRuntime, case: &NamedCase<'_>) -> Result<Findings, CaseFault> {
    case.check(CaseKeys::of_texts(KEYS))?;
    let MacroSubject { entry, method } = MacroSubject::of(case)?;
    let library = library_of(rt.alloc(), case)?;
    match verified_by::<Inference>(Means::usual(rt.alloc()), &library, entry, method) {
        Ok(accepted) => edit_promised(rt, case, &accepted.promise()),
        Err(unaccepted) => refused(rt.alloc(), &unaccepted.refusal),
    }
}
