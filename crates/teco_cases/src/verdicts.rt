//! Cases of verdicts: what `teco verify` and `teco check` print.
use std::alloc::Global;
use std::fs;
use teco_acceptance::{Accepted, Unaccepted, accepted, read_claim};
use teco_case_kinds::case_file::{CaseKeys, NamedCase};
use teco_case_kinds::fault::CaseFault;
use teco_case_kinds::findings::Findings;
use teco_case_kinds::subject::{MacroSubject, library_of};
use teco_console::{AnswerFault, Console, Escape, Means, Method, Origin, Outcome, Request};
use teco_infer::Inference;
use teco_library::Library;
use teco_verdicts::{check_macro, verify_macro};

const VERDICT_KEYS: &[&str] = &["library", "entry", "rules", "output", "status"];

const CERTIFICATE_KEYS: &[&str] = &[
    "library",
    "entry",
    "rules",
    "certificate",
    "output",
    "status",
];

/// The files that a verdict is about, which are there only while it is given.
const LIBRARY_FILE: &str = "library.work";

const CERTIFICATE_FILE: &str = "certificate.work";

// What was printed, and the exit status.
#[derive(Drop)]
struct ProgramOutput {
    output: Vec<u8>,
    status: u64,
}

// A console that keeps what is printed.
fn console(rt: &HostRuntime) -> Console<Vec<u8>, Vec<u8>> {
    let alloc = rt.alloc();
    Console::new(alloc, Vec::new(alloc), Vec::new(alloc))
}

// What a console has kept.
fn printed_by(
    console: Console<Vec<u8>, Vec<u8>>,
    outcome: Result<Outcome, AnswerFault>,
) -> Result<ProgramOutput, CaseFault> {
    let (output, _messages) = console.into_parts();
    Ok(ProgramOutput {
        output,
        status: u64::from(outcome?.status()),
    })
}

// What is asked of a library, once it is a file.
fn request(method: Method) -> Request<'static> {
    Request {
        library: Origin::of_file(LIBRARY_FILE),
        escape: Escape::ByName,
        method,
        searches: &[],
    }
}

// What `verify` prints of the macro of a case.
fn verified(rt: &HostRuntime, case: &NamedCase<'_>) -> Result<ProgramOutput, CaseFault> {
    let MacroSubject { entry, method } = MacroSubject::of(case)?;
    let mut console = console(rt);
    fs::write(rt, LIBRARY_FILE, case.text("library")?)?;
    let outcome = verify_macro::<Inference, _, _, _>(rt, &mut console, request(method), entry);
    fs::remove_file(rt, LIBRARY_FILE)?;
    printed_by(console, outcome)
}

// What `check` prints of it with this certificate.
fn checked(
    rt: &HostRuntime,
    case: &NamedCase<'_>,
    certificate: &[u8],
) -> Result<ProgramOutput, CaseFault> {
    let MacroSubject { entry, method } = MacroSubject::of(case)?;
    let mut console = console(rt);
    fs::write(rt, LIBRARY_FILE, case.text("library")?)?;
    fs::write(rt, CERTIFICATE_FILE, certificate)?;
    let outcome = check_macro(rt, &mut console, request(method), entry, CERTIFICATE_FILE);
    fs::remove_file(rt, LIBRARY_FILE)?;
    fs::remove_file(rt, CERTIFICATE_FILE)?;
    printed_by(console, outcome)
}

// Compares what a case says with what was printed.
fn compare(
    findings: &mut Findings,
    case: &NamedCase<'_>,
    printed: &ProgramOutput,
) -> Result<(), CaseFault> {
    findings.compare("output", case.text("output")?, &printed.output)?;
    findings.compare_numbers("status", case.status()?, printed.status)?;
    Ok(())
}

/// The macro of a case by this certificate, or why it is refused.
pub fn accepted_by<'l>(
    rt: &HostRuntime,
    library: &'l Library,
    subject: MacroSubject,
    certificate: &[u8],
) -> Result<Result<Accepted<'l>, Unaccepted>, CaseFault> {
    let MacroSubject { entry, method } = subject;
    fs::write(rt, CERTIFICATE_FILE, certificate)?;
    let claim = read_claim(rt, rt.alloc(), Some(CERTIFICATE_FILE));
    fs::remove_file(rt, CERTIFICATE_FILE)?;
    Ok(accepted::<Inference>(
        Means::usual(rt.alloc()),
        library,
        entry,
        method,
        claim?.as_ref(),
    ))
}

// Compares a certificate with the one that is printed of an accepted macro.
fn compare_printed(
    alloc: Global,
    findings: &mut Findings,
    certificate: &[u8],
    accepted: &Accepted<'_>,
) -> Result<(), CaseFault> {
    findings.compare("certificate", certificate, &accepted.certificate(alloc)?)?;
    Ok(())
}

// Compares a certificate that is accepted with the one that is printed of its promise.
fn compare_certificate(
    rt: &HostRuntime,
    findings: &mut Findings,
    case: &NamedCase<'_>,
    certificate: &[u8],
) -> Result<(), CaseFault> {
    let alloc = rt.alloc();
    let library = library_of(alloc, case)?;
    match accepted_by(rt, &library, MacroSubject::of(case)?, certificate)? {
        Ok(accepted) => compare_printed(alloc, findings, certificate, &accepted),
        Err(_) => Err(CaseFault::Memory),
    }
}

/// Verifies the macro of a case. The certificate of one that is accepted is checked then.
pub fn run_verdict(rt: &HostRuntime, case: &NamedCase<'_>) -> Result<Findings, CaseFault> {
    case.check(CaseKeys::of_texts(VERDICT_KEYS))?;
    let verdict = verified(rt, case)?;
    let mut findings = Findings::new(rt.alloc());
    compare(&mut findings, case, &verdict)?;
    if verdict.status == 0 {
        let answer = checked(rt, case, &verdict.output)?;
        findings.compare("check", b"accepted\n", &answer.output)?;
        if answer.status == 0 {
            compare_certificate(rt, &mut findings, case, &verdict.output)?;
        }
    }
    Ok(findings)
}

/// Checks the certificate of a case. One that is accepted must be the one that is printed of it.
pub fn run_certificate(rt: &HostRuntime, case: &NamedCase<'_>) -> Result<Findings, CaseFault> {
    case.check(CaseKeys::of_texts(CERTIFICATE_KEYS))?;
    let certificate = case.text("certificate")?;
    let answer = checked(rt, case, certificate)?;
    let mut findings = Findings::new(rt.alloc());
    compare(&mut findings, case, &answer)?;
    if answer.status == 0 {
        compare_certificate(rt, &mut findings, case, certificate)?;
    }
    Ok(findings)
}
