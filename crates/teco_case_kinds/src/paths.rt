//! Cases of macros with claims at cut points: whether these are found to hang together.
use crate::case_file::{CaseKeys, NamedCase};
use crate::fault::CaseFault;
use crate::findings::Findings;
use crate::subject::{MacroSubject, library_of};
use std::alloc::Global;
use teco_base::Reg;
use teco_claims::Claims;
use teco_expansion::expand;
use teco_library::Library;
use teco_model::Needs;
use teco_paths::claimed::{Called, check_claimed};
use teco_paths::fault::PathFault;

const KEYS: &[&str] = &["library", "entry", "claims", "verdict"];

// How long the texts of a library are.
fn lengths_of(alloc: Global, library: &Library) -> Result<Vec<Option<usize>>, CaseFault> {
    let mut lengths = Vec::new(alloc);
    for text in library.texts() {
        let length = match text {
            Some(text) => Some(text.len()),
            None => None,
        };
        lengths.push(length)?;
    }
    Ok(lengths)
}

// What is said of claims that hang together, or do not.
fn verdict_of(alloc: Global, judged: Result<(), PathFault>) -> Result<String, CaseFault> {
    match judged {
        Ok(()) => Ok(String::from_str(alloc, "accepted")?),
        Err(fault) => Ok(format!(in alloc; "{fault}")?),
    }
}

// What is said of claims at the macro of a case, where both files are open.
fn said_of_claims(
    alloc: Global,
    case: &NamedCase<'_>,
    library: &Library,
    entry: Reg,
    claims: &Claims,
) -> Result<String, CaseFault> {
    let Ok(nodes) = expand(alloc, library, entry) else {
        return Err(case.wrong("library"));
    };
    let lengths = lengths_of(alloc, library)?;
    let called = Called {
        nodes: &nodes,
        lengths: &lengths,
        argument: library.argument(entry),
        needs: Needs {
            input: true,
            output: true,
        },
    };
    verdict_of(alloc, check_claimed(&called, claims, alloc))
}

// What is said of the claims of a case.
fn said_of(alloc: Global, case: &NamedCase<'_>) -> Result<String, CaseFault> {
    let MacroSubject { entry, .. } = MacroSubject::of(case)?;
    let library = library_of(alloc, case)?;
    let Ok(claims) = Claims::read(alloc, case.text("claims")?) else {
        return Err(case.wrong("claims"));
    };
    said_of_claims(alloc, case, &library, entry, &claims)
}

/// Follows all paths of the macro of a case by its claims.
pub fn run_paths(alloc: Global, case: &NamedCase<'_>) -> Result<Findings, CaseFault> {
    case.check(CaseKeys::of_texts(KEYS))?;
    let said = said_of(alloc, case)?;
    Findings::of_text(alloc, "verdict", case.text("verdict")?, said.as_bytes())
}
