//! Cases of the texts of claims: those that are read and written back, and those that are refused.
use crate::case_file::{CaseKeys, NamedCase};
use crate::fault::CaseFault;
use crate::findings::Findings;
use std::alloc::Global;
use teco_claims::Claims;

const KEYS: &[&str] = &["claims", "claim", "refused"];

/// What stands before and behind a claim that is alone.
const BEFORE: &[u8] = b"commands 6\nsize N\ntypes -\ncut 1\n0 <= z\n";

const BEHIND: &[u8] = b"\n0 <= h\nend\n";

// The text of a case, and how many bytes of it stand before its own.
fn text_of(alloc: Global, case: &NamedCase<'_>) -> Result<(Vec<u8>, usize), CaseFault> {
    let mut text = Vec::new(alloc);
    let Some(claim) = case.text_if_any("claim") else {
        text.extend_from_slice(case.text("claims")?)?;
        return Ok((text, 0));
    };
    text.extend_from_slice(BEFORE)?;
    text.extend_from_slice(claim)?;
    text.extend_from_slice(BEHIND)?;
    Ok((text, BEFORE.len()))
}

// What is said of a text: why it is refused, or that it is written back.
fn said_of(alloc: Global, text: &[u8]) -> Result<String, CaseFault> {
    match Claims::read(alloc, text) {
        Err(fault) => Ok(format!(in alloc; "{fault}")?),
        Ok(claims) if claims.write(alloc)?.as_slice() == text => {
            Ok(String::from_str(alloc, "written back")?)
        }
        Ok(_) => Ok(String::from_str(alloc, "written otherwise")?),
    }
}

/// Reads the claims of a case, which are written back, or refused at their byte.
pub fn run_claims(alloc: Global, case: &NamedCase<'_>) -> Result<Findings, CaseFault> {
    case.check(CaseKeys::of_texts(KEYS))?;
    let (text, before) = text_of(alloc, case)?;
    let wanted = match case.phrase_if_any("refused")? {
        Some(place) => {
            let byte = before.saturating_add(place.count()?);
            format!(in alloc; "no claims: see byte {byte}")?
        }
        None => String::from_str(alloc, "written back")?,
    };
    let said = said_of(alloc, &text)?;
    Findings::of_text(alloc, "claims", wanted.as_bytes(), said.as_bytes())
}
