//! Cases of files of cases: the mistake that is told of one, or what its first text says.
use crate::case_file::{CaseFile, CaseKeys, NamedCase};
use crate::fault::CaseFault;
use crate::findings::Findings;
use std::alloc::{AllocError, Global};
use std::str;

const KEYS: &[&str] = &["file", "mistake", "text", "bytes"];

// Bytes as hexadecimal digits, two each, with blanks in between.
fn digits_of(alloc: Global, bytes: &[u8]) -> Result<String, AllocError> {
    let mut digits = String::new(alloc);
    for byte in bytes {
        if !digits.is_empty() {
            digits.push(' ')?;
        }
        digits.push_str(format!(in alloc; "{byte:02x}")?.as_str())?;
    }
    Ok(digits)
}

// What is said of a file of cases: its mistake, or the bytes of the text of a key of its first case.
fn said_of(alloc: Global, file: &str, key: &str) -> Result<String, AllocError> {
    let cases = match CaseFile::read(alloc, file) {
        Ok(file) => file.cases,
        Err(CaseFault::Memory) => return Err(AllocError),
        Err(fault) => return format!(in alloc; "{fault}"),
    };
    let Some(case) = cases.first() else {
        return String::from_str(alloc, "no case");
    };
    match case.text_if_any(key) {
        Some(text) => digits_of(alloc, text),
        None => String::from_str(alloc, "no text"),
    }
}

/// Reads the file of a case.
pub fn run_format(alloc: Global, case: &NamedCase<'_>) -> Result<Findings, CaseFault> {
    case.check(CaseKeys::of_texts(KEYS))?;
    let file = str::from_utf8(case.text("file")?).unwrap_or("");
    let key = case.word_if_any("text")?.unwrap_or("typed");
    let (what, wanted) = match case.text_if_any("mistake") {
        Some(mistake) => ("mistake", mistake),
        None => ("bytes", case.text("bytes")?),
    };
    let said = said_of(alloc, file, key)?;
    let mut findings = Findings::new(alloc);
    findings.compare(what, wanted, said.as_bytes())?;
    Ok(findings)
}
