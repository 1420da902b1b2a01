//! What is found to be other than a case says.
use crate::fault::CaseFault;
use crate::settings::CaseSetting;
use std::alloc::{AllocError, Global};
use std::fmt;
use teco_source::Shown;

// What a case says, and what was got in its place.
#[derive(Drop)]
struct CaseDifference {
    what: String,
    expected: String,
    got: String,
}

/// The differences that were found in a run of a case.
#[derive(Drop)]
pub struct Findings {
    alloc: Global,
    setting: Option<CaseSetting>,
    all: Vec<CaseDifference>,
}

impl Findings {
    /// None yet, in a run whose setting does not matter.
    pub fn new(alloc: Global) -> Findings {
        Findings {
            alloc,
            setting: None,
            all: Vec::new(alloc),
        }
    }

    /// None yet, in a run over this.
    pub fn over(alloc: Global, setting: CaseSetting) -> Findings {
        Findings {
            alloc,
            setting: Some(setting),
            all: Vec::new(alloc),
        }
    }

    /// The bytes that were got, unless they are the expected ones.
    pub fn of_text(
        alloc: Global,
        what: &str,
        expected: &[u8],
        got: &[u8],
    ) -> Result<Findings, CaseFault> {
        let mut findings = Findings::new(alloc);
        findings.compare(what, expected, got)?;
        Ok(findings)
    }

    /// Is all as the case says?
    pub fn is_empty(&self) -> bool {
        self.all.is_empty()
    }

    /// Adds a difference.
    pub fn add<W: fmt::Display + Drop, E: fmt::Display + Drop, G: fmt::Display + Drop>(
        &mut self,
        what: W,
        expected: E,
        got: G,
    ) -> Result<(), AllocError> {
        let alloc = self.alloc;
        self.all.push(CaseDifference {
            what: format!(in alloc; "{what}")?,
            expected: format!(in alloc; "{expected}")?,
            got: format!(in alloc; "{got}")?,
        })?;
        Ok(())
    }

    /// Adds the bytes that were got, and where they begin to be others, unless they are the expected
    /// ones.
    pub fn compare(&mut self, what: &str, expected: &[u8], got: &[u8]) -> Result<(), AllocError> {
        if expected == got {
            return Ok(());
        }
        let same = same_front(expected, got);
        let what = format_args!("{what}, other from byte {same} on");
        self.add(what, Shown(expected), Shown(got))
    }

    /// Adds the number that was got, unless it is the expected one.
    pub fn compare_numbers(
        &mut self,
        what: &str,
        expected: u64,
        got: u64,
    ) -> Result<(), AllocError> {
        if expected == got {
            return Ok(());
        }
        self.add(what, expected, got)
    }

    /// Adds what a file has, or that it is missing, unless that is as expected.
    pub fn compare_files(
        &mut self,
        name: &[u8],
        expected: Option<&[u8]>,
        got: Option<&[u8]>,
    ) -> Result<(), AllocError> {
        if expected == got {
            return Ok(());
        }
        let what = format!(in self.alloc; "file {}", Shown(name))?;
        match (expected, got) {
            (Some(expected), Some(got)) => self.compare(what.as_str(), expected, got),
            _ => self.add(what.as_str(), FileText(expected), FileText(got)),
        }
    }
}

impl fmt::Display for Findings {
    fn fmt<W: fmt::Write>(&self, f: &mut fmt::Formatter<W>) -> fmt::Result {
        if let Some(setting) = self.setting {
            writeln!(f, "  over {setting}")?;
        }
        for difference in self.all.iter() {
            let CaseDifference {
                what,
                expected,
                got,
            } = difference;
            writeln!(f, "  {what}")?;
            writeln!(f, "    expected  {expected}")?;
            writeln!(f, "    got       {got}")?;
        }
        Ok(())
    }
}

// How many bytes two texts begin with that are the same.
fn same_front(a: &[u8], b: &[u8]) -> usize {
    let mut same = 0usize;
    for (x, y) in a.iter().zip(b.iter()) {
        if x != y {
            break;
        }
        same = same.saturating_add(1);
    }
    same
}

// The text of a file, if there is one.
#[derive(Clone, Copy)]
struct FileText<'a>(Option<&'a [u8]>);

impl fmt::Display for FileText<'_> {
    fn fmt<W: fmt::Write>(&self, f: &mut fmt::Formatter<W>) -> fmt::Result {
        match self.0 {
            Some(text) => write!(f, "{}", Shown(text)),
            None => write!(f, "(no file)"),
        }
    }
}
