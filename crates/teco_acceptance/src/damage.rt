//! Files that are named as certificates and are none of the macro, as their first lines tell.
use crate::claim::{ClaimedCertificate, split_line};
use std::fmt;
use teco_base::Reg;
use teco_source::Shown;

// What certificates begin with: the second those of macros that take an argument.
const HEADS: [&[u8]; 2] = [b"TECO-CERT 1", b"TECO-CERT 2"];

// What stands before the register in the next line.
const ENTRY: &[u8] = b"entry ";

/// What mends a certificate.
pub const MENDING: &str =
    "  Make it anew, and keep it byte for byte: teco verify, with the words that name the macro, > CERT.";

/// Why a file can't be the certificate of a macro, whatever the macro does.
#[derive(Clone, Copy)]
pub enum Damage<'a> {
    /// It has no bytes.
    Empty,
    /// Its first line is another.
    NoCertificate,
    /// Its lines end in CR LF.
    LineEnds,
    /// It is of the macro of another register.
    OtherMacro {
        /// What the line says.
        found: &'a [u8],
        /// The register that was asked for.
        wanted: u8,
    },
}

// Is a line the first of a certificate?
fn is_head(line: &[u8]) -> bool {
    line == HEADS[0] || line == HEADS[1]
}

// What another first line tells.
fn damage_of_head<'a>(line: &[u8]) -> Damage<'a> {
    match line.strip_suffix(b"\r") {
        Some(line) if is_head(line) => Damage::LineEnds,
        _ => Damage::NoCertificate,
    }
}

impl<'a> Damage<'a> {
    /// What the first lines tell, if they tell something.
    pub fn of(text: &'a [u8], entry: Reg) -> Option<Damage<'a>> {
        if text.is_empty() {
            return Some(Damage::Empty);
        }
        let (head, behind) = split_line(text);
        if !is_head(head) {
            return Some(damage_of_head(head));
        }
        let (second, _) = split_line(behind);
        let wanted = entry.name();
        match second.strip_prefix(ENTRY) {
            Some(found) if found != [wanted].as_slice() => Some(Damage::OtherMacro {
                found,
                wanted,
            }),
            _ => None,
        }
    }

    // The number of the line that tells it.
    fn line(self) -> u8 {
        match self {
            Damage::OtherMacro { .. } => 2,
            _ => 1,
        }
    }
}

impl fmt::Display for Damage<'_> {
    fn fmt<W: fmt::Write>(&self, f: &mut fmt::Formatter<W>) -> fmt::Result {
        let line = self.line();
        write!(f, "{line}: refused X18: ")?;
        match *self {
            Damage::Empty => write!(f, "this is no certificate, for it has no bytes"),
            Damage::NoCertificate => {
                write!(f, "this is no certificate, which begins with TECO-CERT")
            }
            Damage::LineEnds => {
                write!(
                    f,
                    "the lines end in CR LF, and those of a certificate in LF alone"
                )
            }
            Damage::OtherMacro { found, wanted } => {
                let found = Shown(found);
                let wanted = char::from(wanted);
                write!(
                    f,
                    "this is the certificate of macro {found}, and {wanted} is asked for"
                )
            }
        }
    }
}

/// Is a file the certificate of a macro, as far as its first lines tell?
pub fn is_whole(claim: &ClaimedCertificate<'_>, entry: Reg) -> bool {
    Damage::of(&claim.bytes, entry).is_none()
}
