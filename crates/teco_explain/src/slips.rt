//! What in the searches of a text may not be meant.
use teco_base::bytes::{control, is_letter, to_upper};
use teco_model::kind::{Argument, Query};
use teco_model::{Element, Kind};

const CONTROL_E: u8 = 5;

const CONTROL_N: u8 = 14;

const CONTROL_Q: u8 = 17;

const CONTROL_S: u8 = 19;

const CONTROL_X: u8 = 24;

/// The letters of the control bytes that texts have: tabs and line ends.
const USUAL: &[u8; 5] = b"IJKLM";

/// What a search may do that was not meant.
#[derive(Clone, Copy, Default, PartialEq, Eq)]
pub struct Slips {
    /// A letter of its text matches either case.
    pub ignores_case: bool,
    /// This letter stands behind a caret: the two match a control byte, and are no match control.
    pub caret: Option<u8>,
}

// How the next byte of a search text is read.
#[derive(Clone, Copy)]
enum NextByte {
    Plain,
    // behind a caret
    Caret,
    // behind ^Q
    Quoted,
    // behind ^E
    Extended,
    // behind ^EQ
    Named,
}

impl Slips {
    // The slips of a search text, where letters match either case or not.
    fn of(text: &[u8], is_exact: bool) -> Slips {
        let mut slips = Slips::default();
        let mut reading = NextByte::Plain;
        for byte in text {
            reading = slips.read(reading, *byte);
        }
        slips.ignores_case = slips.ignores_case && !is_exact;
        slips
    }

    // Reads a byte.
    fn read(&mut self, reading: NextByte, byte: u8) -> NextByte {
        match reading {
            NextByte::Plain if byte == b'^' => NextByte::Caret,
            NextByte::Plain => self.read_sign(byte),
            NextByte::Caret => self.read_pair(byte),
            NextByte::Quoted => {
                self.note_literal(byte);
                NextByte::Plain
            }
            NextByte::Extended if to_upper(byte) == b'Q' => NextByte::Named,
            NextByte::Extended | NextByte::Named => NextByte::Plain,
        }
    }

    // Reads a character as it stands, or a control byte.
    fn read_sign(&mut self, sign: u8) -> NextByte {
        match sign {
            CONTROL_Q => NextByte::Quoted,
            CONTROL_E => NextByte::Extended,
            _ => {
                self.note_literal(sign);
                NextByte::Plain
            }
        }
    }

    // Reads the byte behind a caret.
    fn read_pair(&mut self, byte: u8) -> NextByte {
        let Some(sign) = control(byte) else {
            return NextByte::Plain;
        };
        let is_control = matches!(
            sign,
            CONTROL_E | CONTROL_N | CONTROL_Q | CONTROL_S | CONTROL_X
        );
        if is_letter(byte) && !is_control && !USUAL.contains(&byte) && self.caret.is_none() {
            self.caret = Some(byte);
        }
        self.read_sign(sign)
    }

    // Notes a character that matches itself.
    fn note_literal(&mut self, byte: u8) {
        self.ignores_case = self.ignores_case || is_letter(byte);
    }
}

/// What is known of the search mode as the elements of a text are passed, one behind the other, each
/// taken as executed once. So a mode that a conditional sets counts behind it, and one that is set
/// at the end of an iteration does not count at its beginning.
#[derive(Clone, Copy, Default)]
pub struct Modes {
    // is it another mode than 0?
    is_exact: bool,
    // is a number pending, and is it surely another than 0?
    pending: Option<bool>,
}

// Does a run of digits say another number than 0?
fn is_positive(digits: &[u8]) -> bool {
    digits.iter().any(|digit| *digit != b'0')
}

impl Modes {
    // The number that is pending behind an element.
    fn pending_behind(self, found: &Element<'_>) -> Option<bool> {
        match found.kind {
            Kind::Argument(Argument::DropAll) => None,
            Kind::Argument(Argument::Digits) => Some(is_positive(found.text)),
            Kind::Argument(Argument::Operate(_)) => self.pending,
            Kind::Argument(_) | Kind::Value(_) | Kind::Query(_) => Some(false),
            _ => None,
        }
    }

    /// The mode that a text begins with: another than 0 where searches are exact.
    pub fn new(is_exact: bool) -> Modes {
        Modes {
            is_exact,
            pending: None,
        }
    }

    /// Passes an element, and tells its slips if it is a search.
    pub fn pass(&mut self, found: &Element<'_>) -> Slips {
        let pending = self.pending;
        self.pending = self.pending_behind(found);
        match (found.kind, pending) {
            (Kind::Query(Query::Mode), Some(is_exact)) => {
                self.is_exact = is_exact;
                self.pending = None;
                Slips::default()
            }
            (Kind::Search(_), _) => Slips::of(found.text, self.is_exact),
            _ => Slips::default(),
        }
    }
}
