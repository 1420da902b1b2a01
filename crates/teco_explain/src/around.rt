//! What stands about a place of a text.

use crate::places::element_at;
use arrayvec::ArrayVec;
use teco_model::Element;
use teco_model::kind::{
    Argument, Command, Flow, Kind, MachineValue, Motion, Page, Query, Storage, Unit,
};

/// How many iterations in one another are followed.
pub const DEPTH: usize = 8;

/// What an element is, as far as hints go.
#[derive(Clone, Copy, PartialEq, Eq)]
pub enum Role {
    /// A comma.
    Comma,
    /// The number 0.
    Zero,
    /// Another number, operator or parenthesis, or a place of the machine's.
    Number,
    /// `H` or `^Y`
    Range,
    /// `^S`
    LastLength,
    /// `Q`
    Saved,
    /// `nA`, or A alone.
    Character,
    /// `J`
    Jump,
    /// `R`
    Back,
    /// `L`
    Lines,
    /// `K`
    Kill,
    /// `X`
    Copy,
    /// `G`
    Get,
    /// `P`
    NextPage,
    Search,
    File,
    Begin,
    End,
    Test,
    EndTest,
    Other,
}

impl Role {
    // Is it a part of the arguments of what comes behind it?
    fn is_argument(self) -> bool {
        matches!(
            self,
            Role::Comma | Role::Zero | Role::Number | Role::Range | Role::LastLength | Role::Saved
        )
    }
}

/// An element of a text, as far as hints go.
#[derive(Clone, Copy)]
pub struct SeenElement {
    pub role: Role,
    /// Does it have a `:`, or answer a number in any case?
    pub answers: bool,
    /// Is its text empty?
    pub is_empty: bool,
    /// Does its text have `^EQ` in it?
    pub has_register: bool,
    // where the next element begins
    next: usize,
}

/// What an iteration does.
#[derive(Clone, Copy, Default)]
pub struct IterationBody {
    pub searches: bool,
    /// `R`, or `0L`.
    pub goes_back: bool,
    /// `L` or `K`, with no range.
    pub moves_lines: bool,
    /// `m,nK`, as `HK`.
    pub kills_range: bool,
    /// `P`.
    pub turns_pages: bool,
    /// `A` alone.
    pub appends: bool,
    /// `J`, but for `QQJ`.
    pub jumps: bool,
    /// An iteration whose count is the number of a register.
    pub counts_by_register: bool,
    /// `X`.
    pub copies: bool,
    /// `G`.
    pub gets: bool,
}

/// The element at a place, and what comes before it.
#[derive(Clone, Copy)]
pub struct Around {
    pub here: Option<SeenElement>,
    pub before: Option<SeenElement>,
    /// The innermost iteration that is open there, or that ends there, up to the place.
    pub body: Option<IterationBody>,
    /// Is a register's number a part of the range that ends there?
    pub has_saved_range: bool,
    /// Was a character looked at for the conditional round it?
    pub tests_character: bool,
    /// Is the answer of an earlier command still pending?
    pub answers_before: bool,
}

// The role of a value or an argument.
fn role_of_number(kind: &Kind, text: &[u8]) -> Role {
    match kind {
        Kind::Argument(Argument::DropAll) => Role::Other,
        Kind::Argument(Argument::Comma) => Role::Comma,
        Kind::Argument(Argument::Digits) if text == b"0".as_slice() => Role::Zero,
        Kind::Value(MachineValue::LastLength) => Role::LastLength,
        Kind::Value(MachineValue::Whole | MachineValue::LastText) => Role::Range,
        Kind::Query(Query::Number(_)) => Role::Saved,
        Kind::Argument(_) | Kind::Value(_) => Role::Number,
        _ => Role::Other,
    }
}

// The role of a command.
fn role_of_command(command: &Command) -> Role {
    match command {
        Command::Motion(Motion::To) => Role::Jump,
        Command::Motion(Motion::Backward) => Role::Back,
        Command::Motion(Motion::Lines) => Role::Lines,
        Command::Deletion(Unit::Lines) => Role::Kill,
        Command::Storage(Storage::Copy(_)) => Role::Copy,
        Command::Storage(Storage::Get(_)) => Role::Get,
        _ => Role::Other,
    }
}

// The role of what decides where execution goes on.
fn role_of_flow(flow: &Flow) -> Role {
    match flow {
        Flow::Iterate => Role::Begin,
        Flow::EndTurn => Role::End,
        Flow::Test(_) => Role::Test,
        Flow::EndTest => Role::EndTest,
        _ => Role::Other,
    }
}

// The role of an element.
fn role_of(kind: &Kind, text: &[u8]) -> Role {
    match kind {
        Kind::Command(command) => role_of_command(command),
        Kind::Flow(flow) => role_of_flow(flow),
        Kind::Search(_) => Role::Search,
        Kind::File(_) => Role::File,
        Kind::Page(Page::Append) => Role::Character,
        Kind::Page(Page::Next) => Role::NextPage,
        _ => role_of_number(kind, text),
    }
}

// Does an element answer a number beside what it does?
fn has_answer(kind: &Kind, colons: u8) -> bool {
    match kind {
        Kind::Command(Command::Storage(Storage::Add(_))) => true,
        Kind::Command(Command::Motion(_)) | Kind::Search(_) => colons > 0,
        _ => false,
    }
}

// Does a search text have ^EQ in it, by the control byte or the pair?
fn names_register(text: &[u8]) -> bool {
    let mut before = 0;
    for byte in text {
        if byte.eq_ignore_ascii_case(&b'q') && (before == 5 || before == b'E' || before == b'e') {
            return true;
        }
        before = *byte;
    }
    false
}

// The element at a place of a text, if one can be read there.
fn sign_at(text: &[u8], place: usize) -> Option<SeenElement> {
    match element_at(text, place) {
        Some(found) => Some(sign_of(&found)),
        None => None,
    }
}

fn sign_of(found: &Element<'_>) -> SeenElement {
    SeenElement {
        role: role_of(&found.kind, found.text),
        answers: has_answer(&found.kind, found.colons),
        is_empty: found.text.is_empty(),
        has_register: names_register(found.text),
        next: found.next,
    }
}

// What the arguments before an element are.
#[derive(Clone, Copy)]
struct ArgumentsBefore {
    // the last of them
    last: Option<Role>,
    // are they two?
    is_range: bool,
}

impl IterationBody {
    // One more element of it, behind these arguments.
    fn note(&mut self, role: Role, arguments: ArgumentsBefore) {
        match role {
            Role::Search => self.searches = true,
            Role::Back => self.goes_back = true,
            Role::Lines if arguments.last == Some(Role::Zero) => self.goes_back = true,
            Role::Kill if arguments.is_range => self.kills_range = true,
            Role::Lines | Role::Kill => self.moves_lines = true,
            Role::Jump if arguments.last != Some(Role::Saved) => self.jumps = true,
            Role::NextPage => self.turns_pages = true,
            Role::Character if arguments.last.is_none() => self.appends = true,
            Role::Begin if arguments.last == Some(Role::Saved) => self.counts_by_register = true,
            Role::Copy => self.copies = true,
            Role::Get => self.gets = true,
            _ => {}
        }
    }
}

// What is known as the elements before a place are passed.
#[derive(Drop)]
struct ElementWalk {
    around: Around,
    // the iterations that are open
    open: ArrayVec<IterationBody, DEPTH>,
    // a character was looked at, and only numbers came since
    looks: bool,
    has_comma: bool,
    has_saved: bool,
}

impl ElementWalk {
    // Nothing is passed.
    fn new() -> ElementWalk {
        ElementWalk {
            around: Around {
                here: None,
                before: None,
                body: None,
                has_saved_range: false,
                tests_character: false,
                answers_before: false,
            },
            open: ArrayVec::new(),
            looks: false,
            has_comma: false,
            has_saved: false,
        }
    }

    // Brackets are opened and closed.
    fn pass_bracket(&mut self, role: Role) {
        match role {
            Role::Begin => {
                let _known = self.open.try_push(IterationBody::default());
            }
            Role::End => {
                let _closed = self.open.pop();
            }
            Role::Test => self.around.tests_character = self.looks,
            Role::EndTest => self.around.tests_character = false,
            _ => {}
        }
    }

    // The arguments go on, or are taken.
    fn pass_argument(&mut self, sign: SeenElement) {
        match sign.role {
            Role::Comma => self.has_comma = true,
            Role::Saved => self.has_saved = true,
            Role::Zero | Role::Number | Role::Range | Role::LastLength => {}
            role => {
                self.has_comma = false;
                self.has_saved = false;
                self.looks = role == Role::Character;
                self.around.answers_before = sign.answers;
            }
        }
    }

    // What the arguments are before the next element.
    fn arguments(&self) -> ArgumentsBefore {
        let last = match self.around.before {
            Some(before) if before.role.is_argument() => Some(before.role),
            _ => None,
        };
        ArgumentsBefore {
            last,
            is_range: self.has_comma || last == Some(Role::Range),
        }
    }

    // An element is passed.
    fn pass(&mut self, sign: SeenElement) {
        let arguments = self.arguments();
        for body in self.open.as_mut_slice().iter_mut() {
            body.note(sign.role, arguments);
        }
        self.pass_bracket(sign.role);
        self.pass_argument(sign);
        self.around.before = Some(sign);
    }

    // The place is reached.
    fn end(mut self, here: Option<SeenElement>) -> Around {
        self.around.here = here;
        self.around.body = self.open.pop();
        self.around.has_saved_range = self.has_comma && self.has_saved;
        self.around
    }
}

impl Around {
    /// What stands about a place of a text. It takes time by the length of the text before it.
    pub fn of(text: &[u8], place: usize) -> Around {
        let mut walk = ElementWalk::new();
        let mut at = 0;
        for _ in 0..text.len() {
            let Some(sign) = sign_at(text, at) else {
                break;
            };
            if sign.next > place {
                return walk.end(Some(sign));
            }
            at = sign.next;
            walk.pass(sign);
        }
        walk.end(None)
    }
}
