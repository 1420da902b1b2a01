//! What the commands do, as the manual's card says it.
use std::fmt;

/// A section of the manual that tells more of commands.
#[derive(Clone, Copy)]
pub enum Section {
    Numbers,
    Pointer,
    Insertions,
    Typing,
    Registers,
    Macros,
    Searches,
    Iterations,
    Conditionals,
    Tags,
    Pages,
}

/// All of them, in the order of the manual.
pub const SECTIONS: [Section; 11] = [
    Section::Numbers,
    Section::Pointer,
    Section::Insertions,
    Section::Typing,
    Section::Registers,
    Section::Macros,
    Section::Searches,
    Section::Iterations,
    Section::Conditionals,
    Section::Tags,
    Section::Pages,
];

/// A row of the manual's card.
#[derive(Clone, Copy)]
pub struct CardRow {
    /// What it explains, as it is spelled without arguments, `:` and `@`.
    pub names: &'static [&'static str],
    /// How it is written; a number in brackets is the default for n.
    pub form: &'static str,
    pub does: &'static str,
    /// What it takes; it may be empty.
    pub takes: &'static str,
    /// What it gives; it may be empty.
    pub gives: &'static str,
    pub section: Section,
}

/// The names that a letter or a digit stands behind: the name of a register, or the test of a
/// conditional.
const NAMING: [&str; 10] = ["Q", "U", "%", "^U", "X", "G", "[", "]", "M", "\""];

/// The name of a number.
const DIGITS: &str = "0";

/// What a control and the letter of its `^X` differ by.
const CONTROL_BIT: u8 = 0x40;

impl fmt::Display for CardRow {
    fn fmt<W: fmt::Write>(&self, f: &mut fmt::Formatter<W>) -> fmt::Result {
        writeln!(f, "{}", self.form)?;
        writeln!(f, "  {}", self.does)?;
        if !self.takes.is_empty() {
            writeln!(f, "  takes: {}", self.takes)?;
        }
        if !self.gives.is_empty() {
            writeln!(f, "  gives: {}", self.gives)?;
        }
        writeln!(f, "  in the manual: {}", self.section.title())
    }
}

// Is a word this name, in either case, or the byte that a caret and a letter stand for?
fn is_spelled(word: &[u8], name: &str) -> bool {
    let name = name.as_bytes();
    match (word, name) {
        ([byte], [b'^', letter]) => byte ^ CONTROL_BIT == *letter,
        _ => word.eq_ignore_ascii_case(name),
    }
}

// The name among those of the card that a word is.
fn name_spelled(word: &[u8]) -> Option<&'static str> {
    for section in SECTIONS.iter() {
        for command in section.rows().iter() {
            if let Some(name) = command.name_spelled(word) {
                return Some(name);
            }
        }
    }
    None
}

// May a byte stand in the arguments before a command, as in `m,nK`, or be a `:` or an `@`?
fn is_argument(byte: u8) -> bool {
    byte.is_ascii_digit() || b"nm,.-+:@".contains(&byte)
}

// What stands behind the arguments of a command.
fn behind_arguments(word: &[u8]) -> &[u8] {
    match word.iter().position(|byte| !is_argument(*byte)) {
        None => &[],
        Some(at) => word.get(at..).unwrap_or(&[]),
    }
}

// The name of a command that a word has before the name of a register or of a test.
fn name_before_letter(word: &[u8]) -> Option<&'static str> {
    let (letter, front) = word.split_last()?;
    if !letter.is_ascii_alphanumeric() {
        return None;
    }
    let name = name_spelled(front)?;
    NAMING.contains(&name).then_some(name)
}

/// The name of the command that a word is, in either case, with or without arguments, `:` and `@`
/// before it, and the name of a register or of a test behind it.
pub fn command_named(word: &str) -> Option<&'static str> {
    let word = word.as_bytes();
    if !word.is_empty() && word.iter().all(|byte| byte.is_ascii_digit()) {
        return Some(DIGITS);
    }
    let bare = behind_arguments(word);
    name_spelled(word)
        .or(name_spelled(bare))
        .or(name_before_letter(bare))
}

impl CardRow {
    /// Does it explain the command of a name?
    pub fn explains(&self, name: &str) -> bool {
        self.names.iter().any(|other| *other == name)
    }

    // The name among its own that a word is.
    fn name_spelled(&self, word: &[u8]) -> Option<&'static str> {
        for name in self.names.iter() {
            if is_spelled(word, name) {
                return Some(name);
            }
        }
        None
    }
}

impl Section {
    /// What the manual calls it.
    pub fn title(self) -> &'static str {
        match self {
            Section::Numbers => "Numbers and places",
            Section::Pointer => "Moving the pointer",
            Section::Insertions => "Inserting and deleting",
            Section::Typing => "Typing",
            Section::Registers => "Registers",
            Section::Macros => "Macros",
            Section::Searches => "Searches",
            Section::Iterations => "Iterations",
            Section::Conditionals => "Conditionals",
            Section::Tags => "Tags and comments",
            Section::Pages => "Pages and files",
        }
    }

    /// The rows of the manual's card whose commands it tells of.
    pub fn rows(self) -> &'static [CardRow] {
        match self {
            Section::Numbers => numbers(),
            Section::Pointer => pointer(),
            Section::Insertions => insertions(),
            Section::Typing => typing(),
            Section::Registers => registers(),
            Section::Macros => macros(),
            Section::Searches => searches(),
            Section::Iterations => iterations(),
            Section::Conditionals => conditionals(),
            Section::Tags => tags(),
            Section::Pages => pages(),
        }
    }
}

// Commands of the section Numbers and places.
fn numbers() -> &'static [CardRow] {
    &NUMBERS
}

const NUMBERS: [CardRow; 9] = [
    CardRow {
        names: &["0"],
        form: "digits",
        does: "a decimal number",
        takes: "",
        gives: "the number",
        section: Section::Numbers,
    },
    CardRow {
        names: &["+", "-", "*", "/"],
        form: "+ - * /",
        does: "sum, difference, product, quotient",
        takes: "two values",
        gives: "the result",
        section: Section::Numbers,
    },
    CardRow {
        names: &["&", "#"],
        form: "& #",
        does: "bits that both have; that either has",
        takes: "two values",
        gives: "the result",
        section: Section::Numbers,
    },
    CardRow {
        names: &["(", ")"],
        form: "( )",
        does: "compute a part first",
        takes: "",
        gives: "its value",
        section: Section::Numbers,
    },
    CardRow {
        names: &[","],
        form: ",",
        does: "separates a first number from a second",
        takes: "a value",
        gives: "",
        section: Section::Numbers,
    },
    CardRow {
        names: &["ESC", "$", "^["],
        form: "ESC",
        does: "drops what is pending",
        takes: "all",
        gives: "",
        section: Section::Numbers,
    },
    CardRow {
        names: &["B", "Z", "."],
        form: "B Z .",
        does: "the beginning; the end; the pointer",
        takes: "",
        gives: "a place",
        section: Section::Numbers,
    },
    CardRow {
        names: &["H"],
        form: "H",
        does: "the whole buffer, as B,Z",
        takes: "",
        gives: "two places",
        section: Section::Numbers,
    },
    CardRow {
        names: &["A"],
        form: "nA",
        does: "the character at .+n",
        takes: "n",
        gives: "its code, or -1",
        section: Section::Numbers,
    },
];

// Commands of the section Moving the pointer.
fn pointer() -> &'static [CardRow] {
    &POINTER
}

const POINTER: [CardRow; 2] = [
    CardRow {
        names: &["C", "R", "J"],
        form: "nC [1], nR [1], nJ [0]",
        does: "move n on; n back; to place n",
        takes: "n",
        gives: "with :, -1 if it moved, else 0",
        section: Section::Pointer,
    },
    CardRow {
        names: &["L"],
        form: "nL [1]",
        does: "moves by lines",
        takes: "n",
        gives: "",
        section: Section::Pointer,
    },
];

// Commands of the section Inserting and deleting.
fn insertions() -> &'static [CardRow] {
    &INSERTIONS
}

const INSERTIONS: [CardRow; 7] = [
    CardRow {
        names: &["I", "TAB", "^I"],
        form: "Itext$, TABtext$",
        does: "inserts the text; a tab and the text",
        takes: "a text",
        gives: "",
        section: Section::Insertions,
    },
    CardRow {
        names: &["I"],
        form: "nI$",
        does: "inserts the byte n",
        takes: "n",
        gives: "",
        section: Section::Insertions,
    },
    CardRow {
        names: &["\\"],
        form: "n\\",
        does: "inserts n in decimal",
        takes: "n",
        gives: "",
        section: Section::Insertions,
    },
    CardRow {
        names: &["\\"],
        form: "\\",
        does: "reads the number at the pointer, and moves past it",
        takes: "",
        gives: "the number",
        section: Section::Insertions,
    },
    CardRow {
        names: &["D"],
        form: "nD [1]",
        does: "deletes n characters",
        takes: "n",
        gives: "",
        section: Section::Insertions,
    },
    CardRow {
        names: &["K"],
        form: "nK [1]",
        does: "deletes lines",
        takes: "n",
        gives: "",
        section: Section::Insertions,
    },
    CardRow {
        names: &["D", "K"],
        form: "m,nD, m,nK",
        does: "delete from place m to place n",
        takes: "m, n",
        gives: "",
        section: Section::Insertions,
    },
];

// Commands of the section Typing.
fn typing() -> &'static [CardRow] {
    &TYPING
}

const TYPING: [CardRow; 5] = [
    CardRow {
        names: &["=", "==", "==="],
        form: "n= n== n===",
        does: "type n in decimal; octal; hexadecimal; with :, without a line end",
        takes: "n",
        gives: "",
        section: Section::Typing,
    },
    CardRow {
        names: &["T"],
        form: "nT [1], m,nT",
        does: "type lines; from place m to place n",
        takes: "n, or m, n",
        gives: "",
        section: Section::Typing,
    },
    CardRow {
        names: &["V"],
        form: "nV [1]",
        does: "types the lines around the pointer",
        takes: "n",
        gives: "",
        section: Section::Typing,
    },
    CardRow {
        names: &["^A"],
        form: "^Atext^A",
        does: "types the text",
        takes: "a text",
        gives: "",
        section: Section::Typing,
    },
    CardRow {
        names: &["^T"],
        form: "n^T",
        does: "types the byte n",
        takes: "n",
        gives: "",
        section: Section::Typing,
    },
];

// Commands of the section Registers.
fn registers() -> &'static [CardRow] {
    &REGISTERS
}

const REGISTERS: [CardRow; 8] = [
    CardRow {
        names: &["Q"],
        form: "Qq, :Qq",
        does: "the number of q; the length of its text",
        takes: "",
        gives: "a number",
        section: Section::Registers,
    },
    CardRow {
        names: &["Q"],
        form: "nQq",
        does: "character n of q's text",
        takes: "n",
        gives: "its code, or -1",
        section: Section::Registers,
    },
    CardRow {
        names: &["U"],
        form: "nUq",
        does: "sets the number of q",
        takes: "n",
        gives: "",
        section: Section::Registers,
    },
    CardRow {
        names: &["%"],
        form: "n%q [1]",
        does: "adds n to the number of q",
        takes: "n",
        gives: "the sum",
        section: Section::Registers,
    },
    CardRow {
        names: &["^U"],
        form: "^Uqtext$",
        does: "sets the text of q; with :, appends to it",
        takes: "a text",
        gives: "",
        section: Section::Registers,
    },
    CardRow {
        names: &["X"],
        form: "nXq [1], m,nXq",
        does: "copy lines, or m to n, to q's text; with :, append",
        takes: "n, or m, n",
        gives: "",
        section: Section::Registers,
    },
    CardRow {
        names: &["G"],
        form: "Gq",
        does: "inserts the text of q; with :, types it",
        takes: "",
        gives: "",
        section: Section::Registers,
    },
    CardRow {
        names: &["[", "]"],
        form: "[q ]q",
        does: "push number and text of q; pop them into q",
        takes: "",
        gives: "",
        section: Section::Registers,
    },
];

// Commands of the section Macros.
fn macros() -> &'static [CardRow] {
    &MACROS
}

const MACROS: [CardRow; 1] = [CardRow {
    names: &["M"],
    form: "Mq",
    does: "executes the text of q",
    takes: "",
    gives: "",
    section: Section::Macros,
}];

// Commands of the section Searches.
fn searches() -> &'static [CardRow] {
    &SEARCHES
}

const SEARCHES: [CardRow; 6] = [
    CardRow {
        names: &["^S"],
        form: "^S",
        does: "minus the length of the text last found or inserted",
        takes: "",
        gives: "a number",
        section: Section::Searches,
    },
    CardRow {
        names: &["^Y"],
        form: "^Y",
        does: "that text, as .+^S,.",
        takes: "",
        gives: "two places",
        section: Section::Searches,
    },
    CardRow {
        names: &["S"],
        form: "nStext$ [1]",
        does: "finds a text",
        takes: "n, a text",
        gives: "with :, -1 if found, else 0",
        section: Section::Searches,
    },
    CardRow {
        names: &["S", "::S"],
        form: "::Stext$",
        does: "is the text at the pointer?",
        takes: "a text",
        gives: "-1 or 0",
        section: Section::Searches,
    },
    CardRow {
        names: &["FS"],
        form: "nFSa$b$ [1]",
        does: "finds a and puts b in its place",
        takes: "n, two texts",
        gives: "with :, -1 or 0",
        section: Section::Searches,
    },
    CardRow {
        names: &["^X"],
        form: "^X, n^X",
        does: "the search mode; sets it",
        takes: "n",
        gives: "the mode",
        section: Section::Searches,
    },
];

// Commands of the section Iterations.
fn iterations() -> &'static [CardRow] {
    &ITERATIONS
}

const ITERATIONS: [CardRow; 3] = [
    CardRow {
        names: &["<", ">"],
        form: "n< .. >",
        does: "repeats n times, or without end",
        takes: "n",
        gives: "",
        section: Section::Iterations,
    },
    CardRow {
        names: &[";"],
        form: "n;",
        does: "leaves the iteration if n is 0 or more; with :, if n is negative",
        takes: "n",
        gives: "",
        section: Section::Iterations,
    },
    CardRow {
        names: &["F>"],
        form: "F>",
        does: "goes to the > of the iteration",
        takes: "",
        gives: "",
        section: Section::Iterations,
    },
];

// Commands of the section Conditionals.
fn conditionals() -> &'static [CardRow] {
    &CONDITIONALS
}

const CONDITIONALS: [CardRow; 3] = [
    CardRow {
        names: &["\"", "'"],
        form: "n\"x .. '",
        does: "executed if test x holds for n",
        takes: "n",
        gives: "",
        section: Section::Conditionals,
    },
    CardRow {
        names: &["\"", "|", "'"],
        form: "n\"x ..|.. '",
        does: "otherwise the second part is executed",
        takes: "n",
        gives: "",
        section: Section::Conditionals,
    },
    CardRow {
        names: &["F'", "F|"],
        form: "F' F|",
        does: "go to the end of the conditional; to its second part",
        takes: "",
        gives: "",
        section: Section::Conditionals,
    },
];

// Commands of the section Tags and comments.
fn tags() -> &'static [CardRow] {
    &TAGS
}

const TAGS: [CardRow; 1] = [CardRow {
    names: &["O", "!"],
    form: "Otag$ !tag!",
    does: "goes to the next such tag; a tag, or a comment",
    takes: "a text",
    gives: "",
    section: Section::Tags,
}];

// Commands of the section Pages and files.
fn pages() -> &'static [CardRow] {
    &PAGES
}

const PAGES: [CardRow; 7] = [
    CardRow {
        names: &["N", "FN"],
        form: "nNtext$ [1], nFNa$b$ [1]",
        does: "like S and FS, but continue through the pages",
        takes: "n, texts",
        gives: "with :, -1 or 0",
        section: Section::Pages,
    },
    CardRow {
        names: &["Y", "A"],
        form: "Y A",
        does: "read the next page: in place of the buffer; at its end",
        takes: "",
        gives: "",
        section: Section::Pages,
    },
    CardRow {
        names: &["P", "PW"],
        form: "nP [1], nPW [1]",
        does: "write the buffer and read the next page; write it only",
        takes: "n",
        gives: "",
        section: Section::Pages,
    },
    CardRow {
        names: &["P", "PW"],
        form: "m,nP m,nPW",
        does: "write from place m to place n",
        takes: "m, n",
        gives: "",
        section: Section::Pages,
    },
    CardRow {
        names: &["ER", "EW"],
        form: "ERname$ EWname$",
        does: "open an input; begin an output",
        takes: "a name",
        gives: "",
        section: Section::Pages,
    },
    CardRow {
        names: &["EC", "EF", "EK"],
        form: "EC EF EK",
        does: "copy the rest and close; close; abandon the output",
        takes: "",
        gives: "",
        section: Section::Pages,
    },
    CardRow {
        names: &["EX"],
        form: "EX",
        does: "does EC if an output is open, and ends the session",
        takes: "",
        gives: "",
        section: Section::Pages,
    },
];
