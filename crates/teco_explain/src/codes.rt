//! What the codes of a run mean.
use crate::note::Explanation;
use teco_base::Code;

/// All codes.
pub const CODES: [Code; 27] = [
    Code::Arg,
    Code::Nac,
    Code::Nca,
    Code::Div,
    Code::Pop,
    Code::Dtb,
    Code::Iia,
    Code::Ill,
    Code::Iqn,
    Code::Ice,
    Code::Srh,
    Code::Tag,
    Code::Sni,
    Code::Bni,
    Code::Pes,
    Code::Utc,
    Code::Utm,
    Code::Nfi,
    Code::Nfo,
    Code::Yca,
    Code::Ofo,
    Code::Ful,
    Code::Lim,
    Code::Mem,
    Code::Fnf,
    Code::Inp,
    Code::Out,
];

/// The code of a name: three letters in either case, with or without the `?` before them.
pub fn code_named(name: &str) -> Option<Code> {
    let letters = name.as_bytes();
    let letters = letters.strip_prefix(b"?").unwrap_or(letters);
    CODES.iter().copied().find(|code| code.name().as_slice().eq_ignore_ascii_case(letters))
}

/// What a code means.
pub fn note_of_code(code: Code) -> Explanation {
    match code {
        Code::Arg => ARG,
        Code::Nac => NAC,
        Code::Nca => NCA,
        Code::Div => DIV,
        Code::Pop => POP,
        Code::Dtb => DTB,
        Code::Iia => IIA,
        Code::Ill => ILL,
        Code::Iqn => IQN,
        Code::Ice => ICE,
        Code::Srh => SRH,
        Code::Tag => TAG,
        Code::Sni => SNI,
        Code::Bni => BNI,
        Code::Pes => PES,
        Code::Utc => UTC,
        Code::Utm => UTM,
        Code::Nfi => NFI,
        Code::Nfo => NFO,
        Code::Yca => YCA,
        Code::Ofo => OFO,
        Code::Ful => FUL,
        Code::Lim => LIM,
        Code::Mem => MEM,
        Code::Fnf => FNF,
        Code::Inp => INP,
        Code::Out => OUT,
    }
}

// Codes of arguments.
const ARG: Explanation = Explanation {
    summary: "an argument is missing, or is not allowed here",
    meaning: "The command needs a number and has none, has one that it doesn't take, or \
        the numbers before it are not well formed.",
    example: "=$$",
    remedy: "Write the number before the command, as in 5=, or take away one that the command doesn't use.",
};

const NAC: Explanation = Explanation {
    summary: "nothing stands before the comma",
    meaning: "A comma parts two numbers, and the first one is missing.",
    example: ",1=$$",
    remedy: "Write the first number, as in 0,1T.",
};

const NCA: Explanation = Explanation {
    summary: "a negative number stands before the comma",
    meaning: "The first of two numbers is a place in the buffer, so it can't be negative.",
    example: "-1,2=$$",
    remedy: "Write a place from 0 to Z before the comma.",
};

const DIV: Explanation = Explanation {
    summary: "division by zero",
    meaning: "The number behind a slash is 0.",
    example: "1/0=$$",
    remedy: "Test the divisor first, as in QA\"N..'.",
};

const IIA: Explanation = Explanation {
    summary: "an insertion has both a number and a text",
    meaning: "nI$ inserts the character with the number n, and Itext$ inserts a text. One I can't do both.",
    example: "5Ia$$",
    remedy: "Write two insertions, as in 5I$Ia$.",
};

// Codes of the buffer, the registers and the push-down list.
const POP: Explanation = Explanation {
    summary: "the pointer, or a place, would be outside the buffer",
    meaning: "C, R and J move within the buffer, and the two places of a range lie from 0 to Z.",
    example: "5C$$",
    remedy: "Test first, as in .-Z;C, or write :C, which answers 0 where it can't move and doesn't stop.",
};

const DTB: Explanation = Explanation {
    summary: "a deletion would reach beyond an end of the buffer",
    meaning: "nD deletes n characters behind the pointer, or -n before it, and there are fewer.",
    example: "5D$$",
    remedy: "Test first, as in .-Z\"LD' or .\"G-D', or delete lines with K, which stops at the end by itself.",
};

const PES: Explanation = Explanation {
    summary: "the push-down list is empty",
    meaning: "]q takes back what [q pushed last, and nothing is there.",
    example: "]A$$",
    remedy: "Push with [q before, once for each ]q.",
};

const FUL: Explanation = Explanation {
    summary: "the text would be too long",
    meaning: "The buffer and each register hold at most 268,435,456 characters, and so does a command string.",
    example: "",
    remedy: "Work page by page, with P or FN, or write parts of the buffer out with m,nP.",
};

// Codes of reading a command string.
const ILL: Explanation = Explanation {
    summary: "no command begins here, or a : or @ doesn't fit it",
    meaning: "The character is no command of this TECO, or the command takes no : or @.",
    example: "?$$",
    remedy: "Look the command up in the manual; a text that was meant to be inserted wants I before it.",
};

const IQN: Explanation = Explanation {
    summary: "this is no register",
    meaning: "A register is named by a letter or a digit.",
    example: "5U*$$",
    remedy: "Name one of A to Z or 0 to 9 behind the command.",
};

const ICE: Explanation = Explanation {
    summary: "the search text can't be read",
    meaning: "A control in it is unknown or cut off.",
    example: "S^N$$",
    remedy: "Write ^Q before a character that is meant as it stands; the manual lists the \
        controls of search texts.",
};

const UTC: Explanation = Explanation {
    summary: "the command string ends too early",
    meaning: "A command is cut off, an iteration or a conditional isn't closed, or the \
        two ESC at the end are missing.",
    example: "<$$",
    remedy: "End each text with ESC, each < with >, each \" with ', and the command string with two ESC.",
};

const UTM: Explanation = Explanation {
    summary: "a macro ends too early",
    meaning: "A command of the macro is cut off, or an iteration or a conditional of it isn't closed.",
    example: "@^UA/</MA$$",
    remedy: "End each text with ESC, each < with >, and each \" with ' within the macro.",
};

// Codes of searches, tags and iterations.
const SRH: Explanation = Explanation {
    summary: "the search failed",
    meaning: "The text isn't there, and nothing asks whether it is. The pointer is at the beginning now.",
    example: "Sfoo$$",
    remedy: "Write :Sfoo$, which answers -1 or 0, or in an iteration put ; behind the search.",
};

const TAG: Explanation = Explanation {
    summary: "there is no such tag ahead",
    meaning: "O goes to the next tag of its name behind it, in the same text. It doesn't go back.",
    example: "Oend$$",
    remedy: "Write the tag behind it, as in Oend$ .. !end!, with the same letters in the same case.",
};

const SNI: Explanation = Explanation {
    summary: "a ; stands outside an iteration",
    meaning: "A semicolon leaves the iteration round it, which must stand in the same text.",
    example: "1;$$",
    remedy: "Put it between < and > of the same macro or command string.",
};

const BNI: Explanation = Explanation {
    summary: "a > stands outside an iteration",
    meaning: "A > ends the iteration that a < in the same text began, and none is open.",
    example: ">$$",
    remedy: "Write the < before it, or take the > away.",
};

// Codes of files that are open or not.
const NFI: Explanation = Explanation {
    summary: "no input is open",
    meaning: "Y and A read the next page of the input.",
    example: "Y$$",
    remedy: "Open an input first, with ERname$.",
};

const NFO: Explanation = Explanation {
    summary: "no output is open",
    meaning: "P, PW, N, FN, EF and EC write to the output.",
    example: "PW$$",
    remedy: "Open an output first, with EWname$.",
};

const YCA: Explanation = Explanation {
    summary: "Y would lose text",
    meaning: "The buffer isn't empty and an output is open, so its text should be written first.",
    example: "EWout$Iabc$ERin$Y$$",
    remedy: "Write the buffer with P, or empty it with HK.",
};

const OFO: Explanation = Explanation {
    summary: "an output is open already",
    meaning: "One output can be open at a time.",
    example: "EWa$EWb$$",
    remedy: "Close it with EF or EC, or drop it with EK.",
};

// Codes of limits, memory and files of the system.
const LIM: Explanation = Explanation {
    summary: "the step limit is reached",
    meaning: "A command string may take so many steps and no more; it probably runs for ever.",
    example: "<>$$",
    remedy: "Look for an iteration that never leaves, or raise the limit with --limit.",
};

const MEM: Explanation = Explanation {
    summary: "out of memory",
    meaning: "The system refused memory, or what the string types or its calls take passed --memory.",
    example: "",
    remedy: "Raise --memory, type less at a time, or look for a macro that calls itself without end.",
};

const FNF: Explanation = Explanation {
    summary: "the input can't be opened",
    meaning: "There is no such file, it is a folder, or it may not be read.",
    example: "ERnone$$",
    remedy: "Check the name: it runs from ER to the next ESC, blanks included.",
};

const INP: Explanation = Explanation {
    summary: "the input can't be read",
    meaning: "The system failed in reading it, or it has more than 268,435,456 bytes.",
    example: "",
    remedy: "Check the file and the disk; split a file that is longer.",
};

const OUT: Explanation = Explanation {
    summary: "the output can't be written",
    meaning: "The folder is missing or may not be written, the name is that of something \
        else than a regular file, or the disk is full.",
    example: "",
    remedy: "Check the name and the folder. A file that was there before is as it was.",
};
