//! The tables of commands and options.
use crate::commands::HelpPage;
use crate::rows::{Parameter, ParameterKind};

/// The command `run`.
pub const RUN_PAGE: HelpPage = HelpPage {
    name: "run",
    about: "Runs command strings on standard input, in files or in words",
    examples: "Examples:\n\
        \x20 teco run -e 'ERin$EWout$YJ<FSfoo$bar$;>EC'\n\
        \x20 teco run edit.tes\n\
        \x20 printf 'Iabc\\033HT\\033\\033' | teco run",
    options: &[
        LIMIT,
        MEMORY,
        STOP,
        SETTING,
        SETTING_FILE,
        EXACT,
        ANY_CASE,
        ESCAPE,
        TEXT,
    ],
    library: &[],
    words: &[SCRIPTS],
};

/// The command `verify`.
pub const VERIFY_PAGE: HelpPage = HelpPage {
    name: "verify",
    about: "Prints the certificate of a macro, or a verdict on each macro of a library",
    examples: "Examples:\n\
        \x20 teco verify replace-word\n\
        \x20 teco verify -e 'J<FSfoo$bar$;>'\n\
        \x20 teco verify trim.tes A\n\
        \x20 teco verify --changes trim.tes\n\
        \x20 teco verify --json lib.tes",
    options: &[MACRO, FROM, CALLED, CHANGES, JSON, RULES, EFFORT, ESCAPE],
    library: &[NAME_OR_LIBRARY, OF_EACH],
    words: &[],
};

/// The command `check`.
pub const CHECK_PAGE: HelpPage = HelpPage {
    name: "check",
    about: "Checks a certificate",
    examples: "Example:\n\
        \x20 teco verify trim.tes A > trim.cert\n\
        \x20 teco check trim.tes A trim.cert",
    options: &[MACRO, FROM, CALLED, JSON_CHECK, RULES, ESCAPE],
    library: &[LIBRARY, REGISTER],
    words: &[CERTIFICATE],
};

/// The command `apply`.
pub const APPLY_PAGE: HelpPage = HelpPage {
    name: "apply",
    about: "Edits a file by a verified macro",
    examples: "Examples:\n\
        \x20 teco apply replace-word old=foo new=bar in.txt out.txt\n\
        \x20 teco apply -e 'J<FSfoo$bar$;>' in.txt out.txt\n\
        \x20 teco apply --pages each --strict trim.tes A in.txt out.txt\n\
        \x20 printf 'a  \\n' | teco apply trim.tes A - -",
    options: &[
        MACRO,
        FROM,
        CALLED,
        MEMORY,
        ARGUMENT,
        SETTING,
        SETTING_FILE,
        EXACT,
        ANY_CASE,
        RULES,
        EFFORT,
        ESCAPE,
        EDITED,
        STRICT,
        STATS,
        JSON_COUNTS,
        CHECKED,
        KEEP,
        ADD,
        TAKE,
        MOST,
        QUIET,
    ],
    library: &[LIBRARY, REGISTER],
    words: &[INPUT, OUTPUT],
};

/// The command `edit`.
pub const EDIT_PAGE: HelpPage = HelpPage {
    name: "edit",
    about: "Edits files in place by a verified macro; one that fails is left as it was",
    examples: "Examples:\n\
        \x20 teco edit replace-word old=foo new=bar *.c\n\
        \x20 teco edit -e 'J<FSfoo$bar$;>' *.txt\n\
        \x20 teco edit --dry-run trim.tes A *.txt\n\
        \x20 teco edit --backup .old trim.tes A *.txt\n\
        \x20 teco edit --check -0 trim.tes A *.txt | xargs -0 ls -l",
    options: &[
        MACRO,
        FROM,
        CALLED,
        MEMORY,
        ARGUMENT,
        SETTING,
        SETTING_FILE,
        EXACT,
        ANY_CASE,
        RULES,
        EFFORT,
        ESCAPE,
        EDITED_WHOLE,
        STRICTLY,
        BEYOND,
        STATS,
        CHECKED,
        TESTED,
        DRY,
        CHECK,
        NUL,
        JSON_FILES,
        KEEP,
        ADD,
        TAKE,
        MOST,
        DIFF,
        COLOR,
        LISTED_FILES,
        RECURSIVE,
        INCLUDED,
        EXCLUDED,
        BINARY,
        BACKUP,
        FORCE,
        DURABLE,
        NAMED,
        UNNAMED,
        QUIET,
    ],
    library: &[NAME_OR_LIBRARY, OF_EDIT],
    words: &[FILES],
};

/// The command `test`.
pub const TEST_PAGE: HelpPage = HelpPage {
    name: "test",
    about: "Tries the examples in the comments of a library, as !EXAMPLE text => text!",
    examples: "Examples:\n  teco test replace-word\n  teco test trim.tes\n  teco test lib.tes B",
    options: &[
        MACRO, FROM, CALLED, FUZZ, EXACT, ANY_CASE, COLOR, JSON_ROWS, RULES, EFFORT, ESCAPE,
    ],
    library: &[NAME_OR_LIBRARY, OF_TESTED],
    words: &[],
};

/// The command `trace`.
pub const TRACE_PAGE: HelpPage = HelpPage {
    name: "trace",
    about: "Lists the steps of a macro on a file, and writes no file",
    examples: "Examples:\n\
        \x20 teco trace replace-word old=foo new=bar in.txt\n\
        \x20 teco trace -e 'J<FSfoo$bar$;>' in.txt\n\
        \x20 teco trace --limit 100 trim.tes A in.txt",
    options: &[
        MACRO,
        FROM,
        CALLED,
        LISTED,
        MEMORY,
        ARGUMENT,
        SETTING,
        SETTING_FILE,
        EXACT,
        ANY_CASE,
        RULES,
        EFFORT,
        ESCAPE,
        EDITED,
        BEYOND,
    ],
    library: &[LIBRARY, REGISTER],
    words: &[INPUT],
};

/// The command `list`.
pub const LIST_PAGE: HelpPage = HelpPage {
    name: "list",
    about: "Prints the names of macros, with what they take and what they do",
    examples: "Example:\n  teco list | grep blanks",
    options: &[],
    library: &[],
    words: &[],
};

/// The command `show`.
pub const SHOW_PAGE: HelpPage = HelpPage {
    name: "show",
    about: "Prints a macro, or a file of TECO text, as its elements, safe for a terminal",
    examples: "Examples:\n  teco show replace-word\n  teco show trim.tec\n  teco show --source trim.tec > trim.tes",
    options: &[SOURCE, ESCAPE],
    library: &[],
    words: &[SHOWN],
};

/// The command `explain`.
pub const EXPLAIN_PAGE: HelpPage = HelpPage {
    name: "explain",
    about: "Says what a code or a refusal means and how to mend what causes it, or what is \
        known at each element of a macro",
    examples: "Examples:\n\
        \x20 teco explain X9\n\
        \x20 teco explain replace-word\n\
        \x20 teco explain -e 'J<FSfoo$bar$;>'\n\
        \x20 teco explain trim.tes A",
    options: &[MACRO, FROM, CALLED, JSON_ROWS, RULES, EFFORT, ESCAPE],
    library: &[EXPLAINED, IN_LIBRARY],
    words: &[],
};

const MACRO: Parameter = Parameter {
    id: "text",
    kind: ParameterKind::Letter('e'),
    help: "A line of the macro A, in the readable form, with $ for ESC; LIB and REGISTER are \
        then left out",
};

const FROM: Parameter = Parameter {
    id: "library",
    kind: ParameterKind::Lettered('f', "LIB"),
    help: "A file of macros, or of one macro; LIB and REGISTER are then left out",
};

const CALLED: Parameter = Parameter {
    id: "register",
    kind: ParameterKind::Lettered('r', "REGISTER"),
    help: "The register of the macro, where -e or -f is given; A where it is left out",
};

const LIMIT: Parameter = Parameter {
    id: "limit",
    kind: ParameterKind::Count("N", "100000000"),
    help: "Steps that each command string may take, 1 to 4294967295",
};

const STOP: Parameter = Parameter {
    id: "stop",
    kind: ParameterKind::Flag,
    help: "End with the first code, and drop an output that is open then",
};

const TEXT: Parameter = Parameter {
    id: "text",
    kind: ParameterKind::Letter('e'),
    help: "Command strings in the readable form, with $ for ESC; the two ESC at the end may be \
        left out",
};

const SCRIPTS: Parameter = Parameter {
    id: "FILE",
    kind: ParameterKind::Words,
    help: "Files of command strings; standard input where neither a file nor a text is given",
};

const CHANGES: Parameter = Parameter {
    id: "changes",
    kind: ParameterKind::Flag,
    help: "Print what each macro can change in a text, in words, in the place of its certificate",
};

const JSON: Parameter = Parameter {
    id: "json",
    kind: ParameterKind::Flag,
    help: "Print each verdict as an object of JSON in a line",
};

const JSON_CHECK: Parameter = Parameter {
    id: "json",
    kind: ParameterKind::Flag,
    help: "Print what the macro promises, or the refusal, as an object of JSON",
};

const JSON_ROWS: Parameter = Parameter {
    id: "json",
    kind: ParameterKind::Flag,
    help: "Print an object of JSON in each line",
};

const JSON_COUNTS: Parameter = Parameter {
    id: "json",
    kind: ParameterKind::Flag,
    help: "Say what --stats says as an object of JSON; it asks for --stats",
};

const JSON_FILES: Parameter = Parameter {
    id: "json",
    kind: ParameterKind::Flag,
    help: "Print an object of JSON for each file, in a line, and nothing else",
};

const OF_EACH: Parameter = Parameter {
    id: "REGISTER",
    kind: ParameterKind::OptionalWord,
    help: "The register of the macro; each macro of LIB where it is left out",
};

const OF_TESTED: Parameter = Parameter {
    id: "REGISTER",
    kind: ParameterKind::OptionalWord,
    help: "The register of the macro whose examples are tried; those of all where it is left out",
};

const FUZZ: Parameter = Parameter {
    id: "fuzz",
    kind: ParameterKind::Flag,
    help: "Run the macro on short texts of what it looks for, and ask about what may not be meant",
};

const TESTED: Parameter = Parameter {
    id: "tested",
    kind: ParameterKind::Flag,
    help: "Try the examples of the library first, and edit nothing where one fails",
};

const CERTIFICATE: Parameter = Parameter {
    id: "CERT",
    kind: ParameterKind::Word,
    help: "A certificate",
};

const INPUT: Parameter = Parameter {
    id: "IN",
    kind: ParameterKind::Word,
    help: "The file that is read, or - for standard input",
};

const OUTPUT: Parameter = Parameter {
    id: "OUT",
    kind: ParameterKind::Word,
    help: "The file that is written, or - for standard output",
};

const DRY: Parameter = Parameter {
    id: "dry-run",
    kind: ParameterKind::Flag,
    help: "Print the names of the files that would change, one a line, and change none",
};

const CHECK: Parameter = Parameter {
    id: "check",
    kind: ParameterKind::Flag,
    help: "As --dry-run, and end with status 1 if a file would change",
};

const NUL: Parameter = Parameter {
    id: "null",
    kind: ParameterKind::Switch('0'),
    help: "End each name that --dry-run or --check prints, and each of --files-from, with a NUL",
};

const FORCE: Parameter = Parameter {
    id: "force-backup",
    kind: ParameterKind::Flag,
    help: "Let --backup take the place of files that have the names of backups",
};

const DURABLE: Parameter = Parameter {
    id: "durable",
    kind: ParameterKind::Flag,
    help: "Send each file to the disk before it takes its name, so that no power cut loses it",
};

const NAMED: Parameter = Parameter {
    id: "with-names",
    kind: ParameterKind::Flag,
    help: "Begin each line that is typed over a file with the file's name; so it is anyhow where \
        there are several files",
};

const UNNAMED: Parameter = Parameter {
    id: "no-names",
    kind: ParameterKind::Flag,
    help: "Type lines without the names of files",
};

const BEYOND: Parameter = Parameter {
    id: "beyond-promise",
    kind: ParameterKind::Flag,
    help: "Run the macro also where its promise does not hold",
};

const STRICTLY: Parameter = Parameter {
    id: "strict",
    kind: ParameterKind::Flag,
    help: "Leave a file as it was where the promise does not hold for it: so it is anyhow, \
        without --beyond-promise",
};

const QUIET: Parameter = Parameter {
    id: "quiet",
    kind: ParameterKind::Switch('q'),
    help: "Say nothing but what fails or is refused, what is left undone and what --stats asks for",
};

const BACKUP: Parameter = Parameter {
    id: "backup",
    kind: ParameterKind::Text("SUFFIX"),
    help: "Keep each file that changes as it was, under its name with SUFFIX behind it; a file \
        whose backup has that name already is left as it was",
};

const FILES: Parameter = Parameter {
    id: "FILE",
    kind: ParameterKind::Words,
    help: "The files that are edited, and with --recursive folders",
};

const KEEP: Parameter = Parameter {
    id: "keep",
    kind: ParameterKind::Texts("WHAT"),
    help: "Leave a file as it was whose edit would take any text (text), change its length (size) or \
        its line ends (lines), or change lines without a match of PATTERN (others=PATTERN)",
};

const ADD: Parameter = Parameter {
    id: "add",
    kind: ParameterKind::Texts("WHAT"),
    help: "Leave a file as it was whose edit would add anything (nothing), or others than these \
        (only=CHARACTERS)",
};

const TAKE: Parameter = Parameter {
    id: "take",
    kind: ParameterKind::Texts("WHAT"),
    help: "Leave a file as it was whose edit would take others than these (only=CHARACTERS)",
};

const MOST: Parameter = Parameter {
    id: "most",
    kind: ParameterKind::Texts("LINES"),
    help: "Leave a file as it was whose edit would change more lines: 10, or 5% of them",
};

const DIFF: Parameter = Parameter {
    id: "diff",
    kind: ParameterKind::Flag,
    help: "Print what changes, as diff -u does",
};

const COLOR: Parameter = Parameter {
    id: "color",
    kind: ParameterKind::Default("WHEN", "auto"),
    help: "Colours of --diff: always, never, or auto, at a terminal unless NO_COLOR is set",
};

const LISTED_FILES: Parameter = Parameter {
    id: "files-from",
    kind: ParameterKind::Text("LIST"),
    help: "Edit the files that this file names too, one a line, or with -0 each ended by a NUL; - \
        for standard input",
};

const RECURSIVE: Parameter = Parameter {
    id: "recursive",
    kind: ParameterKind::Flag,
    help: "Edit the files of folders and of those in them; hidden ones and links are left out",
};

const INCLUDED: Parameter = Parameter {
    id: "include",
    kind: ParameterKind::Texts("PATTERN"),
    help: "Of folders, edit the files whose names are of this pattern alone, as *.txt; * is any \
        text and ? any byte",
};

const EXCLUDED: Parameter = Parameter {
    id: "exclude",
    kind: ParameterKind::Texts("PATTERN"),
    help: "Of folders, leave out the files and folders whose names are of this pattern",
};

const BINARY: Parameter = Parameter {
    id: "binary",
    kind: ParameterKind::Flag,
    help: "Edit files too that have a NUL near their beginning; they are left as they are without it",
};

const EDITED: Parameter = Parameter {
    id: "pages",
    kind: ParameterKind::Default("WHICH", "first"),
    help: "The pages that are edited, which form feeds end: first, and the others are copied; \
        each in turn; or whole, all as one",
};

const EDITED_WHOLE: Parameter = Parameter {
    id: "pages",
    kind: ParameterKind::Default("WHICH", "whole"),
    help: "The pages that are edited, which form feeds end: whole, all as one; first, and the \
        others are copied; or each in turn",
};

const STRICT: Parameter = Parameter {
    id: "strict",
    kind: ParameterKind::Flag,
    help: "Leave OUT as it was where the promise does not hold, or where pages behind the first \
        would be copied unedited",
};

const STATS: Parameter = Parameter {
    id: "stats",
    kind: ParameterKind::Flag,
    help: "Say how many commands the runs took, and how many they may take",
};

const CHECKED: Parameter = Parameter {
    id: "cert",
    kind: ParameterKind::Text("CERT"),
    help: "Check this certificate in place of a search for one",
};

const LISTED: Parameter = Parameter {
    id: "limit",
    kind: ParameterKind::Count("N", "1000"),
    help: "Steps that are listed at most",
};

const SOURCE: Parameter = Parameter {
    id: "source",
    kind: ParameterKind::Flag,
    help: "Print a source that reads as the same bytes: readable, or with the character of --esc",
};

const SHOWN: Parameter = Parameter {
    id: "FILE",
    kind: ParameterKind::Called("NAME|FILE"),
    help: "The name of a macro, or a file of TECO text, or - for standard input",
};

const EXPLAINED: Parameter = Parameter {
    id: "LIB",
    kind: ParameterKind::NamedWord("WORD|NAME|LIB"),
    help: "A code, as POP, a refusal, as X7, a command, as FS, the name of a macro, or a file of \
        macros; without it all words are listed",
};

const IN_LIBRARY: Parameter = Parameter {
    id: "REGISTER",
    kind: ParameterKind::OptionalWord,
    help: "The register of the macro in the file LIB",
};

const MEMORY: Parameter = Parameter {
    id: "memory",
    kind: ParameterKind::Bytes("BYTES", "1073741824"),
    help: "Bytes that each command string may type, and as many that its calls may take; more \
        is ?MEM",
};

const ARGUMENT: Parameter = Parameter {
    id: "arg",
    kind: ParameterKind::Text("N"),
    help: "The argument of the macro, where its library declares one: 0 to 2147483647",
};

const SETTING: Parameter = Parameter {
    id: "set",
    kind: ParameterKind::Texts("Q=TEXT"),
    help: "Give register Q this text before the run, in the form of -e. A text that the macro does \
        not write is known to the verifier",
};

const SETTING_FILE: Parameter = Parameter {
    id: "set-file",
    kind: ParameterKind::Texts("Q=PATH"),
    help: "Give register Q the bytes of a file before the run",
};

const EXACT: Parameter = Parameter {
    id: "exact",
    kind: ParameterKind::Flag,
    help: "Begin with 1^X: a letter of a search finds itself alone",
};

const ANY_CASE: Parameter = Parameter {
    id: "any-case",
    kind: ParameterKind::Flag,
    help: "Begin with 0^X, as without it: a letter of a search finds itself in either case",
};

const RULES: Parameter = Parameter {
    id: "rules",
    kind: ParameterKind::Text("N"),
    help: "The edition of the rules that macros are verified by: 1 or 2",
};

const EFFORT: Parameter = Parameter {
    id: "effort",
    kind: ParameterKind::Text("N"),
    help: "Look N times as long for what shows that a macro ends",
};

const ESCAPE: Parameter = Parameter {
    id: "esc",
    kind: ParameterKind::Text("C"),
    help: "The character that stands for ESC; none for the byte ESC itself. Without it files \
        whose names end in .tes are readable: $ is ESC and ^$ a dollar",
};

const REGISTER: Parameter = Parameter {
    id: "REGISTER",
    kind: ParameterKind::Word,
    help: "The register of the macro",
};

const LIBRARY: Parameter = Parameter {
    id: "LIB",
    kind: ParameterKind::Word,
    help: "A file of macros, or of one macro, which is then A; - for standard input",
};

const NAME_OR_LIBRARY: Parameter = Parameter {
    id: "LIB",
    kind: ParameterKind::Called("NAME|LIB"),
    help: "The name of a macro, as teco list prints it, or a file of macros, or of one macro, which \
        is then A; - for standard input",
};

/// The words that stand behind `apply` and `trace` where a macro is called by its name.
pub const APPLIED_BY_NAME: &[Parameter] = &[NAME_OR_LIBRARY, BEHIND_NAME];

const BEHIND_NAME: Parameter = Parameter {
    id: "FILE",
    kind: ParameterKind::Words,
    help: "The texts that the macro takes, as KEY=TEXT, and behind them IN, and OUT where a file is \
        written",
};

const OF_EDIT: Parameter = Parameter {
    id: "REGISTER",
    kind: ParameterKind::NamedWord("REGISTER|KEY=TEXT"),
    help: "The register of the macro in the file LIB; behind NAME the texts that the macro takes",
};
