//! What the refusals of the verifier mean.
ghost use Rattle.std.specs.Prelude.{◌≡◌};
ghost use Rattle.teco_explain.specs.Numbers as numbers;

use crate::note::Explanation;
use teco_verifier::RefusalReason;

/// All reasons, in the order of their numbers.
pub const REFUSALS: [RefusalReason; 18] = [
    RefusalReason::Library,
    RefusalReason::Fault,
    RefusalReason::Partner,
    RefusalReason::Argument,
    RefusalReason::Pending,
    RefusalReason::Place,
    RefusalReason::Deletion,
    RefusalReason::Divisor,
    RefusalReason::Fall,
    RefusalReason::Bound,
    RefusalReason::Missing,
    RefusalReason::Recursion,
    RefusalReason::Written,
    RefusalReason::Pop,
    RefusalReason::Unverified,
    RefusalReason::Size,
    RefusalReason::Overflow,
    RefusalReason::Certificate,
];

/// The number of a reason, from 1 to 18, as it is printed behind an X.
pub fn number_of(refusal: RefusalReason) -> u8
    ensures { result ≡ numbers.number_of refusal }
{
    match refusal {
        RefusalReason::Library => 1,
        RefusalReason::Fault => 2,
        RefusalReason::Partner => 3,
        RefusalReason::Argument => 4,
        RefusalReason::Pending => 5,
        RefusalReason::Place => 6,
        RefusalReason::Deletion => 7,
        RefusalReason::Divisor => 8,
        RefusalReason::Fall => 9,
        RefusalReason::Bound => 10,
        RefusalReason::Missing => 11,
        RefusalReason::Recursion => 12,
        RefusalReason::Written => 13,
        RefusalReason::Pop => 14,
        RefusalReason::Unverified => 15,
        RefusalReason::Size => 16,
        RefusalReason::Overflow => 17,
        RefusalReason::Certificate => 18,
    }
}

/// The reason of a name: X or x, and its number.
pub fn refusal_numbered(name: &str) -> Option<RefusalReason> {
    let digits = match name.as_bytes() {
        [b'X' | b'x', ..] => name.get(1..)?,
        _ => return None,
    };
    let number: usize = digits.parse().ok()?;
    REFUSALS.get(number.checked_sub(1)?).copied()
}

/// What a reason means.
pub fn note_of_refusal(refusal: RefusalReason) -> Explanation {
    match refusal {
        RefusalReason::Library => LIBRARY,
        RefusalReason::Fault => FAULT,
        RefusalReason::Partner => PARTNER,
        RefusalReason::Argument => ARGUMENT,
        RefusalReason::Pending => PENDING,
        RefusalReason::Place => PLACE,
        RefusalReason::Deletion => DELETION,
        RefusalReason::Divisor => DIVISOR,
        RefusalReason::Fall => FALL,
        RefusalReason::Bound => BOUND,
        RefusalReason::Missing => MISSING,
        RefusalReason::Recursion => RECURSION,
        RefusalReason::Written => WRITTEN,
        RefusalReason::Pop => POP,
        RefusalReason::Unverified => UNVERIFIED,
        RefusalReason::Size => SIZE,
        RefusalReason::Overflow => OVERFLOW,
        RefusalReason::Certificate => CERTIFICATE,
    }
}

// Reasons of how a library is written.
const LIBRARY: Explanation = Explanation {
    summary: "this is no macro library",
    meaning: "A library holds comments and ^U commands alone, each for another register: \
        @^UA~..~ gives A its text. Something else stands here, a text isn't closed, or a \
        register is given a text twice.",
    example: "5C",
    remedy: "Put the macro into a register, close each text by the character that opened \
        it, and write ESC as the byte 27 or name the file .tes and write $.",
};

const FAULT: Explanation = Explanation {
    summary: "this is no command, or a search text that can't be read",
    meaning: "A run that came here would stop with a code.",
    example: "@^UA~?~",
    remedy: "See what the code says, and mend the command.",
};

const PARTNER: Explanation = Explanation {
    summary: "the partner of a bracket or a jump is missing",
    meaning: "A <, a \" or a | isn't closed, a ; or a > stands outside an iteration, a \
        tag isn't there, or an iteration and a conditional overlap. Each pair must stand \
        in one text, one inside the other.",
    example: "@^UA~2<J~",
    remedy: "Close what is open, innermost first.",
};

// Reasons of arguments.
const ARGUMENT: Explanation = Explanation {
    summary: "an argument may be missing, or one that isn't allowed",
    meaning: "On some text a run would stop here with ARG, NAC, NCA or IIA.",
    example: "@^UA~=~",
    remedy: "Give the command its number, or drop what is left over with ESC. A count \
        that may be 0 or negative isn't allowed for a search.",
};

const PENDING: Explanation = Explanation {
    summary: "a number is pending where two ways meet",
    meaning: "Behind ' and >, and at <, no number may be left over: % answers a value, and so do :C and :S.",
    example: "@^UA~.-Z\"L2'~",
    remedy: "Write ESC behind the command whose answer isn't used, as in %A$.",
};

const DIVISOR: Explanation = Explanation {
    summary: "a divisor may be 0",
    meaning: "On some text a run would stop here with DIV.",
    example: "@^UA~1/0=~",
    remedy: "Divide by a number that can't be 0, or test it first and divide by a number of its own.",
};

// Reasons of places in the buffer.
const PLACE: Explanation = Explanation {
    summary: "a place may be outside the buffer",
    meaning: "On some text a run would stop here with POP. What is known of the room \
        before and behind the pointer comes from J, from tests of . and Z, from \
        insertions and from what searches found.",
    example: "@^UA~5C~",
    remedy: "Test before you move, as in .-Z;C or .\"GR', write :C, or go back to a place \
        that .UQ kept with QQJ.",
};

const DELETION: Explanation = Explanation {
    summary: "a deletion may reach beyond the text",
    meaning: "On some text a run would stop here with DTB.",
    example: "@^UA~5D~",
    remedy: "Test before you delete, as in .-Z\"LD' or .\"G-D', delete what a search \
        found by its length, or delete lines with K.",
};

// Reasons of bounds.
const FALL: Explanation = Explanation {
    summary: "nothing is known to shrink from turn to turn",
    meaning: "In each turn of an iteration without a count something must fall, such as what is \
        ahead: by a search, or by C, D, L or K where a test such as .-Z; has shown that text is \
        left. The first edition of the rules does not count L, K and P.",
    example: "@^UA~<Ix$>~",
    remedy: "Give the iteration a count that is surely enough, as in Z<..>, or move by \
        what a search found and don't go back before it.",
};

const BOUND: Explanation = Explanation {
    summary: "no bound was found",
    meaning: "What is held grows from turn to turn by an amount that itself grows.",
    example: "@^UA~3<HXBGB>~",
    remedy: "Keep what is inserted in a turn at a fixed length and go on behind it, or empty the register \
        that grows.",
};

const OVERFLOW: Explanation = Explanation {
    summary: "a bound has too large a number in it",
    meaning: "A number of the bound passes 64 bits, or its degree passes 8.",
    example: "@^UA~2147483647<2147483647<2147483647<>>>~",
    remedy: "Use smaller counts, or fewer iterations in one another.",
};

// Reasons of calls and sizes.
const MISSING: Explanation = Explanation {
    summary: "the library has no such macro",
    meaning: "Only macros that the library itself holds can be verified.",
    example: "@^UA~MB~",
    remedy: "Add the macro to the library, or name another register.",
};

const RECURSION: Explanation = Explanation {
    summary: "a macro calls itself",
    meaning: "A macro that calls itself, on whatever way, isn't verified.",
    example: "@^UA~MA~",
    remedy: "Write an iteration in its place.",
};

const SIZE: Explanation = Explanation {
    summary: "the macro is too large",
    meaning: "With all that it calls it has over 4,096 elements, or more than 6 \
        iterations or calls are open at once.",
    example: "@^UA~1<1<1<1<1<1<1<>>>>>>>~",
    remedy: "Split it into macros that are verified and run one after another.",
};

// Reasons of registers.
const WRITTEN: Explanation = Explanation {
    summary: "a macro of the library would be overwritten",
    meaning: "The registers of the library keep their texts while it runs.",
    example: "@^UA~[A]A~",
    remedy: "Use a register that the library doesn't name.",
};

const POP: Explanation = Explanation {
    summary: "a pop finds nothing that the macro pushed",
    meaning: "]q takes back what [q pushed in the same macro and the same turn, as often on each way.",
    example: "@^UA~]B~",
    remedy: "Push and pop in pairs, within the same < and > and within the same \" and '.",
};

// Other reasons.
const UNVERIFIED: Explanation = Explanation {
    summary: "this command isn't verified",
    meaning: "Not verified are the E commands, Y, ^Y, backward searches, searches with an \
        empty text or with ^EQ, and outside an iteration searches that nothing asks about.",
    example: "@^UA~Y~",
    remedy: "Leave files to apply, which opens and closes them; search forward; write \
        :S.., or put ; behind a search in an iteration.",
};

const CERTIFICATE: Explanation = Explanation {
    summary: "this is not the certificate of the macro",
    meaning: "A certificate holds for one macro of one library, and each byte of it \
        counts, line ends included.",
    example: "",
    remedy: "Make it anew: teco verify LIB q > CERT.",
};
