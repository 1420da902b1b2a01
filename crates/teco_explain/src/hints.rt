//! Hints for macros that are refused in the form that comes to mind first.
use crate::around::{Around, IterationBody, Role, SeenElement};
use crate::leaving::is_endless;
use crate::partners::is_closed_in_text;
use teco_verifier::RefusalReason;

/// What usually mends a refusal of this kind at a place of a text, where the text has one of the common
/// forms.
pub fn hint(why: RefusalReason, text: &[u8], place: usize) -> Option<&'static str> {
    match why {
        RefusalReason::Partner => is_closed_in_text(text, place).then_some(IN_TEXT),
        RefusalReason::Fall => is_endless(text, place).then_some(ENDLESS),
        RefusalReason::Unverified => of_unverified(&Around::of(text, place)),
        _ => None,
    }
}

/// What usually mends a refusal by a table of what is known before each element.
pub fn hint_by_table(why: RefusalReason, text: &[u8], place: usize) -> Option<&'static str> {
    let around = Around::of(text, place);
    match why {
        RefusalReason::Fall => around.body.and_then(of_fall),
        RefusalReason::Bound => around.body.and_then(of_bound),
        RefusalReason::Place => of_place(&around),
        RefusalReason::Deletion => of_deletion(&around),
        RefusalReason::Pending | RefusalReason::Argument => of_argument(&around),
        _ => None,
    }
}

// A bracket whose partner is in a text.
const IN_TEXT: &str =
    "What would close it is part of a command's text, which goes on to ESC, $ in the readable \
            form. Is an ESC missing? In a shell put macros in single quotes: within double ones it \
            takes out $ and the name behind it.";

// An iteration that nothing leaves.
const ENDLESS: &str =
    "Nothing leaves this iteration. Write ; behind its search, as in Sfoo$;, or begin it with a test, as \
            in <.-Z;..>, or give it a count, as in Z<..>.";

// An iteration without a count in which nothing is known to shrink. What goes back is named before
// what may not move on.
fn of_fall(body: IterationBody) -> Option<&'static str> {
    if body.counts_by_register {
        return Some(
            "An iteration in this one has a register's number as its count, which may be up to \
                2,147,483,647. Give it a fixed count and leave it by ; before, as in 80<..0;..>, \
                and then give this one a count too, as in Z<..>.",
        );
    }
    if body.turns_pages {
        return Some(PAGES);
    }
    if body.jumps {
        return Some(JUMPS);
    }
    if body.searches && body.goes_back {
        return Some(SEARCH_BACK);
    }
    if body.kills_range {
        return Some(
            "HK and m,nK may have nothing to delete. Test the room before, as in .-Z;HK, and \
                delete a character too where that is not enough, as in .-Z;DHK.",
        );
    }
    if body.appends {
        return Some(
            "A may have no page to append, and is not known to move on. Pass or delete a \
                character in each turn, as in .-Z;CA.",
        );
    }
    body.moves_lines.then_some(LINES)
}

// An iteration with P.
const PAGES: &str =
    "P is not known to move on. Edit with --pages each, which runs the macro on every page, or \
            go through the pages with N or FN.";

// An iteration with J.
const JUMPS: &str =
    "J goes back in each turn. Go on from where the last turn ended, or give a count that is \
            surely enough, as in Z<..>.";

// An iteration with a search, and with what goes back.
const SEARCH_BACK: &str =
    "The search moves on, but 0L or R goes back before what it found. Write 0K or 0T without \
            the 0L, as in Sfoo$;0KK, or give a count, as in JZ<..>.";

// An iteration with L or K.
const LINES: &str =
    "L and K are not known to move on, since they may stay at the end. Give a count that is \
            surely enough and test first, as in JZ<.-Z;..L>.";

// An iteration in which what is held grows faster and faster.
fn of_bound(body: IterationBody) -> Option<&'static str> {
    if body.copies && body.gets {
        return Some(
            "X and G of one register in one iteration can double the text in each turn. Insert at \
                most so many characters of it, as in 0UI80<QIQB\"L0;'QIQBI$%I$> for B, or a text of \
                a fixed length.",
        );
    }
    None
}

// A place that may be outside the buffer.
fn of_place(around: &Around) -> Option<&'static str> {
    if around.has_saved_range {
        return Some(
            "A place that a register keeps counts for QQJ alone, and not in a range. Go there \
                with QQJ and delete a line or a character a turn, behind .-Z; as the test.",
        );
    }
    match (around.before, around.here) {
        (Some(before), Some(here)) if before.role == Role::Saved && here.role == Role::Jump => Some(
            "A place that .UQ kept counts only if every way here comes by that .UQ and nothing \
                was deleted or replaced since. Else write QQ:J$, which goes there if it can.",
        ),
        _ => None,
    }
}

// A deletion that may be too long.
fn of_deletion(around: &Around) -> Option<&'static str> {
    if around.tests_character {
        return Some(
            "A test of a character says nothing about the room. Test the room too: .-Z; or \
                .-Z\"L..' before D, and .\"G..' before -D.",
        );
    }
    match around.before {
        Some(before) if before.role == Role::LastLength => Some(
            "What a search found is deleted by a number, as in -3D for a text of three \
                characters, or replaced by FSfoo$$.",
        ),
        _ => None,
    }
}

// An argument that is left over or not allowed.
fn of_argument(around: &Around) -> Option<&'static str> {
    around.answers_before.then_some(
        "%, :C, :J and :S answer a number. Write ESC behind one whose answer isn't used, as in %A$.",
    )
}

// An element that is not verified.
fn of_unverified(around: &Around) -> Option<&'static str> {
    let here = around.here?;
    match here.role {
        Role::File => Some(
            "Files are opened and closed by teco apply, which runs the macro in between.",
        ),
        Role::Search => of_search(here, around.body.is_some()),
        _ => None,
    }
}

// A search that is not verified.
fn of_search(search: SeenElement, is_inside: bool) -> Option<&'static str> {
    if search.has_register {
        Some(
            "^EQ in a search text isn't verified. Compare with a register's text a character at a \
                time: nQQ is its nth character.",
        )
    } else if search.is_empty {
        Some("A search with an empty text isn't verified: write the text once more.")
    } else if !search.answers && !is_inside {
        Some(
            "Outside an iteration a search that finds nothing stops the run. Write a colon before it \
                and ask for its answer, as in :Sfoo$\"S..', or let that be, as in :FSfoo$bar$$.",
        )
    } else {
        None
    }
}
