//! What is known of the characters at the pointer and before it behind an element.
ghost use Rattle.std.specs.Prelude.{◌≡◌};
ghost use Rattle.teco_changes.specs.Characters as model;
ghost use Rattle.teco_changes.specs.Nearby as nearby;
ghost use Rattle.teco_model.specs.Element as definition;

use crate::near::no_characters;
use teco_changes::{Characters, NumericArgument, Pending, Range, Side, Sign};
use teco_model::Element;
use teco_model::kind::{Command, Flow, Kind, Page, Query, Storage, Test};

// What a test tells of a number, on one of its ways.
fn sign_by(test: Test, way: usize) -> Option<Sign>
    ensures { result ≡ model.sign_by test way }
{
    match (test, way) {
        (Test::Zero, 0) => Some(Sign::Equal),
        (Test::Negative, 0) => Some(Sign::Below),
        (Test::Positive, 0) => Some(Sign::Above),
        (Test::Zero, _) | (Test::NotZero, 0) => None,
        (Test::NotZero, _) => Some(Sign::Equal),
        (Test::Negative, _) => Some(Sign::NotBelow),
        (Test::Positive, _) => Some(Sign::NotAbove),
        _ => None,
    }
}

// What ; tells, on one of its ways.
fn sign_leaving(colons: u8, way: usize) -> Sign
    ensures { result ≡ model.sign_leaving colons way }
{
    if (colons == 0) == (way == 0) {
        Sign::Below
    } else {
        Sign::NotBelow
    }
}

// The characters from one to another.
fn between(first: u8, last: u8) -> Range
    ensures { result ≡ model.between first last }
{
    Range { first, last }
}

// The characters that less a character are so.
fn range_by(sign: Sign, character: u8) -> Range
    ensures { result ≡ model.range_by sign character }
{
    match sign {
        Sign::Equal => between(character, character),
        Sign::Below => between(0, character.saturating_sub(1)),
        Sign::NotBelow => between(character, u8::MAX),
        Sign::Above => between(character.saturating_add(1), u8::MAX),
        Sign::NotAbove => between(0, character),
    }
}

// A number as a character, if it is one.
fn character_of(number: i32) -> Option<u8>
    ensures { result ≡ model.character_of number }
{
    u8::try_from(number).ok()
}

// The characters that less a number are so.
fn range_less(sign: Sign, number: i32) -> Option<Range>
    ensures { result ≡ model.range_less sign number }
{
    match character_of(number) {
        Some(character) => Some(range_by(sign, character)),
        None => None,
    }
}

// The same where a sign may be told.
fn range_less_by(sign: Option<Sign>, number: i32) -> Option<Range>
    ensures { result ≡ model.range_less_by sign number }
{
    match sign {
        Some(sign) => range_less(sign, number),
        None => None,
    }
}

// A range that has the characters of a class.
fn class_range(test: Test, way: usize) -> Option<Range>
    ensures { result ≡ model.class_range test way }
{
    if way > 0 {
        return None;
    }
    match test {
        Test::Letter => Some(between(65, 122)),
        Test::Symbol => Some(between(36, 122)),
        Test::Digit => Some(between(48, 57)),
        Test::LetterOrDigit => Some(between(48, 122)),
        Test::Lower => Some(between(97, 122)),
        Test::Upper => Some(between(65, 90)),
        Test::Zero | Test::NotZero | Test::Negative | Test::Positive => None,
    }
}

// What a test tells of a character whose code is asked.
fn range_of_code(test: Test, way: usize) -> Option<Range>
    ensures { result ≡ model.range_of_code test way }
{
    match class_range(test, way) {
        Some(range) => Some(range),
        None => range_less_by(sign_by(test, way), 0),
    }
}

// What a flow element tells of the character whose code is pending.
fn range_asked(flow: Flow, colons: u8, way: usize, pending: Pending) -> Option<Range>
    ensures { result ≡ model.range_asked flow colons way pending }
{
    match (flow, pending) {
        (Flow::Test(test), Pending::Asked(_)) => range_of_code(test, way),
        (Flow::Test(test), Pending::AskedLess(_, number)) => {
            range_less_by(sign_by(test, way), number)
        }
        (Flow::Leave, Pending::Asked(_)) => range_less(sign_leaving(colons, way), 0),
        (Flow::Leave, Pending::AskedLess(_, number)) => {
            range_less(sign_leaving(colons, way), number)
        }
        _ => None,
    }
}

// The characters of both ranges.
fn range_met(known: Option<Range>, range: Range) -> Option<Range>
    ensures { result ≡ model.range_met known range }
{
    match known {
        Some(other) => Some(between(other.first.max(range.first), other.last.min(range.last))),
        None => Some(range),
    }
}

// What is known with a range of the character on a side.
fn with_range(side: Side, range: Range, characters: Characters) -> Characters
    ensures { result ≡ model.with_range side range characters }
{
    match side {
        Side::At => Characters {
            at: range_met(characters.at, range),
            before: characters.before,
        },
        Side::Before => Characters {
            at: characters.at,
            before: range_met(characters.before, range),
        },
    }
}

// What is known where a range is told of the character that is asked.
fn narrowed(pending: Pending, range: Option<Range>, characters: Characters) -> Characters
    ensures { result ≡ model.narrowed pending range characters }
{
    match (pending, range) {
        (Pending::Asked(side), Some(range)) => with_range(side, range, characters),
        (Pending::AskedLess(side, _), Some(range)) => with_range(side, range, characters),
        _ => characters,
    }
}

// Does a command leave the buffer and the pointer?
fn leaves_command(command: Command, colons: u8) -> bool
    ensures { result ≡ nearby.leaves_command command colons }
{
    match command {
        Command::Storage(Storage::Get(_)) => colons > 0,
        Command::Typing(_) | Command::Storage(_) => true,
        Command::Motion(_) | Command::Deletion(_) | Command::Insertion(_) => false,
    }
}

// Does an element?
fn leaves_buffer(kind: Kind, colons: u8, argument: NumericArgument) -> bool
    ensures { result ≡ nearby.leaves_buffer kind colons argument }
{
    match kind {
        Kind::Query(query) => !matches!(query, Query::Conversion),
        Kind::Command(command) => leaves_command(command, colons),
        Kind::Page(page) => matches!(
            (page, argument),
            (
                Page::Append,
                NumericArgument::Number | NumericArgument::Value | NumericArgument::Exactly(_)
            )
        ),
        Kind::Search(_) | Kind::File(_) => false,
        Kind::Argument(_) | Kind::Value(_) | Kind::Stack(_) | Kind::Call(_) | Kind::Flow(_) => true,
    }
}

// What is known where the buffer stays, or not.
fn kept_where(stays: bool, characters: Characters) -> Characters
    ensures { result ≡ nearby.kept_where stays characters }
{
    if stays { characters } else { no_characters() }
}

/// What is known of the characters behind an element.
pub(crate) fn characters_behind(
    element: &Element<'_>,
    way: usize,
    argument: NumericArgument,
    pending: Pending,
    characters: Characters,
) -> Characters
    ensures { result ≡ nearby.characters_behind (definition.seen element.now) element.now.kind way argument pending
        characters }
{
    match element.kind {
        Kind::Flow(flow) => {
            let range = range_asked(flow, element.colons, way, pending);
            narrowed(pending, range, characters)
        }
        kind => kept_where(leaves_buffer(kind, element.colons, argument), characters),
    }
}
