//! What is known near the pointer behind an element.
ghost use Rattle.std.specs.Prelude.{◌≡◌, ◌<◌, ◌≤◌, ℕ, length, Bool, None, Some};
ghost use Rattle.teco_changes.specs.Nearby as model;
ghost use Rattle.teco_changes.specs.declared.argument.NumericArgument.{NumericArgument as Argued};
ghost use Rattle.teco_law_changes.specs.Runs.{colon_of};
ghost use Rattle.teco_model.specs.Element as definition;
ghost use Rattle.teco_told.specs.Seen.{found_seen, near_seen};
ghost use Rattle.teco_verifier.specs.expansion.Node.{Node, numbered};

use crate::characters::characters_behind;
use crate::near::{Found, Nearby};
use crate::number::run_value;
use teco_base::arithmetic;
use teco_changes::{NumericArgument, Pending, Side};
use teco_expansion::Nodes;
use teco_model::Element;
use teco_model::arguments::Operator;
use teco_model::kind::{
    Argument, Command, Flow, Kind, MachineValue, Page, Query, Search, Storage, Test,
};

// What is pending behind digits.
fn pending_digits(number: i32, before: Pending) -> Pending
    ensures { result ≡ model.pending_digits number before }
{
    match before {
        Pending::Empty => Pending::Number(number),
        Pending::Negative => Pending::Number(arithmetic::sub(0, number)),
        Pending::AskedMinus(side) => Pending::AskedLess(side, number),
        Pending::Anything
        | Pending::Number(_)
        | Pending::Length
        | Pending::Place
        | Pending::Asked(_)
        | Pending::AskedLess(_, _) => Pending::Anything,
    }
}

// Behind a minus.
fn pending_minus(before: Pending) -> Pending
    ensures { result ≡ model.pending_minus before }
{
    match before {
        Pending::Empty => Pending::Negative,
        Pending::Asked(side) => Pending::AskedMinus(side),
        Pending::Anything
        | Pending::Negative
        | Pending::Number(_)
        | Pending::Length
        | Pending::Place
        | Pending::AskedMinus(_)
        | Pending::AskedLess(_, _) => Pending::Anything,
    }
}

// Behind an element that changes arguments alone.
fn pending_argument(argument: Argument, digits: &[u8], before: Pending) -> Pending
    ensures { result ≡ model.pending_argument argument digits.now before }
{
    match argument {
        Argument::Digits => pending_digits(run_value(digits), before),
        Argument::Operate(Operator::Minus) => pending_minus(before),
        Argument::DropAll => Pending::Empty,
        Argument::Operate(_) | Argument::Open | Argument::Close | Argument::Comma => {
            Pending::Anything
        }
    }
}

// Behind a value of the machine.
fn pending_value(value: MachineValue, before: Pending) -> Pending
    ensures { result ≡ model.pending_value value before }
{
    match (value, before) {
        (MachineValue::LastLength, Pending::Empty) => Pending::Length,
        (MachineValue::LastText, Pending::Empty) => Pending::Place,
        _ => Pending::Anything,
    }
}

// Behind a flow element.
fn pending_flow(flow: Flow, before: Pending) -> Pending
    ensures { result ≡ model.pending_flow flow before }
{
    match flow {
        Flow::Otherwise | Flow::EndTest | Flow::Comment | Flow::GoAhead(_) => before,
        Flow::Iterate | Flow::EndTurn | Flow::Leave | Flow::Test(_) | Flow::GoTo => Pending::Empty,
    }
}

// Behind a search.
fn pending_search(search: Search, colon: bool) -> Pending
    ensures { result ≡ model.pending_search search colon }
{
    match (search, colon) {
        (Search::Find, false) => Pending::Empty,
        _ => Pending::Anything,
    }
}

// Behind a command.
fn pending_command(command: Command, colons: u8) -> Pending
    ensures { result ≡ model.pending_command command colons }
{
    match command {
        Command::Motion(_) if colons > 0 => Pending::Anything,
        Command::Storage(Storage::Add(_)) => Pending::Anything,
        Command::Motion(_)
        | Command::Storage(_)
        | Command::Deletion(_)
        | Command::Insertion(_)
        | Command::Typing(_) => Pending::Empty,
    }
}

// Behind a number and A.
fn pending_number(number: i32) -> Pending
    ensures { result ≡ model.pending_number number }
{
    match number {
        0 => Pending::Asked(Side::At),
        -1 => Pending::Asked(Side::Before),
        _ => Pending::Anything,
    }
}

// Behind a command of pages.
fn pending_page(page: Page, before: Pending) -> Pending
    ensures { result ≡ model.pending_page page before }
{
    match (page, before) {
        (Page::Append, Pending::Number(number)) => pending_number(number),
        (Page::Append, Pending::Negative) => Pending::Asked(Side::Before),
        _ => Pending::Anything,
    }
}

// Behind an element.
fn pending_behind(element: &Element<'_>, colon: bool, before: Pending) -> Pending
    ensures { result ≡ model.pending_behind (definition.seen element.now) element.now.kind colon before }
{
    match element.kind {
        Kind::Argument(argument) => pending_argument(argument, element.text, before),
        Kind::Value(value) => pending_value(value, before),
        Kind::Stack(_) | Kind::Call(_) => before,
        Kind::Flow(flow) => pending_flow(flow, before),
        Kind::Command(command) => pending_command(command, element.colons),
        Kind::Search(search) => pending_search(search, colon),
        Kind::Page(page) => pending_page(page, before),
        Kind::Query(_) | Kind::File(_) => Pending::Anything,
    }
}

// What is still found where the buffer stays.
fn still(found: Found<'_>) -> Found<'_>
    ensures { found_seen result ≡ model.still (found_seen found.entry) }
{
    match found {
        Found::Surely(wanted) => Found::Surely(wanted),
        Found::Nothing | Found::Perhaps(_) => Found::Nothing,
    }
}

// What is found where the value is known to be other than 0, or not.
fn settled_where(known: bool, found: Found<'_>) -> Found<'_>
    ensures { found_seen result ≡ model.settled_where known (found_seen found.entry) }
{
    match (known, found) {
        (true, Found::Perhaps(wanted)) => Found::Surely(wanted),
        _ => still(found),
    }
}

// Is the value of a test other than 0 on this way?
fn is_nonzero_by(test: Test, way: usize) -> bool
    ensures { result ≡ model.is_nonzero_by test way }
{
    match test {
        Test::Negative | Test::Positive | Test::NotZero => way == 0,
        Test::Zero => way > 0,
        Test::Letter
        | Test::Symbol
        | Test::Digit
        | Test::LetterOrDigit
        | Test::Lower
        | Test::Upper => false,
    }
}

// Is that of a leave?
fn is_nonzero_leaving(colons: u8, way: usize) -> bool
    ensures { result ≡ model.is_nonzero_leaving colons way }
{
    (colons == 0) == (way == 0)
}

// What is found behind a flow element.
fn found_flow(flow: Flow, colons: u8, way: usize, before: Found<'_>) -> Found<'_>
    ensures { found_seen result ≡ model.found_flow flow colons way (found_seen before.entry) }
{
    match flow {
        Flow::Otherwise | Flow::EndTest | Flow::Comment | Flow::GoAhead(_) => before,
        Flow::Test(test) => settled_where(is_nonzero_by(test, way), before),
        Flow::Leave => settled_where(is_nonzero_leaving(colons, way), before),
        Flow::Iterate | Flow::EndTurn | Flow::GoTo => still(before),
    }
}

// Behind a search for a text.
fn found_text(colon: bool, way: usize, text: &[u8]) -> Found<'_>
    ensures { found_seen result ≡ model.found_text colon way text.now }
{
    if way > 0 || text.is_empty() {
        Found::Nothing
    } else if colon {
        Found::Perhaps(text)
    } else {
        Found::Surely(text)
    }
}

// Behind a search.
fn found_search(search: Search, colon: bool, way: usize, text: &[u8]) -> Found<'_>
    ensures { found_seen result ≡ model.found_search search colon way text.now }
{
    match search {
        Search::Find | Search::FindInPages => found_text(colon, way, text),
        Search::Replace | Search::ReplaceInPages => Found::Nothing,
    }
}

// Behind a command.
fn found_command(command: Command, colons: u8, before: Found<'_>) -> Found<'_>
    ensures { found_seen result ≡ model.found_command command colons (found_seen before.entry) }
{
    match command {
        Command::Storage(Storage::Get(_)) if colons == 0 => Found::Nothing,
        Command::Typing(_) | Command::Storage(_) => still(before),
        Command::Motion(_) | Command::Deletion(_) | Command::Insertion(_) => Found::Nothing,
    }
}

// Behind a query.
fn found_query(query: Query, before: Found<'_>) -> Found<'_>
    ensures { found_seen result ≡ model.found_query query (found_seen before.entry) }
{
    match query {
        Query::Conversion => Found::Nothing,
        Query::Number(_) | Query::Mode => still(before),
    }
}

// Behind a command of pages.
fn found_page(page: Page, argument: NumericArgument, before: Found<'_>) -> Found<'_>
    ensures { found_seen result ≡ model.found_page page argument (found_seen before.entry) }
{
    match (page, argument) {
        (
            Page::Append,
            NumericArgument::Number | NumericArgument::Value | NumericArgument::Exactly(_),
        ) => still(before),
        _ => Found::Nothing,
    }
}

// Where an element is read: whether it counts as having a colon, the way, and what is known of its argument.
#[derive(Clone, Copy)]
struct Taken {
    colon: bool,
    way: usize,
    argument: NumericArgument,
}

// What is found behind an element.
fn found_behind<'l>(element: &Element<'l>, taken: Taken, before: Found<'l>) -> Found<'l>
    ensures { found_seen result ≡ model.found_behind (definition.seen element.now) element.now.kind taken.colon
        taken.way taken.argument (found_seen before.entry) }
{
    match element.kind {
        Kind::Argument(_) | Kind::Value(_) => still(before),
        Kind::Query(query) => found_query(query, before),
        Kind::Stack(_) | Kind::Call(_) => before,
        Kind::Flow(flow) => found_flow(flow, element.colons, taken.way, before),
        Kind::Command(command) => found_command(command, element.colons, before),
        Kind::Page(page) => found_page(page, taken.argument, before),
        Kind::Search(search) => found_search(search, taken.colon, taken.way, element.text),
        Kind::File(_) => Found::Nothing,
    }
}

// What is known behind an element.
fn near_element<'l>(element: &Element<'l>, taken: Taken, before: Nearby<'l>) -> Nearby<'l>
    ensures { near_seen result ≡ model.near_behind (Some (definition.seen element.now)) taken.colon taken.way
        taken.argument (near_seen before.entry) }
{
    match before {
        Nearby::Unreached => Nearby::Unreached,
        Nearby::Known(found, pending, characters) => Nearby::Known(
            found_behind(element, taken, found),
            pending_behind(element, taken.colon, pending),
            characters_behind(element, taken.way, taken.argument, pending, characters),
        ),
    }
}

// Behind the end of a text.
fn near_text(before: Nearby<'_>) -> Nearby<'_>
    ensures { (colon : Bool) (way : ℕ) (argument : Argued)
        → near_seen result ≡ model.near_behind None colon way argument (near_seen before.entry) }
{
    match before {
        Nearby::Unreached => Nearby::Unreached,
        Nearby::Known(found, pending, characters) => Nearby::Known(found, pending, characters),
    }
}

/// What is known behind what is read at a node, on one of its ways.
pub(crate) fn near_behind<'l>(
    nodes: &Nodes<'l>,
    number: usize,
    way: usize,
    argument: NumericArgument,
    before: Nearby<'l>,
) -> Nearby<'l>
    requires one { 0 < number }
    requires last { number ≤ length nodes.now }
    ensures { (node : Node) → numbered nodes.now number ≡ Some node
        → near_seen result ≡ model.near_behind node.element (colon_of node) way argument (near_seen before.entry) }
{
    let colon = nodes.colon(number);
    match nodes.element(number) {
        Some(element) => {
            let taken = Taken {
                colon,
                way,
                argument,
            };
            near_element(&element, taken, before)
        }
        None => near_text(before),
    }
}
