//! What is known of the numeric argument behind an element.
ghost use Rattle.std.specs.Prelude.{◌≡◌, ◌<◌, ◌≤◌, length, None, Some};
ghost use Rattle.teco_changes.specs.Arguments as model;
ghost use Rattle.teco_model.specs.Element as definition;
ghost use Rattle.teco_verifier.specs.expansion.Node.{Node, numbered};

use crate::number::run_value;
use teco_changes::NumericArgument;
use teco_expansion::Nodes;
use teco_model::Element;
use teco_model::kind::{Argument, Flow, Kind, Query};

// Behind digits.
fn behind_digits(number: i32, before: NumericArgument) -> NumericArgument
    ensures { result ≡ model.behind_digits number before }
{
    match before {
        NumericArgument::Unknown | NumericArgument::Number => NumericArgument::Value,
        NumericArgument::Unreached
        | NumericArgument::Complete
        | NumericArgument::Value
        | NumericArgument::Exactly(_) => NumericArgument::Exactly(number),
    }
}

// Behind an element that changes arguments alone.
fn behind_argument(argument: Argument, digits: &[u8], before: NumericArgument) -> NumericArgument
    ensures { result ≡ model.behind_argument argument digits.now before }
{
    match argument {
        Argument::Digits => behind_digits(run_value(digits), before),
        Argument::Operate(_) => NumericArgument::Number,
        Argument::Close => NumericArgument::Value,
        Argument::Open | Argument::Comma | Argument::DropAll => NumericArgument::Complete,
    }
}

// Behind Q, ^X and \.
fn behind_query(query: Query) -> NumericArgument
    ensures { result ≡ model.behind_query query }
{
    match query {
        Query::Number(_) => NumericArgument::Value,
        Query::Mode | Query::Conversion => NumericArgument::Complete,
    }
}

// Behind a flow element.
fn behind_flow(flow: Flow, before: NumericArgument) -> NumericArgument
    ensures { result ≡ model.behind_flow flow before }
{
    match flow {
        Flow::Otherwise | Flow::EndTest | Flow::Comment | Flow::GoAhead(_) => before,
        Flow::Iterate | Flow::EndTurn | Flow::Leave | Flow::Test(_) | Flow::GoTo => {
            NumericArgument::Complete
        }
    }
}

// Behind an element of a kind.
fn behind_kind(kind: Kind, text: &[u8], before: NumericArgument) -> NumericArgument
    ensures { result ≡ model.behind_kind kind text.now before }
{
    match kind {
        Kind::Argument(argument) => behind_argument(argument, text, before),
        Kind::Value(_) => NumericArgument::Value,
        Kind::Query(query) => behind_query(query),
        Kind::Stack(_) | Kind::Call(_) => before,
        Kind::Flow(flow) => behind_flow(flow, before),
        Kind::Command(_) | Kind::Page(_) | Kind::Search(_) | Kind::File(_) => {
            NumericArgument::Complete
        }
    }
}

// Behind an element.
fn behind_element(element: &Element<'_>, before: NumericArgument) -> NumericArgument
    ensures { result ≡ model.behind (Some (definition.seen element.now)) before }
{
    match before {
        NumericArgument::Unreached => NumericArgument::Unreached,
        NumericArgument::Unknown
        | NumericArgument::Complete
        | NumericArgument::Number
        | NumericArgument::Value
        | NumericArgument::Exactly(_) => behind_kind(element.kind, element.text, before),
    }
}

// Behind the end of a text.
fn behind_text(before: NumericArgument) -> NumericArgument
    ensures { result ≡ model.behind None before }
{
    match before {
        NumericArgument::Unreached
        | NumericArgument::Unknown
        | NumericArgument::Complete
        | NumericArgument::Number
        | NumericArgument::Value
        | NumericArgument::Exactly(_) => before,
    }
}

/// Behind what is read at a node.
pub(crate) fn behind_node(
    nodes: &Nodes<'_>,
    number: usize,
    before: NumericArgument,
) -> NumericArgument
    requires one { 0 < number }
    requires last { number ≤ length nodes.now }
    ensures { (node : Node) → numbered nodes.now number ≡ Some node → result ≡ model.behind node.element before }
{
    match nodes.element(number) {
        Some(element) => behind_element(&element, before),
        None => behind_text(before),
    }
}
