//! What an element does to what is known before it.
ghost use Rattle.std.specs.Prelude.{◌≡◌, ◌≤◌, [], Err, length};
ghost use Rattle.teco_base.specs.declared.TheConstants.{LIMIT};
ghost use Rattle.teco_verifier.specs.facts.Transfer as rules;
ghost use Rattle.teco_model.specs.declared.kind.Argument.TheVariants as argument;
ghost use Rattle.teco_model.specs.declared.kind.Flow.TheVariants as flow;
ghost use Rattle.teco_model.specs.declared.kind.Kind.TheVariants as kind;
ghost use Rattle.teco_verifier.specs.facts.Flows as flows;
ghost use Rattle.teco_verifier.specs.facts.Values as values;
ghost use Rattle.teco_facts.specs.Does.{Gives};
ghost use Rattle.teco_facts.specs.Room.{HasRoom};
ghost use Rattle.teco_facts.specs.Numbers.{AreSmall};
ghost use Rattle.teco_check.specs.Placed.{seen};

use crate::transfer::{Edges, deletion, flow, motion, pages, query, search, storage, typing};
use teco_base::LIMIT;
use teco_facts::{
    Answer, FactFault, Facts, Foreseen, LevelFacts, Margins, Number, Range, TakenFacts, run_value,
    stack,
};
use teco_model::kind::{Argument, Command, Flow, Kind, MachineValue, Page, Search, Stack};
use teco_model::{Element, Operator};
use teco_verifier::RefusalReason;

/// An element where it stands: whether the register that it names is one of the library's, whether
/// it stands in an iteration of its own text, whether a search counts as having a colon, and how
/// many iterations its skip leaves.
#[derive(Clone, Copy)]
pub struct Placed<'a> {
    pub element: Element<'a>,
    pub library: bool,
    pub inside: bool,
    pub colon: bool,
    pub leaves: usize,
}

// Minus the length of a text.
fn last_length() -> Number
    ensures { result ≡ values.value_in rules.last_length }
{
    let (lo, hi) = (-(LIMIT as i64), 0);
    Number::within(Range { lo, hi })
}

// The level with a value that the machine has.
fn level_with_value(
    value: MachineValue,
    level: LevelFacts,
    margins: Margins,
) -> Result<LevelFacts, RefusalReason>
    ensures { result ≡ rules.level_with_value value margins level }
{
    let given = match value {
        MachineValue::Begin => Number::single(0),
        MachineValue::Size => Number::size(),
        MachineValue::Pointer => Number::pointer(),
        MachineValue::LastLength => last_length(),
        MachineValue::Whole => {
            let parted = level.given(Number::single(0), margins)?.parted(margins)?;
            return parted.given(Number::size(), margins);
        }
        MachineValue::LastText => return Err(RefusalReason::Unverified),
    };
    level.given(given, margins)
}

// The facts behind a value that the machine has.
fn facts_after_value(value: MachineValue, facts: Facts) -> Result<Facts, RefusalReason>
    ensures { result ≡ rules.facts_after_value value facts }
{
    let level = level_with_value(value, facts.level(), facts.margins())?;
    Ok(facts.with_level(level))
}

// What a command does with the arguments that it took, if there is memory.
fn execution(
    command: Command,
    placed: &Placed<'_>,
    taken: TakenFacts,
    facts: Facts,
) -> Result<Foreseen, FactFault>
    requires { AreSmall facts.position.falls }
    ensures { Gives (rules.execution command (seen placed.now) taken facts) result }
{
    let Element { colons, text, .. } = placed.element;
    let known = match command {
        Command::Motion(kind) => motion::motion(kind, colons, taken, facts),
        Command::Deletion(unit) => deletion::deletion(unit, taken, facts),
        Command::Insertion(kind) => typing::insertion(kind, text, taken, facts),
        Command::Typing(kind) => typing::typing(kind, taken, facts),
        Command::Storage(kind) => {
            return storage::storage(kind, placed, taken, facts);
        }
    };
    Ok(known?)
}

// The facts behind digits, which give their value.
fn facts_after_digits(text: &[u8], facts: Facts) -> Result<Facts, RefusalReason>
    ensures { result ≡ rules.facts_after_argument argument.Digits text.now facts }
{
    let value = Number::single(run_value(text));
    let level = facts.level().given(value, facts.margins())?;
    Ok(facts.with_level(level))
}

// The facts behind an operator.
fn facts_operating(operator: Operator, facts: Facts) -> Result<Facts, RefusalReason>
    ensures { result ≡ rules.facts_after_argument (argument.Operate operator) [] facts }
{
    let level = facts.level().operating(operator)?;
    Ok(facts.with_level(level))
}

// The facts behind a comma.
fn facts_parted(facts: Facts) -> Result<Facts, RefusalReason>
    ensures { result ≡ rules.facts_after_argument argument.Comma [] facts }
{
    let level = facts.level().parted(facts.margins())?;
    Ok(facts.with_level(level))
}

// The facts behind an element that changes arguments alone.
fn facts_after_argument(argument: Argument, text: &[u8], facts: Facts) -> Result<Facts, FactFault>
    ensures { Gives (rules.facts_after_argument argument text.now facts) result }
{
    let known = match argument {
        Argument::DropAll => Ok(facts.without_arguments()),
        Argument::Digits => facts_after_digits(text, facts),
        Argument::Operate(operator) => facts_operating(operator, facts),
        Argument::Comma => facts_parted(facts),
        Argument::Close => return facts.closed(),
        Argument::Open => return Ok(facts.opened()?),
    };
    Ok(known?)
}

// Whether a search is verified where it stands.
fn search_allowed(inside: bool, colon: bool) -> Result<(), RefusalReason>
    ensures { result ≡ rules.search_allowed inside colon }
{
    if inside || colon {
        Ok(())
    } else {
        Err(RefusalReason::Unverified)
    }
}

// The edges behind a search, if there is memory. With a colon its answer tells its outcomes apart.
fn search_edges(kind: Search, placed: &Placed<'_>, facts: Facts) -> Result<Edges, FactFault>
    requires small { AreSmall facts.position.falls }
    requires within { length placed.now.element.text.now ≤ LIMIT }
    requires second_within { length placed.now.element.second.now ≤ LIMIT }
    ensures { Gives (rules.search_edges kind (seen placed.now) facts) result }
{
    let element = &placed.element;
    let taken = search::facts_at_search(kind, facts)?;
    search_allowed(placed.inside, placed.colon)?;
    let failed = search::position_failed(kind, element.colons, &taken);
    if placed.colon {
        let found = search::facts_found(kind, element.text, element.second, taken)?;
        return Ok(Edges::on(found.with_answer(failed)?));
    }
    let missed = taken.copied_at(failed)?;
    let found = search::facts_found(kind, element.text, element.second, taken)?;
    Ok(Edges {
        on: Some(found),
        away: Some(missed.leaving(1)),
    })
}

// The edges behind an element of flow, if there is memory.
fn flow_edges(
    kind: Flow,
    colons: u8,
    leaves: usize,
    answer: &Option<Answer>,
    facts: Facts,
) -> Result<Edges, FactFault>
    requires room { kind ≡ flow.Iterate → HasRoom facts }
    ensures { Gives (flows.flow_edges kind colons leaves answer.now facts) result }
{
    match kind {
        Flow::Iterate => flow::iterate(facts),
        Flow::EndTurn => flow::turn_end(facts),
        Flow::Leave => flow::leave(colons, answer, facts),
        Flow::Test(test) => flow::test(test, answer, facts),
        Flow::Otherwise | Flow::GoAhead(_) => Ok(Edges::away(facts)),
        Flow::EndTest | Flow::Comment => Ok(Edges::on(facts)),
        Flow::GoTo => Ok(flow::go_to(leaves, facts)?),
    }
}

// A search's answer, which only a test of it tells apart.
fn answer_for(kind: &Kind, facts: &mut Facts) -> Option<Answer>
    ensures value { result ≡ rules.answer_for kind.now facts.old }
    ensures left { facts.new ≡ rules.without_answer facts.old }
{
    let answer = facts.take_answer();
    match kind {
        Kind::Flow(Flow::Leave | Flow::Test(_)) => answer,
        _ => None,
    }
}

// The facts behind a command, which takes its arguments, if there is memory.
fn facts_after_command(
    command: Command,
    placed: &Placed<'_>,
    facts: Facts,
) -> Result<Facts, FactFault>
    requires { AreSmall facts.position.falls }
    ensures { Gives (rules.facts_after_command command (seen placed.now) facts) result }
{
    let taken = facts.level().taken()?;
    let known = execution(command, placed, taken, facts.taking())?;
    Ok(known.answered())
}

// The facts behind a command of pages, which takes its arguments.
fn facts_after_page(page: Page, facts: Facts) -> Result<Facts, RefusalReason>
    requires { AreSmall facts.position.falls }
    ensures { result ≡ rules.facts_after_page page facts }
{
    let taken = facts.level().taken()?;
    let known = pages::page(page, taken, facts.taking())?;
    Ok(known.answered())
}

// Why an element of files is refused: its arguments, or that it is not verified.
fn refusal_of_file(facts: &Facts) -> RefusalReason
    ensures { Err result ≡ rules.file_edges facts.now }
{
    match facts.level().taken() {
        Err(why) => why,
        Ok(_) => RefusalReason::Unverified,
    }
}

// The edges behind an element, with a search's answer, if that is told apart; if there is memory.
fn edges_of(placed: &Placed<'_>, answer: &Option<Answer>, facts: Facts) -> Result<Edges, FactFault>
    requires small { AreSmall facts.position.falls }
    requires room { placed.now.element.kind ≡ kind.Flow flow.Iterate → HasRoom facts }
    requires within { length placed.now.element.text.now ≤ LIMIT }
    requires second_within { length placed.now.element.second.now ≤ LIMIT }
    ensures { Gives (rules.edges_of placed.now.element.kind (seen placed.now) answer.now facts)
        result }
{
    let element = &placed.element;
    match element.kind {
        Kind::Argument(kind) => Ok(Edges::on(facts_after_argument(kind, element.text, facts)?)),
        Kind::Value(kind) => Ok(Edges::on(facts_after_value(kind, facts)?)),
        Kind::Query(kind) => {
            Ok(Edges::on(query::facts_after_query(kind, element.colons, facts)?))
        }
        Kind::Stack(Stack::Push(register)) => Ok(Edges::on(stack::push(register, facts)?)),
        Kind::Stack(Stack::Pop(register)) => {
            Ok(Edges::on(stack::pop(placed.library, register, facts)?))
        }
        Kind::Call(_) => Ok(Edges::on(facts)),
        Kind::Flow(kind) => flow_edges(kind, element.colons, placed.leaves, answer, facts),
        Kind::Command(kind) => Ok(Edges::on(facts_after_command(kind, placed, facts)?)),
        Kind::Page(kind) => Ok(Edges::on(facts_after_page(kind, facts)?)),
        Kind::Search(kind) => search_edges(kind, placed, facts),
        Kind::File(_) => Err(FactFault::Refused(refusal_of_file(&facts))),
    }
}

/// The edges behind an element, from what is known before it, which is taken, if there is memory.
#[tactic(auto, unfolding(teco_verifier::specs::facts::Transfer::transfer))]
pub fn transfer_from(placed: &Placed<'_>, mut facts: Facts) -> Result<Edges, FactFault>
    requires small { AreSmall facts.position.falls }
    requires room { placed.now.element.kind ≡ kind.Flow flow.Iterate → HasRoom facts }
    requires within { length placed.now.element.text.now ≤ LIMIT }
    requires second_within { length placed.now.element.second.now ≤ LIMIT }
    ensures { Gives (rules.transfer (seen placed.now) facts) result }
{
    let answer = answer_for(&placed.element.kind, &mut facts);
    edges_of(placed, &answer, facts)
}

/// The edge behind the end of a called text, which goes back and leaves the arguments.
pub fn return_from(mut facts: Facts) -> Edges
    ensures { result ≡ rules.transfer_return facts }
{
    let _answer = facts.take_answer();
    Edges::on(facts)
}
