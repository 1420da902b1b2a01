//! What may come of an element, whatever it is.
ghost use Rattle.std.specs.Prelude.{◌≡◌, IfOk, if◌then◌else◌};
ghost use Rattle.teco_model.specs.Element as model;
ghost use Rattle.teco_model.specs.Element.{seen};
ghost use Rattle.teco_model.specs.declared.kind.Kind.TheVariants as kinds;
ghost use Rattle.teco_model.specs.Motion.{motion};
ghost use Rattle.teco_model.specs.Storage.{storage};
ghost use Rattle.teco_model.specs.declared.kind.Storage.TheVariants.{Get};
ghost use Rattle.teco_model.specs.Step.{after_command};
ghost use Rattle.teco_rows.specs.Commands.{Performs};
ghost use Rattle.teco_rows.specs.Foretold.{Foretells};
ghost use Rattle.teco_flow_outcomes.specs.Law.{Law};

use std::alloc::Global;
use teco_base::Reg;
use teco_command_outcomes::deletions::delete;
use teco_command_outcomes::line_motions::move_lines;
use teco_command_outcomes::storages::{add_number, set_number};
use teco_command_outcomes::texts::{copy, set_text};
use teco_command_outcomes::typings::{type_register, type_text};
use teco_flow_outcomes::arguments::change_arguments;
use teco_flow_outcomes::flow::turn;
use teco_model::kind::{Command, Motion, Search, Storage};
use teco_model::{Element, Kind};
use teco_motion_outcomes::insertions::{get, insert};
use teco_motion_outcomes::motions::move_to;
use teco_query_outcomes::characters::turn_page;
use teco_query_outcomes::pushes::stack;
use teco_query_outcomes::queries::ask;
use teco_query_outcomes::values::give_value;
use teco_rows::case::Case;
use teco_rows::commands::{TakenForms, take_arguments};
use teco_rows::fault::RowFault;
use teco_rows::outcomes::Outcomes;
use teco_search_outcomes::searches::search;

// Whether there is a colon. These elements have one at most.
fn has_colon(colons: u8) -> Result<bool, RowFault>
    ensures { IfOk result (λ colon. colons ≡ (if colon then 1 else 0)) }
{
    match colons {
        0 => Ok(false),
        1 => Ok(true),
        _ => Err(RowFault::Argument),
    }
}

// What comes of a motion with the arguments that it takes.
fn move_by(
    case: &Case,
    kind: Motion,
    has_colon: bool,
    taken: TakenForms,
    alloc: Global,
) -> Result<Outcomes, RowFault>
    ensures { IfOk result (λ all. (e : model.Element) → e.colons ≡ (if has_colon then 1 else 0)
        → Performs (motion kind e) taken case.now all) }
{
    match kind {
        Motion::Lines => move_lines(case, taken, alloc),
        _ => move_to(case, kind, has_colon, taken, alloc),
    }
}

// What comes of a command on the number of a register.
fn store_number(
    case: &Case,
    kind: Storage,
    taken: TakenForms,
    may_wrap: bool,
    alloc: Global,
) -> Result<Outcomes, RowFault>
    ensures { IfOk result (λ all. (e : model.Element) → Performs (storage kind e) taken case.now all) }
{
    match kind {
        Storage::SetNumber(register) => set_number(case, register, taken, alloc),
        Storage::Add(register) => add_number(case, register, taken, may_wrap, alloc),
        _ => Err(RowFault::NotTold),
    }
}

// What comes of `G` and `:G`.
fn retrieve(
    case: &Case,
    register: Reg,
    colons: u8,
    taken: TakenForms,
    alloc: Global,
) -> Result<Outcomes, RowFault>
    ensures { IfOk result (λ all. (e : model.Element) → e.colons ≡ colons
        → Performs (storage (Get register) e) taken case.now all) }
{
    if colons == 0 {
        get(case, register, colons, taken, alloc)
    } else {
        type_register(case, register, colons, taken, alloc)
    }
}

// What comes of a command on its text.
fn store_text(
    case: &Case,
    kind: Storage,
    element: &Element,
    taken: TakenForms,
    alloc: Global,
) -> Result<Outcomes, RowFault>
    ensures { IfOk result (λ all. Performs (storage kind (seen element.now)) taken case.now all) }
{
    match kind {
        Storage::Get(register) => retrieve(case, register, element.colons, taken, alloc),
        Storage::Copy(register) => copy(case, register, element.colons, taken, alloc),
        Storage::SetText(register) => set_text(case, register, element, taken, alloc),
        _ => Err(RowFault::NotTold),
    }
}

// What comes of a command, which takes its arguments.
fn perform(
    case: &Case,
    command: Command,
    element: &Element,
    may_wrap: bool,
    alloc: Global,
) -> Result<Outcomes, RowFault>
    ensures { IfOk result (λ all.
        Foretells (λ s. after_command command (seen element.now) s.kept s.arguments) case.now all) }
{
    let taken = take_arguments(case, alloc)?;
    match command {
        Command::Motion(motion) => {
            let colon = has_colon(element.colons)?;
            move_by(case, motion, colon, taken, alloc)
        }
        Command::Deletion(unit) => delete(case, unit, taken, alloc),
        Command::Insertion(insertion) => insert(case, insertion, element.text, taken, alloc),
        Command::Storage(storage) => match storage {
            Storage::SetNumber(_) | Storage::Add(_) => {
                store_number(case, storage, taken, may_wrap, alloc)
            }
            _ => store_text(case, storage, element, taken, alloc),
        },
        Command::Typing(typing) => type_text(case, typing, element, taken, alloc),
    }
}

// What comes of a search that has a colon. Whether one without it answers lies at what is behind
// it: `search` tells of both.
fn search_with_colon(
    case: &Case,
    kind: Search,
    element: &Element,
    alloc: Global,
) -> Result<Outcomes, RowFault>
    ensures { IfOk result (λ all. element.now.kind ≡ kinds.Search kind → Law (seen element.now) case.now all) }
{
    if element.colons == 0 {
        return Err(RowFault::NotTold);
    }
    search(case, kind, element, true, alloc)
}

/// What may come of an element. A sum is taken to fit 32 bits, unless it `may_wrap`.
pub fn outcomes_of(
    case: &Case,
    element: &Element,
    may_wrap: bool,
    alloc: Global,
) -> Result<Outcomes, RowFault>
    ensures { IfOk result (λ all. Law (seen element.now) case.now all) }
{
    match element.kind {
        Kind::Argument(argument) => {
            change_arguments(case, argument, element.text, may_wrap, alloc)
        }
        Kind::Value(value) => give_value(case, value, may_wrap, alloc),
        Kind::Query(query) => ask(case, query, element.colons, may_wrap, alloc),
        Kind::Stack(kind) => stack(case, kind, alloc),
        Kind::Flow(flow) => turn(case, flow, element.colons, alloc),
        Kind::Command(command) => perform(case, command, element, may_wrap, alloc),
        Kind::Search(kind) => search_with_colon(case, kind, element, alloc),
        Kind::Page(page) => turn_page(case, page, alloc),
        _ => Err(RowFault::NotTold),
    }
}
