//! How an element is written.
ghost use Rattle.std.specs.Prelude.{◌≡◌, ◌≤◌};
ghost use Rattle.teco_model.specs.Form as form;

use teco_base::Reg;
use teco_base::bytes::ESC;
use teco_model::kind::{
    Argument, Call, Command, File, Flow, Insertion, Motion, Query, Search, Stack, Storage, Typing,
};
use teco_model::{Head, Kind, OnRegister, TextShape};

/// The byte that ends the text of `^A`.
const CONTROL_A: u8 = 1;

/// How many colons may stand before a command?
fn colons_of_command(command: Command) -> usize
    ensures value { result ≡ form.colons_of_command command }
    ensures few { result ≤ 2 }
{
    match command {
        Command::Motion(Motion::Lines) => 0,
        Command::Motion(_) | Command::Typing(Typing::Number(_)) => 1,
        _ => 0,
    }
}

/// How many colons may stand before these letters?
pub fn colons_allowed(head: &Head) -> usize
    ensures value { result ≡ form.colons_allowed head.now }
    ensures few { result ≤ 2 }
{
    match *head {
        Head::Kind(Kind::Command(command)) => colons_of_command(command),
        Head::Kind(Kind::Search(Search::Find)) => 2,
        Head::Kind(Kind::Search(_) | Kind::Flow(Flow::Leave)) => 1,
        Head::Kind(_) => 0,
        Head::OnRegister(on) => match on {
            OnRegister::Number | OnRegister::Copy | OnRegister::SetText | OnRegister::Get => 1,
            _ => 0,
        },
    }
}

/// May `@` stand before a command?
fn at_of_command(command: Command) -> bool
    ensures { result ≡ form.at_of_command command }
{
    matches!(
        command,
        Command::Insertion(Insertion::Text) | Command::Typing(Typing::Message)
    )
}

/// May `@` stand before these letters?
pub fn at_allowed(head: &Head) -> bool
    ensures { result ≡ form.at_allowed head.now }
{
    match *head {
        Head::Kind(Kind::Command(command)) => at_of_command(command),
        Head::Kind(Kind::Search(_) | Kind::Flow(Flow::GoTo) | Kind::File(File::Read | File::Write))
        | Head::OnRegister(OnRegister::SetText) => true,
        _ => false,
    }
}

/// What an element is, with its register.
pub fn kind_on(on: OnRegister, reg: Reg) -> Kind
    ensures { result ≡ form.kind_on on reg }
{
    match on {
        OnRegister::SetNumber => Kind::Command(Command::Storage(Storage::SetNumber(reg))),
        OnRegister::Add => Kind::Command(Command::Storage(Storage::Add(reg))),
        OnRegister::Number => Kind::Query(Query::Number(reg)),
        OnRegister::Copy => Kind::Command(Command::Storage(Storage::Copy(reg))),
        OnRegister::SetText => Kind::Command(Command::Storage(Storage::SetText(reg))),
        OnRegister::Get => Kind::Command(Command::Storage(Storage::Get(reg))),
        OnRegister::Push => Kind::Stack(Stack::Push(reg)),
        OnRegister::Pop => Kind::Stack(Stack::Pop(reg)),
        OnRegister::Call => Kind::Call(Call { register: reg }),
    }
}

/// Which texts has a command?
fn texts_of_command(command: Command) -> TextShape
    ensures { result ≡ form.texts_of_command command }
{
    match command {
        Command::Typing(Typing::Message) => TextShape::EndedBy(CONTROL_A),
        Command::Insertion(_) | Command::Storage(Storage::SetText(_)) => TextShape::EndedBy(ESC),
        _ => TextShape::NoText,
    }
}

/// Which texts follow?
pub fn texts_of(kind: &Kind) -> TextShape
    ensures { result ≡ form.texts_of kind.now }
{
    match *kind {
        Kind::Argument(Argument::Digits) => TextShape::Itself,
        Kind::Command(command) => texts_of_command(command),
        Kind::Search(Search::Replace | Search::ReplaceInPages) => TextShape::Two,
        Kind::Search(_) | Kind::Flow(Flow::GoTo) | Kind::File(File::Read | File::Write) => {
            TextShape::EndedBy(ESC)
        }
        Kind::Flow(Flow::Comment) => TextShape::EndedBy(b'!'),
        _ => TextShape::NoText,
    }
}
