//! The registers that elements name.
ghost use Rattle.std.specs.Prelude.{◌≡◌, option_map};
ghost use Rattle.teco_model.specs.Element.{seen};
ghost use Rattle.teco_verifier.specs.expansion.Names as model;
ghost use Rattle.teco_expansion.specs.Texts.{library_of};

use crate::texts::Texts;
use teco_model::Element;
use teco_model::kind::{Command, Kind, Query, Stack, Storage};

// The place of the register that something on a register names.
fn named_by_storage(storage: Storage) -> usize
    ensures { result ≡ model.named_by_storage storage }
{
    let register = match storage {
        Storage::SetNumber(register)
        | Storage::Add(register)
        | Storage::Copy(register)
        | Storage::SetText(register)
        | Storage::Get(register) => register,
    };
    register.index()
}

// The place of the register that an element names.
fn named_by(kind: &Kind) -> Option<usize>
    ensures { result ≡ model.named_by kind.now }
{
    match *kind {
        Kind::Query(Query::Number(register)) => Some(register.index()),
        Kind::Stack(Stack::Push(register) | Stack::Pop(register)) => Some(register.index()),
        Kind::Call(call) => Some(call.register.index()),
        Kind::Command(Command::Storage(storage)) => Some(named_by_storage(storage)),
        _ => None,
    }
}

/// Whether the register that an element names is one of the library.
pub fn names_macro(texts: &Texts<'_>, read: &Option<Element<'_>>) -> bool
    ensures { result ≡ model.names_macro (library_of texts.now) (option_map seen read.now) }
{
    let Some(element) = read else {
        return false;
    };
    match named_by(&element.kind) {
        Some(register) => texts.contains(register),
        None => false,
    }
}
