//! What is read of a library file.
ghost use Rattle.std.specs.Prelude.{◌≡◌, ◌<◌, length};
ghost use Rattle.teco_lex.specs.Ahead.{seen};
ghost use Rattle.teco_library.specs.Header.{HasNoOtherHeader};
ghost use Rattle.teco_library.specs.Library as model;
ghost use Rattle.teco_library.specs.Spans as spans;
ghost use Rattle.teco_library.specs.Spans.{Admits, EndsItsText, Finds};
ghost use Rattle.teco_model.specs.Ahead.{Whole, readings};
ghost use Rattle.teco_model.specs.Element.{seen as element_seen};

use crate::fault::LibraryFault;
use teco_base::{REGISTERS, Reg};
use teco_lex::{Element, Reading, Readings};
use teco_model::kind::{Argument, Command, Flow, Storage};
use teco_model::{Kind, Span};

/// May it stand in a library?
fn is_allowed(element: &Element) -> bool
    ensures { result ≡ model.is_allowed (Whole (element_seen element.now)) }
{
    let is_of_library = matches!(
        element.kind,
        Kind::Flow(Flow::Comment)
            | Kind::Argument(Argument::DropAll)
            | Kind::Command(Command::Storage(Storage::SetText(_)))
    );
    is_of_library && element.colons == 0
}

/// The register whose text an element sets.
fn register_set(kind: &Kind) -> Option<Reg>
    ensures { result ≡ model.register_set kind.now }
{
    match *kind {
        Kind::Command(Command::Storage(Storage::SetText(reg))) => Some(reg),
        _ => None,
    }
}

/// Where the text of a `^U` stands: before the byte that ends it.
fn span_of(element: &Element) -> Span
    requires { length element.now.text.now < element.now.next }
    ensures { result ≡ spans.span_of (element_seen element.now) }
{
    let end = element.next - 1;
    Span {
        start: end - element.text.len(),
        end,
    }
}

/// Keeps the span of what is read, if it sets a text. Says whether a library may have it behind all
/// that these are the spans of.
fn admit(spans: &mut [Option<Span>; REGISTERS], reading: &Reading) -> bool
    requires { EndsItsText (seen reading.now) }
    ensures { Admits (seen reading.now) spans.old spans.new result }
{
    let Reading::Whole(element) = reading else {
        return false;
    };
    if !is_allowed(element) {
        return false;
    }
    let Some(reg) = register_set(&element.kind) else {
        return true;
    };
    if spans[reg.index()].is_some() {
        return false;
    }
    spans[reg.index()] = Some(span_of(element));
    true
}

/// Where the texts that a library sets stand in its file, by the places of their registers.
pub fn spans_of(file: &[u8]) -> Result<[Option<Span>; REGISTERS], LibraryFault>
    requires { HasNoOtherHeader (readings file.now 0) }
    ensures { Finds file.now result }
{
    let mut spans = [None; REGISTERS];
    let mut ahead = Readings::from(file, 0);
    while let Some(reading) = ahead.next() {
        if !admit(&mut spans, &reading) {
            return Err(LibraryFault::NotALibrary {
                place: reading.place(),
            });
        }
    }
    Ok(spans)
}
