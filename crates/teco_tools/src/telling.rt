//! What is said of stops: the code, where it was met, and what it means.
ghost use Rattle.std.specs.Prelude.{◌≡◌};
ghost use Rattle.teco_tools.specs.Codes.{code_at};

use std::fmt;
use std::io::Write;
use teco_base::{Code, Reg};
use teco_console::{Voice, element_at, letters};
use teco_explain::note_of_code;
use teco_model::HostFault;
use teco_run::{Machine, Stop, Stopped};
use teco_source::{LineAndByte, Shown};
use teco_text::TextStore;

/// The code that is typed for a stop.
pub fn code_of(stop: Stop) -> Option<Code>
    ensures { result ≡ code_at stop }
{
    match stop {
        Stop::Ended { .. } | Stop::Exit { .. } => None,
        Stop::Error(code) => Some(code),
        Stop::Limit => Some(Code::Lim),
        Stop::Memory => Some(Code::Mem),
        Stop::HostFault(HostFault::NoFile) => Some(Code::Fnf),
        Stop::HostFault(HostFault::In) => Some(Code::Inp),
        Stop::HostFault(HostFault::Out) => Some(Code::Out),
    }
}

/// The pointer, and the length of the buffer.
pub fn size_of<T: TextStore>(machine: &Machine<T>) -> (usize, usize) {
    let (first, second) = machine.text();
    (machine.dot(), first.len().saturating_add(second.len()))
}

/// What a run met where it stopped: the element, what is edited, and the code.
#[derive(Clone, Copy)]
pub struct Scene<'a> {
    element: &'a [u8],
    pointer: usize,
    length: usize,
    code: Code,
}

impl<'a> Scene<'a> {
    /// What a run met at a place of a text.
    pub fn of<T: TextStore>(
        text: &'a [u8],
        place: usize,
        machine: &Machine<T>,
        code: Code,
    ) -> Scene<'a> {
        let (pointer, length) = size_of(machine);
        Scene {
            element: element_at(text, place),
            pointer,
            length,
            code,
        }
    }

    /// The letters of the code.
    pub fn letters(self) -> &'static str {
        letters(self.code)
    }
}

impl fmt::Display for Scene<'_> {
    fn fmt<W: fmt::Write>(&self, f: &mut fmt::Formatter<W>) -> fmt::Result {
        let element = Shown(self.element);
        let pointer = self.pointer;
        let length = self.length;
        let summary = note_of_code(self.code).summary;
        write!(
            f,
            "{element} (pointer {pointer}, length {length}): {summary}"
        )
    }
}

/// Says where in a macro a run stopped, on the file of a name if one is given.
pub fn tell_macro<T: TextStore, E: Write + Drop>(
    voice: &mut Voice<E>,
    file: Option<&[u8]>,
    stopped: &Stopped,
    machine: &Machine<T>,
    code: Code,
) {
    let Some(register) = stopped.site.register else {
        return;
    };
    let place = stopped.site.place;
    let text = machine.regs().text(register);
    let scene = Scene::of(text, place, machine, code);
    let name = scene.letters();
    let LineAndByte { line, column } = LineAndByte::of(text, place);
    let register = char::from(register.name());
    match file {
        None => voice.say(format_args!("?{name} at {line}:{column} in macro {register}: {scene}")),
        Some(file) => {
            let file = Shown(file);
            voice.complain(format_args!(
                "{file}: ?{name} at {line}:{column} in macro {register}: {scene}"
            ));
        }
    }
}
