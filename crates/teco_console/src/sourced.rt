//! Libraries with their sources.
ghost use Rattle.std.specs.Prelude.{◌≡◌};
ghost use Rattle.teco_console.specs.Macros as macros;

use crate::method::Method;
use teco_base::Reg;
use teco_library::Library;
use teco_source::Source;

/// A library, with the source that says it, and how its macros are verified.
#[derive(Drop)]
pub struct Sourced {
    pub source: Source,
    pub library: Library,
    pub method: Method,
}

/// The registers in the order of their names: A to Z, and then 0 to 9.
pub const NAMES: &[u8; 36] = b"ABCDEFGHIJKLMNOPQRSTUVWXYZ0123456789";

/// The register of a name, if a library gives it a text.
pub fn macro_named(library: &Library, name: u8) -> Option<Reg>
    ensures { result ≡ macros.macro_named library.now.texts name }
{
    match Reg::of(name) {
        Some(register) if library.contains(register) => Some(register),
        _ => None,
    }
}
