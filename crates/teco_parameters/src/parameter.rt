//! A text that a macro takes, and the words of the command line that name it.
ghost use Rattle.std.specs.Prelude.{◌≡◌};
ghost use Rattle.std.specs.Str.{bytes_eq};
ghost use Rattle.teco_parameters.specs.Binding.{is_register, names, names_register};

use teco_base::Reg;

/// A text that a macro takes: it is in a register as the macro begins.
#[derive(Drop)]
pub struct Parameter {
    pub register: Reg,
    /// Its name: letters, digits and hyphens, two at least.
    pub name: Vec<u8>,
    /// The text that it has where none is given; without one a text must be given.
    pub default: Option<Vec<u8>>,
    /// Is it a search text, and not a text whose bytes stand for themselves?
    pub is_search: bool,
    /// What it is for, in words.
    pub meaning: Vec<u8>,
}

// Are both texts the same?
fn are_equal(a: &[u8], b: &[u8]) -> bool
    ensures { result ≡ bytes_eq a.now b.now }
{
    a == b
}

// Is it this register?
fn is_register(register: Reg, named: Option<Reg>) -> bool
    ensures { result ≡ is_register register named }
{
    match named {
        Some(named) => named.index() == register.index(),
        None => false,
    }
}

// Is a key the name of a register?
fn names_register(register: Reg, key: &[u8]) -> bool
    ensures { result ≡ names_register register key.now }
{
    match key {
        [letter] => is_register(register, Reg::of(*letter)),
        _ => false,
    }
}

impl Parameter {
    /// Is a key its name, or that of its register in either case?
    pub fn is_named_by(&self, key: &[u8]) -> bool
        ensures { result ≡ names self.now key.now }
    {
        are_equal(key, &self.name) || names_register(self.register, key)
    }
}
