//! The names of registers.
ghost use Rattle.std.specs.Prelude.{◌≡◌, ◌<◌};
ghost use Rattle.teco_base.specs.Register.{register_of, register_name};
ghost use Rattle.teco_base.specs.declared.TheConstants.{REGISTERS};

use std::marker::Model;

/// A register: one of the 36 named `A` to `Z` and `0` to `9`.
#[derive(Clone, Copy)]
pub struct Reg {
    index: u8,
}

impl Model for Reg {
    ghost use Rattle.std.specs.Prelude.{ℕ, ◌<◌};
    ghost use Rattle.teco_base.specs.declared.TheConstants.{REGISTERS};

    ghost Value = { ℕ };

    ghost view = { λ r. r.index };

    ghost invariant = { λ r. r.index < REGISTERS };

    ghost inverse = { λ n. record { index = n } };
}

impl Default for Reg {
    ghost is_default = { λ r. r ≡ 0 };

    /// The first register, `A`.
    fn default() -> Reg {
        Reg { index: 0 }
    }
}

impl Reg {
    /// The register of this name, a letter in either case or a digit; `None` for another byte.
    pub fn of(name: u8) -> Option<Reg>
        ensures { result ≡ register_of name }
    {
        let index = match name {
            b'A'..=b'Z' => name - b'A',
            b'a'..=b'z' => name - b'a',
            b'0'..=b'9' => name - b'0' + 26,
            _ => return None,
        };
        Some(Reg { index })
    }

    /// Its place among the registers, 0 to 25 for `A` to `Z` and 26 to 35 for `0` to `9`.
    pub fn index(self) -> usize
        ensures value { result ≡ self }
        ensures within { result < REGISTERS }
    {
        usize::from(self.index)
    }

    /// Its name in upper case.
    pub fn name(self) -> u8
        ensures { result ≡ register_name self }
    {
        if self.index < 26 {
            b'A' + self.index
        } else {
            b'0' + (self.index - 26)
        }
    }
}
