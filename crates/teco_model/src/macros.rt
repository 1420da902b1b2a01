//! What a call of a macro may be given, and what it needs.
ghost use Rattle.std.specs.Prelude.{◌≡◌, Some, None, if◌then◌else◌};
ghost use Rattle.teco_model.specs.Macros.{IsArgumentRange, is_range};

use std::marker::Model;

const MOST: u32 = 2_147_483_647;

/// The arguments from a least to a greatest, which are in order and at most 2147483647.
#[derive(Clone, Copy)]
pub struct ArgumentRange {
    low: u32,
    high: u32,
}

impl Model for ArgumentRange {
    ghost use Rattle.teco_model.specs.Macros as rules;

    ghost Value = { rules.ArgumentRange };

    ghost view = { λ r. record { low = r.low; high = r.high } };

    ghost inverse = { λ r. record { low = r.low; high = r.high } };

    ghost invariant = { λ r. rules.IsArgumentRange (record { low = r.low; high = r.high }) };
}

impl ArgumentRange {
    /// The range between two numbers, if there is one.
    pub fn between(low: u32, high: u32) -> Option<ArgumentRange>
        ensures { result ≡ (if is_range (record { low = low; high = high }) then Some
            (record { low = low; high = high }) else None) }
    {
        if low <= high && high <= MOST {
            Some(ArgumentRange { low, high })
        } else {
            None
        }
    }

    /// The least argument.
    pub fn low(self) -> u32
        ensures value { result ≡ self.low }
        ensures range { IsArgumentRange self }
    {
        self.low
    }

    /// The greatest argument.
    pub fn high(self) -> u32
        ensures value { result ≡ self.high }
        ensures range { IsArgumentRange self }
    {
        self.high
    }
}

/// The files that must be open for a call.
#[derive(Clone, Copy, Debug, PartialEq, Eq)]
pub struct Needs {
    pub input: bool,
    pub output: bool,
}

impl Model for Needs {
    ghost use Rattle.teco_model.specs.Macros as macros;

    ghost Value = { macros.Needs };

    ghost view = { λ n. record { input = n.input; output = n.output } };

    ghost inverse = { λ n. record { input = n.input; output = n.output } };
}
