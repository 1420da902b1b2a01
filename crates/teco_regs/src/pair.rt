//! The number and the text of a register.
ghost use Rattle.std.specs.Prelude.{◌≡◌, ◌+◌, ◌<◌, ◌^◌, ◌++◌, length, OnOk, OnErr, vec_len};
ghost use Rattle.teco_model.specs.Registers.{IsWithinLimit, empty_pair};
ghost use Rattle.teco_model.specs.laws.Whole.{IsWholePair};

use std::alloc::{AllocError, Global};
use std::marker::Model;
use teco_model::{are_bytes, fits};

// A number and a text.
#[derive(Drop)]
pub struct Pair {
    pub number: i32,
    pub text: Vec<u8>,
}

impl Model for Pair {
    ghost use Rattle.teco_model.specs.Registers.{Pair as Held};

    ghost Value = { Held };

    ghost view = { λ p. record { number = p.number; text = p.text.items } };
}

impl Pair {
    // The pair of a register of a new machine. It takes no memory; its text's memory will come from
    // `alloc`.
    pub fn new(alloc: Global) -> Pair
        ensures { result ≡ empty_pair }
    {
        Pair {
            number: 0,
            text: Vec::new(alloc),
        }
    }

    // A pair whose text is not too long has a number of 32 bits and a text of bytes.
    pub fn is_whole(&self)
        requires { IsWithinLimit self.now }
        ensures { IsWholePair self.now }
    {
        fits(self.number);
        are_bytes(&self.text);
    }
}

impl Clone for Pair {
    ghost is_clone = { λ pair copy. copy ≡ pair };

    fn clone(&self) -> Result<Pair, AllocError> {
        Ok(Pair {
            number: self.number,
            text: self.text.clone()?,
        })
    }
}

// Appends two pieces to a text, both or none.
pub fn append_both(text: &mut Vec<u8>, first: &[u8], second: &[u8]) -> Result<(), AllocError>
    requires fits { length first.now + length second.now < 2 ^ 64 }
    ensures ok { OnOk result (text.new.items ≡ text.old.items ++ (first.now ++ second.now)) }
    ensures err { OnErr result (text.new.items ≡ text.old.items) }
    ensures memory { OnErr result (0 < length (first.now ++ second.now)) }
{
    text.reserve(first.len() + second.len())?;
    text.extend_from_slice(first)?;
    text.extend_from_slice(second)
}

// Puts two pieces in the place of a text. It takes memory only where they are longer together.
pub fn overwrite(text: &mut Vec<u8>, first: &[u8], second: &[u8]) -> Result<(), AllocError>
    requires fits { length first.now + length second.now < 2 ^ 64 }
    ensures ok { OnOk result (text.new.items ≡ first.now ++ second.now) }
    ensures err { OnErr result (text.new.items ≡ text.old.items) }
    ensures memory { OnErr result (vec_len text.old < length (first.now ++ second.now)) }
{
    text.reserve((first.len() + second.len()).saturating_sub(text.len()))?;
    text.clear();
    text.extend_from_slice(first)?;
    text.extend_from_slice(second)
}
