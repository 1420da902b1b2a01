//! What the types of the machine's numbers and texts say of them.
ghost use Rattle.std.specs.Prelude.{◌++◌, FitsSigned};
ghost use Rattle.std.specs.Int.{w32};
ghost use Rattle.teco_model.specs.laws.Whole.{AreBytes};

/// Characters are bytes.
pub fn are_bytes(text: &[u8])
    ensures { AreBytes text.now }
{}

/// The characters of a text in two pieces are bytes.
#[tactic(auto, using(crate::proofs::Joined::bytes_joined))]
pub fn pieces_are_bytes(first: &[u8], second: &[u8])
    ensures { AreBytes (first.now ++ second.now) }
{
    are_bytes(first);
    are_bytes(second);
}

/// Numbers fit 32 bits.
pub fn fits(number: i32)
    ensures { FitsSigned w32 number }
{}
