//! The order in which a certificate has its loops.
ghost use Rattle.std.specs.Prelude.{IsTrue, ◌↔◌};
ghost use Rattle.teco_certificate.specs.WellFormed.{NumbersRise};

use teco_verifier::LoopLine;

/// Does each loop have a number below that of the next?
pub fn numbers_rise(loops: &[LoopLine]) -> bool
    ensures { IsTrue result ↔ NumbersRise loops.now }
{
    for next in 1..loops.len() {
        let (line, behind) = (&loops[next - 1], &loops[next]);
        if line.number >= behind.number {
            return false;
        }
    }
    true
}
