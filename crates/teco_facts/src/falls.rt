//! How much less is ahead since the turns of open iterations began, the innermost first.
ghost use Rattle.std.specs.Prelude.{◌≡◌, [], length, map, IfSome, IsTrue};
ghost use Rattle.teco_verifier.specs.facts.Bodies as bodies;
ghost use Rattle.teco_verifier.specs.facts.Shifts as shifts;
ghost use Rattle.teco_facts.specs.Numbers.{IsNear, AreSmall};

use crate::{Fall, Few};

/// The least fall of each open iteration.
pub type OpenFalls = Few<Fall>;

/// No list of falls yet.
pub fn no_falls() -> OpenFalls
    ensures { result ≡ [] }
{
    Few::empty(Fall::nothing())
}

// Each of some falls becomes that behind another one.
fn each_behind(by: Option<i64>, falls: &mut [Fall])
    requires near { IfSome by IsNear }
    requires small { AreSmall falls.old }
    ensures value { falls.new ≡ map (shifts.fall_after by) falls.old }
    ensures long { length falls.new ≡ length falls.old }
{
    for at in 0..falls.len() {
        falls[at] = falls[at].after(by);
    }
}

/// The fall of each iteration becomes that behind another one.
pub fn go_behind(by: Option<i64>, falls: &mut OpenFalls)
    requires near { IfSome by IsNear }
    requires small { AreSmall falls.old }
    ensures { falls.new ≡ map (shifts.fall_after by) falls.old }
{
    let open = falls.len;
    each_behind(by, &mut falls.items[..open]);
}

// A fall outside is that at the <, or unknown.
fn fall_if(kept: bool, fall: Fall) -> Fall
    ensures { result ≡ bodies.fall_if kept fall }
{
    if kept { fall } else { Fall::unknown() }
}

/// The falls at the start of a body: nothing has fallen in it, and those outside are kept, or
/// unknown.
pub fn falls_at_start(kept: bool, falls: &OpenFalls) -> OpenFalls
    ensures { result ≡ bodies.falls_at_start kept falls.now }
{
    let mut start = no_falls();
    let [_, outer @ ..] = falls.as_slice() else {
        return start;
    };
    start.push(Fall::nothing());
    for at in 0..outer.len() {
        start.push(fall_if(kept, outer[at]));
    }
    start
}

/// Whether more may be added to each fall.
pub fn are_small(falls: &OpenFalls) -> bool
    ensures yes { IsTrue result → AreSmall falls.now }
    ensures no { AreSmall falls.now → IsTrue result }
{
    let falls = falls.as_slice();
    for at in 0..falls.len() {
        if !falls[at].is_small() {
            return false;
        }
    }
    true
}
