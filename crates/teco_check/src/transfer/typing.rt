//! T, V, ^A, ^T and =, and I and TAB.
ghost use Rattle.std.specs.Prelude.{◌≡◌, ◌≤◌, ◌^◌, IfOk};
ghost use Rattle.teco_verifier.specs.facts.Arguments as arguments;
ghost use Rattle.teco_verifier.specs.facts.Insertions as insertions;
ghost use Rattle.teco_verifier.specs.facts.Typings as typings;
ghost use Rattle.teco_facts.specs.Numbers.{AreSmall};
ghost use Rattle.teco_check.specs.Shifts as shifts;

use teco_facts::{Facts, Foreseen, Margins, Number, Shift, TakenFacts};
use teco_model::kind::{Insertion, Typing};
use teco_poly::Poly;
use teco_verifier::RefusalReason;

/// Two places that are known to lie in the buffer, if there are two.
pub fn part_named(taken: TakenFacts, margins: Margins) -> Result<(), RefusalReason>
    ensures { result ≡ typings.part_named taken.first taken.value margins }
{
    if let (Some(m), Some(n)) = (taken.first, taken.value) {
        let _from = Shift::to(m.place(), margins)?;
        let _to = Shift::to(n.place(), margins)?;
    }
    Ok(())
}

/// An argument that a command needs.
pub fn needed_value(value: Option<Number>) -> Result<Number, RefusalReason>
    ensures { result ≡ arguments.needed_value value }
{
    value.ok_or(RefusalReason::Argument)
}

/// What types changes nothing.
pub fn typing(typing: Typing, taken: TakenFacts, facts: Facts) -> Result<Foreseen, RefusalReason>
    ensures { result ≡ typings.typing typing taken facts }
{
    match typing {
        Typing::Part => part_named(taken, facts.margins())?,
        Typing::View | Typing::Message => {}
        Typing::Byte | Typing::Number(_) => {
            let _needed = needed_value(taken.value)?;
        }
    }
    Ok(Foreseen::silent(facts))
}

// How much is inserted: its text, or a byte.
fn inserted(
    insertion: Insertion,
    text: &[u8],
    value: Option<Number>,
) -> Result<usize, RefusalReason>
    ensures value { result ≡ shifts.inserted insertion text.now value }
    ensures within { IfOk result (λ n. n ≤ 2 ^ 63) }
{
    match (insertion, value) {
        (Insertion::Text, None) => Ok(text.len()),
        (Insertion::Text, Some(_)) if text.is_empty() => Ok(1),
        (Insertion::Tab, None) => Ok(text.len() + 1),
        _ => Err(RefusalReason::Argument),
    }
}

/// An insertion of its text, or of a byte.
pub fn insertion(
    insertion: Insertion,
    text: &[u8],
    taken: TakenFacts,
    facts: Facts,
) -> Result<Foreseen, RefusalReason>
    requires { AreSmall facts.position.falls }
    ensures { result ≡ insertions.insertion insertion text.now taken facts }
{
    let length = inserted(insertion, text, taken.value)?;
    let shift = Shift::inserting(length, Poly::number(length as u64), facts.margins());
    Foreseen::behind(&shift, facts)
}
