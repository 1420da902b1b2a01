//! S, FS, N and FN: what is known where they found, and where they failed.
ghost use Rattle.std.specs.Prelude.{◌≡◌, ◌≤◌, IfOk, length};
ghost use Rattle.teco_base.specs.declared.TheConstants.{LIMIT};
ghost use Rattle.teco_verifier.specs.facts.Arguments as arguments;
ghost use Rattle.teco_verifier.specs.facts.Facts as known;
ghost use Rattle.teco_verifier.specs.facts.Searches as searches;
ghost use Rattle.teco_facts.specs.Numbers.{AreSmall};
ghost use Rattle.teco_check.specs.Searched as searched;

use crate::transfer::{Numbers, count_of};
use teco_facts::{Facts, Margins, Position, Range, Shift, TakenFacts};
use teco_find::minimum;
use teco_model::kind::Search;
use teco_poly::Poly;
use teco_verifier::RefusalReason;

// Of S and FS a count that may be 0 may be refused, and one that may be negative is not verified.
fn count_in_buffer(n: Range) -> Result<(), RefusalReason>
    ensures { result ≡ searches.count_in_buffer n }
{
    if Numbers::Zero.may_take(n) {
        Err(RefusalReason::Argument)
    } else if Numbers::NotPositive.may_take(n) {
        Err(RefusalReason::Unverified)
    } else {
        Ok(())
    }
}

// Of N and FN one that may be below 1 may be refused.
fn count_in_pages(n: Range) -> Result<(), RefusalReason>
    ensures { result ≡ searches.count_in_pages n }
{
    if Numbers::NotPositive.may_take(n) {
        Err(RefusalReason::Argument)
    } else {
        Ok(())
    }
}

// The count, and no first value.
fn count_checked(search: Search, taken: TakenFacts, margins: Margins) -> Result<(), RefusalReason>
    ensures { result ≡ searches.count_checked search taken.first taken.value margins }
{
    if taken.first.is_some() {
        return Err(RefusalReason::Argument);
    }
    let n = count_of(taken.value, margins);
    match search {
        Search::Find | Search::Replace => count_in_buffer(n),
        Search::FindInPages | Search::ReplaceInPages => count_in_pages(n),
    }
}

// The minimum length of what is sought.
fn minimum_of(text: &[u8]) -> Result<usize, RefusalReason>
    requires { length text.now ≤ LIMIT }
    ensures value { result ≡ searches.minimum_of text.now }
    ensures within { IfOk result (λ n. n ≤ LIMIT) }
{
    if text.is_empty() {
        return Err(RefusalReason::Unverified);
    }
    match minimum(text) {
        Ok(Some(least)) => Ok(least),
        Ok(None) => Err(RefusalReason::Unverified),
        Err(_) => Err(RefusalReason::Fault),
    }
}

// What is found lies ahead; the pointer goes behind it, or behind what replaces it. A shorter
// buffer, and another page, end all that is saved.
fn shift_found(search: Search, least: usize, new: usize, margins: Margins) -> Shift
    requires within { least ≤ LIMIT }
    requires new_within { new ≤ LIMIT }
    ensures { result ≡ searches.shift_found search least new margins }
{
    let (found, put_in) = (least as u64, new as u64);
    let fall = Some(least as i64);
    let growth = Poly::number(put_in);
    match search {
        Search::Find => Shift::moving(margins.back + found, 0, fall),
        Search::Replace => Shift::moving(margins.back + put_in, 0, fall)
            .growing(growth)
            .ending(),
        Search::FindInPages => Shift::moving(found, 0, fall).ending(),
        Search::ReplaceInPages => Shift::moving(put_in, 0, fall).growing(growth).ending(),
    }
}

/// The position where a search failed: at the begin of the buffer, which of N and FN is another
/// one; of others with two colons nothing moves.
pub fn position_failed(search: Search, colons: u8, facts: &Facts) -> Position
    requires { AreSmall facts.now.position.falls }
    ensures { result ≡ searches.position_failed search colons facts.now }
{
    let Margins { back, fore } = facts.margins();
    match search {
        Search::FindInPages | Search::ReplaceInPages => {
            facts.position_behind(&Shift::moving(0, 0, None).ending())
        }
        Search::Find | Search::Replace if colons >= 2 => facts.position().copied(),
        Search::Find | Search::Replace => {
            facts.position_behind(&Shift::moving(0, back + fore, None))
        }
    }
}

/// The facts where it found a text, for which another is put in.
pub fn facts_found(
    search: Search,
    text: &[u8],
    second: &[u8],
    facts: Facts,
) -> Result<Facts, RefusalReason>
    requires small { AreSmall facts.position.falls }
    requires within { length text.now ≤ LIMIT }
    requires second_within { length second.now ≤ LIMIT }
    ensures { result ≡ searched.facts_found search text.now second.now facts }
{
    let least = minimum_of(text)?;
    let shift = shift_found(search, least, second.len(), facts.margins());
    facts.shifted(&shift)
}

/// What is known before a search that took its arguments.
pub fn facts_at_search(search: Search, facts: Facts) -> Result<Facts, RefusalReason>
    ensures value { result ≡ searches.facts_at_search search facts }
    ensures kept { IfOk result (λ taken. taken ≡ known.with_arguments
        (arguments.levels_after_taking facts.arguments) facts) }
{
    let taken = facts.level().taken()?;
    count_checked(search, taken, facts.margins())?;
    Ok(facts.taking())
}
