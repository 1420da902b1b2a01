//! Verifying a macro, and checking a certificate.
ghost use Rattle.std.specs.Prelude.{◌≡◌, ◌≤◌, [], length, false, IfOk, IsSomeAnd, Ok, Err};
ghost use Rattle.std.specs.List.{list_any};
ghost use Rattle.std.specs.Result.{IfErr};
ghost use Rattle.teco_base.specs.declared.TheConstants.{LIMIT};
ghost use Rattle.teco_certificate.specs.Reads.{IsTextOf};
ghost use Rattle.teco_certificate.specs.Text.{certificate_text};
ghost use Rattle.teco_library.specs.Library.{argument_of};
ghost use Rattle.teco_verifier.specs.table.Loops.{begins};
ghost use Rattle.teco_verifier.specs.expansion.Expansion.{expansion};
ghost use Rattle.teco_verifier.specs.certificate.Fields.{Fields};
ghost use Rattle.teco_verify.specs.Again.{AreMadeAgain, AreMadeBy, AreMadePlain, IsFoundAgain};
ghost use Rattle.teco_verify.specs.Again.{PrintedIsAccepted};
ghost use Rattle.teco_verify.specs.Accepting.{AcceptedIsChecked, AcceptedIsFound, ChoosesNothing, TextsAreWithin};
ghost use Rattle.teco_verify.specs.Certified.{TakesDeclared};
ghost use Rattle.teco_verify.specs.Refusing.{refusal_of_unfit, IsJudged, IsOfCertificate, PrintedIsFound};
ghost use Rattle.teco_verify.specs.Refusing.{RefusedIsDerived, RefusedIsExpansions, RefusedIsOverflow};
ghost use Rattle.teco_verify.specs.Refusing.{RefusedIsUnclosed};
ghost use Rattle.teco_verify.specs.Straight.{IsFound, StraightIsChecked, StraightIsVerified};
ghost use Rattle.teco_verify.specs.Telling.{Tells};
ghost use Rattle.teco_verify.specs.Unfit.{IsIn};
ghost use Rattle.teco_verify.specs.declared.refusal.Refusal.TheVariants as refusals;

use crate::asked::AskedMacro;
use crate::certifying::certified;
use crate::refusal::{Refusal, unfit_flawed, unfit_underived};
use crate::search::choose;
use crate::unfit::{Unfit, Unfound};
use crate::verified::Verified;
use std::alloc::Global;
use teco_base::Reg;
use teco_certificate::laws::{one_entry, one_spelling};
use teco_certificate::{Certificate, CertificateFault};
use teco_check::{Table, derive, has_iterations};
use teco_expansion::{Nodes, expand};
use teco_law_tables::straight::straight_texts_are_accepted;
use teco_library::Library;
use teco_model::ArgumentRange;
use teco_verifier::LoopLine;

/// The texts of a library have no more than LIMIT characters.
#[tactic(auto, using(crate::proofs::Accepted::within))]
pub fn texts_are_within(library: &Library)
    ensures { TextsAreWithin library.now.texts }
{
    let _texts = library.texts();
}

/// What is found of a macro: the verdict, the table if one is derived, the number of the node at
/// which it is refused, if it is, and what was chosen where the search for choices ended there.
#[derive(Drop)]
pub struct Found<'l> {
    pub verdict: Result<Verified<'l>, Refusal>,
    pub table: Option<Table>,
    pub stop: Option<usize>,
    pub chosen: Vec<LoopLine>,
}

impl<'l> Found<'l> {
    // What is found where the rules refuse, or memory is refused.
    fn unfit(
        why: Unfit,
        nodes: &Nodes<'_>,
        table: Option<Table>,
        chosen: Vec<LoopLine>,
    ) -> Found<'l>
        requires { IsIn nodes.now why }
        ensures { result.verdict ≡ Err (refusal_of_unfit nodes.now why) }
    {
        let stop = match why {
            Unfit::Refused { number, .. } | Unfit::GivenUp { number } => Some(number),
            Unfit::Memory => None,
        };
        Found {
            verdict: Err(Refusal::unfit(why, nodes)),
            table,
            stop,
            chosen,
        }
    }

    // What is found where there is no table.
    fn refused(alloc: Global, refusal: Refusal) -> Found<'l>
        ensures { result.verdict ≡ Err refusal }
    {
        Found {
            verdict: Err(refusal),
            table: None,
            stop: None,
            chosen: Vec::new(alloc),
        }
    }
}

/// What is found with these choices.
pub fn found_with<'l>(
    alloc: Global,
    asked: &AskedMacro<'l>,
    nodes: &Nodes<'_>,
    chosen: &[LoopLine],
) -> Found<'l>
    requires { expansion asked.now.library.now.texts asked.now.entry ≡ Ok nodes.now }
    ensures library { IfOk result.verdict (λ verified. verified.library
        ≡ asked.now.library.now.texts) }
    ensures argument { IfOk result.verdict (λ verified. TakesDeclared asked.now.library.now
        verified.fields) }
    ensures entry { IfOk result.verdict (λ verified. verified.fields.entry ≡ asked.now.entry) }
    ensures told { IfOk result.verdict (λ verified. IsSomeAnd result.table (Tells (argument_of
        asked.now.library.now asked.now.entry) nodes.now verified.fields)) }
    ensures judged { chosen.now ≡ [] → IsJudged asked.now.library.now asked.now.entry
        result.verdict }
    ensures made { IfOk result.verdict (λ verified. AreMadeBy (argument_of asked.now.library.now
        asked.now.entry) nodes.now chosen.now asked.now.entry verified.fields) }
    ensures again { (fields : Fields) → AreMadeBy (argument_of asked.now.library.now
        asked.now.entry) nodes.now chosen.now asked.now.entry fields → IsFound fields
        result.verdict }
{
    let table = match derive(alloc, asked.argument(), nodes, chosen) {
        Ok(table) => table,
        Err(why) => return Found::unfit(unfit_underived(why), nodes, None, Vec::new(alloc)),
    };
    match certified(alloc, asked, nodes, &table) {
        Ok(verified) => Found {
            verdict: Ok(verified),
            table: Some(table),
            stop: None,
            chosen: Vec::new(alloc),
        },
        Err(flaw) => Found::unfit(unfit_flawed(flaw), nodes, Some(table), Vec::new(alloc)),
    }
}

// What is chosen for the iterations. Where there are none it is nothing.
fn choices(
    alloc: Global,
    argument: Option<ArgumentRange>,
    nodes: &Nodes<'_>,
) -> Result<Vec<LoopLine>, Unfound>
    ensures none { list_any begins nodes.now ≡ false → ChoosesNothing result }
    ensures numbered { IfErr result (λ unfound. IsIn nodes.now unfound.why) }
{
    if has_iterations(nodes) {
        choose(alloc, argument, nodes)
    } else {
        Ok(Vec::new(alloc))
    }
}

// What is found of the nodes that a macro comes to, with the choices that the search finds.
fn found_by_search<'l>(alloc: Global, asked: &AskedMacro<'l>, nodes: &Nodes<'_>) -> Found<'l>
    requires { expansion asked.now.library.now.texts asked.now.entry ≡ Ok nodes.now }
    ensures library { IfOk result.verdict (λ verified. verified.library
        ≡ asked.now.library.now.texts) }
    ensures argument { IfOk result.verdict (λ verified. TakesDeclared asked.now.library.now
        verified.fields) }
    ensures entry { IfOk result.verdict (λ verified. verified.fields.entry ≡ asked.now.entry) }
    ensures told { IfOk result.verdict (λ verified. IsSomeAnd result.table (Tells (argument_of
        asked.now.library.now asked.now.entry) nodes.now verified.fields)) }
    ensures accepted { AcceptedIsFound asked.now.library.now asked.now.entry result.verdict }
    ensures judged { IsJudged asked.now.library.now asked.now.entry result.verdict }
    ensures made { IfOk result.verdict (λ verified. AreMadePlain asked.now.library.now
        asked.now.entry verified.fields) }
{
    match choices(alloc, asked.argument(), nodes) {
        Ok(choices) => found_with(alloc, asked, nodes, &choices),
        Err(unfound) => Found::unfit(unfound.why, nodes, None, unfound.chosen),
    }
}

// What is found with the choices of a certificate, if what is found has its text.
fn found_from<'l>(
    alloc: Global,
    asked: &AskedMacro<'l>,
    nodes: &Nodes<'_>,
    claimed: &Certificate,
    bytes: &[u8],
) -> Found<'l>
    requires expanded { expansion asked.now.library.now.texts asked.now.entry ≡ Ok nodes.now }
    requires spelled { IsTextOf claimed.now bytes.now }
    requires entry { claimed.now.entry ≡ asked.now.entry }
    ensures library { IfOk result.verdict (λ verified. verified.library
        ≡ asked.now.library.now.texts) }
    ensures argument { IfOk result.verdict (λ verified. TakesDeclared asked.now.library.now
        verified.fields) }
    ensures entry { IfOk result.verdict (λ verified. verified.fields.entry ≡ asked.now.entry) }
    ensures told { IfOk result.verdict (λ verified. IsSomeAnd result.table (Tells (argument_of
        asked.now.library.now asked.now.entry) nodes.now verified.fields)) }
    ensures text { IfOk result.verdict (λ verified. certificate_text verified.fields ≡ bytes.now) }
    ensures made { IfOk result.verdict (λ verified. AreMadeAgain asked.now.library.now
        verified.fields) }
    ensures again { PrintedIsAccepted asked.now.library.now bytes.now result.verdict }
{
    one_spelling();
    let found = found_with(alloc, asked, nodes, &claimed.loops);
    let Ok(verified) = &found.verdict else {
        return found;
    };
    match verified.certificate(alloc) {
        Err(_) => Found::refused(alloc, Refusal::Memory),
        Ok(text) if text.as_slice() == bytes => found,
        Ok(_) => Found::refused(alloc, Refusal::certificate()),
    }
}

// What was found is found once more from the text of its certificate: a text that is not read as
// choices that make it is not printed.
fn found_again<'l>(
    alloc: Global,
    asked: &AskedMacro<'l>,
    nodes: &Nodes<'_>,
    first: &Verified<'l>,
) -> Found<'l>
    requires expanded { expansion asked.now.library.now.texts asked.now.entry ≡ Ok nodes.now }
    requires entry { first.now.fields.entry ≡ asked.now.entry }
    ensures library { IfOk result.verdict (λ verified. verified.library
        ≡ asked.now.library.now.texts) }
    ensures argument { IfOk result.verdict (λ verified. TakesDeclared asked.now.library.now
        verified.fields) }
    ensures entry { IfOk result.verdict (λ verified. verified.fields.entry ≡ asked.now.entry) }
    ensures told { IfOk result.verdict (λ verified. IsSomeAnd result.table (Tells (argument_of
        asked.now.library.now asked.now.entry) nodes.now verified.fields)) }
    ensures made { IfOk result.verdict (λ verified. AreMadeAgain asked.now.library.now
        verified.fields) }
    ensures again { IsFoundAgain asked.now.library.now first.now.fields
        result.verdict }
{
    one_entry();
    let Ok(text) = first.certificate(alloc) else {
        return Found::refused(alloc, Refusal::Memory);
    };
    match Certificate::read(alloc, &text) {
        Ok(claimed) => found_from(alloc, asked, nodes, &claimed, &text),
        Err(CertificateFault::NotACertificate) => Found::refused(alloc, Refusal::certificate()),
        Err(CertificateFault::Memory) => Found::refused(alloc, Refusal::Memory),
    }
}

/// What is found of the nodes that a macro comes to, with the choices that are found for them.
pub fn found_of<'l>(alloc: Global, asked: &AskedMacro<'l>, nodes: &Nodes<'_>) -> Found<'l>
    requires { expansion asked.now.library.now.texts asked.now.entry ≡ Ok nodes.now }
    ensures library { IfOk result.verdict (λ verified. verified.library
        ≡ asked.now.library.now.texts) }
    ensures argument { IfOk result.verdict (λ verified. TakesDeclared asked.now.library.now
        verified.fields) }
    ensures entry { IfOk result.verdict (λ verified. verified.fields.entry ≡ asked.now.entry) }
    ensures told { IfOk result.verdict (λ verified. IsSomeAnd result.table (Tells (argument_of
        asked.now.library.now asked.now.entry) nodes.now verified.fields)) }
    ensures accepted { AcceptedIsFound asked.now.library.now asked.now.entry result.verdict }
    ensures judged { IsJudged asked.now.library.now asked.now.entry result.verdict }
    ensures made { IfOk result.verdict (λ verified. AreMadeAgain asked.now.library.now
        verified.fields) }
{
    let first = found_by_search(alloc, asked, nodes);
    match &first.verdict {
        Ok(verified) => found_again(alloc, asked, nodes, verified),
        Err(_) => first,
    }
}

// What is found of a macro.
fn verified<'l>(alloc: Global, asked: &AskedMacro<'l>) -> Result<Verified<'l>, Refusal>
    ensures library { IfOk result (λ verified. verified.library ≡ asked.now.library.now.texts) }
    ensures argument { IfOk result (λ verified. TakesDeclared asked.now.library.now
        verified.fields) }
    ensures entry { IfOk result (λ verified. verified.fields.entry ≡ asked.now.entry) }
    ensures accepted { AcceptedIsFound asked.now.library.now asked.now.entry result }
    ensures unexpanded { RefusedIsExpansions asked.now.library.now asked.now.entry result }
    ensures judged { IsJudged asked.now.library.now asked.now.entry result }
    ensures made { IfOk result (λ verified. AreMadeAgain asked.now.library.now
        verified.fields) }
{
    let nodes = expand(alloc, asked.library, asked.entry)?;
    found_of(alloc, asked, &nodes).verdict
}

/// Verifies a macro of a library: a bound is found on what a run of it does, with any argument that
/// the library declares for it, or it is refused. Straight text, of which each element is ESC, a
/// comment or a plain insertion, is not refused where none is declared.
///
/// What is verified is found once more from the text of its certificate: so that text is accepted
/// where it is checked.
///
/// Takes time by the elements of the texts that are called, and for each iteration up to four
/// times those in its body.
///
/// # Errors
///
/// The reason of the refusal with its place, or `Memory`.
///
/// # Examples
///
/// ```
/// fn is_checked(alloc: Global, verified: &Verified<'_>) -> Option<bool> {
///     let certificate = verified.certificate(alloc).ok()?;
///     if certificate.len() > LIMIT {
///         return None;
///     }
///     Some(check_certificate(alloc, verified.library(), &certificate).is_ok())
/// }
///
/// fn checks_a_certificate(alloc: Global) -> Option<bool> {
///     let library = Library::read(alloc, b"@^UA/J<:Sa\x1b;-D>/").ok()?;
///     let verified = verify(alloc, &library, Reg::of(b'A')?).ok()?;
///     is_checked(alloc, &verified)
/// }
/// ```
pub fn verify<'l>(alloc: Global, library: &'l Library, entry: Reg) -> Result<Verified<'l>, Refusal>
    ensures library { IfOk result (λ verified. verified.library ≡ library.now.texts) }
    ensures argument { IfOk result (λ verified. TakesDeclared library.now verified.fields) }
    ensures entry { IfOk result (λ verified. verified.fields.entry ≡ entry) }
    ensures straight { StraightIsVerified library.now entry result }
    ensures unexpanded { RefusedIsExpansions library.now entry result }
    ensures underived { RefusedIsDerived library.now entry result }
    ensures unclosed { RefusedIsUnclosed library.now entry result }
    ensures overflow { RefusedIsOverflow library.now entry result }
    ensures printed { PrintedIsFound library.now entry result }
    ensures made { IfOk result (λ verified. AreMadeAgain library.now verified.fields) }
{
    straight_texts_are_accepted();
    texts_are_within(library);
    let asked = AskedMacro { library, entry };
    verified(alloc, &asked)
}

// Any refusal of a certificate, but want of memory, is the same.
fn refused(refusal: Refusal) -> Refusal
    ensures memory { refusal ≡ refusals.Memory → result ≡ refusals.Memory }
    ensures certificate { IsOfCertificate result }
{
    match refusal {
        Refusal::No { .. } => Refusal::certificate(),
        Refusal::Memory => Refusal::Memory,
    }
}

// What a certificate's choices certify of its entry, if it is one and has its text.
fn certified_by<'l>(
    alloc: Global,
    library: &'l Library,
    bytes: &[u8],
) -> Result<Verified<'l>, Refusal>
    ensures library { IfOk result (λ verified. verified.library ≡ library.now.texts) }
    ensures argument { IfOk result (λ verified. TakesDeclared library.now verified.fields) }
    ensures text { IfOk result (λ verified. certificate_text verified.fields ≡ bytes.now) }
    ensures again { PrintedIsAccepted library.now bytes.now result }
{
    one_spelling();
    let claimed = match Certificate::read(alloc, bytes) {
        Ok(claimed) => claimed,
        Err(CertificateFault::NotACertificate) => return Err(Refusal::certificate()),
        Err(CertificateFault::Memory) => return Err(Refusal::Memory),
    };
    let nodes = expand(alloc, library, claimed.entry)?;
    let asked = AskedMacro {
        library,
        entry: claimed.entry,
    };
    found_from(alloc, &asked, &nodes, &claimed, bytes).verdict
}

// What is verified by a certificate; any other refusal is that of the certificate.
fn checked<'l>(alloc: Global, library: &'l Library, bytes: &[u8]) -> Result<Verified<'l>, Refusal>
    ensures library { IfOk result (λ verified. verified.library ≡ library.now.texts) }
    ensures argument { IfOk result (λ verified. TakesDeclared library.now verified.fields) }
    ensures text { IfOk result (λ verified. certificate_text verified.fields ≡ bytes.now) }
    ensures accepted { AcceptedIsChecked library.now bytes.now result }
    ensures refused { IfErr result IsOfCertificate }
    ensures again { PrintedIsAccepted library.now bytes.now result }
{
    certified_by(alloc, library, bytes).map_err(refused)
}

/// Checks a certificate for a library: its choices make a table that is closed for the argument that
/// the library declares, and it is the text of that table's certificate. That of straight text is
/// not refused.
///
/// # Errors
///
/// The reason of the refusal with its place, or `Memory`.
pub fn check_certificate<'l>(
    alloc: Global,
    library: &'l Library,
    bytes: &[u8],
) -> Result<Verified<'l>, Refusal>
    requires { length bytes.now ≤ LIMIT }
    ensures library { IfOk result (λ verified. verified.library ≡ library.now.texts) }
    ensures argument { IfOk result (λ verified. TakesDeclared library.now verified.fields) }
    ensures text { IfOk result (λ verified. certificate_text verified.fields ≡ bytes.now) }
    ensures straight { StraightIsChecked library.now bytes.now result }
    ensures refused { IfErr result IsOfCertificate }
    ensures again { PrintedIsAccepted library.now bytes.now result }
{
    straight_texts_are_accepted();
    texts_are_within(library);
    checked(alloc, library, bytes)
}
