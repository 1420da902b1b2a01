//! What an element can do to a text.
ghost use Rattle.std.specs.Prelude.{◌≡◌, ◌∷◌, [], IfOk, option_map, true, Some};
ghost use Rattle.teco_changes.specs.Elements as model;
ghost use Rattle.teco_model.specs.Element as definition;
ghost use Rattle.teco_model.specs.declared.kind.Page.TheVariants as page;
ghost use Rattle.teco_told.specs.Seen.{near_seen};

use crate::last::deleted_near;
use crate::near::Nearby;
use std::alloc::{AllocError, Global};
use teco_base::arithmetic::byte_of;
use teco_base::bytes::{FF, TAB};
use teco_changes::{Change, Class, NumericArgument, Range, Text};
use teco_model::Element;
use teco_model::kind::{Command, Insertion, Kind, Page, Query, Search, Storage};

/// A text of these bytes.
pub(crate) fn text_of(alloc: Global, bytes: &[u8]) -> Result<Text, AllocError>
    ensures { IfOk result (λ text. text ≡ bytes.now) }
{
    let mut copy = Vec::new(alloc);
    copy.extend_from_slice(bytes)?;
    Ok(Text::of(copy))
}

/// A list of one.
pub(crate) fn one(alloc: Global, change: Change) -> Result<Vec<Change>, AllocError>
    ensures { IfOk result (λ changes. changes.items ≡ change ∷ []) }
{
    let mut changes = Vec::new(alloc);
    changes.push(change)?;
    Ok(changes)
}

// A list of two.
fn two(alloc: Global, first: Change, second: Change) -> Result<Vec<Change>, AllocError>
    ensures { IfOk result (λ changes. changes.items ≡ first ∷ second ∷ []) }
{
    let mut changes = Vec::new(alloc);
    changes.push(first)?;
    changes.push(second)?;
    Ok(changes)
}

// A list of none.
fn none(alloc: Global) -> Vec<Change>
    ensures { result.items ≡ [] }
{
    Vec::new(alloc)
}

// What I and TAB put.
fn inserted(alloc: Global, insertion: Insertion, text: &[u8]) -> Result<Vec<Change>, AllocError>
    ensures { IfOk result (λ changes. changes.items ≡ model.inserted insertion text.now) }
{
    match insertion {
        Insertion::Text if text.is_empty() => one(alloc, Change::PutsByte),
        Insertion::Text => one(alloc, Change::Puts(text_of(alloc, text)?)),
        Insertion::Tab => {
            let mut copy = Vec::new(alloc);
            copy.push(TAB)?;
            copy.extend_from_slice(text)?;
            one(alloc, Change::Puts(Text::of(copy)))
        }
    }
}

// What G puts.
fn stored(alloc: Global, storage: Storage, colons: u8) -> Result<Vec<Change>, AllocError>
    ensures { IfOk result (λ changes. changes.items ≡ model.stored storage colons) }
{
    match storage {
        Storage::Get(register) if colons == 0 => one(alloc, Change::PutsText(register)),
        _ => Ok(none(alloc)),
    }
}

// What commands put and take.
fn commanded(
    alloc: Global,
    command: Command,
    element: &Element<'_>,
) -> Result<Vec<Change>, AllocError>
    ensures { IfOk result (λ changes. changes.items ≡ model.commanded command (definition.seen element.now)) }
{
    match command {
        Command::Insertion(insertion) => inserted(alloc, insertion, element.text),
        Command::Deletion(_) => one(alloc, Change::TakesAny),
        Command::Storage(storage) => stored(alloc, storage, element.colons),
        Command::Motion(_) | Command::Typing(_) => Ok(none(alloc)),
    }
}

// What \ puts.
fn asked(alloc: Global, query: Query) -> Result<Vec<Change>, AllocError>
    ensures { IfOk result (λ changes. changes.items ≡ model.asked query) }
{
    match query {
        Query::Conversion => one(alloc, Change::PutsNumber),
        Query::Number(_) | Query::Mode => Ok(none(alloc)),
    }
}

// What FS and FN put in the stead of what they find.
fn swapped(alloc: Global, wanted: &[u8], put: &[u8]) -> Result<Vec<Change>, AllocError>
    ensures { IfOk result (λ changes. changes.items ≡ model.swapped wanted.now put.now) }
{
    let put = text_of(alloc, put)?;
    if wanted.is_empty() {
        two(alloc, Change::TakesAny, Change::Puts(put))
    } else {
        let wanted = text_of(alloc, wanted)?;
        one(alloc, Change::Swaps(wanted, put))
    }
}

// What searches do.
fn sought(alloc: Global, search: Search, element: &Element<'_>) -> Result<Vec<Change>, AllocError>
    ensures { IfOk result (λ changes. changes.items ≡ model.sought search (definition.seen element.now)) }
{
    match search {
        Search::Replace | Search::ReplaceInPages => swapped(alloc, element.text, element.second),
        Search::Find | Search::FindInPages => Ok(none(alloc)),
    }
}

// What A takes.
fn form_feed(alloc: Global) -> Result<Vec<Change>, AllocError>
    ensures { IfOk result (λ changes. Some changes.items ≡ model.turned page.Append true) }
{
    let mut ranges = Vec::new(alloc);
    ranges.push(Range {
        first: FF,
        last: FF,
    })?;
    one(alloc, Change::Takes(Class::of(ranges)))
}

// What the commands of pages do; `None` where nothing is told.
fn turned(alloc: Global, page: Page, ranged: bool) -> Result<Option<Vec<Change>>, AllocError>
    ensures { IfOk result (λ told. option_map (λ changes. changes.items) told ≡ model.turned page ranged) }
{
    match page {
        Page::Append => Ok(Some(form_feed(alloc)?)),
        Page::Next if !ranged => Ok(Some(none(alloc))),
        Page::Next | Page::Yank | Page::Write => Ok(None),
    }
}

/// What an element can do to a text at most, behind two arguments or not; `None` where nothing is told.
pub fn changes_of(
    alloc: Global,
    element: &Element<'_>,
    ranged: bool,
) -> Result<Option<Vec<Change>>, AllocError>
    ensures { IfOk result (λ told. option_map (λ changes. changes.items) told
        ≡ model.changes_of (definition.seen element.now) ranged) }
{
    match element.kind {
        Kind::Query(query) => Ok(Some(asked(alloc, query)?)),
        Kind::Command(command) => Ok(Some(commanded(alloc, command, element)?)),
        Kind::Search(search) => Ok(Some(sought(alloc, search, element)?)),
        Kind::Page(page) => turned(alloc, page, ranged),
        Kind::File(_) => Ok(None),
        Kind::Argument(_) | Kind::Value(_) | Kind::Stack(_) | Kind::Call(_) | Kind::Flow(_) => Ok(
            Some(none(alloc)),
        ),
    }
}

// Where a number is pending, A gives a character; where it is known, I without a text puts that.
fn told_with(
    alloc: Global,
    kind: Kind,
    text: &[u8],
    known: NumericArgument,
) -> Result<Option<Vec<Change>>, AllocError>
    ensures { IfOk result (λ told. option_map (λ changes. changes.items) told ≡ model.told_with kind text.now known) }
{
    match (kind, known) {
        (
            Kind::Page(Page::Append),
            NumericArgument::Number | NumericArgument::Value | NumericArgument::Exactly(_),
        ) => Ok(Some(none(alloc))),
        (Kind::Command(Command::Insertion(Insertion::Text)), NumericArgument::Exactly(n)) => {
            if !text.is_empty() {
                return Ok(None);
            }
            Ok(Some(one(alloc, Change::Puts(text_of(alloc, &[byte_of(n)])?))?))
        }
        _ => Ok(None),
    }
}

// What is told where so much is near.
fn told_near(
    alloc: Global,
    kind: Kind,
    ranged: bool,
    near: Nearby<'_>,
) -> Result<Option<Vec<Change>>, AllocError>
    ensures { IfOk result (λ told. option_map (λ changes. changes.items) told
        ≡ model.told_near kind ranged (near_seen near.entry)) }
{
    match kind {
        Kind::Command(Command::Deletion(unit)) => deleted_near(alloc, unit, ranged, near),
        _ => Ok(None),
    }
}

// What an element can do, where so much is known of the argument before it.
fn changes_by_argument(
    alloc: Global,
    element: &Element<'_>,
    ranged: bool,
    known: NumericArgument,
) -> Result<Option<Vec<Change>>, AllocError>
    ensures { IfOk result (λ told. option_map (λ changes. changes.items) told
        ≡ model.either_told (model.told_with element.now.kind element.now.text.now known)
        (model.changes_of (definition.seen element.now) ranged)) }
{
    match told_with(alloc, element.kind, element.text, known)? {
        Some(changes) => Ok(Some(changes)),
        None => changes_of(alloc, element, ranged),
    }
}

/// What an element can do to a text at most, where so much is known of the argument before it, and of what is near.
pub(crate) fn changes_with(
    alloc: Global,
    element: &Element<'_>,
    ranged: bool,
    known: NumericArgument,
    near: Nearby<'_>,
) -> Result<Option<Vec<Change>>, AllocError>
    ensures { IfOk result (λ told. option_map (λ changes. changes.items) told
        ≡ model.changes_with (definition.seen element.now) ranged known (near_seen near.entry)) }
{
    match told_near(alloc, element.kind, ranged, near)? {
        Some(changes) => Ok(Some(changes)),
        None => changes_by_argument(alloc, element, ranged, known),
    }
}
