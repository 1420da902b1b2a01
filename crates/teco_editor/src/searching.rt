//! Searches in the buffer, by `S`, `FS`, `N` and `FN`.
ghost use Rattle.std.specs.Prelude.{◌≡◌, Some, ◌≤◌, ◌≢◌, length, pos, IfSome, IfOk, IfErr, IsOk, Ok, OnOk};
ghost use Rattle.teco_base.specs.Does.{Does, FailsWith, IsDoneOrFull, Updates, memory_where};
ghost use Rattle.teco_find.specs.Pieces.{joined};
ghost use Rattle.teco_find.specs.Reading.{pattern_cause};
ghost use Rattle.teco_model.specs.Element.{seen};
ghost use Rattle.teco_model.specs.Paging.{look_here};
ghost use Rattle.teco_model.specs.Search as model;
ghost use Rattle.teco_editor.specs.Commands.{stuck_cause};
ghost use Rattle.teco_editor.specs.Searches.{finding_seen, here_seen, stuck_by_pattern};
ghost use Rattle.teco_editor.specs.declared.searching.Finding.TheVariants.{Missed};
ghost use Rattle.teco_text.specs.Answers.{IsPart};

use crate::{Editor, Stuck};
use teco_base::Code;
use teco_find::{FindFault, LastPattern, Pattern};
use teco_model::kind::Search;
use teco_model::{Element, Sought, Span, Taken};
use teco_text::TextStore;

/// The outcome of a search.
#[derive(Clone, Copy)]
pub enum Finding {
    /// The text was found.
    Found,
    /// The text was not found.
    Missed,
}

/// The text that `N` and `FN` look for, where an empty one means the last, and how many matches.
#[derive(Clone, Copy)]
pub struct Wanted<'a> {
    pub text: &'a [u8],
    pub matches: u32,
}

// How many matches are sought, and in which direction; never 0.
fn count(taken: Taken) -> Result<i32, Code>
    ensures value { result ≡ model.count_of taken.first taken.value }
    ensures nonzero { IfOk result (λ n. n ≢ pos 0) }
{
    let n = taken.value.unwrap_or(1);
    if taken.first.is_some() || n == 0 {
        return Err(Code::Arg);
    }
    Ok(n)
}

fn stuck(fault: FindFault) -> Stuck
    ensures { result ≡ stuck_by_pattern fault }
{
    match fault {
        FindFault::Ice => Stuck::Code(Code::Ice),
        FindFault::Iqn => Stuck::Code(Code::Iqn),
        FindFault::Memory => Stuck::Memory,
    }
}

// The match that is sought in a text of two pieces.
#[inline(always)]
fn find(pattern: &Pattern, text: (&[u8], &[u8]), dot: usize, colons: u8, n: i32) -> Option<Span>
    requires nonzero { n ≢ pos 0 }
    requires dot { dot ≤ length (joined text) }
    ensures value { result ≡ model.match_of pattern.now colons n (joined text.entry) dot }
    ensures part { IfSome result (λ span. IsPart (joined text.entry) span.start span.end) }
{
    if colons > 1 {
        pattern.here(text, dot)
    } else if n > 0 {
        pattern.forward(text, dot, n.unsigned_abs())
    } else {
        pattern.backward(text, dot, n.unsigned_abs())
    }
}

// Reads the pattern that a search looks for: an empty text means the last one.
#[inline(always)]
fn read_pattern<T: TextStore>(
    last: &mut LastPattern,
    editor: &Editor<T>,
    text: &[u8],
) -> Result<(), FindFault>
    ensures ok { OnOk result (model.pattern_of (model.search_text_of text.now editor.now) editor.now
        ≡ Ok last.new) }
    ensures err { IfErr result (λ fault. FailsWith (memory_where IsOk)
        (model.pattern_of (model.search_text_of text.now editor.now) editor.now)
        (pattern_cause fault)) }
{
    let text = if text.is_empty() {
        editor.search_text()
    } else {
        text
    };
    last.read(text, editor.regs(), editor.mode() != 0)
}

// Goes behind the match that was found, or replaces it; the search text becomes the last one.
#[inline(always)]
#[tactic(auto, using(crate::proofs::Late::late))]
fn settle<T: TextStore>(
    editor: &mut Editor<T>,
    search: Search,
    element: &Element<'_>,
    text: &[u8],
    found: Span,
) -> Result<(), Stuck>
    requires { IsPart editor.old.text found.start found.end }
    ensures { Updates stuck_cause (memory_where IsDoneOrFull) editor.old editor.new
        (model.kept_after search (seen element.now) found
        (record editor.old { search_text = model.search_text_of text.now editor.old })) result }
{
    match search {
        Search::Find | Search::FindInPages => {
            editor.keep_search_text(text)?;
            editor.go_behind(found);
        }
        Search::Replace | Search::ReplaceInPages => {
            editor.replace(found, element.second, text)?;
        }
    }
    Ok(())
}

/// `S` goes behind the match that it finds, and `FS` puts its second text in the place of the
/// match; the search text is then the last one. A miss leaves all to the caller. It takes time by
/// the text that it passes, and memory for a pattern that is not the last one.
#[inline(always)]
pub fn search<T: TextStore>(
    editor: &mut Editor<T>,
    last: &mut LastPattern,
    search: Search,
    element: &Element<'_>,
    taken: Taken,
) -> Result<Finding, Stuck>
    ensures searches { Does stuck_cause (memory_where IsDoneOrFull)
        (finding_seen element.now.text.now editor.old) editor.old editor.new
        (model.search search (seen element.now) taken editor.old) result }
    ensures missed { result ≡ Ok Missed → editor.new ≡ editor.old }
{
    let n = count(taken)?;
    if let Err(fault) = read_pattern(last, editor, element.text) {
        return Err(stuck(fault));
    }
    match find(
        last.pattern(),
        editor.text(),
        editor.dot(),
        element.colons,
        n,
    ) {
        Some(found) => {
            settle(editor, search, element, element.text, found)?;
            Ok(Finding::Found)
        }
        None => Ok(Finding::Missed),
    }
}

/// `N` and `FN` look for the last of the matches that are wanted, from the pointer on, and settle
/// there as `S` and `FS` do. Where the buffer has fewer it says how many more are wanted, and
/// changes nothing.
pub fn look<T: TextStore>(
    editor: &mut Editor<T>,
    last: &mut LastPattern,
    search: Search,
    element: &Element<'_>,
    wanted: &Wanted<'_>,
) -> Result<Option<u32>, Stuck>
    requires { 1 ≤ wanted.now.matches }
    ensures looks { Does stuck_cause (memory_where IsDoneOrFull) here_seen editor.old editor.new
        (look_here search (seen element.now)
        wanted.now.matches
        (record editor.old { search_text = model.search_text_of wanted.now.text.now editor.old }))
        result }
    ensures some { IfOk result (λ more. IfSome more (λ n. 1 ≤ n)) }
    ensures wanted { IfOk result (λ more. IfSome more (λ _. editor.new ≡ editor.old)) }
{
    if let Err(fault) = read_pattern(last, editor, wanted.text) {
        return Err(stuck(fault));
    }
    match last
        .pattern()
        .seek(editor.text(), editor.dot(), wanted.matches)
    {
        Sought::Last(found) => {
            settle(editor, search, element, wanted.text, found)?;
            Ok(None)
        }
        Sought::Wanted(more) => Ok(Some(more)),
    }
}
