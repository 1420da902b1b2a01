//! The first line of a text, the last one, and how many there are.
ghost use Rattle.std.specs.Prelude.{◌≡◌, ◌⊎◌, ◌<◌, [], length, take, drop, MatchOption, IfSome};
ghost use Rattle.teco_policy.specs.Lines.{lines};
ghost use Rattle.teco_policy.specs.Walks.{IsFirstLine, IsLastLine, IsLastOf};

use memchr::{memchr3, memrchr3};
use teco_base::bytes::{FF, LF, VT};

// The first line of a text: what stands in it, its line end if it has one, and all behind it.
#[derive(Clone, Copy)]
pub(crate) struct FirstLine<'a> {
    pub(crate) body: &'a [u8],
    pub(crate) end: &'a [u8],
    pub(crate) rest: &'a [u8],
}

// The last line of a text, and all before it.
#[derive(Clone, Copy)]
pub(crate) struct LastLine<'a> {
    pub(crate) front: &'a [u8],
    pub(crate) line: &'a [u8],
}

// The first line, if the text is not empty.
#[tactic(auto, using(crate::proofs::Firsts::ended_first, crate::proofs::Firsts::open_first_line))]
pub(crate) fn first_line(text: &[u8]) -> Option<FirstLine<'_>>
    ensures { MatchOption result (text.now ≡ []) (IsFirstLine text.now) }
{
    if text.is_empty() {
        return None;
    }
    match memchr3(LF, VT, FF, text) {
        Some(place) => Some(FirstLine {
            body: &text[..place],
            end: &text[place..place + 1],
            rest: &text[place + 1..],
        }),
        None => Some(FirstLine {
            body: text,
            end: &[],
            rest: &[],
        }),
    }
}

// The first lines of two texts, if neither is empty.
pub(crate) fn first_lines<'a>(
    old: &'a [u8],
    new: &'a [u8],
) -> Option<(FirstLine<'a>, FirstLine<'a>)>
    ensures none { MatchOption result ((lines old.now ≡ []) ⊎ (lines new.now ≡ [])) (λ _. Unit {0}) }
    ensures old { IfSome result (λ both. IsFirstLine old.now both.0) }
    ensures new { IfSome result (λ both. IsFirstLine new.now both.1) }
{
    let a = first_line(old)?;
    let b = first_line(new)?;
    Some((a, b))
}

// Where the last line of a text begins that is not empty.
#[tactic(auto, using(crate::proofs::Lasts::behind_last, crate::proofs::Lasts::whole_last))]
fn last_start(text: &[u8]) -> usize
    requires { 0 < length text.now }
    ensures within { result < length text.now }
    ensures last { IsLastOf text.now (take result text.now) (drop result text.now) }
{
    match memrchr3(LF, VT, FF, &text[..text.len() - 1]) {
        Some(place) => place + 1,
        None => 0,
    }
}

// The last line, if the text is not empty.
pub(crate) fn last_line(text: &[u8]) -> Option<LastLine<'_>>
    ensures { MatchOption result (text.now ≡ []) (IsLastLine text.now) }
{
    if text.is_empty() {
        return None;
    }
    let start = last_start(text);
    Some(LastLine {
        front: &text[..start],
        line: &text[start..],
    })
}

// How many lines a text has.
pub(crate) fn line_count(text: &[u8]) -> usize
    ensures { result ≡ length (lines text.now) }
{
    let mut count = 0;
    let mut rest = text;
    while let Some(line) = first_line(rest) {
        count += 1;
        rest = line.rest;
    }
    count
}
