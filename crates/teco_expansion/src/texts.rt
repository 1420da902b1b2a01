//! The texts that an expansion goes through.
ghost use Rattle.std.specs.Prelude.{◌≡◌, ◌+◌, ◌<◌, ◌≤◌, ℕ, List, length, map, take, drop, is_some, All, IfOk, IfSome};
ghost use Rattle.std.specs.Prelude.{OnOk, Some};
ghost use Rattle.std.specs.Option.{option_copied, ForSome};
ghost use Rattle.teco_base.specs.declared.TheConstants.{LIMIT, REGISTERS};
ghost use Rattle.teco_model.specs.Macros.{macro, is_macro};
ghost use Rattle.teco_model.specs.Macros as model;
ghost use Rattle.teco_model.specs.Ahead.{Whole, reading_at};
ghost use Rattle.teco_model.specs.Element as element;
ghost use Rattle.teco_model.specs.Skip.{route_of, skip_at};
ghost use Rattle.teco_expansion.specs.Scanned.{IsGapOf, IsKeptOf};
ghost use Rattle.teco_scan.specs.Skips.{crossing, IsStepOf};

use crate::gaps::{Gap, gap_at, keep_gaps};
use crate::kept::{KeptStep, keep_steps, kept_at};
use crate::reading::place_behind_blanks;
use crate::steps::MOST_ELEMENTS;
use std::alloc::{AllocError, Global};
use teco_base::{REGISTERS, Reg};
use teco_lex::{Reading, Readings, Skip};
use teco_library::Library;
use teco_model::{Kind, Pairs, Route};
use teco_scan::{Crossing, Step, first_skips};

/// The command strings that call each register.
static CALLS: [u8; 72] =
    *b"MAMBMCMDMEMFMGMHMIMJMKMLMMMNMOMPMQMRMSMTMUMVMWMXMYMZM0M1M2M3M4M5M6M7M8M9";

/// The texts of a library by the places of their registers, and the place of the entry. Of each
/// text that may be called is kept where its first elements jump ahead, and where long runs of
/// blanks end.
#[derive(Clone, Copy)]
pub struct Texts<'a> {
    texts: [Option<&'a [u8]>; REGISTERS],
    pub entry: usize,
    kept: &'a [KeptStep],
    gaps: &'a [Gap],
    ghost whole: { length texts ≡ REGISTERS },
    ghost short: { All (λ text. ForSome text (λ shown. length shown.now ≤ LIMIT)) texts },
    ghost register: { entry < REGISTERS },
    ghost right: { All (IsKeptOf (map option_copied texts)) kept.now },
    ghost gaps_right: { All (IsGapOf (map option_copied texts)) gaps.now },
}

/// Two bytes of a table.
fn two_at(table: &[u8], start: usize) -> &[u8]
    requires { start + 2 ≤ length table.now }
    ensures { result.now ≡ take 2 (drop start table.now) }
{
    &table[start..start + 2]
}

/// The command string that calls a register.
#[tactic(auto, using(crate::proofs::Calls::call_in_table))]
fn call_of(entry: usize) -> &'static [u8]
    requires { entry < REGISTERS }
    ensures { result.now ≡ model.call_of entry }
{
    two_at(&CALLS, 2 * entry)
}

/// The text that a register gets of these, if any.
#[tactic(auto, using(crate::proofs::Calls::no_macro, crate::proofs::Calls::macro_at))]
fn macro_in<'a>(texts: &[Option<&'a [u8]>], register: usize) -> Option<&'a [u8]>
    requires { All (λ text. ForSome text (λ shown. length shown.now ≤ LIMIT)) texts.now }
    ensures value { option_copied result ≡ macro (map option_copied texts.now) register }
    ensures within_limit { ForSome result (λ text. length text.now ≤ LIMIT) }
{
    if register < texts.len() {
        texts[register]
    } else {
        None
    }
}

/// Marks the registers that the first elements of a text call.
fn mark_calls(text: &[u8], called: &mut [bool])
    requires { length called.old ≡ REGISTERS }
    ensures { length called.new ≡ REGISTERS }
{
    let mut ahead = Readings::from(text, 0);
    for _ in 0..MOST_ELEMENTS {
        match ahead.next() {
            Some(Reading::Whole(element)) => {
                if let Kind::Call(call) = element.kind {
                    called[call.register.index()] = true;
                }
            }
            Some(_) => {}
            None => return,
        }
    }
}

/// The registers whose texts may be called: the entry, and those that the first elements of such
/// texts name.
fn called_from(texts: &[Option<&[u8]>], entry: usize) -> [bool; REGISTERS]
    requires short { All (λ text. ForSome text (λ shown. length shown.now ≤ LIMIT)) texts.now }
    requires register { entry < REGISTERS }
{
    let mut called = [false; REGISTERS];
    let mut read = [false; REGISTERS];
    called[entry] = true;
    for _ in 0..REGISTERS {
        for register in 0..REGISTERS {
            if called[register] && !read[register] {
                read[register] = true;
                mark_calls(macro_in(texts, register).unwrap_or(&[]), &mut called);
            }
        }
    }
    called
}

/// Keeps where the first elements of a register's text jump ahead.
fn keep_text(
    alloc: Global,
    texts: &[Option<&[u8]>],
    kept: &mut Vec<KeptStep>,
    register: usize,
) -> Result<(), AllocError>
    requires { All (λ text. ForSome text (λ shown. length shown.now ≤ LIMIT)) texts.now }
    ensures { OnOk result (All (IsKeptOf (map option_copied texts.now)) kept.old.items
        → All (IsKeptOf (map option_copied texts.now)) kept.new.items) }
{
    let Some(text) = macro_in(texts, register) else {
        return Ok(());
    };
    let steps = first_skips(alloc, text, MOST_ELEMENTS + 1)?;
    keep_steps(kept, register, &steps)
}

/// What is kept of each register whose text may be called.
fn kept_of(
    alloc: Global,
    texts: &[Option<&[u8]>],
    entry: usize,
) -> Result<Vec<KeptStep>, AllocError>
    requires short { All (λ text. ForSome text (λ shown. length shown.now ≤ LIMIT)) texts.now }
    requires register { entry < REGISTERS }
    ensures { IfOk result (λ kept. All (IsKeptOf (map option_copied texts.now)) kept.items) }
{
    let called = called_from(texts, entry);
    let mut kept = Vec::new(alloc);
    for register in 0..REGISTERS {
        if called[register] {
            keep_text(alloc, texts, &mut kept, register)?;
        }
    }
    Ok(kept)
}

/// The long runs of blanks of each register's text that may be called.
fn gaps_of(alloc: Global, texts: &[Option<&[u8]>], entry: usize) -> Result<Vec<Gap>, AllocError>
    requires short { All (λ text. ForSome text (λ shown. length shown.now ≤ LIMIT)) texts.now }
    requires register { entry < REGISTERS }
    ensures { IfOk result (λ gaps. All (IsGapOf (map option_copied texts.now)) gaps.items) }
{
    let called = called_from(texts, entry);
    let mut gaps = Vec::new(alloc);
    for register in 0..REGISTERS {
        if called[register] {
            if let Some(text) = macro_in(texts, register) {
                keep_gaps(&mut gaps, register, text)?;
            }
        }
    }
    Ok(gaps)
}

impl<'a> Texts<'a> {
    ghost use Rattle.teco_expansion.specs.declared.node.Node.{Node};
    ghost use Rattle.teco_expansion.specs.Seen.{node_seen};
    ghost use Rattle.teco_expansion.specs.Texts.{library_of, text_of};

    /// Those of a library, of which nothing is kept.
    pub fn new(library: &'a Library, entry: Reg) -> Texts<'a>
        ensures library { library_of result ≡ library.now.texts }
        ensures entry { result.entry ≡ entry }
    {
        Texts {
            texts: library.texts(),
            entry: entry.index(),
            kept: &[],
            gaps: &[],
        }
    }

    /// Where the first elements of the texts jump ahead that may be called.
    pub fn jumps(&self, alloc: Global) -> Result<Vec<KeptStep>, AllocError>
        ensures { IfOk result (λ kept. All (IsKeptOf (library_of self.now)) kept.items) }
    {
        kept_of(alloc, &self.texts, self.entry)
    }

    /// Where long runs of blanks end in the texts that may be called.
    pub fn gaps(&self, alloc: Global) -> Result<Vec<Gap>, AllocError>
        ensures { IfOk result (λ gaps. All (IsGapOf (library_of self.now)) gaps.items) }
    {
        gaps_of(alloc, &self.texts, self.entry)
    }

    /// These texts, with what is kept of them.
    pub fn with_kept(&self, kept: &'a [KeptStep], gaps: &'a [Gap]) -> Texts<'a>
        requires jumps { All (IsKeptOf (library_of self.now)) kept.now }
        requires gaps { All (IsGapOf (library_of self.now)) gaps.now }
        ensures library { library_of result ≡ library_of self.now }
        ensures entry { result.entry ≡ self.now.entry }
        ensures nodes { (nodes : List Node) → map (node_seen result) nodes
            ≡ map (node_seen self.now) nodes }
    {
        Texts {
            texts: self.texts,
            entry: self.entry,
            kept,
            gaps,
        }
    }

    /// The step of the element at a place of a register's text, if that is kept.
    fn step(&self, register: Option<usize>, place: usize) -> Option<Step>
        ensures place { IfSome result (λ step. step.place ≡ place) }
        ensures step { IfSome result (IsStepOf (text_of self.now register)) }
    {
        kept_at(self.kept, register?, place)
    }

    /// Where the element at a place of a register's text jumps ahead, if that is kept.
    pub fn skip(&self, register: Option<usize>, place: usize) -> Option<Skip>
        ensures { IfSome result (λ skip. skip ≡ skip_at (text_of self.now register) place) }
    {
        Some(self.step(register, place)?.skip)
    }

    /// What its jump past a pair crosses, if that is kept.
    pub fn crossing(&self, register: Option<usize>, place: usize) -> Option<Crossing>
        ensures { IfSome result (λ crossed. (e : element.Element) (pairs : Pairs) (leaves : ℕ) →
            reading_at (text_of self.now register) place ≡ Some (Whole e)
            → route_of e.kind ≡ Route.Past pairs leaves
            → crossed ≡ crossing (text_of self.now register) pairs e.next) }
    {
        Some(self.step(register, place)?.crossing)
    }

    /// The place after the blanks at a place of a register's text.
    pub fn behind_blanks(&self, register: Option<usize>, place: usize) -> usize
        ensures { result ≡ element.blank_end (text_of self.now register) place }
    {
        match self.gap(register, place) {
            Some(end) => end,
            None => place_behind_blanks(self.text(register), place),
        }
    }

    /// That place, if it is kept.
    fn gap(&self, register: Option<usize>, place: usize) -> Option<usize>
        ensures { IfSome result (λ end. end ≡ element.blank_end (text_of self.now register) place) }
    {
        gap_at(self.gaps, register?, place)
    }

    /// The text that a register gets, if any.
    fn macro_of(&self, register: usize) -> Option<&'a [u8]>
        ensures value { option_copied result ≡ macro (library_of self.now) register }
        ensures within_limit { ForSome result (λ text. length text.now ≤ LIMIT) }
    {
        macro_in(&self.texts, register)
    }

    /// Does a register get a text?
    pub fn contains(&self, register: usize) -> bool
        ensures { result ≡ is_macro (library_of self.now) register }
    {
        self.macro_of(register).is_some()
    }

    /// The text of a register, which is empty where it has none, or the command string.
    pub fn text(&self, register: Option<usize>) -> &'a [u8]
        ensures value { result.now ≡ text_of self.now register }
        ensures within_limit { length result.now ≤ LIMIT }
    {
        match register {
            None => call_of(self.entry),
            Some(register) => self.macro_of(register).unwrap_or(&[]),
        }
    }
}
