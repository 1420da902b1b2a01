//! The parts of a certificate's text.
ghost use Rattle.std.specs.Prelude.{◌≡◌, ◌++◌, OnOk, flat_map};
ghost use Rattle.std.specs.List.{AllByRecursion};
ghost use Rattle.teco_certificate.specs.Text.{longer_text, longer_texts, behind_comma, kept_text, loop_line};
ghost use Rattle.teco_certificate.specs.WellFormed.{IsLongerText, IsChosen};

use crate::lines::name_of;
use std::alloc::{AllocError, Global};
use teco_verifier::{LongerText, LoopLine};

// Adds a register and the polynomial of its text.
fn push_longer(text: &mut Vec<u8>, alloc: Global, longer: &LongerText) -> Result<(), AllocError>
    ensures text { OnOk result (text.new.items ≡ text.old.items ++ longer_text longer.now) }
    ensures parts { OnOk result (IsLongerText longer.now) }
{
    let most = longer.text.print(alloc)?;
    text.extend_from_slice(&[name_of(longer.register), b'='])?;
    text.extend_from_slice(most.as_bytes())
}

// Adds the texts behind the first.
fn push_others(text: &mut Vec<u8>, alloc: Global, others: &[LongerText]) -> Result<(), AllocError>
    ensures text { OnOk result (text.new.items
        ≡ text.old.items ++ flat_map behind_comma others.now) }
    ensures parts { OnOk result (AllByRecursion IsLongerText others.now) }
{
    for longer in others {
        text.extend_from_slice(b",")?;
        push_longer(text, alloc, longer)?;
    }
    Ok(())
}

// Adds the texts that may be longer.
fn push_texts(text: &mut Vec<u8>, alloc: Global, texts: &[LongerText]) -> Result<(), AllocError>
    ensures text { OnOk result (text.new.items ≡ text.old.items ++ longer_texts texts.now) }
    ensures parts { OnOk result (AllByRecursion IsLongerText texts.now) }
{
    let Some((first, others)) = texts.split_first() else {
        return text.extend_from_slice(b"-");
    };
    push_longer(text, alloc, first)?;
    push_others(text, alloc, others)
}

// Whether an iteration is kept.
fn kept_word(kept: bool) -> &'static str
    ensures { result.now ≡ kept_text kept }
{
    if kept { "kept" } else { "lost" }
}

// Adds what was chosen for an iteration.
fn push_loop(text: &mut Vec<u8>, alloc: Global, line: &LoopLine) -> Result<(), AllocError>
    ensures text { OnOk result (text.new.items ≡ text.old.items ++ loop_line line.now) }
    ensures parts { OnOk result (IsChosen line.now) }
{
    let (number, kept) = (line.number, kept_word(line.kept));
    let held = line.held.print(alloc)?;
    let words = format!(in alloc; "loop {number} held {held} {kept} texts ")?;
    text.extend_from_slice(words.as_bytes())?;
    push_texts(text, alloc, &line.longer)?;
    text.extend_from_slice(b"\n")
}

/// Adds what was chosen for the iterations, a line for each.
pub fn push_loops(text: &mut Vec<u8>, alloc: Global, loops: &[LoopLine]) -> Result<(), AllocError>
    ensures text { OnOk result (text.new.items ≡ text.old.items ++ flat_map loop_line loops.now) }
    ensures parts { OnOk result (AllByRecursion IsChosen loops.now) }
{
    for line in loops {
        push_loop(text, alloc, line)?;
    }
    Ok(())
}
