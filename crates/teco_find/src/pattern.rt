//! Patterns, and how they are read.
ghost use Rattle.std.specs.Prelude.{◌≡◌, [], ◌+◌, ◌^◌, ◌<◌, length, IsOk, IfSome};
ghost use Rattle.teco_base.specs.Does.{Gives, codes_alone, memory_where};
ghost use Rattle.teco_model.specs.Pattern as model;
ghost use Rattle.teco_find.specs.Reading.{pattern_cause};

use crate::anchor::{Anchor, anchor_of};
use crate::fault::FindFault;
use crate::items::put_part;
use crate::needle::{Needle, needle_of};
use crate::parts::Parts;
use std::alloc::Global;
use std::marker::Model;
use teco_model::pattern::{Item, Part};
use teco_regs::Regs;

/// The pattern that a search looks for.
#[derive(Drop)]
pub struct Pattern {
    pub(crate) items: Vec<Item>,
    pub(crate) anchor: Option<Anchor>,
    pub(crate) needle: Option<Needle>,
}

impl Model for Pattern {
    ghost use Rattle.std.specs.Option.{ForSome};
    ghost use Rattle.teco_model.specs.Pattern as model;
    ghost use Rattle.teco_find.specs.Anchors.{Anchors};
    ghost use Rattle.teco_find.specs.Needles.{IsNeedle};

    ghost Value = { model.Pattern };

    ghost view = { λ p. p.items.items };

    ghost invariant = { λ p.
        ForSome p.anchor (Anchors p.items.items) × ForSome p.needle (IsNeedle p.items.items) };
}

impl Pattern {
    // The pattern of an empty text.
    pub(crate) fn empty(alloc: Global) -> Pattern
        ensures { result ≡ [] }
    {
        Pattern {
            items: Vec::new(alloc),
            anchor: None,
            needle: None,
        }
    }

    /// The pattern that a search text says, with the texts that the registers have now. Letters
    /// are matched in either case unless it is `exact`. A fault of the text is told before any
    /// memory is wanted, and an empty text takes none.
    #[tactic(auto, using(crate::proofs::Succession::minimum_none))]
    pub fn read(alloc: Global, text: &[u8], regs: &Regs, exact: bool) -> Result<Pattern, FindFault>
        ensures pattern { Gives pattern_cause (memory_where IsOk) (λ x. x)
            (model.pattern regs.now exact text.now) result }
        ensures empty { length text.now ≡ 0 → IsOk result }
    {
        let least = minimum(text)?;
        let mut items = Vec::with_capacity(alloc, least.unwrap_or(0))?;
        let mut parts = Parts::of(text);
        while let Some(part) = parts.next()? {
            put_part(&mut items, part, regs, exact)?;
        }
        let anchor = anchor_of(&items);
        let needle = needle_of(alloc, &items)?;
        Ok(Pattern {
            items,
            anchor,
            needle,
        })
    }
}

/// How many characters a match of a search text has at the least; `None` where the text of a
/// register is part of it.
///
/// Takes no memory.
pub fn minimum(text: &[u8]) -> Result<Option<usize>, FindFault>
    ensures { Gives pattern_cause codes_alone (λ x. x) (model.minimum text.now) result }
{
    let mut least = Some(0);
    let mut parts = Parts::of(text);
    while let Some(part) = parts.next()? {
        least = with_part(least, part);
    }
    Ok(least)
}

// The least length with one more part.
fn with_part(least: Option<usize>, part: Part) -> Option<usize>
    requires { IfSome least (λ n. n + 1 < 2 ^ 64) }
    ensures { result ≡ model.with_part least part }
{
    match part {
        Part::Item(_) => Some(least? + 1),
        Part::Register(_) => None,
    }
}
