//! Long texts of A: of some nodes the place, and where their last ways lead; and where what was pushed
//! lies. What is expanded of short texts, and why there is no expansion, is said by cases.
use crate::subjects::{TableRow, expect_all, library_of};
use std::alloc::{AllocError, Global};
use std::test::*;
use teco_base::Reg;
use teco_check::{Table, derive};
use teco_expansion::{ExpandFault, ExpandReason, expand};
use teco_library::Library;

/// Texts, and how often each of them stands in the text of A, one after another.
type RepeatedParts = &'static [(&'static str, usize)];

/// A long text, how many nodes it has, and of one of them its number, its place and its last way.
struct LongExpanded(RepeatedParts, usize, (usize, usize, usize));

const LONG_EXPANSIONS: &[LongExpanded] = &[
    // as many elements as there may be
    LongExpanded(&[("C", 4_094)], 4_096, (2, 0, 3)),
    // each of the tests is far from its end
    LongExpanded(&[("\"N", 998), ("'", 1_998)], 2_998, (2, 0, 1998)),
    // elements are found behind long runs of blanks
    LongExpanded(BLANKS, 4, (3, 225, 4)),
    // jumps to one place before many blanks are followed without reading the blanks for each
    LongExpanded(JUMPS, 4_003, (3, 3, 4003)),
];

const BLANKS: RepeatedParts = &[(" ", 95), ("J", 1), (" ", 129), ("J", 1), (" ", 68)];

const JUMPS: RepeatedParts = &[("Ox\x1b", 4_000), ("!x!", 1), (" ", 87_991)];

/// A long text, whether it is refused for a call of itself or for its size, and the place in it.
struct LongRefused(RepeatedParts, bool, usize);

const LONG_REFUSALS: &[LongRefused] = &[
    // one element more than there may be
    LongRefused(&[("C", 4_095)], false, 4_095),
    // conditionals before many elements are gone through without reading on for each
    LongRefused(TESTS, false, 6_095),
    // a call of the macro itself is found behind long runs of blanks
    LongRefused(&[(" ", 95), ("J", 1), (" ", 99), ("MA", 1)], true, 195),
    // jumps before many elements are followed without reading on for each
    LongRefused(FAR_JUMPS, false, 12_095),
];

const TESTS: RepeatedParts = &[("1\"E", 2_000), ("J", 91_994), ("'", 2_000)];

const FAR_JUMPS: RepeatedParts = &[("Ox\x1b", 4_000), ("J", 187_991), ("!x!", 1)];

// A file with a text of A.
fn file_of(alloc: Global, parts: RepeatedParts) -> Result<String, AllocError> {
    let mut file = String::from_str(alloc, "@^UA/")?;
    for (text, count) in parts {
        file.push_str(&text.repeat(alloc, *count)?)?;
    }
    file.push('/')?;
    Ok(file)
}

fn library_in(alloc: Global, parts: RepeatedParts) -> Option<Library> {
    library_of(alloc, file_of(alloc, parts).ok()?.as_bytes())
}

impl TableRow for LongExpanded {
    fn holds(&self, alloc: Global) -> Option<bool> {
        let library = library_in(alloc, self.0)?;
        let nodes = expand(alloc, &library, Reg::default()).ok()?;
        let (number, place, way) = self.2;
        if nodes.len() != self.1 || number == 0 || number > nodes.len() {
            return Some(false);
        }
        let last = match nodes.way(number, 1) {
            None => nodes.way(number, 0),
            last => last,
        };
        Some(nodes.place(number) == place && last == Some(way))
    }
}

impl TableRow for LongRefused {
    fn holds(&self, alloc: Global) -> Option<bool> {
        let library = library_in(alloc, self.0)?;
        match expand(alloc, &library, Reg::default()) {
            Err(ExpandFault::Refused(refusal)) => {
                let is_recursion = matches!(refusal.reason, ExpandReason::Recursion);
                let is_large = matches!(refusal.reason, ExpandReason::TooLarge);
                let is_why = (is_recursion, is_large) == (self.1, !self.1);
                Some(is_why && (refusal.register, refusal.place) == (0, self.2))
            }
            Err(ExpandFault::Memory) => None,
            Ok(_) => Some(false),
        }
    }
}

#[test]
fn long_texts_are_expanded_as_far_as_they_may_be(rt: HostRuntime) {
    expect_all(&rt, rt.alloc(), LONG_EXPANSIONS);
    expect_all(&rt, rt.alloc(), LONG_REFUSALS);
}

/// A text that pushes a pair at its node 2, and the node at which what is pushed is packed.
struct Packed(RepeatedParts, usize);

const PACKED: &[Packed] = &[Packed(&[("[B", 1), ("J", 140)], 128)];

// Do the pairs that were pushed before two nodes lie at the same place?
fn lie_together(table: &Table, one: usize, other: usize) -> Option<bool> {
    Some(table.facts(one)?.has_pushes_of(table.facts(other)?))
}

impl TableRow for Packed {
    fn holds(&self, alloc: Global) -> Option<bool> {
        let library = library_in(alloc, self.0)?;
        let nodes = expand(alloc, &library, Reg::default()).ok()?;
        let table = derive(alloc, None, &nodes, &[]).ok()?;
        let before = self.1.saturating_sub(1);
        let is_kept = lie_together(&table, 3, before)?
            && lie_together(&table, self.1, nodes.len())?;
        Some(is_kept && !lie_together(&table, before, self.1)?)
    }
}

#[test]
fn what_was_pushed_is_packed(rt: HostRuntime) {
    expect_all(&rt, rt.alloc(), PACKED);
}
