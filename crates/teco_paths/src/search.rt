//! A search for claims of a macro, which is handed in: nothing is promised of it, and what it finds is
//! checked.
use crate::claimed::Called;
use crate::fault::PathFault;
use std::alloc::Global;
use teco_claims::{Claim, Claims};
use thiserror::Error;

/// Why no claims are found.
#[derive(Clone, Copy, Debug, Error)]
pub enum SearchRefusal {
    /// What comes of an element is not told.
    #[error("what comes of this element is not told")]
    NotTold(usize),
    /// The file that an element wants is not one of those that are open.
    #[error("the file that this element wants is not open")]
    NotOpen(usize),
    /// A condition of an element could not be shown.
    #[error("a condition of this element could not be shown")]
    Condition(usize),
    /// What is held, or the length of a text, has no bound that could be shown.
    #[error("no bound was found for what is held")]
    Size,
    /// The steps of the loop whose body begins at an element have no bound that could be shown.
    #[error("no bound was found for the steps of this loop")]
    Steps(usize),
    /// The search was given up at its limit of steps, in the iteration that begins at this element, if that
    /// can be told.
    #[error("the search was given up")]
    TooMuch(Option<usize>),
    /// What was found is not accepted.
    #[error("what was found is not accepted: {0}")]
    NotAccepted(PathFault),
    /// A growth was refused.
    #[error("out of memory")]
    Memory,
}

/// Where a search has stopped: at which point, what is known there, and what more would do.
#[derive(Drop)]
pub struct Shortfall {
    /// The condition that could not be shown, as a claim where its element stands, if it can be told.
    pub needed: Option<Claim>,
    /// The number of the element from which paths lead to the condition, or of the one that begins the
    /// body of the loop whose steps have no bound, or of the first loop where what is held has none.
    pub point: usize,
    /// What would show the condition, as a claim there, if it can be told.
    pub wanted: Option<Claim>,
    /// What is known there.
    pub known: Vec<Claim>,
    /// Ways on which nothing is known to fall together, a few: the numbers of the elements on each.
    pub ways: Vec<Vec<usize>>,
}

/// Why no claims of a macro are found in a way.
#[derive(Drop)]
pub struct SearchFailure {
    pub refusal: SearchRefusal,
    /// What more would do, where the first way can tell that.
    pub shortfall: Option<Shortfall>,
}

/// How many times the usual number of steps a search may take: once or more.
#[derive(Clone, Copy)]
pub struct Effort {
    times: u32,
}

impl Effort {
    /// Once.
    pub fn usual() -> Effort {
        Effort { times: 1 }
    }

    /// So many times; once, where that is 0.
    pub fn of(times: u32) -> Effort {
        Effort {
            times: times.max(1),
        }
    }

    /// So many times a number of steps.
    pub fn steps(self, usual: usize) -> usize {
        usual.saturating_mul(self.times as usize)
    }
}

/// The steps that a search of a macro may still take, in all its ways together.
#[derive(Clone, Copy)]
pub struct Budget {
    pub effort: Effort,
    pub left: usize,
}

impl Budget {
    /// With an effort, where this number of steps is the usual one.
    pub fn of(effort: Effort, usual: usize) -> Budget {
        Budget {
            effort,
            left: effort.steps(usual),
        }
    }

    /// How many steps a part of the search may take of which this number is the usual one.
    pub fn part(&self, usual: usize) -> usize {
        self.effort.steps(usual).min(self.left)
    }

    /// Takes steps from those that are left.
    pub fn spend(&mut self, steps: usize) {
        self.left = self.left.saturating_sub(steps);
    }
}

/// Which way of looking is tried.
#[derive(Clone, Copy)]
pub struct Attempt {
    /// Its number, from 0.
    pub way: usize,
    /// Whether claims that an earlier way found were not certain.
    pub is_behind_doubt: bool,
}

/// A search for claims of macros, in one or more ways. Whatever it finds is checked, so nothing is
/// promised of it; the same macro has to have the same claims each time.
pub trait ClaimSearch {
    /// How many ways of looking it has, the quickest first.
    const WAYS: usize;

    /// How many steps all ways together may take, with the usual effort.
    const STEPS: usize;

    /// Looks for claims of a macro in a way: how many commands it takes, how much it holds, and what
    /// holds at its cut points. What that takes is taken from the budget.
    ///
    /// # Errors
    ///
    /// Why none are found in that way. There may be some all the same.
    fn find(
        called: &Called<'_>,
        attempt: Attempt,
        budget: &mut Budget,
        alloc: Global,
    ) -> Result<Claims, SearchFailure>;

    /// The way that is worth its time behind one that had this refusal, where the first way had
    /// another; none if there is none.
    fn next_way(first: SearchRefusal, refusal: SearchRefusal, way: usize) -> Option<usize>;
}
