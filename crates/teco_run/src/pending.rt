//! What is pending between two elements.
ghost use Rattle.std.specs.Prelude.{◌≡◌, ◌≤◌, Some, None, IfSome};
ghost use Rattle.teco_model.specs.Arguments.{no_arguments};
ghost use Rattle.teco_run.specs.Replies.{Leaves, Takes};

use crate::course::Course;
use std::alloc::Global;
use std::marker::Model;
use teco_editor::Stuck;
use teco_expr::Args;
use teco_model::Taken;

/// What is pending between two elements: arguments, and what an element of several steps still has
/// to do.
#[derive(Drop)]
pub struct Pending {
    pub arguments: Args,
    // at least 1
    left: Option<u32>,
}

impl Model for Pending {
    ghost use Rattle.std.specs.Prelude.{◌≤◌, IfSome};
    ghost use Rattle.teco_run.specs.Pending.{Pending};

    ghost Value = { Pending };

    ghost view = { λ p. record { arguments = p.arguments; left = p.left } };

    ghost invariant = { λ p. IfSome p.left (λ n. 1 ≤ n) };
}

impl Pending {
    /// Nothing is.
    pub fn new(alloc: Global) -> Pending
        ensures { result ≡ record { arguments = no_arguments; left = None } }
    {
        Pending {
            arguments: Args::new(alloc),
            left: None,
        }
    }

    /// Takes the arguments.
    #[inline(always)]
    pub fn take(&mut self) -> Result<Taken, Stuck>
        ensures { Takes self.old self.new result }
    {
        Ok(self.arguments.take()?)
    }

    /// What is left to do at an element of several steps.
    pub fn left(&self) -> Option<u32>
        ensures value { result ≡ self.now.left }
        ensures some { IfSome result (λ n. 1 ≤ n) }
    {
        self.left
    }

    /// The element goes on with what is left to do, or behind itself where that is nothing.
    pub fn leave(&mut self, n: u32) -> Course
        ensures { Leaves self.old self.new n result }
    {
        if n == 0 {
            self.left = None;
            return Course::Behind;
        }
        self.left = Some(n);
        Course::Again
    }

    /// Nothing is left to do.
    pub fn clear_left(&mut self)
        ensures { self.new ≡ record self.old { left = None } }
    {
        self.left = None;
    }
}
