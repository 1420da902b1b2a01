//! The arguments that are pending.
ghost use Rattle.std.specs.Prelude.{◌≡◌, ◌≤◌, ◌<◌, length, Ok, OnOk, OnSome, IfNone, Some};
ghost use Rattle.teco_model.specs.Arguments as model;
ghost use Rattle.teco_model.specs.Arguments.{with_level};
ghost use Rattle.teco_base.specs.Does.{Does, Updates, codes_alone, memory_where};
ghost use Rattle.teco_expr.specs.Faults.{argument_cause};

use crate::level::{self, EMPTY};
use smallvec::SmallVec;
use std::alloc::Global;
use std::marker::Model;
use teco_base::Code;
use teco_model::{Level, Operator, Taken};

/// Why arguments refuse a call. They are then as they were.
#[derive(Clone, Copy)]
pub enum ArgFault {
    /// The code of the refusal.
    Code(Code),
    /// A growth was refused; only a parenthesis beyond the eighth that is open wants memory.
    Memory,
}

/// The arguments that are pending, with one level for each open parenthesis besides the outermost.
#[derive(Drop)]
pub struct Args {
    level: Level,
    outer: SmallVec<Level, 8>,
}

impl Model for Args {
    ghost use Rattle.std.specs.Prelude.{◌≤◌, reverse};
    ghost use Rattle.teco_model.specs.Arguments.{Arguments};

    ghost Value = { Arguments };

    ghost view = { λ a. record { level = a.level; outer = reverse a.outer.items } };

    ghost invariant = { λ a. 8 ≤ a.outer.capacity };
}

impl Args {
    /// No argument is pending.
    pub fn new(alloc: Global) -> Self
        ensures { result ≡ model.no_arguments }
    {
        Args {
            level: EMPTY,
            outer: SmallVec::new(alloc),
        }
    }

    /// Gives the number that a run of digits is.
    pub fn digit_run(&mut self, digits: &[u8]) -> Result<(), ArgFault>
        ensures { Updates argument_cause codes_alone self.old self.new
            (with_level self.old (model.level_with (model.run_value digits.now) self.old.level))
            result }
    {
        self.value(level::run_value(digits))
    }

    /// An operator waits for the next value.
    pub fn op(&mut self, operator: Operator) -> Result<(), ArgFault>
        ensures { Updates argument_cause codes_alone self.old self.new
            (with_level self.old (model.level_with_operator operator self.old.level)) result }
    {
        self.level = level::operate(operator, self.level).map_err(ArgFault::Code)?;
        Ok(())
    }

    /// Opens a parenthesis.
    pub fn open(&mut self) -> Result<(), ArgFault>
        ensures { Updates argument_cause (memory_where (λ _. 8 ≤ length self.old.outer))
            self.old self.new (Ok (model.levels_after_open self.old)) result }
    {
        self.outer.push(self.level).map_err(|_| ArgFault::Memory)?;
        self.level = EMPTY;
        Ok(())
    }

    /// Closes the innermost parenthesis, and gives its value outside.
    pub fn close(&mut self) -> Result<(), ArgFault>
        ensures { Updates argument_cause codes_alone self.old self.new
            (model.levels_after_close self.old) result }
    {
        let Some(outside) = self.outer.last().copied() else {
            return Err(ArgFault::Code(Code::Arg));
        };
        let value = level::enclosed(self.level).map_err(ArgFault::Code)?;
        self.level = level::give(value, outside).map_err(ArgFault::Code)?;
        self.outer.pop();
        Ok(())
    }

    /// Makes the value so far the first of two.
    pub fn comma(&mut self) -> Result<(), ArgFault>
        ensures { Updates argument_cause codes_alone self.old self.new
            (with_level self.old (model.level_after_comma self.old.level)) result }
    {
        self.level = level::comma(self.level).map_err(ArgFault::Code)?;
        Ok(())
    }

    /// Gives a value.
    #[inline(always)]
    pub fn value(&mut self, value: i32) -> Result<(), ArgFault>
        ensures { Updates argument_cause codes_alone self.old self.new
            (with_level self.old (model.level_with value self.old.level)) result }
    {
        self.level = level::give(value, self.level).map_err(ArgFault::Code)?;
        Ok(())
    }

    /// Puts a command's answer in the place of what is pending in the innermost level.
    #[inline(always)]
    pub fn answer(&mut self, value: i32)
        ensures { self.new ≡ model.levels_after_answer (Some value) self.old }
    {
        self.level = Level {
            first: None,
            value: Some(value),
            operator: None,
        };
    }

    /// The value so far in the innermost level, if there is one.
    #[inline(always)]
    pub fn value_so_far(&self) -> Option<i32>
        ensures { result ≡ self.now.level.value }
    {
        self.level.value
    }

    /// The value that stands in the innermost level, with no operator behind it.
    #[inline(always)]
    pub fn standing(&self) -> Option<i32>
        ensures { result ≡ model.standing_value self.now.level }
    {
        if self.level.operator.is_some() {
            return None;
        }
        self.level.value
    }

    /// Takes the value that stands in the innermost level, with no operator behind it, and what
    /// else is pending there; `None` where none stands, and then nothing changes.
    #[inline(always)]
    pub fn take_standing(&mut self) -> Option<i32>
        ensures value { result ≡ model.standing_value self.old.level }
        ensures taken { OnSome result (self.new ≡ model.levels_after_taking self.old) }
        ensures none { IfNone result (self.new ≡ self.old) }
    {
        let value = self.standing()?;
        self.level = EMPTY;
        Some(value)
    }

    /// Takes the arguments of the innermost level.
    #[inline(always)]
    pub fn take(&mut self) -> Result<Taken, ArgFault>
        ensures does { Does argument_cause codes_alone (λ _ taken. taken) self.old self.new
            (model.arguments_of self.old.level) result }
        ensures taken { OnOk result (self.new ≡ model.levels_after_taking self.old) }
    {
        let taken = level::taken(self.level).map_err(ArgFault::Code)?;
        self.level = EMPTY;
        Ok(taken)
    }

    /// The arguments of the innermost level, as a command takes them. Nothing changes.
    #[inline(always)]
    pub fn to_take(&self) -> Result<Taken, Code>
        ensures { result ≡ model.arguments_of self.now.level }
    {
        level::taken(self.level)
    }

    /// Nothing is pending in the innermost level any more.
    #[inline(always)]
    pub fn empty_level(&mut self)
        ensures { self.new ≡ model.levels_after_taking self.old }
    {
        self.level = EMPTY;
    }

    /// Drops all arguments, and all open parentheses. Mostly none is open, and clearing takes longer
    /// than seeing that.
    #[inline(always)]
    pub fn drop_all(&mut self)
        ensures { self.new ≡ model.no_arguments }
    {
        self.level = EMPTY;
        if !self.outer.is_empty() {
            self.outer.clear();
        }
    }
}
