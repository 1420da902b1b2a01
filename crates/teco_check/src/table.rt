//! Tables: what is known at each node, and what is chosen for each iteration.
ghost use Rattle.std.specs.Prelude.{◌≡◌, ◌++◌, ◌∷◌, [], suc, length, IfSome, IsTrue, OnOk, option_copied};
ghost use Rattle.teco_verifier.specs.expansion.Node.{numbered};
ghost use Rattle.teco_verifier.specs.table.Table.{facts_at, choice_at};
ghost use Rattle.teco_check.specs.Kept.{AreKept};

use std::alloc::{AllocError, Global};
use std::marker::Model;
use teco_facts::{Choice, Facts};

/// What a table says at a node.
#[derive(Drop)]
pub struct Row {
    facts: Option<Facts>,
    choice: Option<Choice>,
}

impl Model for Row {
    ghost use Rattle.std.specs.Prelude.{IfSome};
    ghost use Rattle.teco_verifier.specs.table.Table as table;
    ghost use Rattle.teco_check.specs.Kept.{AreKept};

    ghost Value = { table.Row };

    ghost view = { λ r. record { facts = r.facts; choice = r.choice } };

    ghost invariant = { λ r. IfSome r.facts AreKept };
}

/// Whether a table may have these facts: more may be added to their falls, and no more iterations
/// are open than there may be.
pub fn are_kept(facts: &Facts) -> bool
    ensures yes { IsTrue result → AreKept facts.now }
    ensures no { AreKept facts.now → IsTrue result }
{
    facts.is_small() && facts.has_room()
}

impl Row {
    /// What is known before the element, where it is reached, and what is chosen for its body,
    /// where it is a < whose body is.
    pub fn of(facts: Option<Facts>, choice: Option<Choice>) -> Row
        requires { IfSome facts AreKept }
        ensures { result ≡ record { facts = facts; choice = choice } }
    {
        Row { facts, choice }
    }

    /// What is known before the element, where it is reached.
    pub fn facts(&self) -> Option<&Facts>
        ensures value { option_copied result ≡ self.now.facts }
        ensures kept { IfSome self.now.facts AreKept }
    {
        self.facts.as_ref()
    }

    /// What is chosen for its body.
    pub fn choice(&self) -> Option<Choice>
        ensures { result ≡ self.now.choice }
    {
        self.choice
    }
}

/// The rows of the nodes, in the order of their numbers.
#[derive(Drop)]
pub struct Table {
    rows: Vec<Row>,
}

impl Model for Table {
    ghost use Rattle.teco_verifier.specs.table.Table as table;

    ghost Value = { table.Table };

    ghost view = { λ t. t.rows.items };
}

impl Table {
    /// A table without rows.
    pub fn new(alloc: Global) -> Table
        ensures { result ≡ [] }
    {
        Table {
            rows: Vec::new(alloc),
        }
    }

    /// How many rows there are.
    pub fn len(&self) -> usize
        ensures { result ≡ length self.now }
    {
        self.rows.len()
    }

    /// Puts the row of the next number behind the others, if there is memory.
    pub fn push(&mut self, row: Row) -> Result<(), AllocError>
        ensures { OnOk result (self.new ≡ self.old ++ row ∷ []) }
    {
        self.rows.push(row)?;
        Ok(())
    }

    // The row behind that of a number.
    fn row_behind(&self, number: usize) -> Option<&Row>
        ensures { option_copied result ≡ numbered self.now (suc number) }
    {
        self.rows.get(number)
    }

    /// What is known at the node behind that of a number, where it is reached.
    pub fn facts_behind(&self, number: usize) -> Option<&Facts>
        ensures value { option_copied result ≡ facts_at self.now (suc number) }
        ensures kept { IfSome (facts_at self.now (suc number)) AreKept }
    {
        match self.row_behind(number) {
            None => None,
            Some(row) => row.facts(),
        }
    }

    /// What is known at the node of a number, where it is reached.
    pub fn facts(&self, number: usize) -> Option<&Facts>
        ensures value { option_copied result ≡ facts_at self.now number }
        ensures kept { IfSome (facts_at self.now number) AreKept }
    {
        if number == 0 {
            None
        } else {
            self.facts_behind(number - 1)
        }
    }

    /// What is chosen for the body of the < of a number.
    pub fn choice(&self, number: usize) -> Option<Choice>
        ensures { result ≡ choice_at self.now number }
    {
        if number == 0 {
            return None;
        }
        match self.row_behind(number - 1) {
            None => None,
            Some(row) => row.choice(),
        }
    }
}
