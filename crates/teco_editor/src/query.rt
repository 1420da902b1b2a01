//! `Q`, `^X` and `\\`: what they give, and what they do with a value.
ghost use Rattle.std.specs.Prelude.{◌≡◌, ◌≤◌, length};
ghost use Rattle.teco_base.specs.Does.{Does};
ghost use Rattle.teco_model.specs.Character as character;
ghost use Rattle.teco_model.specs.Memory.{query_grows};
ghost use Rattle.teco_model.specs.Query as model;
ghost use Rattle.teco_model.specs.declared.kind.Query.TheVariants as query_kind;
ghost use Rattle.teco_editor.specs.Commands.{effect_seen, growing_if, stuck_cause};

use crate::editor::Editor;
use crate::stuck::Stuck;
use teco_base::{Reg, decimal};
use teco_model::kind::Query;
use teco_text::TextStore;

/// The answer where no value is given.
#[derive(Clone, Copy)]
pub struct Reply {
    /// The value.
    pub value: i32,
    /// The place of the pointer then.
    pub dot: usize,
}

// The code of the character at a place of a text, -1 outside.
fn code_at(text: &[u8], place: i64) -> i32
    ensures { result ≡ character.code_at text.now place }
{
    let Ok(place) = usize::try_from(place) else {
        return -1;
    };
    text.get(place).map_or(-1, |c| i32::from(*c))
}

impl<T: TextStore> Editor<T> {
    /// `nA` answers the code of the character n places behind the pointer, -1 outside the text.
    pub fn character(&self, n: i32) -> i32
        ensures { result ≡ character.character n self.now }
    {
        let place = self.dot() as i64 + i64::from(n);
        let Ok(place) = usize::try_from(place) else {
            return -1;
        };
        self.screen.store().at(place).map_or(-1, i32::from)
    }

    // `Q` gives a register's number, and with a colon the length of its text.
    fn register_value(&self, reg: Reg, colons: u8) -> i32
        ensures { model.query (query_kind.Number reg) colons self.now
            ≡ model.reply self.now result }
    {
        if colons == 0 {
            self.regs.number(reg)
        } else {
            self.regs.text(reg).len() as i32
        }
    }

    /// Without a value `Q` gives a register's number, or with a colon the length of its text, `^X`
    /// the search mode, and `\\` the number at the pointer, which goes past it.
    #[inline(always)]
    pub fn query(&self, query: Query, colons: u8) -> Reply
        ensures value { (model.query query colons self.now).value ≡ result.value }
        ensures kept { (model.query query colons self.now).kept
            ≡ record self.now { pointer = result.dot } }
        ensures within_text { result.dot ≤ length self.now.text }
    {
        let dot = self.dot();
        match query {
            Query::Number(reg) => Reply {
                value: self.register_value(reg, colons),
                dot,
            },
            Query::Mode => Reply {
                value: self.mode,
                dot,
            },
            Query::Conversion => {
                let read = self.number_here();
                Reply {
                    value: read.number,
                    dot: read.end,
                }
            }
        }
    }

    /// With a value `nQ` answers a character of a register's text, `n^X` sets the search mode, and
    /// `n\\` inserts the number in decimal.
    #[inline(never)]
    pub fn query_with(&mut self, query: Query, n: i32) -> Result<Option<i32>, Stuck>
        ensures { Does stuck_cause (growing_if (query_grows query (Some n))) effect_seen
            self.old self.new (model.query_with query n self.old) result }
    {
        match query {
            Query::Number(reg) => Ok(Some(code_at(self.regs.text(reg), i64::from(n)))),
            Query::Mode => {
                self.mode = n;
                Ok(None)
            }
            Query::Conversion => self.insert(decimal(n).as_bytes()),
        }
    }
}
