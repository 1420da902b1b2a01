//! The parts of a search text, one after another.
ghost use Rattle.std.specs.Prelude.{◌≡◌};
ghost use Rattle.teco_find.specs.Reading.{NextPart};

use crate::fault::Flaw;
use crate::read::part_at;
use teco_model::pattern::Part;

// The parts that are still to be read.
#[derive(Drop)]
pub(crate) struct Parts<'a> {
    rest: &'a [u8],
}

impl<'a> Parts<'a> {
    pub(crate) fn of(text: &'a [u8]) -> Parts<'a>
        ensures { result.rest.now ≡ text.now }
    {
        Parts { rest: text }
    }

    // The next part; `None` where the text has ended.
    #[tactic(auto, using(crate::proofs::Succession::reading))]
    pub(crate) fn next(&mut self) -> Result<Option<Part>, Flaw>
        ensures { NextPart self.old.rest.now self.new.rest.now result }
    {
        if self.rest.is_empty() {
            return Ok(None);
        }
        match part_at(self.rest) {
            Ok((part, rest)) => {
                self.rest = rest;
                Ok(Some(part))
            }
            Err(flaw) => Err(flaw),
        }
    }
}
