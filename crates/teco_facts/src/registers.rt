//! What is known of the registers. Facts share it, so that a copy of them takes little.
ghost use Rattle.std.specs.Prelude.{◌≡◌, OnOk, length};
ghost use Rattle.teco_base.specs.declared.TheConstants.{REGISTERS};

use crate::{Facts, Range};
use std::alloc::AllocError;
use std::rc::Rc;
use teco_base::REGISTERS;
use teco_poly::Poly;

/// The range of each number, and how long each text is at most.
#[derive(Clone, Copy)]
pub(crate) struct Registers {
    pub numbers: [Range; REGISTERS],
    pub texts: [Poly; REGISTERS],
}

impl Facts {
    // Puts this in the place of what is known of the registers, if there is memory.
    pub(crate) fn put_registers(&mut self, registers: Registers) -> Result<(), AllocError>
        requires numbers { length registers.numbers ≡ REGISTERS }
        requires texts { length registers.texts ≡ REGISTERS }
        ensures { OnOk result (self.new ≡ record self.old {
          numbers = registers.numbers;
          texts = registers.texts;
        }) }
    {
        self.known.registers = Rc::new(self.alloc, registers)?;
        Ok(())
    }
}
