//! The registers that a search text names, with their texts.
ghost use Rattle.std.specs.Prelude.{◌≡◌, ◌↔◌, IsTrue, OnOk, IfOk, Ok, All};
ghost use Rattle.teco_model.specs.Registers.{pair_of};
ghost use Rattle.teco_find.specs.Reading as reading;

use crate::fault::FindFault;
use crate::parts::Parts;
use std::alloc::{AllocError, Global};
use std::marker::Model;
use teco_base::Reg;
use teco_model::pattern::Part;
use teco_regs::Regs;

// A register that a search text names, with a text of it.
#[derive(Drop)]
pub(crate) struct Named {
    register: Reg,
    text: Vec<u8>,
}

impl Model for Named {
    ghost use Rattle.teco_find.specs.Reading as reading;

    ghost Value = { reading.Named };

    ghost view = { λ n. record { register = n.register; text = n.text.items } };
}

impl Named {
    // A register with the text that it has.
    fn of(alloc: Global, register: Reg, regs: &Regs) -> Result<Named, AllocError>
        ensures { IfOk result (λ n. n ≡ record {
          register = register;
          text = (pair_of register regs.now).text;
        }) }
    {
        let mut text = Vec::new(alloc);
        text.extend_from_slice(regs.text(register))?;
        Ok(Named { register, text })
    }

    // Has the register this text now?
    #[inline(never)]
    fn is_current(&self, regs: &Regs) -> bool
        ensures { IsTrue result ↔ reading.Has regs.now self.now }
    {
        regs.text(self.register) == self.text.as_slice()
    }
}

// Have all of them these texts now?
#[inline(always)]
pub(crate) fn are_current(named: &[Named], regs: &Regs) -> bool
    ensures { IsTrue result ↔ All (reading.Has regs.now) named.now }
{
    named.iter().all(|n| n.is_current(regs))
}

// The list becomes that of the registers that a text names, each with the text that it has.
pub(crate) fn list_named(named: &mut Vec<Named>, text: &[u8], regs: &Regs) -> Result<(), FindFault>
    ensures { OnOk result (reading.named_in regs.now text.now ≡ Ok named.new.items) }
{
    named.clear();
    let mut parts = Parts::of(text);
    while let Some(part) = parts.next()? {
        if let Part::Register(register) = part {
            named.push(Named::of(*named.allocator(), register, regs)?)?;
        }
    }
    Ok(())
}
