//! Why a command is not executed.
ghost use Rattle.std.specs.Prelude.{◌≡◌};
ghost use Rattle.teco_editor.specs.declared.stuck.Stuck.TheVariants as stuck;
ghost use Rattle.teco_editor.specs.Faults.{stuck_by, stuck_by_arguments, stuck_by_registers};

use std::alloc::AllocError;
use teco_base::Code as Reason;
use teco_expr::ArgFault;
use teco_regs::RegFault;
use teco_text::TextFault;

/// Why a command is not executed. All is then as it was.
#[derive(Clone, Copy)]
pub enum Stuck {
    /// The command's code.
    Code(Reason),
    /// A growth was refused.
    Memory,
}

impl From<Reason> for Stuck {
    ghost from_gives = { λ code e. e ≡ stuck.Code code };

    fn from(code: Reason) -> Stuck {
        Stuck::Code(code)
    }
}

impl From<AllocError> for Stuck {
    ghost from_gives = { λ _ e. e ≡ stuck.Memory };

    fn from(_refused: AllocError) -> Stuck {
        Stuck::Memory
    }
}

impl From<TextFault> for Stuck {
    ghost from_gives = { λ fault e. e ≡ stuck_by fault };

    fn from(fault: TextFault) -> Stuck {
        match fault {
            TextFault::Off => Stuck::Code(Reason::Pop),
            TextFault::Full => Stuck::Code(Reason::Ful),
            TextFault::Memory => Stuck::Memory,
        }
    }
}

impl From<ArgFault> for Stuck {
    ghost from_gives = { λ fault e. e ≡ stuck_by_arguments fault };

    fn from(fault: ArgFault) -> Stuck {
        match fault {
            ArgFault::Code(code) => Stuck::Code(code),
            ArgFault::Memory => Stuck::Memory,
        }
    }
}

impl From<RegFault> for Stuck {
    ghost from_gives = { λ fault e. e ≡ stuck_by_registers fault };

    fn from(fault: RegFault) -> Stuck {
        match fault {
            RegFault::Empty => Stuck::Code(Reason::Pes),
            RegFault::Full => Stuck::Code(Reason::Ful),
            RegFault::Memory => Stuck::Memory,
        }
    }
}
