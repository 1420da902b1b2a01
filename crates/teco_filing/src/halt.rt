//! Why a command of pages or files is not done.
ghost use Rattle.std.specs.Prelude.{◌≡◌};
ghost use Rattle.teco_filing.specs.Halts.{halt_of, halt_by_stuck};
ghost use Rattle.teco_filing.specs.declared.halt.Halt.TheVariants as halt;

use std::alloc::AllocError;
use teco_base::Code as Reason;
use teco_editor::Stuck;
use teco_hosts::Fault;
use teco_model::HostFault;

/// Why a command is not done.
#[derive(Clone, Copy)]
pub enum Halt {
    /// The command's code.
    Code(Reason),
    /// A growth was refused.
    Memory,
    /// The host failed.
    Host(HostFault),
}

impl From<Reason> for Halt {
    ghost from_gives = { λ code e. e ≡ halt.Code code };

    fn from(code: Reason) -> Halt {
        Halt::Code(code)
    }
}

impl From<AllocError> for Halt {
    ghost from_gives = { λ _ e. e ≡ halt.Memory };

    fn from(_refused: AllocError) -> Halt {
        Halt::Memory
    }
}

impl From<Stuck> for Halt {
    ghost from_gives = { λ stuck e. e ≡ halt_by_stuck stuck };

    fn from(stuck: Stuck) -> Halt {
        match stuck {
            Stuck::Code(code) => Halt::Code(code),
            Stuck::Memory => Halt::Memory,
        }
    }
}

impl From<Fault> for Halt {
    ghost from_gives = { λ fault e. e ≡ halt_of fault };

    fn from(fault: Fault) -> Halt {
        match fault {
            Fault::NoFile => Halt::Host(HostFault::NoFile),
            Fault::In => Halt::Host(HostFault::In),
            Fault::Out => Halt::Host(HostFault::Out),
            Fault::Full => Halt::Code(Reason::Ful),
            Fault::Memory => Halt::Memory,
        }
    }
}
