//! A run that is done one step at a time.
ghost use Rattle.std.specs.Prelude.{◌≡◌};
ghost use Rattle.teco_run.specs.Executions.{next_place};

use crate::frames::Frames;
use crate::pending::Pending;
use crate::site::Site;
use std::marker::Model;
use teco_base::Code;
use teco_model::HostFault;

/// A run that is done one step at a time: the texts that are executed, and what is pending.
#[derive(Drop)]
pub struct Execution<'a> {
    pub(crate) frames: Frames<'a>,
    pub(crate) pending: Pending,
}

impl<'a> Model for Execution<'a> {
    ghost use Rattle.teco_run.specs.Executions.{Execution};

    ghost Value = { Execution };

    ghost view = { λ e. record { frames = e.frames; pending = e.pending } };
}

impl Execution<'_> {
    /// Where the run stands.
    pub fn site(&self) -> Site
        ensures { result.place ≡ next_place self.now.frames }
    {
        self.frames.site()
    }

    /// The value that is pending in the innermost level, if one is.
    pub fn value(&self) -> Option<i32>
        ensures { result ≡ self.now.pending.arguments.level.value }
    {
        self.pending.arguments.value_so_far()
    }
}

/// What one step came to.
#[derive(Clone, Copy)]
pub enum Progress {
    /// The step was done, and the next may be.
    On,
    /// The end of the command string.
    Ended,
    /// The end of the session.
    Exit,
    /// The code of the step.
    Error(Code),
    /// A growth was refused.
    Memory,
    /// The host failed.
    HostFault(HostFault),
}
