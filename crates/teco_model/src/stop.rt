use teco_base::Code;

/// What the host could not do. Each is typed as a code.
#[derive(Clone, Copy)]
pub enum HostFault {
    /// Open an input.
    NoFile,
    /// Read the input.
    In,
    /// Open, write, close or drop an output.
    Out,
}

/// Why a run stopped.
#[derive(Clone, Copy)]
pub enum Stop {
    /// The end was reached after this many steps.
    Ended { steps: u64 },
    /// The last of this many steps ends the session.
    Exit { steps: u64 },
    /// The next step is a code.
    Error(Code),
    /// As many steps as were allowed are done, and the end is not reached.
    Limit,
    /// A growth was refused in the next step, which left all as it was.
    Memory,
    /// The host failed in the next step.
    HostFault(HostFault),
}
