//! What hears how the command strings of a session stop.
use teco_base::Code;
use teco_hosts::Host;
use teco_run::{Machine, Stopped};
use teco_text::TextStore;

/// What hears how the command strings of a session stop, over a host of files. What it does has no
/// part in what the session does.
pub trait Listener<H: Host> {
    /// A command string was run, and what it has to write was written, or could not be. The machine
    /// and the host are as it left them.
    fn stopped<T: TextStore>(
        &mut self,
        text: &[u8],
        stopped: &Stopped,
        machine: &Machine<T>,
        host: &H,
    );

    /// A code was typed for what follows the last command string.
    fn rest(&mut self, code: Option<Code>);
}

/// What hears nothing.
#[derive(Clone, Copy)]
pub struct Silent;

impl<H: Host> Listener<H> for Silent {
    fn stopped<T: TextStore>(
        &mut self,
        _text: &[u8],
        _stopped: &Stopped,
        _machine: &Machine<T>,
        _host: &H,
    ) {}

    fn rest(&mut self, _code: Option<Code>) {}
}
