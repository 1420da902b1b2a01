//! What is asked before a verified macro is run.
ghost use Rattle.std.specs.Prelude.{ℕ, ◌≡◌, Option, Bool, true};

use crate::run::PromisedCall;
use teco_base::Code;
use teco_hosts::Host;
use teco_run::{Machine, Stopped};
use teco_session::Listener;
use teco_text::TextStore;

/// Whether a verified macro may be run: what it answers hangs on nothing else than what it is asked.
pub trait Guard {
    // what an answer says, where so many characters are held, and no more bytes than these of the
    // input are unread, if that is known
    ghost answers: { Self → ℕ → Option ℕ → Bool → Type 0 };

    /// May the macro be run, where this many characters are held, its library's texts among them,
    /// and no more bytes than these of the input are unread, if that can be told?
    fn admits(&self, held: u128, unread: Option<u64>) -> bool
        ensures { answers self.now held unread result };
}

/// What a guard was asked, and what it answered.
#[derive(Clone, Copy)]
pub struct Asked {
    /// How many characters are held, the texts of the macro's library among them.
    pub held: u128,
    /// How many bytes of the input are unread at most, if that can be told.
    pub unread: Option<u64>,
    /// May the macro be run?
    pub admitted: bool,
}

/// What hears the runs of an edit, over a host of files.
pub trait Observer<H: Host>: Listener<H> {
    /// The guard was asked whether the macro may be run. If it may, it is run next.
    fn asked(&mut self, asked: Asked, host: &H);
}

/// A macro that is to be run where a guard admits it.
#[derive(Drop)]
pub struct Order<'a, G: Guard> {
    /// The macro, with its argument.
    pub call: &'a PromisedCall<'a>,
    /// What is asked before each run.
    pub guard: &'a G,
}

/// What admits each run, and hears nothing.
#[derive(Clone, Copy)]
pub struct Willing;

impl Guard for Willing {
    ghost answers = { λ _ _ _ answer. answer ≡ true };

    fn admits(&self, _held: u128, _unread: Option<u64>) -> bool {
        true
    }
}

impl<H: Host> Listener<H> for Willing {
    fn stopped<T: TextStore>(
        &mut self,
        _text: &[u8],
        _stopped: &Stopped,
        _machine: &Machine<T>,
        _host: &H,
    ) {}

    fn rest(&mut self, _code: Option<Code>) {}
}

impl<H: Host> Observer<H> for Willing {
    fn asked(&mut self, _asked: Asked, _host: &H) {}
}
