//! What hosts of files say of their calls.
use crate::messages::tell;
use std::io::{Read, Write};
use teco_console::Voice;
use teco_files::{System, Trouble};
use teco_hosts::Host;
use teco_pages::{FileHost, PolicyHost};
use teco_streams::Streams;

/// A host that says what is left of its input, and why its last call that failed did.
pub trait Reporting {
    /// How many bytes of the open input were not given yet, if that can be told.
    fn bytes_left(&self) -> Option<u64>;

    /// How many bytes the open input had at first, if that can be told.
    fn input_length(&self) -> Option<u64>;

    /// What could not be done in the last call that failed.
    fn trouble(&self) -> Option<&Trouble>;
}

impl<R: System> Reporting for FileHost<R> {
    fn bytes_left(&self) -> Option<u64> {
        FileHost::bytes_left(self)
    }

    fn input_length(&self) -> Option<u64> {
        FileHost::input_length(self)
    }

    fn trouble(&self) -> Option<&Trouble> {
        FileHost::trouble(self)
    }
}

impl<R: System> Reporting for PolicyHost<'_, R> {
    fn bytes_left(&self) -> Option<u64> {
        self.host().bytes_left()
    }

    fn input_length(&self) -> Option<u64> {
        self.host().input_length()
    }

    fn trouble(&self) -> Option<&Trouble> {
        self.host().trouble()
    }
}

impl<H: Host + Reporting + Drop, I: Read + Drop, O: Write + Drop> Reporting for Streams<H, I, O> {
    fn bytes_left(&self) -> Option<u64> {
        if self.reads_file() {
            self.files().bytes_left()
        } else {
            None
        }
    }

    fn input_length(&self) -> Option<u64> {
        if self.reads_file() {
            self.files().input_length()
        } else {
            None
        }
    }

    fn trouble(&self) -> Option<&Trouble> {
        Streams::trouble(self).or(self.files().trouble())
    }
}

/// Says why the last call of a host failed, if one did.
pub fn tell_trouble<H: Reporting, E: Write + Drop>(voice: &mut Voice<E>, host: &H) {
    if let Some(trouble) = host.trouble() {
        tell(voice, trouble);
    }
}
