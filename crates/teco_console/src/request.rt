//! What is asked of a library.
use crate::forms::{Escape, is_readable};
use crate::method::Method;
use crate::setting::Setting;

/// What a library is read from: a file, texts of the command line, or both.
#[derive(Clone, Copy)]
pub struct Origin<'a> {
    /// The name of its file, if it has one; `-` for standard input.
    pub file: Option<&'a str>,
    /// Texts in the form of words that together, a line each, are the macro A, if there are any.
    pub texts: &'a [&'a str],
}

impl<'a> Origin<'a> {
    /// A file alone.
    pub fn of_file(name: &'a str) -> Origin<'a> {
        Origin {
            file: Some(name),
            texts: &[],
        }
    }

    /// Is it written for people, with a character that can be seen for ESC?
    pub fn is_readable(self, escape: Escape) -> bool {
        match self.file {
            _ if !self.texts.is_empty() => true,
            Some(name) => is_readable(name, escape),
            None => false,
        }
    }
}

/// A library, how it writes ESC, and how it is verified.
#[derive(Clone, Copy)]
pub struct Request<'a> {
    pub library: Origin<'a>,
    pub escape: Escape,
    /// How its macros are verified.
    pub method: Method,
    /// Search texts for its file: each stands in the place of `^EQ` and the name of its register.
    pub searches: &'a [Setting],
}
