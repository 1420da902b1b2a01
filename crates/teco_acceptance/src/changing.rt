//! What an accepted macro can change, in words.
use std::alloc::{AllocError, Global};
use std::fmt::Write;
use teco_change_policies::Facts;
use teco_change_words::{NOTHING_TOLD, in_words};
use teco_promise::Promise;
use teco_told::changes_of_promise;

/// What the macro of a promise can change, in a line of words.
pub fn changes_in_words(alloc: Global, promise: &Promise<'_>) -> Result<String, AllocError> {
    match changes_of_promise(alloc, promise)? {
        Some(changes) => {
            let facts = Facts::of(alloc, &changes)?;
            in_words(alloc, &changes, &facts)
        }
        None => String::from_str(alloc, NOTHING_TOLD),
    }
}
