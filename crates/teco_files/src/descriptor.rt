//! Descriptors of the files that are opened.
use crate::system::System;
use std::fs::OpenFile;
use std::io;

/// The file on a descriptor that belongs to no standard stream. Where one of these is closed a file
/// that is opened takes its number, and what is typed would go into the file.
pub fn above_standard<R: System>(rt: &R, file: R::File) -> io::Result<R::File> {
    if rt.is_standard(&file) {
        file.try_clone()
    } else {
        Ok(file)
    }
}
