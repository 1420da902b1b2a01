//! Inputs that are opened before a host asks for them.
use std::alloc::{AllocError, Global};
use teco_files::{ReadFile, System, TroubleReason};

/// A file that is edited in place, opened ahead of its edit.
#[derive(Drop)]
pub struct InputAhead<R: System> {
    name: Vec<u8>,
    file: ReadFile<R::File>,
}

impl<R: System> InputAhead<R> {
    /// Opens the file of a name; none where it can't be opened.
    pub fn open(rt: &R, alloc: Global, name: &[u8]) -> Result<Option<InputAhead<R>>, AllocError> {
        match ReadFile::open(rt, alloc, name, true) {
            Ok(file) => Ok(Some(InputAhead {
                name: name.to_vec(alloc)?,
                file,
            })),
            Err(TroubleReason::Memory) => Err(AllocError),
            Err(_) => Ok(None),
        }
    }

    /// The first of its bytes, as many as the system gives at once; none where it can't be read.
    pub fn first_bytes(&mut self) -> &[u8] {
        self.file.first_bytes()
    }
}

/// Opens an input of a name: the file that was opened ahead, where that has the name.
pub fn open_source<R: System>(
    rt: &R,
    alloc: Global,
    ahead: Option<InputAhead<R>>,
    name: &[u8],
    is_regular: bool,
) -> Result<ReadFile<R::File>, TroubleReason> {
    match ahead {
        Some(ahead) if ahead.name.as_slice() == name => Ok(ahead.file),
        _ => ReadFile::open(rt, alloc, name, is_regular),
    }
}
