//! Text for terminals.
use std::alloc::{AllocError, Global};
use std::io;
use std::io::Write;
use teco_source::Shown;

/// A writer that sends what is written to a terminal, where it is on: each line as a terminal can show
/// it, since names of files may have bytes that a terminal acts on.
#[derive(Drop)]
pub struct Escaping<W: Write + Drop> {
    writer: W,
    alloc: Global,
    is_on: bool,
}

// Lines as a terminal can show them.
fn shown(alloc: Global, bytes: &[u8]) -> Result<Vec<u8>, AllocError> {
    let mut text = Vec::new(alloc);
    for line in bytes.split_inclusive(|byte| *byte == b'\n') {
        let (line, end) = match line.strip_suffix(b"\n") {
            Some(line) => (line, "\n"),
            None => (line, ""),
        };
        text.extend_from_slice(format!(in alloc; "{}{end}", Shown(line))?.as_bytes())?;
    }
    Ok(text)
}

impl<W: Write + Drop> Escaping<W> {
    /// A writer that sends bytes on as they are until it is turned on.
    pub fn new(alloc: Global, writer: W) -> Escaping<W> {
        Escaping {
            writer,
            alloc,
            is_on: false,
        }
    }

    /// From now on bytes are sent as a terminal can show them.
    pub fn turn_on(&mut self) {
        self.is_on = true;
    }
}

impl<W: Write + Drop> Write for Escaping<W> {
    fn write(&mut self, buf: &[u8]) -> io::Result<usize> {
        if !self.is_on {
            return self.writer.write(buf);
        }
        let text = shown(self.alloc, buf)?;
        self.writer.write_all(&text)?;
        Ok(buf.len())
    }

    fn flush(&mut self) -> io::Result<()> {
        self.writer.flush()
    }
}
