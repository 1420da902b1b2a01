//! A host of files in memory.
ghost use Rattle.std.specs.Prelude.{◌≡◌, ◌≤◌, length, Some, option_copied, IfSome, IfOk, OnOk, OnErr};
ghost use Rattle.std.specs.List.{prefix_len};
ghost use Rattle.teco_model.specs.Files.{file_named, with_file, with_written, with_closed};
ghost use Rattle.teco_hosts.specs.HostFiles.{Tells};
ghost use Rattle.teco_hosts.specs.MemFiles.{no_files, with_put, is_other, output_in};

use crate::count::Count;
use crate::fault::Failed;
use crate::host::Host;
use std::alloc::{AllocError, Global};
use std::marker::Model;
use teco_base::LIMIT;

// A file with its name.
#[derive(Drop)]
struct MemFile {
    name: Vec<u8>,
    bytes: Vec<u8>,
}

impl Model for MemFile {
    ghost use Rattle.teco_model.specs.Files.{File};

    ghost Value = { File };

    ghost view = { λ f. record { name = f.name.items; bytes = f.bytes.items } };
}

/// A host of files in memory, which tells them.
///
/// Its calls fail where a name has no file, where an input is read on past `LIMIT` bytes, where no
/// output is open for a call that needs one, and where memory is refused.
#[derive(Drop)]
pub struct MemHost {
    files: Vec<MemFile>,
    input: Vec<u8>,
    // how much of the input was read
    place: usize,
    output: Option<MemFile>,
    failures: Count,
}

impl Model for MemHost {
    ghost use Rattle.std.specs.Prelude.{◌≤◌, length, drop};
    ghost use Rattle.teco_base.specs.declared.TheConstants.{LIMIT};
    ghost use Rattle.teco_hosts.specs.MemFiles.{MemFiles, output_in};

    ghost Value = { MemFiles };

    ghost view = { λ m. record {
      told = record {
        named = m.files.items;
        unread = drop m.place m.input.items;
        output = output_in m.output;
      };
      given = m.place;
      failures = m.failures.value;
    } };

    ghost invariant = { λ m. (m.place ≤ length m.input.items) × (m.place ≤ LIMIT) };
}

impl MemHost {
    /// No files, and nothing is open. It has taken no memory yet, and will take it from `alloc`.
    pub fn new(alloc: Global) -> MemHost
        ensures { result ≡ no_files }
    {
        MemHost {
            files: Vec::new(alloc),
            input: Vec::new(alloc),
            place: 0,
            output: None,
            failures: Count::new(),
        }
    }

    /// Makes a file of a name and bytes, in the place of the one of that name if there is one. What
    /// is open stays.
    ///
    /// # Errors
    ///
    /// `AllocError` where memory is refused; the files are as before then.
    pub fn put(&mut self, name: &[u8], bytes: &[u8]) -> Result<(), AllocError>
        ensures ok { OnOk result (self.new ≡ with_put name.now bytes.now self.old) }
        ensures err { OnErr result (self.new ≡ self.old) }
    {
        let alloc = *self.input.allocator();
        let file = MemFile {
            name: Vec::from_slice(alloc, name)?,
            bytes: Vec::from_slice(alloc, bytes)?,
        };
        keep(&mut self.files, file)
    }

    /// The bytes of the file of a name, if there is one. It takes no memory, and time by the names.
    pub fn file(&self, name: &[u8]) -> Option<&[u8]>
        ensures { option_copied result ≡ file_named name.now self.now.told.named }
    {
        find(&self.files, name)
    }
}

impl Host for MemHost {
    ghost files = { λ m. Tells m.told };

    ghost failures = { λ m. m.failures };

    ghost given = { λ m. m.given };

    fn open_in(&mut self, name: &[u8]) -> Result<(), Failed> {
        let Ok(bytes) = copy_of(*self.input.allocator(), &self.files, name) else {
            return self.failures.failed();
        };
        self.input = bytes;
        self.place = 0;
        Ok(())
    }

    fn read(&mut self, buf: &mut [u8]) -> Result<usize, Failed> {
        let left = self.input.len() - self.place;
        let Some(allowed) = allowed(left, LIMIT - self.place) else {
            return self.failures.failed();
        };
        let n = buf.len().min(allowed);
        buf[..n].copy_from_slice(&self.input[self.place..self.place + n]);
        self.place += n;
        Ok(n)
    }

    fn open_out(&mut self, name: &[u8]) -> Result<(), Failed> {
        let alloc = *self.input.allocator();
        let Ok(name) = Vec::from_slice(alloc, name) else {
            return self.failures.failed();
        };
        let bytes = Vec::new(alloc);
        self.output = Some(MemFile { name, bytes });
        Ok(())
    }

    fn write(&mut self, bytes: &[u8]) -> Result<usize, Failed> {
        match append(&mut self.output, bytes) {
            Ok(()) => Ok(bytes.len()),
            Err(Failed) => self.failures.failed(),
        }
    }

    fn close_out(&mut self) -> Result<(), Failed> {
        match close(&mut self.files, self.output.take()) {
            Ok(()) => Ok(()),
            Err(Failed) => self.failures.failed(),
        }
    }

    fn drop_out(&mut self) -> Result<(), Failed> {
        self.output = None;
        Ok(())
    }

    fn left_of_input(&mut self) -> Option<u64> {
        Some((self.input.len() - self.place) as u64)
    }
}

// How much of what is left of an input may be given, where there is room for some before `LIMIT`.
fn allowed(left: usize, room: usize) -> Option<usize>
    ensures within { IfSome result (λ n. (n ≤ left) × (n ≤ room)) }
    ensures end { IfSome result (λ n. n ≡ 0 → left ≡ 0) }
{
    if left > 0 && room == 0 {
        return None;
    }
    Some(left.min(room))
}

// Where the file of a name stands; how many files there are where none has it.
fn place_of(files: &[MemFile], name: &[u8]) -> usize
    ensures value { result ≡ prefix_len (is_other name.now) files.now }
    ensures within { result ≤ length files.now }
{
    files
        .iter()
        .take_while(|f| f.name.as_slice() != name)
        .count()
}

// The bytes of the file of a name, if there is one.
fn find<'a>(files: &'a [MemFile], name: &[u8]) -> Option<&'a [u8]>
    ensures { option_copied result ≡ file_named name.now files.now }
{
    let place = place_of(files, name);
    if place == files.len() {
        return None;
    }
    let file = &files[place];
    Some(&file.bytes)
}

// A copy of the bytes of the file of a name.
fn copy_of(alloc: Global, files: &[MemFile], name: &[u8]) -> Result<Vec<u8>, Failed>
    ensures { IfOk result (λ bytes. file_named name.now files.now ≡ Some bytes.items) }
{
    match find(files, name) {
        Some(bytes) => Ok(Vec::from_slice(alloc, bytes)?),
        None => Err(Failed),
    }
}

// Puts a file in the place of the one of its name, or behind the others.
fn keep(files: &mut Vec<MemFile>, file: MemFile) -> Result<(), AllocError>
    ensures ok { OnOk result (files.new.items ≡ with_file file.name file.bytes files.old.items) }
    ensures err { OnErr result (files.new.items ≡ files.old.items) }
{
    let place = place_of(files, &file.name);
    if place < files.len() {
        files[place] = file;
    } else {
        files.push(file)?;
    }
    Ok(())
}

// Writes to the output, if one is open.
fn append(output: &mut Option<MemFile>, bytes: &[u8]) -> Result<(), Failed>
    ensures ok { OnOk result (output_in output.new
        ≡ with_written bytes.now (output_in output.old)) }
    ensures err { OnErr result (output.new ≡ output.old) }
{
    match output {
        Some(file) => Ok(file.bytes.extend_from_slice(bytes)?),
        None => Err(Failed),
    }
}

// Gives the output its name, if one is open.
fn close(files: &mut Vec<MemFile>, output: Option<MemFile>) -> Result<(), Failed>
    ensures ok { OnOk result (files.new.items ≡ with_closed (output_in output) files.old.items) }
    ensures err { OnErr result (files.new.items ≡ files.old.items) }
{
    match output {
        Some(file) => Ok(keep(files, file)?),
        None => Err(Failed),
    }
}
