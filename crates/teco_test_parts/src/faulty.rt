//! Files that move few bytes at a call, and fail once; another may stand in for the limits that the system sets.
use std::alloc::Allocator;
use std::fs::{File, Files, Metadata, OpenFile, OpenOptions};
use std::io::{self, Read, Seek, SeekFrom, Write};
use std::time::{Clock, Duration};
use teco_pages::{FileHost, System};

/// Where a process reads its limits.
pub const LIMITS: &str = "/proc/self/limits";

/// The runtime of such files: how many bytes a call moves at most, how many a file moves before it fails,
/// and the file that stands in for the limits.
#[derive(Clone, Copy, Drop)]
pub struct Faulty {
    pub rt: HostRuntime,
    pub piece: usize,
    pub whole: usize,
    pub limits: &'static str,
}

/// A host of such files, which move so many bytes at a call, and in all before they fail.
pub fn faulty_host(rt: &HostRuntime, moves: [usize; 2], limits: &'static str) -> FileHost<Faulty> {
    let [piece, whole] = moves;
    let files = Faulty {
        rt: *rt,
        piece,
        whole,
        limits,
    };
    FileHost::new(rt.alloc(), files)
}

/// A file that fails once.
#[derive(Drop)]
pub struct FaultyFile {
    file: File,
    piece: usize,
    // how many bytes it moves before it fails; none where it has failed
    left: Option<usize>,
}

impl FaultyFile {
    // How many of so many bytes the next call moves, unless it is the one that fails.
    fn next(&mut self, len: usize) -> io::Result<usize> {
        let most = len.min(self.piece);
        match self.left {
            None => Ok(most),
            Some(0) => {
                self.left = None;
                Err(io::Error::from(io::ErrorKind::StorageFull))
            }
            Some(left) => {
                let n = most.min(left);
                self.left = Some(left - n);
                Ok(n)
            }
        }
    }
}

impl Read for FaultyFile {
    fn read(&mut self, buf: &mut [u8]) -> io::Result<usize> {
        let n = self.next(buf.len())?.min(buf.len());
        self.file.read(&mut buf[..n])
    }
}

impl Write for FaultyFile {
    fn write(&mut self, buf: &[u8]) -> io::Result<usize> {
        let n = self.next(buf.len())?.min(buf.len());
        self.file.write(&buf[..n])
    }

    fn flush(&mut self) -> io::Result<()> {
        self.file.flush()
    }
}

impl Seek for FaultyFile {
    fn seek(&mut self, to: SeekFrom) -> io::Result<u64> {
        self.file.seek(to)
    }
}

impl OpenFile for FaultyFile {
    fn metadata(&self) -> io::Result<Metadata> {
        self.file.metadata()
    }

    fn set_len(&self, size: u64) -> io::Result<()> {
        self.file.set_len(size)
    }

    fn sync_all(&self) -> io::Result<()> {
        self.file.sync_all()
    }

    fn sync_data(&self) -> io::Result<()> {
        self.file.sync_data()
    }
}

impl Files for Faulty {
    type File = FaultyFile;

    type Dir = <HostRuntime as Files>::Dir;

    fn open_file(&self, how: &OpenOptions, path: &str) -> io::Result<FaultyFile> {
        let path = if path == LIMITS { self.limits } else { path };
        Ok(FaultyFile {
            file: self.rt.open_file(how, path)?,
            piece: self.piece,
            left: Some(self.whole),
        })
    }

    fn open_dir(&self, path: &str) -> io::Result<Self::Dir> {
        self.rt.open_dir(path)
    }

    fn metadata(&self, path: &str) -> io::Result<Metadata> {
        self.rt.metadata(path)
    }

    fn symlink_metadata(&self, path: &str) -> io::Result<Metadata> {
        self.rt.symlink_metadata(path)
    }

    fn copy(&self, from: &str, to: &str) -> io::Result<u64> {
        self.rt.copy(from, to)
    }

    fn rename(&self, from: &str, to: &str) -> io::Result<()> {
        self.rt.rename(from, to)
    }

    fn remove_file(&self, path: &str) -> io::Result<()> {
        self.rt.remove_file(path)
    }

    fn create_dir(&self, path: &str) -> io::Result<()> {
        self.rt.create_dir(path)
    }

    fn remove_dir(&self, path: &str) -> io::Result<()> {
        self.rt.remove_dir(path)
    }

    fn remove_dir_all<B: Allocator>(&self, alloc: B, path: &str) -> io::Result<()> {
        self.rt.remove_dir_all(alloc, path)
    }
}

impl System for Faulty {
    fn give_owner(
        &self,
        file: &FaultyFile,
        owner: Option<u32>,
        group: Option<u32>,
    ) -> io::Result<()> {
        self.rt.give_owner(&file.file, owner, group)
    }

    fn read_at(&self, file: &FaultyFile, buf: &mut [u8], place: u64) -> io::Result<usize> {
        self.rt.read_at(&file.file, buf, place)
    }

    fn is_standard(&self, file: &FaultyFile) -> bool {
        self.rt.is_standard(&file.file)
    }

    fn process_number(&self) -> u32 {
        self.rt.process_number()
    }
}

impl Clock for Faulty {
    fn monotonic(&self) -> io::Result<Duration> {
        self.rt.monotonic()
    }

    fn since_1970(&self) -> io::Result<Duration> {
        self.rt.since_1970()
    }
}
