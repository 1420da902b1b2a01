//! Runs of a case over stores of a text and hosts of files.
use crate::case_file::NamedText;
use crate::fault::CaseFault;
use crate::findings::Findings;
use crate::folder;
use crate::settings::{CaseSetting, FilePlace, Store, by_pieces};
use std::alloc::{AllocError, Global};
use std::rt::Env;
use teco_files::{Closing, Handling, System};
use teco_hosts::{Host, MemHost};
use teco_pages::FileHost;
use teco_run::Machine;
use teco_text::{GapText, TextStore, VecText};

/// What came of a run.
#[derive(Drop)]
pub struct CaseRun {
    pub typed: Vec<u8>,
    /// The exit status.
    pub status: u64,
    /// The steps of a macro.
    pub steps: u64,
    /// The text in the buffer, and the place of the pointer.
    pub buffer: Vec<u8>,
    pub pointer: usize,
}

/// The text in the buffer of a machine.
pub fn buffer_of<T: TextStore>(alloc: Global, machine: &Machine<T>) -> Result<Vec<u8>, AllocError> {
    let (front, back) = machine.text();
    let mut buffer = front.to_vec(alloc)?;
    buffer.extend_from_slice(back)?;
    Ok(buffer)
}

/// The files that a run has left.
#[derive(Clone, Copy)]
pub struct FilesLeft<'a> {
    pub files: &'a MemHost,
    /// All their names, where these are known.
    pub names: &'a [String],
}

/// What is run over a text and a host.
pub trait CaseRunner {
    /// The files that are there before.
    fn files(&self) -> &[NamedText<'_>];

    /// Runs it over a text; it reads so many bytes at a time, at most.
    fn run<T: TextStore + Drop, H: Host>(
        &self,
        text: T,
        piece: usize,
        host: &mut H,
    ) -> Result<CaseRun, CaseFault>;

    /// Compares what came of it with what the case says.
    fn compare(
        &self,
        findings: &mut Findings,
        ran: &CaseRun,
        left: FilesLeft<'_>,
    ) -> Result<(), AllocError>;
}

/// Outputs need not outlast a power cut.
const QUICK: Handling = Handling {
    closing: Closing::Replaces,
    in_place: false,
    is_durable: false,
};

// Runs a job over a store and a host.
fn run_on<J: CaseRunner, H: Host>(
    alloc: Global,
    job: &J,
    store: Store,
    piece: usize,
    host: &mut H,
) -> Result<CaseRun, CaseFault> {
    match store {
        Store::Vector => job.run(VecText::new(alloc), piece, host),
        Store::Gap => job.run(GapText::new(alloc), piece, host),
    }
}

// A host with the files of a job in memory.
fn host_of<J: CaseRunner>(alloc: Global, job: &J) -> Result<MemHost, AllocError> {
    let mut host = MemHost::new(alloc);
    for file in job.files() {
        host.put(file.name, file.text)?;
    }
    Ok(host)
}

// Compares what came of a run with what the case says.
fn compare_ran<J: CaseRunner>(
    job: &J,
    findings: &mut Findings,
    ran: Result<CaseRun, CaseFault>,
    left: FilesLeft<'_>,
) -> Result<(), CaseFault> {
    Ok(job.compare(findings, &ran?, left)?)
}

// Runs a job over files in memory.
fn run_in_memory<J: CaseRunner>(
    alloc: Global,
    job: &J,
    store: Store,
    findings: &mut Findings,
) -> Result<(), CaseFault> {
    let mut host = host_of(alloc, job)?;
    let ran = run_on(alloc, job, store, usize::MAX, &mut host);
    let left = FilesLeft {
        files: &host,
        names: &[],
    };
    compare_ran(job, findings, ran, left)
}

// Runs a job over files in memory, so many bytes at a time.
fn run_by_pieces<J: CaseRunner>(
    alloc: Global,
    job: &J,
    store: Store,
    piece: usize,
    findings: &mut Findings,
) -> Result<(), CaseFault> {
    let mut host = by_pieces(host_of(alloc, job)?, piece);
    let ran = run_on(alloc, job, store, piece, &mut host);
    let left = FilesLeft {
        files: host.mem(),
        names: &[],
    };
    compare_ran(job, findings, ran, left)
}

// Runs a job over the files of the folder that it is run in.
fn run_here<R: System + AllocGlobal + Copy, J: CaseRunner>(
    rt: &R,
    job: &J,
    store: Store,
) -> Result<CaseRun, CaseFault> {
    let mut host = FileHost::new(rt.alloc(), *rt);
    host.set_handling(QUICK);
    run_on(rt.alloc(), job, store, usize::MAX, &mut host)
}

// Runs a job over files of the system.
fn run_in_folder<R: System + Env + AllocGlobal + Copy, J: CaseRunner>(
    rt: &R,
    job: &J,
    store: Store,
    findings: &mut Findings,
) -> Result<(), CaseFault> {
    folder::enter(rt, job.files())?;
    let ran = run_here(rt, job, store);
    let contents = folder::leave(rt)?;
    let left = FilesLeft {
        files: &contents.files,
        names: &contents.names,
    };
    compare_ran(job, findings, ran, left)
}

// Runs a job over a setting.
fn run_over<R: System + Env + AllocGlobal + Copy, J: CaseRunner>(
    rt: &R,
    job: &J,
    setting: CaseSetting,
) -> Result<Findings, CaseFault> {
    let alloc = rt.alloc();
    let mut findings = Findings::over(alloc, setting);
    let CaseSetting(store, place) = setting;
    match place {
        FilePlace::Memory => run_in_memory(alloc, job, store, &mut findings)?,
        FilePlace::Pieces(piece) => run_by_pieces(alloc, job, store, piece, &mut findings)?,
        FilePlace::Folder => run_in_folder(rt, job, store, &mut findings)?,
    }
    Ok(findings)
}

/// Runs a job over each of some settings, up to the first in which something is not as it is to be.
pub fn run_over_each<R: System + Env + AllocGlobal + Copy, J: CaseRunner>(
    rt: &R,
    job: &J,
    settings: &[CaseSetting],
) -> Result<Findings, CaseFault> {
    for setting in settings {
        let findings = run_over(rt, job, *setting)?;
        if !findings.is_empty() {
            return Ok(findings);
        }
    }
    Ok(Findings::new(rt.alloc()))
}
