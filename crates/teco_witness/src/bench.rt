//! A machine on a small text, with its files.
ghost use Rattle.std.specs.Prelude.{◌≡◌, ◌≤◌, IfOk, length};
ghost use Rattle.teco_base.specs.declared.TheConstants.{LIMIT};
ghost use Rattle.teco_model.specs.State.{held_length, start};
ghost use Rattle.teco_run.specs.Stopped.{StopsAt};
ghost use Rattle.teco_hosts.specs.HostFiles.{AreOfBytes};
ghost use Rattle.teco_hosts.specs.MemFiles.{no_files};
ghost use Rattle.teco_witness.specs.Witness.{named_before, world_before};

use crate::witness::SmallWorld;
use std::alloc::{AllocError, Global};
use std::marker::Model;
use teco_hosts::MemHost;
use teco_library::Library;
use teco_model::are_bytes;
use teco_run::{Machine, Stopped};
use teco_text::{GapText, TextStore};

/// How many bytes a run may type, and the texts that it calls may take.
const CAP: usize = 1 << 20;

/// A machine with a host of files in memory. It is seen as what stays between two runs.
#[derive(Drop)]
pub struct Bench {
    machine: Machine<GapText>,
    host: MemHost,
}

impl Model for Bench {
    ghost use Rattle.teco_filing.specs.Worlds.{world};
    ghost use Rattle.teco_hosts.specs.Held.{IsSameOutput};
    ghost use Rattle.teco_hosts.specs.HostFiles.{AreOfBytes};
    ghost use Rattle.teco_model.specs.State.{World};

    ghost Value = { World };

    ghost view = { λ b. world b.machine.kept b.machine.held b.host.told };

    ghost invariant = { λ b. AreOfBytes b.host.told × IsSameOutput b.machine.held b.host.told };
}

// A text with the pointer before it.
fn store_of(alloc: Global, text: &[u8]) -> Result<GapText, AllocError>
    ensures { IfOk result (λ store. (store.list ≡ text.now) × (store.pointer ≡ 0)) }
{
    let mut store = GapText::new(alloc);
    if store.insert(text).is_err() || store.set_dot(0).is_err() {
        return Err(AllocError);
    }
    Ok(store)
}

// Files, of which one has the text, if that is an input's.
fn host_of(alloc: Global, world: &SmallWorld) -> Result<MemHost, AllocError>
    ensures told { IfOk result (λ host. host.told
        ≡ record no_files.told { named = named_before world.now }) }
    ensures bytes { IfOk result (λ host. AreOfBytes host.told) }
{
    let mut host = MemHost::new(alloc);
    if world.is_input {
        are_bytes(&world.text);
        host.put(b"in", &world.text)?;
    }
    Ok(host)
}

impl Bench {
    /// A new machine on the text of a small world, which has a library.
    pub fn new(alloc: Global, library: &Library, world: &SmallWorld) -> Result<Bench, AllocError>
        ensures { IfOk result (λ bench. bench ≡ world_before library.now.texts world.now) }
    {
        let buffer: &[u8] = if world.is_input { &[] } else { &world.text };
        let mut machine = Machine::new(alloc, store_of(alloc, buffer)?);
        machine.set_cap(CAP);
        machine.load(library.texts())?;
        let host = host_of(alloc, world)?;
        Ok(Bench { machine, host })
    }

    /// Runs a command string.
    pub fn run(&mut self, command: &[u8], limit: u64) -> Stopped
        requires { length command.now ≤ LIMIT }
        ensures { StopsAt (start command.now self.old) limit result self.new }
    {
        self.machine.run_to_stop(command, limit, &mut self.host)
    }

    /// How many characters are held.
    pub fn held(&self) -> u128
        ensures { result ≡ held_length self.now.kept }
    {
        self.machine.held()
    }
}
