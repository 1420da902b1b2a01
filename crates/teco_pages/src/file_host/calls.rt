//! What the calls of a host did, and with which files.
ghost use Rattle.std.specs.Prelude.{◌≡◌, ◌++◌, ◌∷◌, [], suc, IsErr};
ghost use Rattle.teco_hosts.specs.Events.{opened_input, opened_output};
ghost use Rattle.teco_hosts.specs.HostCalls.{HasOpened};
ghost use Rattle.teco_hosts.specs.HostFiles.{Becomes, Notes, after_opening};

use std::alloc::Global;
use teco_files::{Purpose, Trouble, TroubleReason, name_to_tell};
use teco_hosts::{Count, Failed, History};

/// What the calls of a host did, and what the last one that failed could not do.
#[derive(Drop)]
pub struct Calls {
    // the names that were opened last
    input_name: Vec<u8>,
    output_name: Vec<u8>,
    pub trouble: Option<Trouble>,
    pub failures: Count,
    pub history: History,
}

impl Calls {
    /// No calls.
    pub fn new(alloc: Global) -> Calls
        ensures failures { result.failures.value ≡ 0 }
        ensures history { result.history.events ≡ [] }
    {
        Calls {
            input_name: Vec::new(alloc),
            output_name: Vec::new(alloc),
            trouble: None,
            failures: Count::new(),
            history: History::new(),
        }
    }

    /// The file of a name was opened as the input.
    pub fn opened_input(&mut self, name: &[u8])
        ensures opened { HasOpened name.now (Notes self.old.history.events)
            (Notes self.new.history.events) }
        ensures noted { self.new.history.events
            ≡ self.old.history.events ++ opened_input name.now ∷ [] }
        ensures counted { self.new.failures ≡ self.old.failures }
    {
        self.input_name = name_to_tell(*self.input_name.allocator(), name);
        self.history.opened_input(name);
    }

    /// An output of a name was opened.
    pub fn opened_output(&mut self, name: &[u8])
        ensures opened { Becomes (after_opening name.now) (Notes self.old.history.events)
            (Notes self.new.history.events) }
        ensures noted { self.new.history.events
            ≡ self.old.history.events ++ opened_output name.now ∷ [] }
        ensures counted { self.new.failures ≡ self.old.failures }
    {
        self.output_name = name_to_tell(*self.output_name.allocator(), name);
        self.history.opened_output(name);
    }

    /// What was opened last could not be used.
    pub fn cannot_use<T>(&mut self, purpose: Purpose, reason: TroubleReason) -> Result<T, Failed>
        ensures failed { IsErr result }
        ensures counted { self.new.failures.value ≡ suc self.old.failures.value }
        ensures history { self.new.history ≡ self.old.history }
    {
        let name = match purpose {
            Purpose::OpenInput | Purpose::ReadInput => &self.input_name,
            _ => &self.output_name,
        };
        self.trouble = Some(Trouble::of(*name.allocator(), purpose, name, reason));
        self.failures.failed()
    }

    /// A file could not be opened.
    pub fn cannot_open<T>(
        &mut self,
        purpose: Purpose,
        name: &[u8],
        reason: TroubleReason,
    ) -> Result<T, Failed>
        ensures failed { IsErr result }
        ensures counted { self.new.failures.value ≡ suc self.old.failures.value }
        ensures history { self.new.history ≡ self.old.history }
    {
        let alloc = *self.input_name.allocator();
        self.trouble = Some(Trouble::of(alloc, purpose, name, reason));
        self.failures.failed()
    }
}
