//! A host for tests.
ghost use Rattle.std.specs.Prelude.{◌≡◌, ◌≤◌, ◌<◌, ◌+◌, length, IfOk, OnOk, OnErr};
ghost use Rattle.teco_base.specs.declared.TheConstants.{LIMIT};
ghost use Rattle.teco_hosts.specs.HostCalls.{Counts, OpensIn, ReadsSome, OpensOut, WritesSome, Closes, Measures};
ghost use Rattle.teco_hosts.specs.HostFiles.{Tells, Becomes, after_dropping};
ghost use Rattle.teco_hosts.specs.TestFiles.{FailsAsNamed, after_call, failures_of, is_due, same_call};

use crate::count::Count;
use crate::fault::Failed;
use crate::host::Host;
use crate::mem_host::MemHost;
use std::marker::Model;

/// The calls of a host, by kind.
#[derive(Clone, Copy)]
pub enum HostCall {
    OpenIn,
    Read,
    OpenOut,
    Write,
    CloseOut,
    DropOut,
}

/// A host of files in memory that moves few bytes in a call, and fails once where it was told to.
#[derive(Drop)]
pub struct TestHost {
    mem: MemHost,
    // how many bytes a call moves, at most
    piece: usize,
    call: HostCall,
    // how many calls of that kind there are up to the one that fails; 0 where none will
    left: u64,
    // of its own
    failures: Count,
}

impl Model for TestHost {
    ghost use Rattle.std.specs.Prelude.{◌<◌};
    ghost use Rattle.teco_hosts.specs.TestFiles.{TestFiles};

    ghost Value = { TestFiles };

    ghost view = { λ t. record {
      mem = t.mem;
      piece = t.piece;
      call = t.call;
      left = t.left;
      failed = t.failures.value;
    } };

    ghost invariant = { λ t. 0 < t.piece };
}

impl TestHost {
    /// A host over the files of `mem` that moves at most `piece` bytes a call, and fails at the
    /// `nth` call of the kind `call`; never where that is 0.
    pub fn new(mem: MemHost, piece: usize, call: HostCall, nth: u64) -> TestHost
        requires { 0 < piece }
        ensures { result ≡ record {
          mem = mem;
          piece = piece;
          call = call;
          left = nth;
          failed = 0;
        } }
    {
        TestHost {
            mem,
            piece,
            call,
            left: nth,
            failures: Count::new(),
        }
    }

    /// The host that has the files.
    pub fn mem(&self) -> &MemHost
        ensures { result.now ≡ self.now.mem }
    {
        &self.mem
    }

    // Counts a call; answers whether it is the one that fails.
    fn comes_due(&mut self, call: HostCall) -> bool
        ensures due { result ≡ is_due call self.old }
        ensures counted { self.new ≡ after_call call self.old }
    {
        if self.left == 0 || !is_same(self.call, call) {
            return false;
        }
        self.left -= 1;
        self.left == 0
    }
}

// Are two calls of one kind?
fn is_same(a: HostCall, b: HostCall) -> bool
    ensures { result ≡ same_call a b }
{
    match a {
        HostCall::OpenIn => matches!(b, HostCall::OpenIn),
        HostCall::Read => matches!(b, HostCall::Read),
        HostCall::OpenOut => matches!(b, HostCall::OpenOut),
        HostCall::Write => matches!(b, HostCall::Write),
        HostCall::CloseOut => matches!(b, HostCall::CloseOut),
        HostCall::DropOut => matches!(b, HostCall::DropOut),
    }
}

impl Host for TestHost {
    ghost files = { λ t. Tells t.mem.told };

    ghost failures = { failures_of };

    ghost given = { λ t. t.mem.given };

    fn open_in(&mut self, name: &[u8]) -> Result<(), Failed>
        ensures files { OpensIn name.now result (Tells self.old.mem.told)
            (Tells self.new.mem.told) }
        ensures counted { Counts result (failures_of self.old) (failures_of self.new) }
        ensures given { OnOk result (self.new.mem.given ≡ 0) }
        ensures err { OnErr result (self.new.mem.given ≡ self.old.mem.given) }
        ensures named { FailsAsNamed HostCall.OpenIn self.old self.new result }
    {
        if self.comes_due(HostCall::OpenIn) {
            return self.failures.failed();
        }
        self.mem.open_in(name)
    }

    fn read(&mut self, buf: &mut [u8]) -> Result<usize, Failed>
        ensures files { ReadsSome buf.new result (Tells self.old.mem.told)
            (Tells self.new.mem.told) }
        ensures counted { Counts result (failures_of self.old) (failures_of self.new) }
        ensures bound { IfOk result (λ n. n ≤ length buf.new) }
        ensures given { IfOk result (λ n. self.new.mem.given ≡ self.old.mem.given + n) }
        ensures limit { OnOk result (self.new.mem.given ≤ LIMIT) }
        ensures err { OnErr result (self.new.mem.given ≡ self.old.mem.given) }
        ensures named { FailsAsNamed HostCall.Read self.old self.new result }
        ensures piece { IfOk result (λ n. n ≤ self.old.piece) }
    {
        if self.comes_due(HostCall::Read) {
            return self.failures.failed();
        }
        let n = buf.len().min(self.piece);
        self.mem.read(&mut buf[..n])
    }

    fn open_out(&mut self, name: &[u8]) -> Result<(), Failed>
        ensures files { OpensOut name.now result (Tells self.old.mem.told)
            (Tells self.new.mem.told) }
        ensures counted { Counts result (failures_of self.old) (failures_of self.new) }
        ensures given { self.new.mem.given ≡ self.old.mem.given }
        ensures named { FailsAsNamed HostCall.OpenOut self.old self.new result }
    {
        if self.comes_due(HostCall::OpenOut) {
            return self.failures.failed();
        }
        self.mem.open_out(name)
    }

    fn write(&mut self, bytes: &[u8]) -> Result<usize, Failed>
        ensures files { WritesSome bytes.now result (Tells self.old.mem.told)
            (Tells self.new.mem.told) }
        ensures counted { Counts result (failures_of self.old) (failures_of self.new) }
        ensures bound { IfOk result (λ n. n ≤ length bytes.now) }
        ensures some { IfOk result (λ n. 0 < length bytes.now → 0 < n) }
        ensures given { self.new.mem.given ≡ self.old.mem.given }
        ensures named { FailsAsNamed HostCall.Write self.old self.new result }
        ensures piece { IfOk result (λ n. n ≤ self.old.piece) }
    {
        if self.comes_due(HostCall::Write) {
            return self.failures.failed();
        }
        let n = bytes.len().min(self.piece);
        self.mem.write(&bytes[..n])
    }

    fn close_out(&mut self) -> Result<(), Failed>
        ensures files { Closes result (Tells self.old.mem.told) (Tells self.new.mem.told) }
        ensures counted { Counts result (failures_of self.old) (failures_of self.new) }
        ensures given { self.new.mem.given ≡ self.old.mem.given }
        ensures named { FailsAsNamed HostCall.CloseOut self.old self.new result }
    {
        if self.comes_due(HostCall::CloseOut) {
            // where closing fails the output is dropped
            let _dropped = self.mem.drop_out();
            return self.failures.failed();
        }
        self.mem.close_out()
    }

    fn drop_out(&mut self) -> Result<(), Failed>
        ensures files { Becomes after_dropping (Tells self.old.mem.told) (Tells self.new.mem.told) }
        ensures counted { Counts result (failures_of self.old) (failures_of self.new) }
        ensures given { self.new.mem.given ≡ self.old.mem.given }
        ensures named { FailsAsNamed HostCall.DropOut self.old self.new result }
    {
        if self.comes_due(HostCall::DropOut) {
            // where dropping fails the output is dropped all the same
            let _dropped = self.mem.drop_out();
            return self.failures.failed();
        }
        self.mem.drop_out()
    }

    fn left_of_input(&mut self) -> Option<u64>
        ensures files { Measures result (Tells self.old.mem.told) (Tells self.new.mem.told) }
        ensures counted { failures_of self.new ≡ failures_of self.old }
        ensures given { self.new.mem.given ≡ self.old.mem.given }
    {
        self.mem.left_of_input()
    }
}
