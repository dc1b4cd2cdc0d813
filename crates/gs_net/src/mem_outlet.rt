ghost use Rattle.std.specs.Prelude.{◌≡◌, ◌≤◌, [], Some, IsErr, IsTrue, OnOk, OnErr};
ghost use Rattle.gs_io.specs.Causes.{Rose};
ghost use Rattle.gs_net.specs.Memory.{Outbox, after_failed_send, after_send, is_named, new_outbox};

use crate::calls::Calls;
use crate::outlets::Outlet;
use gs_io::Failed;
use std::alloc::Global;
use std::marker::Model;

/// An outlet in memory, which keeps what it has taken. The calls whose numbers it was given, from 1,
/// fail, and so do those that find no memory.
#[derive(Debug, Drop)]
pub struct MemOutlet {
    taken: Vec<(u32, [u8; 40])>,
    calls: Calls,
}

impl Model for MemOutlet {
    ghost Value = { Outbox };

    ghost view = { λ outlet. record { calls = outlet.calls; sent = outlet.taken.items } };
}

impl MemOutlet {
    /// An outlet that has taken nothing. `fails` are the numbers of the calls that are to fail.
    pub fn new(alloc: Global, fails: Vec<u64>) -> Self
        ensures { result ≡ new_outbox fails.items }
    {
        MemOutlet {
            taken: Vec::new(alloc),
            calls: Calls::new(fails),
        }
    }

    /// How many calls failed.
    pub(crate) fn faults(&self) -> u64
        ensures { result ≡ self.now.calls.faults }
    {
        self.calls.faults()
    }

    /// The datagrams that it has taken, in order, each with the neighbour that it is for.
    pub fn taken(&self) -> &[(u32, [u8; 40])]
        ensures { result.now ≡ self.now.sent }
    {
        &self.taken
    }
}

impl Outlet for MemOutlet {
    ghost faults = { λ outlet. outlet.calls.faults };

    ghost sent = { λ outlet. Some outlet.sent };

    fn send(&mut self, neighbour: u32, datagram: &[u8; 40]) -> Result<(), Failed>
        ensures kept { OnOk result (self.new ≡ after_send self.old neighbour datagram.now) }
        ensures failed { OnErr result (self.new ≡ after_failed_send self.old) }
        ensures named { IsTrue (is_named self.old.calls) → IsErr result }
        ensures cause { OnErr result (Rose self.old.calls.faults self.new.calls.faults) }
        ensures never_falls { self.old.calls.faults ≤ self.new.calls.faults }
    {
        self.calls.begin()?;
        if self.taken.push((neighbour, *datagram)).is_err() {
            self.calls.fail();
            return Err(Failed);
        }
        Ok(())
    }
}
