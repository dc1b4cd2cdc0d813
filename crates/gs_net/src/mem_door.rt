ghost use Rattle.std.specs.Prelude.{◌≡◌, ◌↔◌, ◌≤◌, [], Some, IfOk, IsErr, IsTrue, OnOk, OnErr};
ghost use Rattle.gs_io.specs.Causes.{Rose};
ghost use Rattle.gs_net.specs.Memory.{Desk, Fronts, after_failed_receive, after_failed_reply};
ghost use Rattle.gs_net.specs.Memory.{after_receive, after_reply, got_of, is_named, new_desk};

use crate::inlets::{Door, Inlet};
use crate::items::{Got, Item};
use crate::mem_inlet::MemInlet;
use gs_io::Failed;
use std::alloc::Global;
use std::marker::Model;

/// A door in memory, which keeps its replies. The calls whose numbers it was given fail; those of
/// `receive` and `reply` are numbered together, from 1. A reply that finds no memory fails too.
#[derive(Debug, Drop)]
pub struct MemDoor {
    inlet: MemInlet,
    replies: Vec<[u8; 24]>,
}

impl Model for MemDoor {
    ghost Value = { Desk };

    ghost view = { λ door. record { lane = door.inlet; replies = door.replies.items } };
}

impl MemDoor {
    /// A door with these items. `fails` are the numbers of the calls that are to fail.
    pub fn new(alloc: Global, items: Vec<Item>, fails: Vec<u64>) -> Self
        ensures { result ≡ new_desk items.items fails.items }
    {
        MemDoor {
            inlet: MemInlet::new(items, fails),
            replies: Vec::new(alloc),
        }
    }

    /// How many calls failed.
    pub(crate) fn faults(&self) -> u64
        ensures { result ≡ self.now.lane.calls.faults }
    {
        self.inlet.faults()
    }

    /// The replies, in order.
    pub fn replies(&self) -> &[[u8; 24]]
        ensures { result.now ≡ self.now.replies }
    {
        &self.replies
    }
}

impl Inlet for MemDoor {
    ghost faults = { λ door. door.lane.calls.faults };

    ghost tale = { λ door. Some door.lane.tale };

    ghost replies = { λ door. Some door.replies };

    ghost taken = { λ door. door.lane.taken };

    fn receive(&mut self, into: &mut [u8; 64]) -> Result<Got, Failed>
        ensures gives { IfOk result (λ got. got ≡ got_of self.old.lane.tale.left) }
        ensures front { OnOk result (Fronts self.old.lane.tale.left into.new) }
        ensures given { OnOk result (self.new ≡ record self.old { lane = after_receive self.old.lane }) }
        ensures failed { OnErr result
            (self.new ≡ record self.old { lane = after_failed_receive self.old.lane }) }
        ensures named { IsErr result ↔ IsTrue (is_named self.old.lane.calls) }
        ensures cause { OnErr result (Rose self.old.lane.calls.faults self.new.lane.calls.faults) }
        ensures never_falls { self.old.lane.calls.faults ≤ self.new.lane.calls.faults }
    {
        self.inlet.receive(into)
    }
}

impl Door for MemDoor {
    fn reply(&mut self, answer: &[u8; 24]) -> Result<(), Failed>
        ensures replied { OnOk result (self.new ≡ after_reply self.old answer.now) }
        ensures failed { OnErr result (self.new ≡ after_failed_reply self.old) }
        ensures named { IsTrue (is_named self.old.lane.calls) → IsErr result }
        ensures cause { OnErr result (Rose self.old.lane.calls.faults self.new.lane.calls.faults) }
        ensures never_falls { self.old.lane.calls.faults ≤ self.new.lane.calls.faults }
    {
        self.inlet.begin_call()?;
        if self.replies.push(*answer).is_err() {
            self.inlet.fail_call();
            return Err(Failed);
        }
        Ok(())
    }
}
