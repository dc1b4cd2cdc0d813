ghost use Rattle.std.specs.Prelude.{◌≡◌, ◌↔◌, ◌<◌, ◌≤◌, IsErr, IsTrue, OnOk, OnErr};
ghost use Rattle.gs_io.specs.Causes.{Rose};
ghost use Rattle.gs_net.specs.Memory.{Counts, after_call, after_count, after_fault, is_named, no_calls};

use gs_io::Failed;
use std::marker::Model;

/// The calls of an object in memory: which are to fail, how many there were, and how many failed.
#[derive(Debug, Drop)]
pub(crate) struct Calls {
    fails: Vec<u64>,
    calls: u64,
    faults: u64,
}

impl Model for Calls {
    ghost Value = { Counts };

    ghost view = { λ c. record { fails = c.fails.items; calls = c.calls; faults = c.faults } };
}

impl Calls {
    /// No call yet. `fails` are the numbers, from 1, of those that are to fail.
    pub(crate) fn new(fails: Vec<u64>) -> Self
        ensures { result ≡ no_calls fails.items }
    {
        Calls {
            fails,
            calls: 0,
            faults: 0,
        }
    }

    /// How many calls failed.
    pub(crate) fn faults(&self) -> u64
        ensures { result ≡ self.now.faults }
    {
        self.faults
    }

    /// Begins a call, which may be one that is to fail.
    pub(crate) fn begin(&mut self) -> Result<(), Failed>
        ensures ok { OnOk result (self.new ≡ after_call self.old) }
        ensures err { OnErr result (self.new ≡ after_fault (after_call self.old)) }
        ensures named { IsErr result ↔ IsTrue (is_named self.old) }
        ensures cause { OnErr result (Rose self.old.faults self.new.faults) }
        ensures never_falls { self.old.faults ≤ self.new.faults }
    {
        self.calls = self.calls.saturating_add(1);
        if self.fails.contains(&self.calls) {
            self.faults = self.faults.saturating_add(1);
            return Err(Failed);
        }
        Ok(())
    }

    /// Counts a fault where there were any.
    pub(crate) fn count(&mut self, faults: u64)
        ensures counted { self.new ≡ after_count self.old faults }
        ensures rose { 0 < faults → Rose self.old.faults self.new.faults }
        ensures never_falls { self.old.faults ≤ self.new.faults }
    {
        if faults > 0 {
            self.fail();
        }
    }

    /// Counts a fault.
    pub(crate) fn fail(&mut self)
        ensures counted { self.new ≡ after_fault self.old }
        ensures rose { Rose self.old.faults self.new.faults }
        ensures never_falls { self.old.faults ≤ self.new.faults }
    {
        self.faults = self.faults.saturating_add(1);
    }
}
