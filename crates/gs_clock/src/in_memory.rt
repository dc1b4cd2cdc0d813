ghost use Rattle.std.specs.Prelude.{◌≡◌, ◌↔◌, ◌<◌, length, drop, Some, IfOk, IsErr, IsTrue, OnErr};
ghost use Rattle.gs_io.specs.Causes.{HasCause, counted, is_to_fail};
ghost use Rattle.gs_clock.specs.Readings.{Told, after_failed_reading, after_reading, first_of, rest_of};

use crate::Clock;
use gs_io::Failed;
use std::marker::Model;

/// A clock in memory. The reads whose numbers it was given, from 1, fail, and no others. After its
/// last reading it gives that one again.
#[derive(Drop)]
pub struct MemClock {
    readings: Vec<u64>,
    at: usize,
    fails: Vec<u64>,
    calls: u64,
    faults: u64,
}

impl Model for MemClock {
    ghost Value = { Told };

    ghost view = { λ clock. record {
      left = drop clock.at clock.readings.items;
      fails = clock.fails.items;
      calls = clock.calls;
      faults = clock.faults;
    } };

    ghost invariant = { λ clock. clock.at < length clock.readings.items };
}

impl MemClock {
    /// A clock with these readings. `fails` are the numbers of the reads that are to fail.
    pub fn new(readings: Vec<u64>, fails: Vec<u64>) -> Self
        requires { 0 < length readings.items }
        ensures { result ≡ record { left = readings.items; fails = fails.items; calls = 0; faults = 0 } }
    {
        MemClock {
            readings,
            at: 0,
            fails,
            calls: 0,
            faults: 0,
        }
    }
}

impl Clock for MemClock {
    ghost left = { λ clock. Some clock.left };

    ghost faults = { λ clock. clock.faults };

    fn read(&mut self) -> Result<u64, Failed>
        ensures gives { IfOk result (λ n. n ≡ first_of self.old.left) }
        ensures taken { IfOk result (λ _. self.new ≡ after_reading self.old) }
        ensures failed { OnErr result (self.new ≡ after_failed_reading self.old) }
        ensures named { IsErr result ↔ IsTrue (is_to_fail self.old.fails (counted self.old.calls)) }
        ensures cause { HasCause self.old.faults self.new.faults result }
    {
        self.calls = self.calls.saturating_add(1);
        if self.fails.contains(&self.calls) {
            self.faults = self.faults.saturating_add(1);
            return Err(Failed);
        }
        let reading = self.readings[self.at];
        self.at = place_after(&self.readings, self.at);
        Ok(reading)
    }
}

/// The place of the reading that comes after this one: the last one comes again.
fn place_after(readings: &[u64], at: usize) -> usize
    requires { at < length readings.now }
    ensures rest { drop result readings.now ≡ rest_of (drop at readings.now) }
    ensures inside { result < length readings.now }
{
    if at + 1 < readings.len() { at + 1 } else { at }
}
