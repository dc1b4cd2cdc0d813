ghost use Rattle.std.specs.Prelude.{◌≡◌, ◌-◌, None, IfOk, IsErr, OnErr, OnOk};
ghost use Rattle.std.specs.Time.{instant_nanos};
ghost use Rattle.gs_io.specs.Causes.{HasCause, counted};
ghost use Rattle.gs_clock.specs.Adapters.{origin_of, times_failed};

use crate::Clock;
use gs_io::Failed;
use std::time::{self, Instant};

/// The monotonic clock of the machine, in nanoseconds since this clock was made. It tells nothing of
/// its readings: that they rise is the machine's to see to. Where the time of its making could not be
/// read it has no origin, and each of its reads fails.
#[derive(Drop)]
pub struct MonoClock<R> {
    clock: R,
    origin: Option<Instant>,
    faults: u64,
}

impl<R: time::Clock + Copy> MonoClock<R> {
    /// A clock whose readings begin now.
    pub fn new(clock: R) -> Self
        ensures { times_failed result ≡ 0 }
    {
        MonoClock {
            clock,
            origin: Instant::now(&clock).ok(),
            faults: 0,
        }
    }

    /// A second clock with the same origin, and no faults.
    pub fn twin(&self) -> Self
        ensures origin { origin_of result ≡ origin_of self.now }
        ensures faults { times_failed result ≡ 0 }
    {
        MonoClock {
            clock: self.clock,
            origin: self.origin,
            faults: 0,
        }
    }

    /// The nanoseconds since the origin.
    fn elapsed(&self) -> Result<u64, Failed>
        ensures no_origin { origin_of self.now ≡ None → IsErr result }
    {
        let origin = self.origin.ok_or(Failed)?;
        let now = Instant::now(&self.clock).map_err(|_| Failed)?;
        nanos_between(origin, now)
    }
}

impl<R: time::Clock + Copy + Drop> Clock for MonoClock<R> {
    ghost left = { λ clock. None };

    ghost faults = { λ clock. clock.faults };

    fn read(&mut self) -> Result<u64, Failed>
        ensures no_origin { origin_of self.old ≡ None → IsErr result }
        ensures origin { origin_of self.new ≡ origin_of self.old }
        ensures passed { OnOk result (times_failed self.new ≡ times_failed self.old) }
        ensures failed { OnErr result (times_failed self.new ≡ counted (times_failed self.old)) }
        ensures cause { HasCause (times_failed self.old) (times_failed self.new) result }
    {
        let elapsed = self.elapsed();
        if elapsed.is_err() {
            self.faults = self.faults.saturating_add(1);
        }
        elapsed
    }
}

/// The nanoseconds from one moment to another, 0 where that is not later. After 2^64 it fails.
fn nanos_between(origin: Instant, now: Instant) -> Result<u64, Failed>
    ensures { IfOk result (λ n. n ≡ instant_nanos now - instant_nanos origin) }
{
    u64::try_from(now.duration_since(origin).as_nanos()).map_err(|_| Failed)
}
