ghost use Rattle.std.specs.Prelude.{◌≡◌};
ghost use Rattle.gs_beacon.specs.Beacons.{IsBeacon};

use gs_beacon::Beacon;
use std::marker::Model;

/// A beacon that was sent, and the quantum that it was sent in.
#[derive(Clone, Copy, Debug)]
pub(crate) struct SentBeacon {
    quantum: u32,
    beacon: Beacon,
}

impl Model for SentBeacon {
    ghost use Rattle.gs_run.specs.World.{Sent};
    ghost use Rattle.gs_beacon.specs.Beacons.{IsBeacon};

    ghost Value = { Sent };

    ghost view = { λ a. record { quantum = a.quantum; beacon = a.beacon } };

    ghost invariant = { λ a. IsBeacon a.beacon };

    ghost inverse = { λ s. record { quantum = s.quantum; beacon = s.beacon } };
}

impl SentBeacon {
    ghost use Rattle.gs_world.specs.inside.Find.{at_number};

    /// A beacon that is sent in this quantum.
    pub(crate) fn new(quantum: u32, beacon: Beacon) -> Self
        requires { IsBeacon beacon }
        ensures { result ≡ record { quantum = quantum; beacon = beacon } }
    {
        SentBeacon { quantum, beacon }
    }

    /// The quantum that it was sent in.
    pub(crate) fn quantum(&self) -> u32
        ensures { result ≡ self.now.quantum }
    {
        self.quantum
    }

    /// What was sent.
    pub(crate) fn beacon(&self) -> &Beacon
        ensures value { result.now ≡ self.now.beacon }
        ensures beacon { IsBeacon result.now }
    {
        &self.beacon
    }

    /// The beacon of this number among all that one node sent, the first of which has the number 1.
    pub(crate) fn at_number(sent: &[SentBeacon], number: u64) -> Option<SentBeacon>
        ensures { result ≡ at_number sent.now number }
    {
        if number == 0 {
            return None;
        }
        sent.get(number as usize - 1).copied()
    }
}
