ghost use Rattle.std.specs.Prelude.{◌≡◌, ◌+◌, ◌^◌, ◌<◌, ◌≤◌};

use std::marker::Model;

/// The turn of a node: its last tick, its ticks since its last beacon, and the sequence of that beacon.
#[derive(Clone, Copy, Debug)]
pub(crate) struct NodeTurn {
    last: u32,
    count: u32,
    seq: u64,
}

impl Model for NodeTurn {
    ghost use Rattle.gs_calendar.specs.Calendar.{Turn};

    ghost Value = { Turn };

    ghost view = { λ a. record { last = a.last; count = a.count; seq = a.seq } };

    ghost inverse = { λ u. record { last = u.last; count = u.count; seq = u.seq } };
}

impl NodeTurn {
    ghost use Rattle.gs_calendar.specs.Calendar.{first_turn, next_turn};

    /// At the start, which counts as a tick.
    pub(crate) fn first() -> NodeTurn
        ensures { result ≡ first_turn }
    {
        NodeTurn {
            last: 0,
            count: 0,
            seq: 0,
        }
    }

    /// The quantum of the last tick.
    pub(crate) fn last(&self) -> u32
        ensures { result ≡ self.now.last }
    {
        self.last
    }

    /// The sequence of the last beacon.
    pub(crate) fn seq(&self) -> u64
        ensures { result ≡ self.now.seq }
    {
        self.seq
    }

    /// After quantum `t`, in which this gap between ticks is asked for. Each beacon is given by the
    /// tick of this number after the one before.
    pub(crate) fn next(self, every: u32, gap: u32, t: u32) -> NodeTurn
        requires before { self.last ≤ t }
        requires room { (self.count + 1 < 2 ^ 32) × (self.seq + 1 < 2 ^ 64) }
        ensures { result ≡ next_turn every gap t self }
    {
        if t - self.last < gap {
            return self;
        }
        let count = self.count + 1;
        if count < every {
            NodeTurn {
                last: t,
                count,
                seq: self.seq,
            }
        } else {
            NodeTurn {
                last: t,
                count: 0,
                seq: self.seq + 1,
            }
        }
    }
}
