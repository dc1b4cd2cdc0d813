ghost use Rattle.std.specs.Prelude.{◌≡◌};

use gs_beacon::Beacon;
use std::marker::Model;

/// An event of one node, with the node's hardware reading at which it comes.
#[derive(Clone, Copy, Debug, PartialEq, Eq)]
pub enum NodeEvent {
    /// The node's timer fires.
    Tick { hw: u64 },
    /// A beacon comes.
    Deliver { hw: u64, beacon: Beacon },
}

/// An event of a network of nodes.
#[derive(Debug, Drop)]
pub enum Event {
    /// Each hardware clock goes on by its increment.
    Quantum(Incs),
    /// This node's timer fires.
    Tick(u32),
    /// The beacon of this number comes from its sender to a neighbour.
    Deliver { from: u32, to: u32, seq: u64 },
}

/// What the hardware clock of each node adds in one quantum, in clock units. Contracts see the list of
/// them.
#[derive(Debug, Drop)]
pub struct Incs {
    items: Vec<u32>,
}

impl Model for Incs {
    ghost use Rattle.std.specs.Prelude.{List, ℕ};

    ghost Value = { List ℕ };

    ghost view = { λ a. a.items.items };
}

impl Incs {
    /// The increments of this list, in its order.
    pub fn from_vec(items: Vec<u32>) -> Self
        ensures { result ≡ items.items }
    {
        Incs { items }
    }

    /// The increments in order.
    pub fn as_slice(&self) -> &[u32]
        ensures { result.now ≡ self.now }
    {
        &self.items
    }
}
