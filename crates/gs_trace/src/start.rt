ghost use Rattle.std.specs.Prelude.{◌≡◌};

use std::marker::Model;

/// The hardware readings of all nodes, in clock units. Contracts see the list of them.
#[derive(Debug, Drop)]
pub struct Readings {
    items: Vec<u64>,
}

impl Model for Readings {
    ghost use Rattle.std.specs.Prelude.{List, ℕ};

    ghost Value = { List ℕ };

    ghost view = { λ a. a.items.items };
}

impl Readings {
    /// The readings of this list, in its order.
    pub fn from_vec(items: Vec<u64>) -> Self
        ensures { result ≡ items.items }
    {
        Readings { items }
    }

    /// The readings in order.
    pub fn as_slice(&self) -> &[u64]
        ensures { result.now ≡ self.now }
    {
        &self.items
    }
}

/// How a world starts: one clock for all nodes and the hardware reading of each, in clock units.
#[derive(Debug, Drop)]
pub struct WorldStart {
    pub l0: u64,
    pub hw: Readings,
}

/// How a node starts: its clock and its hardware reading, in clock units.
#[derive(Clone, Copy, Debug, PartialEq, Eq)]
pub struct NodeStart {
    pub l0: u64,
    pub hw: u64,
}
