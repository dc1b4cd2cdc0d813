ghost use Rattle.std.specs.Prelude.{◌≡◌, List};

use std::marker::Model;

/// A potential, in clock units, with the first pair of nodes that has it: `w` is ahead of `v`, or both are 0
/// where it is 0.
#[derive(Clone, Copy, Debug, PartialEq, Eq)]
pub struct Peak {
    pub value: u64,
    pub v: u32,
    pub w: u32,
}

/// The potentials of the levels from 0 on. Contracts see the list of them.
#[derive(Debug, Drop)]
pub struct Peaks {
    items: Vec<Peak>,
}

impl Model for Peaks {
    ghost use Rattle.std.specs.Prelude.{List};
    ghost use Rattle.gs_level.specs.declared.peak.Peak.{Peak};

    ghost Value = { List Peak };

    ghost view = { λ p. p.items.items };
}

impl Peaks {
    /// The peaks of this list, in its order.
    pub fn from_vec(items: Vec<Peak>) -> Self
        ensures { result ≡ items.items }
    {
        Peaks { items }
    }

    /// The peaks in order.
    pub fn as_slice(&self) -> &[Peak]
        ensures { result.now ≡ self.now }
    {
        &self.items
    }
}
