ghost use Rattle.std.specs.Prelude.{◌≡◌, ◌≤◌, [], ◌∷◌, IfSome, IfNone, OnOk, OnErr};
ghost use Rattle.gs_calendar.specs.inside.Keys.{key_of};
ghost use Rattle.std.specs.BTreeSet.{insert_key};
ghost use Rattle.gs_calendar.specs.Due.{due_by, is_first_due, key_cmp};

use std::alloc::{AllocError, Global};
use std::collections::BTreeSet;
use std::marker::Model;

/// A beacon in transit: the quantum that it is due in, its sender and its sequence. They stand in this
/// order.
#[derive(Clone, Copy, Debug, PartialEq, Eq, PartialOrd, Ord)]
pub(crate) struct InTransit {
    pub(crate) due: u32,
    pub(crate) from: u32,
    pub(crate) seq: u64,
}

/// The beacons in transit to one node. Contracts see the list of their keys in order.
#[derive(Drop)]
pub(crate) struct Transit {
    keys: BTreeSet<InTransit>,
}

impl Model for Transit {
    ghost use Rattle.std.specs.Prelude.{List};
    ghost use Rattle.gs_calendar.specs.Due.{Key};
    ghost use Rattle.gs_calendar.specs.inside.Keys.{keys_of};

    ghost Value = { List Key };

    ghost view = { λ a. keys_of a.keys.keys };
}

impl Transit {
    /// None.
    pub(crate) fn new(alloc: Global) -> Transit
        ensures { result ≡ [] }
    {
        Transit {
            keys: BTreeSet::new(alloc),
        }
    }

    /// A beacon is sent.
    pub(crate) fn put(&mut self, key: InTransit) -> Result<(), AllocError>
        ensures ok { OnOk result (self.new ≡ insert_key key_cmp self.old (key_of key)) }
        ensures err { OnErr result (self.new ≡ self.old) }
    {
        self.keys.insert(key)?;
        Ok(())
    }

    /// Whether the first beacon is due by quantum `t`.
    fn is_due(&self, t: u32) -> bool
        ensures { result ≡ is_first_due t self.now }
    {
        match self.keys.first() {
            Some(key) => key.due <= t,
            None => false,
        }
    }

    /// Takes the first beacon, if it is due by quantum `t`.
    pub(crate) fn pop_due(&mut self, t: u32) -> Option<InTransit>
        ensures some { IfSome result (λ k. (self.old ≡ key_of k ∷ self.new) × (k.due ≤ t)) }
        ensures none { IfNone result ((self.new ≡ self.old) × (due_by t self.old ≡ [])) }
    {
        if self.is_due(t) {
            self.keys.pop_first()
        } else {
            None
        }
    }
}
