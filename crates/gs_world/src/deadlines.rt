ghost use Rattle.std.specs.Prelude.{◌≡◌, ◌≤◌, All};

use crate::member::Member;

/// From when on a world has to look for what is late, in quanta.
#[derive(Clone, Copy, Debug)]
pub(crate) struct Deadlines {
    /// No tick is due before.
    pub(crate) due: u64,
    /// Nothing that was heard is too old before.
    pub(crate) stale: u64,
}

impl Deadlines {
    /// The same, where a tick is due from `due` on too.
    pub(crate) fn with_due(self, due: u64) -> Deadlines
        ensures sooner { result.due ≤ self.due }
        ensures by { result.due ≤ due }
        ensures same { result.stale ≡ self.stale }
    {
        Deadlines {
            due: self.due.min(due),
            stale: self.stale,
        }
    }

    /// The same, where something that was heard is stale from `stale` on too.
    pub(crate) fn with_stale(self, stale: u64) -> Deadlines
        ensures sooner { result.stale ≤ self.stale }
        ensures by { result.stale ≤ stale }
        ensures same { result.due ≡ self.due }
    {
        Deadlines {
            due: self.due,
            stale: self.stale.min(stale),
        }
    }
}

/// The least of some numbers, or the greatest of all where there are none.
pub(crate) fn least(items: &[u32]) -> u32
    ensures { All (λ x. result ≤ x) items.now }
{
    let mut least = u32::MAX;
    for x in items {
        least = least.min(*x);
    }
    least
}

/// The quantum of the oldest last tick.
pub(crate) fn oldest_tick(members: &[Member]) -> u32
    ensures { All (λ s. result ≤ s.ticked_at) members.now }
{
    let mut oldest = u32::MAX;
    for member in members {
        oldest = oldest.min(member.ticked_at);
    }
    oldest
}

/// The quantum in which the oldest of all beacons was sent that nodes go by.
pub(crate) fn oldest_heard(members: &[Member]) -> u32
    ensures { All (λ s. All (λ sent. result ≤ sent) s.heard.items) members.now }
{
    let mut oldest = u32::MAX;
    for member in members {
        oldest = oldest.min(least(&member.heard));
    }
    oldest
}
