ghost use Rattle.std.specs.Prelude.{◌≡◌, ◌+◌, ◌<◌, ◌≤◌, IfErr, IfOk, OnErr, OnOk};
ghost use Rattle.gs_order.specs.Waits.{wait_of};

use gs_plan::Plan;

/// An event that has begun and has not finished yet.
#[derive(Clone, Copy, Debug, PartialEq, Eq)]
pub struct Pending {
    /// The clock of its node when it began, in clock units.
    pub stamp: u64,
}

/// An event that begins at this clock of its node, in clock units.
pub fn begin(clock: u64) -> Pending
    ensures { result ≡ record { stamp = clock } }
{
    Pending { stamp: clock }
}

/// Finishes an event at this clock of its node, and gives its stamp, both in clock units. Before its commit wait
/// of `G(0)` is over it hands the event back. In a run that the plan allows, from equal clocks, no node has a
/// clock as low as its stamp from then on: see [`commit_waits_order_events`].
///
/// [`commit_waits_order_events`]: crate::commit_waits_order_events
pub fn finish(plan: &Plan, pending: Pending, clock: u64) -> Result<u64, Pending>
    ensures stamp { IfOk result (λ stamp. stamp ≡ pending.stamp) }
    ensures waited { OnOk result (pending.stamp + wait_of plan.now < clock) }
    ensures handed_back { IfErr result (λ back. back ≡ pending) }
    ensures early { OnErr result (clock ≤ pending.stamp + wait_of plan.now) }
{
    if clock.saturating_sub(pending.stamp) <= plan.g_level(0) {
        return Err(pending);
    }
    Ok(pending.stamp)
}
