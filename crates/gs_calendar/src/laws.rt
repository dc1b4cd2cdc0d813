ghost use Rattle.gs_calendar.specs.Laws.{BreachesAreFirst, BreachesAreTheCalendars, FewLossesNeverBreach};
ghost use Rattle.gs_calendar.specs.Laws.{ScriptsAreCalm, UnbreachedAreAllowed};

/// The events of a script break no rule but that of staleness. Nothing is refused but quanta, and those
/// because a node has heard nothing new of a neighbour for too long: ticks, deliveries and increments
/// keep the bounds of the plan. So a script without a breach is allowed, and a breach is the first
/// refusal of its events. It follows from the plan and the script alone, whatever the clocks.
pub fn scripts_are_calm()
    ensures calm { ScriptsAreCalm }
    ensures allowed { UnbreachedAreAllowed }
    ensures first { BreachesAreFirst }
    ensures calendar { BreachesAreTheCalendars }
{}

/// The beacon-bound law. Take any accepted plan, and any script that was read for its text. If over no edge, in
/// either direction, more than the plan's `losses` beacons are lost that were sent one after the other by the
/// last quantum, the script has no breach: no node is ever without fresh news of a neighbour for too long.
///
/// For a node ticks at least once in `P` quanta, and so sends a beacon at least once in `every * P`. One of any
/// `losses + 1` in a row is not lost, and comes at most `Umax` quanta after it was sent. So what a node last
/// heard of a neighbour was sent less than `(losses + 1) * every * P + Umax` quanta ago, and a plan where that
/// is more than its `A` is refused.
pub fn few_losses_never_breach()
    ensures { FewLossesNeverBreach }
{}
