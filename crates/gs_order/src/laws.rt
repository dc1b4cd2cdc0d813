ghost use Rattle.gs_order.specs.Laws.{CommitWaitsOrderEvents, ScriptsAreOrdered};

/// External order. Take any accepted plan and any events that its bounds allow, from equal clocks. Where an
/// event could finish at some moment, by the clock of its node then, every event that begins at that moment or
/// later, at any node, has a greater stamp.
///
/// For at that moment no clock is behind that of the event's node by more than `G(0)`, which is the commit
/// wait, and no clock ever falls.
///
/// So of the events of a script without a breach, each that has finished when another begins has the lesser
/// stamp.
pub fn commit_waits_order_events()
    ensures runs { CommitWaitsOrderEvents }
    ensures scripts { ScriptsAreOrdered }
{}
