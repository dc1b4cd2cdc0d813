ghost use Rattle.gs_core.specs.Replays.{ReplayGoesOn, StoppedStays};

/// The laws of a replay, by which it is made one event at a time: a whole one goes on with the next
/// event, and one that has stopped stays so.
pub fn replay_laws()
    ensures goes_on { ReplayGoesOn }
    ensures stays { StoppedStays }
{}
