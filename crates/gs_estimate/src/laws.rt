ghost use Rattle.gs_estimate.specs.EdgeError.{BeaconIsClose, StartIsClose, OffsetStaysClose};

/// The error law of one edge. An estimate that a beacon gave is at most the drift of its age and half
/// the spread of the delays away from the neighbour's clock; so is an entry of a start from equal
/// clocks; and while a decision is in use, its offset differs from the true one by that and the drift
/// since. See `docs/MODEL.md`, "Why it holds".
pub fn edge_error()
    ensures beacon { BeaconIsClose }
    ensures start { StartIsClose }
    ensures offset { OffsetStaysClose }
{}
