ghost use Rattle.gs_maximum.specs.NeverAhead.{CreepStaysBehind, JumpStaysBehind, HearingStaysBehind, EstimateStaysBehind};
ghost use Rattle.gs_maximum.specs.Lag.{HearingRaises, HeardCreeps, HopTells, HopsTell, EarlierIsTold, LagPerHop};

/// No maximum passes the greatest clock: a base that starts at a clock stays behind it while it
/// creeps, a beacon's maximum stays behind when it is raised for its way, and so nothing that a node
/// makes of the two is ahead. See `docs/MODEL.md`, "Why it holds".
pub fn never_ahead()
    ensures creep { CreepStaysBehind }
    ensures jump { JumpStaysBehind }
    ensures hearing { HearingStaysBehind }
    ensures estimate { EstimateStaysBehind }
{}

/// How far a maximum lags behind the greatest clock: what a beacon raises is never lost again and
/// creeps on, one hop loses at most the spread of its delays, hops add up, and one hop adds at most
/// `(hi - g) * age + j` to the lag. See `docs/MODEL.md`, "Why it holds".
pub fn lag_per_hop()
    ensures hearing { HearingRaises }
    ensures creep { HeardCreeps }
    ensures hop { HopTells }
    ensures hops { HopsTell }
    ensures earlier { EarlierIsTold }
    ensures lag { LagPerHop }
{}
