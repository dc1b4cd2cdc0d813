ghost use Rattle.gs_steer.specs.Laws.{FastByTrigger, SlowByTrigger, FastFarBehind, SlowNearMaximum};

/// The laws of the mode, for links whose `kappa` is more than twice their `delta`: each trigger alone
/// decides it, as they never hold together; where they leave it open, `iota` decides.
pub fn mode_laws()
    ensures fast { FastByTrigger }
    ensures slow { SlowByTrigger }
    ensures far { FastFarBehind }
    ensures near { SlowNearMaximum }
{}
