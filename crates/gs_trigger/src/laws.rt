ghost use Rattle.gs_trigger.specs.Laws.{NeverBoth, NotFastInFront, NotSlowAtTheBack};

/// The laws of the triggers, for links whose `kappa` is more than twice their `delta`: the two never
/// hold together; no fast trigger holds where no neighbour is ahead by more than `delta`, and no slow one
/// where none is behind by more.
pub fn trigger_laws()
    ensures apart { NeverBoth }
    ensures front { NotFastInFront }
    ensures back { NotSlowAtTheBack }
{}
