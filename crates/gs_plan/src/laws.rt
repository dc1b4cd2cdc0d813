ghost use Rattle.gs_plan.specs.Accepted.{AreAccepted};
ghost use Rattle.gs_plan.specs.Plans.{PlansAreAccepted, WeightsAreLeastSums, WeightsFitKappas};

/// What holds of every text that has no fault, and so of every plan.
pub fn accepted_plans()
    ensures texts { AreAccepted }
    ensures plans { PlansAreAccepted }
{}

/// The weight of a pair is the least sum of the kappas of the edges of a walk, in every plan, and so
/// meets what the law of the levels asks of weights.
pub fn weights_are_least_sums()
    ensures least { WeightsAreLeastSums }
    ensures fit { WeightsFitKappas }
{}
