ghost use Rattle.gs_run.specs.Accepted.{PlansHaveNumbers};
ghost use Rattle.gs_run.specs.Told.{BoundsAreThePlans, NodesAreTold};

/// The net of every plan has the numbers that the laws of runs rest on. It says of each node what the
/// plan tells it, and the bounds of the laws are the plan's: `G(s)`, `lambda`, and each edge's `delta`
/// and `kappa`, as the calls of `Plan` answer them.
pub fn plans_have_numbers()
    ensures numbers { PlansHaveNumbers }
    ensures nodes { NodesAreTold }
    ensures bounds { BoundsAreThePlans }
{}
