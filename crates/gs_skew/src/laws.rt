ghost use Rattle.gs_skew.specs.Laws.{EdgesKeepBounds, PairsKeepBounds};
ghost use Rattle.gs_skew.specs.Skews.{PotentialsAreSkews};
ghost use Rattle.gs_skew.specs.Worked.{IsWorkedNetwork};

/// Steered clocks keep the bounds of all levels, at every moment: from equal clocks that never differ
/// by more than `G(0)`, the clocks of a pair v, w stay within `2*s*Weight(v, w) + G(s)`, and so the ends
/// of an edge e within `2*s*kappa(e) + G(s)`, for every level `s`. The law is about numbers alone: it
/// takes rows of clocks, one row at the start and one at each quantum's end, and asks only how the
/// clocks of a row grew. Weights and clocks are in clock units.
///
/// The argument is in `docs/MODEL.md`, "Why it holds", steps 8 to 11. Its idea is that of Lenzen,
/// Locher and Wattenhofer (JACM 2010) and of Kuhn, Lenzen, Locher and Oshman (PODC 2010).
pub fn levels_keep_bounds()
    ensures pairs { PairsKeepBounds }
    ensures edges { EdgesKeepBounds }
{}

/// Some network meets the premises of that law, and has a node in the fast condition.
pub fn premises_can_be_met()
    ensures { IsWorkedNetwork }
{}

/// The potential of level 0 is the global skew, and no potential is above it.
pub fn potentials_are_skews()
    ensures { PotentialsAreSkews }
{}
