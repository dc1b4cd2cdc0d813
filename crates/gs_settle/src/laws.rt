ghost use Rattle.gs_settle.specs.Laws.{RunsSettle};

/// Settling. Take any events that the bounds of a plan allow, from any readings and from clocks that differ by
/// at most gamma: from quantum `T(s)` on the potential of level `s` is at most `G(s)`, and the ends of each
/// edge e are within `2*s*kappa(e) + G(s)`.
///
/// Until `T0` the skew may grow by the drift, since nodes may decide by clocks of the start that nobody sent;
/// then what they decide by was heard, and the skew falls by `q - r` a quantum down to `G(0)`. Each further
/// level takes the time in which a node that is behind gains the bound of the level before it.
pub fn runs_settle()
    ensures { RunsSettle }
{}
