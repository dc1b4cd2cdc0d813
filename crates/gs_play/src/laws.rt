ghost use Rattle.gs_play.specs.Headline.{ScriptsKeepBounds};

/// The headline. Take any accepted plan, and any script that was read for its text and has no breach: at no
/// quantum is what a node last heard of a neighbour too old for the plan. Then every event of the script is
/// allowed; the offsets that nodes decide by are within the `delta` of their edge at the end of each quantum;
/// and at every moment all clocks are within `G(0)` of each other, the potential of each level `s` is at most
/// `G(s)`, the ends of each edge e are within `2*s*kappa(e) + G(s)`, no maximum is above the greatest
/// clock, and none is behind a clock by more than `lambda`. So no number of the report is above the bound
/// beside it: its greatest differences of clocks, of all and of neighbours, and its potentials. All in clock
/// units.
///
/// `docs/THEOREMS.md` says what a reader has to believe for it, and `docs/MODEL.md`, "Why it holds", has the
/// argument. Its idea is that of Lenzen, Locher and Wattenhofer (JACM 2010) and of Kuhn, Lenzen, Locher and
/// Oshman (PODC 2010).
pub fn scripts_keep_bounds()
    ensures { ScriptsKeepBounds }
{}
