ghost use Rattle.gs_run.specs.Headline.{PlansKeepBounds};
ghost use Rattle.gs_run.specs.Refusing.{AllowedWhereNoneIsRefused, ClocksNeverFall, NoneWantsMemory};
ghost use Rattle.gs_run.specs.Laws.{RunsAreBounded, RunsKeepTheBudget, NodesAreReplayed};

/// The headline. Take any plan, any readings and one clock for all nodes at the start, and any events that the
/// bounds of the plan allow. Then at every moment all clocks are within `G(0)` of each other; for every level `s`
/// the potential is at most `G(s)`, and the ends of each edge e are within `2*s*kappa(e) + G(s)`, and so within
/// `local(s)`; no maximum is above the greatest clock, and none is behind a clock by more than `lambda`. And at the
/// end of each quantum the offsets that nodes decide by are within the `delta` of their edge. All in clock units,
/// in the numbers that the calls of [`gs_plan::Plan`] answer.
///
/// The argument is in `docs/MODEL.md`, "Why it holds". Its idea is that of Lenzen, Locher and Wattenhofer
/// (JACM 2010) and of Kuhn, Lenzen, Locher and Oshman (PODC 2010).
pub fn plans_keep_bounds()
    ensures { PlansKeepBounds }
{}

/// From equal clocks, after any events that the bounds of the plan allow: all clocks are within `G(0)` of
/// each other, the potential of each level `s` is at most `G(s)`, the ends of each edge e are within
/// `2*s*kappa(e) + G(s)`, no maximum is above the greatest clock, and none is behind a clock by more than
/// `lambda`. All in clock units, at every moment and for every level.
///
/// The argument is in `docs/MODEL.md`, "Why it holds". Its idea is that of Lenzen, Locher and Wattenhofer
/// (JACM 2010) and of Kuhn, Lenzen, Locher and Oshman (PODC 2010).
pub fn runs_are_bounded()
    ensures { RunsAreBounded }
{}

/// The offsets that nodes decide by stay within the `delta` of their edge of the true ones, until the end of
/// the last quantum that goes by them. See `docs/MODEL.md`, "Why it holds", steps 1 and 2.
pub fn runs_keep_the_budget()
    ensures { RunsKeepTheBudget }
{}

/// A node of a world is what it would be alone: the replay of the ticks and beacons that came to it, each at
/// its own reading then, ends in its state and meets no fault. It holds from any readings and clocks of at most
/// 2^61.
pub fn nodes_are_replayed()
    ensures { NodesAreReplayed }
{}

/// A list of events is allowed exactly where none of them is refused first, and what refuses an event is never
/// `OutOfMemory`: that is no rule, but an answer of the code alone.
pub fn refusals_are_named()
    ensures exact { AllowedWhereNoneIsRefused }
    ensures named { NoneWantsMemory }
{}

/// No event makes a clock fall, allowed or not, from any world.
pub fn clocks_never_fall()
    ensures { ClocksNeverFall }
{}
