ghost use Rattle.gs_world.specs.RunReports.{ReportsKeepBounds};

/// The report of every allowed run from equal clocks is within the bounds of its plan: its greatest difference
/// of any two clocks is at most `G(0)`, that of neighbours at most `local(s)` for every level `s`, and each
/// potential at most the `G(s)` of its level. In clock units.
pub fn reports_keep_bounds()
    ensures { ReportsKeepBounds }
{}
