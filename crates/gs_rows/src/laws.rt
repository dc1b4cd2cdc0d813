ghost use Rattle.gs_rows.specs.Laws.{RowsAreReported, RowsAreSteady};

/// The rows of a run are what its report is made of: their clocks are the rows of the report, and the sum of
/// their counts of fast nodes is its `fast`.
pub fn rows_are_reported()
    ensures { RowsAreReported }
{}

/// The rows of a script without a breach keep the bounds of the plan, from clocks that are all 0: at the start
/// and at the end of each quantum all clocks are within `G(0)` of each other and, for every level `s`, two clocks
/// within `2*s` times their weight and `G(s)`; and no clock falls from a row to a later one. All in clock units.
pub fn rows_are_steady()
    ensures { RowsAreSteady }
{}
