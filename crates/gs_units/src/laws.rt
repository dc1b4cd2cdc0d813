ghost use Rattle.gs_units.specs.Growth.{GrowsInEachQuantum, CreepsAtMostByLo};

/// The law of growth: what one quantum adds to a clock of either mode and to a creep, wherever the
/// hardware clock stands; and that many quanta creep by at most `lo` each.
pub fn growth()
    ensures quantum { GrowsInEachQuantum }
    ensures sum { CreepsAtMostByLo }
{}
