ghost use Rattle.gs_topo.specs.Laws.{DistancesAreMetric, LeastSumsWeigh};

/// Least sums over walks are the same both ways, fall along some step towards a node, and rise by at
/// most the length of a step.
pub fn least_sums_weigh()
    ensures { LeastSumsWeigh }
{}

/// Distances are a metric, and below the number of nodes.
pub fn distances_are_metric()
    ensures { DistancesAreMetric }
{}
