ghost use Rattle.gs_level.specs.Reports.{EdgesAreNamed};

/// A report names an edge exactly where the graph has one.
pub fn edges_are_named()
    ensures { EdgesAreNamed }
{}
