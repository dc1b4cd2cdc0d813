ghost use Rattle.gs_node.specs.Ends.{IsComplete};

/// The law of ends: a run in which nothing failed, nothing halted and nothing differs was done, or had no
/// memory.
pub fn completeness()
    ensures { IsComplete }
{}
