ghost use Rattle.gs_script.specs.Laws.{ReadScriptsAreWithin, SteadyScriptsAreWithin};

/// What bytes mean as a script for an accepted plan is within the bounds of the plan, and so is a steady
/// script: in every quantum each increment is within the plan's `lo` to `hi`, each gap between ticks within
/// 1 to `tick`, and each delay within those of its edge, at least one quantum. The quanta, and the quanta
/// times the nodes and edges, are within the limits of scripts.
pub fn scripts_are_within()
    ensures read { ReadScriptsAreWithin }
    ensures steady { SteadyScriptsAreWithin }
{}
