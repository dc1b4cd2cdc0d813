ghost use Rattle.gs_planfile.specs.Refusals.{FaultsAreAtKeys};

/// What the first fault of a document says of its keys: where one is named, none that is needed is
/// missing before it.
pub fn faults_are_at_keys()
    ensures { FaultsAreAtKeys }
{}
