ghost use Rattle.gs_stamp.specs.Restarts.{StampsRise};

/// The law of restarts: over runs that each find what the one before them left, whenever that one
/// stopped, every stamp is greater than all stamps before it.
pub fn stamps_rise()
    ensures { StampsRise }
{}
