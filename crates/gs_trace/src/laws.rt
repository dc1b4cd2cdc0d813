ghost use Rattle.gs_trace.specs.Laws.{WorldIsReadBack, FaultlessIsWorld, NodeIsReadBack, FaultlessIsNode, WorldFaultIsFirst, NodeFaultIsFirst};

/// The law of traces: what was written is read back, and bytes without a fault are a trace. So no bytes
/// spell two starts or two lists of events.
pub fn traces_are_read_back()
    ensures world { WorldIsReadBack }
    ensures faultless_world { FaultlessIsWorld }
    ensures node { NodeIsReadBack }
    ensures faultless_node { FaultlessIsNode }
{}

/// The law of faults: the fault of events in turn is that of the first event at fault, behind whole events
/// alone.
pub fn faults_are_first()
    ensures world { WorldFaultIsFirst }
    ensures node { NodeFaultIsFirst }
{}
