ghost use Rattle.std.specs.Prelude.{◌≡◌, ◌<◌, ◌^◌, [], ◌∷◌, length, List, IfErr, IfOk, OnOk};
ghost use Rattle.gs_units.specs.Params.{AreValid};
ghost use Rattle.gs_units.specs.declared.params.NodeParams.{NodeParams};
ghost use Rattle.gs_core.specs.State.{CarriesBeacon};
ghost use Rattle.gs_core.specs.declared.event.NodeEvent.{NodeEvent};
ghost use Rattle.gs_trace.specs.Starts.{FitsNode};
ghost use Rattle.gs_trace.specs.declared.start.NodeStart.{NodeStart};
ghost use Rattle.gs_audit.specs.NodeVerdicts.{node_verdict_of};

use crate::verdict::NodeVerdict;
use gs_core::{Core, NodeEvent};
use gs_trace::NodeStart;
use gs_units::NodeParams;
use std::alloc::{AllocError, Global};

/// A replay under way: the node now.
#[derive(Drop)]
pub(crate) struct Replaying {
    core: Core,
    /// The number of events so far.
    index: u64,
}

impl Replaying {
    ghost use Rattle.gs_audit.specs.inside.NodeRunning.{IsReplaying};

    /// The start.
    pub(crate) fn start(
        alloc: Global,
        params: &NodeParams,
        start: &NodeStart,
    ) -> Result<Replaying, AllocError>
        requires valid { AreValid params.now }
        requires start { FitsNode start.now }
        ensures { IfOk result (λ replaying. (all : List NodeEvent) → length all < 2 ^ 64
            → IsReplaying params.now start.now all all replaying) }
    {
        let params = params.copy(alloc)?;
        let core = Core::start(alloc, params, start.hw, start.l0)?;
        Ok(Replaying { core, index: 0 })
    }

    /// Takes the first event that is left, or gives the verdict on it.
    pub(crate) fn step(&mut self, event: &NodeEvent) -> Result<(), NodeVerdict>
        requires beacon { CarriesBeacon event.now }
        requires first { (p : NodeParams) × (s : NodeStart) × (all : List NodeEvent) × (left : List NodeEvent)
            × IsReplaying p s all (event.now ∷ left) self.old }
        ensures ok { (p : NodeParams) (s : NodeStart) (all left : List NodeEvent)
            → IsReplaying p s all (event.now ∷ left) self.old → OnOk result (IsReplaying p s all left self.new) }
        ensures err { (p : NodeParams) (s : NodeStart) (all left : List NodeEvent)
            → IsReplaying p s all (event.now ∷ left) self.old
            → IfErr result (λ verdict. verdict ≡ node_verdict_of p s all) }
    {
        match self.core.step(event) {
            Ok(_) => {
                self.index += 1;
                Ok(())
            }
            Err(why) => Err(NodeVerdict::Refused {
                index: self.index,
                why,
            }),
        }
    }

    /// The verdict where no event is left.
    pub(crate) fn end(&self) -> NodeVerdict
        ensures { (p : NodeParams) (s : NodeStart) (all : List NodeEvent) → IsReplaying p s all [] self.now
            → result ≡ node_verdict_of p s all }
    {
        let now = self.core.last();
        NodeVerdict::Within {
            l: self.core.clock(now),
            m: self.core.maximum(now),
            mode: self.core.mode(),
        }
    }
}
