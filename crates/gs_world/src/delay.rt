ghost use Rattle.std.specs.Prelude.{◌≡◌, ◌<◌, map, IfErr, IfOk, OnOk, None, Some};
ghost use Rattle.gs_topo.specs.Graph.{Adjacent};
ghost use Rattle.gs_plan.specs.Plans.{graph_of};
ghost use Rattle.gs_run.specs.Nets.{net_of};
ghost use Rattle.gs_run.specs.Net.{neighbours};
ghost use Rattle.gs_world.specs.inside.Delays.{age_refused, delay_of};

use gs_plan::Plan;
use gs_run::Refused;
use std::alloc::{AllocError, Global};

/// How long beacons may take over an edge, in quanta.
#[derive(Clone, Copy, Debug)]
pub(crate) struct Delay {
    pub(crate) delay_min: u32,
    pub(crate) delay_max: u32,
}

impl Delay {
    /// Why a newer beacon that was sent in quantum `sent` may not come after `quanta` quanta.
    pub(crate) fn admit(self, sent: u32, quanta: u32) -> Result<(), Refused>
        ensures ok { OnOk result (age_refused self sent quanta ≡ None) }
        ensures err { IfErr result (λ refused. age_refused self sent quanta ≡ Some refused) }
    {
        if u64::from(quanta) < u64::from(sent) + u64::from(self.delay_min) {
            return Err(Refused::Early);
        }
        if u64::from(sent) + u64::from(self.delay_max) < u64::from(quanta) {
            return Err(Refused::Late);
        }
        Ok(())
    }
}

/// The delays of the edges of `v` in ascending order of its neighbours.
pub(crate) fn delays(alloc: Global, plan: &Plan, v: u32) -> Result<Vec<Delay>, AllocError>
    requires { v < (graph_of plan.now).nodes }
    ensures { IfOk result
        (λ delays.
        delays.items ≡ map (delay_of (net_of plan.now) v) (neighbours (net_of plan.now) v)) }
{
    let mut delays = Vec::new(alloc);
    for x in plan.topo().neighbours(v) {
        delays.push(between(plan, v, *x))?;
    }
    Ok(delays)
}

/// The delays of the edge of `v` and `x`.
fn between(plan: &Plan, v: u32, x: u32) -> Delay
    requires { Adjacent (graph_of plan.now) v x }
    ensures { result ≡ delay_of (net_of plan.now) v x }
{
    match plan.topo().edge_between(v, x) {
        Some(e) => {
            let edge = plan.edge(e);
            Delay {
                delay_min: edge.delay_min,
                delay_max: edge.delay_max,
            }
        }
        None => unreachable!(),
    }
}
