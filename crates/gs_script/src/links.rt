ghost use Rattle.std.specs.Prelude.{◌≡◌, IfOk, Some, slice_get};
ghost use Rattle.gs_plan.specs.Plans.{text_of};
ghost use Rattle.gs_plan.specs.Shapes.{graph_of_text};
ghost use Rattle.gs_script.specs.inside.Kept.{link_of, links_of};

use gs_plan::Plan;
use gs_topo::Topology;
use std::alloc::{AllocError, Global};

/// An edge with its delays.
#[derive(Clone, Copy, Debug, PartialEq, Eq)]
pub(crate) struct Link {
    pub(crate) a: u32,
    pub(crate) b: u32,
    pub(crate) delay_min: u32,
    pub(crate) delay_max: u32,
}

/// The graph of a plan.
pub(crate) fn graph(plan: &Plan) -> &Topology
    ensures { result.now ≡ graph_of_text (text_of plan.now) }
{
    plan.topo()
}

/// Edge number `e`, which joins these nodes.
#[tactic(auto, using(crate::proofs::Edges::links))]
fn link_over(plan: &Plan, e: u32, edge: (u32, u32)) -> Link
    requires { slice_get (graph_of_text (text_of plan.now)).edges e ≡ Some edge }
    ensures { result ≡ link_of (text_of plan.now) edge }
{
    let numbers = plan.edge(e);
    Link {
        a: edge.0,
        b: edge.1,
        delay_min: numbers.delay_min,
        delay_max: numbers.delay_max,
    }
}

/// All edges of a plan.
#[tactic(auto, using(crate::proofs::Edges::links))]
pub(crate) fn links(alloc: Global, plan: &Plan) -> Result<Vec<Link>, AllocError>
    ensures { IfOk result (λ links. links.items ≡ links_of (text_of plan.now)) }
{
    let edges = graph(plan).edges();
    let mut links = Vec::new(alloc);
    for (e, edge) in edges.iter().enumerate() {
        links.push(link_over(plan, e as u32, *edge))?;
    }
    Ok(links)
}
