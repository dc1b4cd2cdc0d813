ghost use Rattle.std.specs.Prelude.{◌≡◌, ◌<◌, IfOk, map};
ghost use Rattle.gs_topo.specs.Graph.{neighbours_of};
ghost use Rattle.gs_plan.specs.Plans.{graph_of, text_of};
ghost use Rattle.gs_node_run.specs.Addresses.{answers_at, receives_at, routes_of, side_of};

use gs_plan::{Plan, accepted_plans};
use std::alloc::{AllocError, Global};

/// The ports that a node goes by.
#[derive(Debug, Drop)]
pub struct Addresses {
    /// Where it receives from each neighbour, by ascending neighbour.
    pub inlets: Vec<u16>,
    /// Its neighbours in ascending order, each with the port at which it receives from the node.
    pub routes: Vec<(u32, u16)>,
    /// Where it is asked for its time.
    pub door: u16,
}

/// The ports of node `v`.
pub fn addresses_of(alloc: Global, plan: &Plan, v: u32) -> Result<Addresses, AllocError>
    requires { v < (graph_of plan.now).nodes }
    ensures inlets { IfOk result (λ at. at.inlets.items
        ≡ map (receives_at (text_of plan.now) (graph_of plan.now) v) (neighbours_of (graph_of plan.now) v)) }
    ensures routes { IfOk result (λ at. at.routes.items ≡ routes_of (text_of plan.now) (graph_of plan.now) v) }
    ensures door { IfOk result (λ at. at.door ≡ answers_at (text_of plan.now) (graph_of plan.now) v) }
{
    let mut inlets = Vec::new(alloc);
    let mut routes = Vec::new(alloc);
    for x in plan.topo().neighbours(v) {
        inlets.push(receives_at(plan, v, *x))?;
        routes.push((*x, receives_at(plan, *x, v)))?;
    }
    Ok(Addresses {
        inlets,
        routes,
        door: answers_at(plan, v),
    })
}

/// Where node `v` receives from its neighbour `x`.
fn receives_at(plan: &Plan, v: u32, x: u32) -> u16
    ensures { result ≡ receives_at (text_of plan.now) (graph_of plan.now) v x }
{
    // The ports of an accepted plan are below 65,536.
    accepted_plans();
    let port = plan.text().port;
    match plan.topo().edge_between(v, x) {
        Some(e) => (port + 2 * e + side(v, x)) as u16,
        None => 0,
    }
}

/// Which of the two ports of an edge is that of `v`, where `x` is its other end.
fn side(v: u32, x: u32) -> u32
    ensures { result ≡ side_of v x }
{
    if v < x { 1 } else { 0 }
}

/// Where node `v` is asked for its time.
fn answers_at(plan: &Plan, v: u32) -> u16
    requires { v < (graph_of plan.now).nodes }
    ensures { result ≡ answers_at (text_of plan.now) (graph_of plan.now) v }
{
    accepted_plans();
    let port = plan.text().port;
    (port + 2 * plan.topo().edges().len() as u32 + v) as u16
}
