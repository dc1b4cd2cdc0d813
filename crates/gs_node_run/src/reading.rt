ghost use Rattle.std.specs.Prelude.{◌≡◌, ◌<◌, ◌≤◌, IfOk, IfErr, map, string_bytes, true};
ghost use Rattle.gs_units.specs.Params.{AreValid};
ghost use Rattle.gs_plan.specs.Plans.{graph_of};
ghost use Rattle.gs_plan.specs.declared.plan.Plan.{Plan};
ghost use Rattle.gs_cli.specs.Stops.{StopsWith};
ghost use Rattle.gs_inputs.specs.Sources.{seen};
ghost use Rattle.gs_node_run.specs.Nodes.{IsRefused, Names, names_no_file, params_of};
ghost use Rattle.gs_node_run.specs.Words.{Order, order_of};
ghost use Rattle.gs_node_run.specs.inside.Jobs.{IsJobOf};

use crate::addresses::{Addresses, addresses_of};
use crate::words::order_of;
use gs_cli::{Reply, Status, Stop};
use gs_inputs::{node_refusal, read_plan};
use gs_io::Files;
use gs_plan::Plan;
use gs_units::NodeParams;
use std::alloc::{AllocError, Global};

const USAGE: &str = "usage: gradsync plan, play, trace, audit, replay, gen or node\n";

/// What a run of a node goes by.
#[derive(Drop)]
pub struct Job {
    pub params: NodeParams,
    pub addresses: Addresses,
    /// How many turns the timer takes.
    pub ticks: u32,
    /// For how many units it rests before each.
    pub pace: u64,
}

/// The job that the words of a command line name, or the first that refuses them, in this order: the words, the
/// plan's file, the plan, the node.
pub fn read_job<F: Files>(alloc: Global, files: &mut F, words: &[String]) -> Result<Job, Stop>
    ensures ok { IfOk result (λ job. (order : Order) × (plan : Plan)
        × Names (seen (F.content files.old) (F.faults files.old) (F.faults files.new)) (map string_bytes words.now) order plan
        × IsJobOf plan order.node order.ticks job) }
    ensures err { IfErr result (StopsWith (IsRefused
        (seen (F.content files.old) (F.faults files.old) (F.faults files.new)) (map string_bytes words.now))) }
    ensures untouched { names_no_file (order_of (map string_bytes words.now)) ≡ true → files.new ≡ files.old }
{
    let Some(order) = order_of(words) else {
        return Err(Stop::Refused(Reply::Line(Status::Usage, USAGE)));
    };
    let plan = read_plan(alloc, files, order.plan)?;
    if order.node >= plan.topo().nodes() {
        return Err(Stop::Refused(node_refusal(alloc, order.node)?));
    }
    Ok(job_of(alloc, &plan, order.node, order.ticks)?)
}

/// The job of a node of a plan.
fn job_of(alloc: Global, plan: &Plan, node: u32, ticks: u32) -> Result<Job, AllocError>
    requires { node < (graph_of plan.now).nodes }
    ensures { IfOk result (IsJobOf plan.now node ticks) }
{
    let params = plan.node(alloc, node)?;
    let addresses = addresses_of(alloc, plan, node)?;
    Ok(Job {
        params,
        addresses,
        ticks,
        pace: pace(plan),
    })
}

/// For how long the timer of a node rests before each turn, in units: half of the shortest time in which
/// a tick is due.
fn pace(plan: &Plan) -> u64 {
    let tick = u64::from(plan.text().tick);
    let lo = u64::from(plan.text().lo);
    (tick.saturating_mul(lo) / 2).max(1)
}
