ghost use Rattle.std.specs.Prelude.{◌≡◌, ◌<◌, ◌≤◌, ℕ, All, IfOk, List, is_some, length};
ghost use Rattle.gs_topo.specs.Graph.{Adjacent};
ghost use Rattle.gs_plan.specs.Plans.{text_of};
ghost use Rattle.gs_plan.specs.Shapes.{graph_of_text};
ghost use Rattle.gs_script.specs.inside.Kept.{AreBeacons, HasAllWays, HasNodes, IsClock, IsNode, IsSpan, IsStar, IsWay, Paints};
ghost use Rattle.gs_script.specs.inside.Kept.{home, home_of, homes_in, is_same, last_number, latest, least_between};
ghost use Rattle.gs_script.specs.Lines.{delay_said, gap_said, inc_said, loss_said};
ghost use Rattle.gs_script.specs.Lasts.{Lasts};
ghost use Rattle.gs_script.specs.declared.line.Part.TheVariants as part;
ghost use Rattle.gs_script.specs.declared.line.Who.TheVariants.{Every, One};

use crate::line::{Line, Part, Who};
use crate::links::graph;
use crate::places::{homes_of, places_at, places_in};
use crate::record::MAX_RECORDS;
use crate::run::Run;
use crate::runs::Runs;
use gs_plan::Plan;
use std::alloc::{AllocError, Global};

/// The runs of the records of clocks that name a node, or the star.
#[derive(Debug, Drop)]
pub(crate) struct ClockRuns {
    pub(crate) drifts: Runs,
    pub(crate) ticks: Runs,
}

/// The runs of the records of beacons that name a sender and a receiver, each a node or the star.
#[derive(Debug, Drop)]
pub(crate) struct BeaconRuns {
    pub(crate) delays: Runs,
    pub(crate) losses: Runs,
}

/// What is kept of the way from a node to a neighbour: the delay where no record sets it, in quanta, and
/// the runs of the records that name both.
#[derive(Debug, Drop)]
pub(crate) struct WayRecords {
    pub(crate) least: u32,
    pub(crate) named: BeaconRuns,
}

/// What is kept of the ways from a node to its neighbours.
#[derive(Debug, Drop)]
pub(crate) struct Ways {
    /// By node of the plan: the place of the way to it, where it is a neighbour.
    pub(crate) index: Vec<u16>,
    pub(crate) items: Vec<WayRecords>,
}

/// What is kept of the records that name no node.
#[derive(Debug, Drop)]
pub(crate) struct StarRecords {
    pub(crate) clock: ClockRuns,
    pub(crate) beacons: BeaconRuns,
}

/// What is kept of the records that name a node: of its clock, of beacons from it to the star and from the
/// star to it, and of its ways.
#[derive(Debug, Drop)]
pub(crate) struct NodeRecords {
    pub(crate) clock: ClockRuns,
    pub(crate) sent: BeaconRuns,
    pub(crate) received: BeaconRuns,
    pub(crate) ways: Ways,
}

/// The runs of a part of the records, of which these are the places of all that its node keeps.
fn runs_of(alloc: Global, lines: &[Line], places: &[u16], part: Part) -> Result<Runs, AllocError>
    requires places { places.now ≡ latest (λ s. is_same (home s) (home_of part)) 0 lines.now }
    requires spans { All (λ l. IsSpan l.span) lines.now }
    ensures { IfOk result (Paints lines.now part) }
{
    let chosen = places_in(alloc, lines, places, part)?;
    let runs = Runs::of(alloc, lines, &chosen)?;
    Ok(runs)
}

fn clock_of(alloc: Global, lines: &[Line], places: &[u16], v: Who) -> Result<ClockRuns, AllocError>
    requires places { places.now ≡ latest (λ s. is_same (home s) v) 0 lines.now }
    requires spans { All (λ l. IsSpan l.span) lines.now }
    ensures { IfOk result (IsClock lines.now v) }
{
    let drifts = runs_of(alloc, lines, places, Part::Drift(v))?;
    let ticks = runs_of(alloc, lines, places, Part::Tick(v))?;
    Ok(ClockRuns { drifts, ticks })
}

fn beacons_of(
    alloc: Global,
    lines: &[Line],
    places: &[u16],
    v: Who,
    w: Who,
) -> Result<BeaconRuns, AllocError>
    requires places { places.now ≡ latest (λ s. is_same (home s) (home_of (part.Delay v w))) 0 lines.now }
    requires spans { All (λ l. IsSpan l.span) lines.now }
    ensures { IfOk result (AreBeacons lines.now v w) }
{
    let delays = runs_of(alloc, lines, places, Part::Delay(v, w))?;
    let losses = runs_of(alloc, lines, places, Part::Loss(v, w))?;
    Ok(BeaconRuns { delays, losses })
}

/// The run of the number of the last record that sets the drift of a node: for the star, or for the node
/// itself.
pub(crate) fn drift_at(star: &ClockRuns, own: &ClockRuns, t: u32) -> Run
    ensures { (lines : List Line) (v : ℕ) → IsClock lines Every star.now → IsClock lines (One v) own.now
        → Lasts (last_number (λ s. is_some (inc_said v s)) 0 lines) t result.until result.value }
{
    star.drifts.at(t).greater(own.drifts.at(t))
}

/// The same of its tick gap.
pub(crate) fn tick_at(star: &ClockRuns, own: &ClockRuns, t: u32) -> Run
    ensures { (lines : List Line) (v : ℕ) → IsClock lines Every star.now → IsClock lines (One v) own.now
        → Lasts (last_number (λ s. is_some (gap_said v s)) 0 lines) t result.until result.value }
{
    star.ticks.at(t).greater(own.ticks.at(t))
}

/// The same of the delay of beacons between two nodes: for all, for those of the sender, for those to the
/// receiver, or for the two.
pub(crate) fn delay_at(
    star: &BeaconRuns,
    sent: &BeaconRuns,
    received: &BeaconRuns,
    named: &BeaconRuns,
    t: u32,
) -> Run
    ensures { (lines : List Line) (v w : ℕ) → AreBeacons lines Every Every star.now
        → AreBeacons lines (One v) Every sent.now → AreBeacons lines Every (One w) received.now
        → AreBeacons lines (One v) (One w) named.now
        → Lasts (last_number (λ s. is_some (delay_said v w s)) 0 lines) t result.until result.value }
{
    let senders = star.delays.at(t).greater(sent.delays.at(t));
    let receivers = received.delays.at(t).greater(named.delays.at(t));
    senders.greater(receivers)
}

/// The same of their loss.
pub(crate) fn loss_at(
    star: &BeaconRuns,
    sent: &BeaconRuns,
    received: &BeaconRuns,
    named: &BeaconRuns,
    t: u32,
) -> Run
    ensures { (lines : List Line) (v w : ℕ) → AreBeacons lines Every Every star.now
        → AreBeacons lines (One v) Every sent.now → AreBeacons lines Every (One w) received.now
        → AreBeacons lines (One v) (One w) named.now
        → Lasts (last_number (λ s. is_some (loss_said v w s)) 0 lines) t result.until result.value }
{
    let senders = star.losses.at(t).greater(sent.losses.at(t));
    let receivers = received.losses.at(t).greater(named.losses.at(t));
    senders.greater(receivers)
}

/// The least delay of beacons between two neighbours, which is at least one quantum.
#[tactic(auto, using(crate::proofs::Keeping::least))]
fn least_delay(plan: &Plan, v: u32, w: u32) -> u32
    requires { Adjacent (graph_of_text (text_of plan.now)) v w }
    ensures { result ≡ least_between (text_of plan.now) v w }
{
    match graph(plan).edge_between(v, w) {
        Some(e) => plan.edge(e).delay_min.max(1),
        None => unreachable!(),
    }
}

fn way_to(
    alloc: Global,
    plan: &Plan,
    lines: &[Line],
    places: &[u16],
    v: u32,
    w: u32,
) -> Result<WayRecords, AllocError>
    requires places { places.now ≡ latest (λ s. is_same (home s) (One v)) 0 lines.now }
    requires spans { All (λ l. IsSpan l.span) lines.now }
    requires neighbours { Adjacent (graph_of_text (text_of plan.now)) v w }
    ensures { IfOk result (IsWay (text_of plan.now) lines.now v w) }
{
    let named = beacons_of(alloc, lines, places, Who::One(v), Who::One(w))?;
    Ok(WayRecords {
        least: least_delay(plan, v, w),
        named,
    })
}

#[tactic(auto, using(crate::proofs::Keeping::ways_from))]
fn ways_from(
    alloc: Global,
    plan: &Plan,
    lines: &[Line],
    places: &[u16],
    v: u32,
) -> Result<Ways, AllocError>
    requires places { places.now ≡ latest (λ s. is_same (home s) (One v)) 0 lines.now }
    requires spans { All (λ l. IsSpan l.span) lines.now }
    requires node { v < (graph_of_text (text_of plan.now)).nodes }
    ensures { IfOk result (HasAllWays (text_of plan.now) lines.now v) }
{
    let neighbours = graph(plan).neighbours(v);
    let mut index = vec![in alloc; 0; graph(plan).nodes() as usize]?;
    let mut items = Vec::new(alloc);
    for (k, &w) in neighbours.iter().enumerate() {
        index[w as usize] = k as u16;
        items.push(way_to(alloc, plan, lines, places, v, w)?)?;
    }
    Ok(Ways { index, items })
}

/// What is kept of a node.
fn node_of(
    alloc: Global,
    plan: &Plan,
    lines: &[Line],
    homes: &[Who],
    v: u32,
) -> Result<NodeRecords, AllocError>
    requires homes { homes.now ≡ homes_in lines.now }
    requires few { length lines.now ≤ MAX_RECORDS }
    requires spans { All (λ l. IsSpan l.span) lines.now }
    requires node { v < (graph_of_text (text_of plan.now)).nodes }
    ensures { IfOk result (IsNode (text_of plan.now) lines.now v) }
{
    let places = places_at(alloc, lines, homes, Who::One(v))?;
    let clock = clock_of(alloc, lines, &places, Who::One(v))?;
    let sent = beacons_of(alloc, lines, &places, Who::One(v), Who::Every)?;
    let received = beacons_of(alloc, lines, &places, Who::Every, Who::One(v))?;
    let ways = ways_from(alloc, plan, lines, &places, v)?;
    Ok(NodeRecords {
        clock,
        sent,
        received,
        ways,
    })
}

/// What is kept of each node.
#[tactic(auto, using(crate::proofs::Keeping::nodes))]
pub(crate) fn nodes_of(
    alloc: Global,
    plan: &Plan,
    lines: &[Line],
) -> Result<Vec<NodeRecords>, AllocError>
    requires few { length lines.now ≤ MAX_RECORDS }
    requires spans { All (λ l. IsSpan l.span) lines.now }
    ensures { IfOk result (λ nodes.
        HasNodes (text_of plan.now) lines.now (graph_of_text (text_of plan.now)).nodes nodes.items) }
{
    let homes = homes_of(alloc, lines)?;
    let mut nodes = Vec::new(alloc);
    for v in 0..graph(plan).nodes() {
        nodes.push(node_of(alloc, plan, lines, &homes, v)?)?;
    }
    Ok(nodes)
}

/// What is kept of the star.
pub(crate) fn star_of(alloc: Global, lines: &[Line]) -> Result<StarRecords, AllocError>
    requires few { length lines.now ≤ MAX_RECORDS }
    requires spans { All (λ l. IsSpan l.span) lines.now }
    ensures { IfOk result (IsStar lines.now) }
{
    let homes = homes_of(alloc, lines)?;
    let places = places_at(alloc, lines, &homes, Who::Every)?;
    let clock = clock_of(alloc, lines, &places, Who::Every)?;
    let beacons = beacons_of(alloc, lines, &places, Who::Every, Who::Every)?;
    Ok(StarRecords { clock, beacons })
}
