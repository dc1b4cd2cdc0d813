ghost use Rattle.std.specs.Prelude.{◌≡◌, ◌<◌, ◌≤◌, ℕ, All, IfOk, List, false, is_some, length, option_and_then};
ghost use Rattle.gs_topo.specs.Graph.{Adjacent};
ghost use Rattle.gs_plan.specs.Edges.{edge_given};
ghost use Rattle.gs_plan.specs.Plans.{text_of};
ghost use Rattle.gs_plan.specs.Shapes.{graph_of_text};
ghost use Rattle.gs_script.specs.Checks.{is_large};
ghost use Rattle.gs_script.specs.inside.Kept.{AreBeacons, Fits, IsClock, IsNode, IsSpan, IsStar, IsWay, last_number};
ghost use Rattle.gs_script.specs.Lines.{delay_said, gap_said, inc_said, loss_said};
ghost use Rattle.gs_script.specs.Lasts.{Lasts};
ghost use Rattle.gs_script.specs.Script.{IsScript, delay_of, gap_of, inc_of, is_lost, least_delay};
ghost use Rattle.gs_script.specs.declared.line.Who.TheVariants.{Every, One};

use crate::kept::{
    NodeRecords, StarRecords, WayRecords, delay_at, drift_at, loss_at, nodes_of, star_of, tick_at,
};
use crate::line::Line;
use crate::record::MAX_RECORDS;
use crate::run::{Run, WayRun};
use crate::settings::{delay_set, gap_set, inc_set, is_lost_set};
use gs_plan::Plan;
use gs_planfile::PlanText;
use std::alloc::{AllocError, Global};
use std::marker::Model;

/// A script that was read for a plan: of each node the increment and the tick gap in each quantum, and
/// of each beacon its delay and whether it is lost. Contracts see the plan's text, the count of quanta
/// and the records. The records are kept by whom they name, each such part as runs of quanta with the
/// number of its last record that holds. Of the parts that match, that of the greatest number decides.
#[derive(Drop)]
pub struct Script {
    text: PlanText,
    quanta: u32,
    lines: Vec<Line>,
    star: StarRecords,
    nodes: Vec<NodeRecords>,
}

impl Model for Script {
    ghost use Rattle.gs_script.specs.Script.{Said};

    ghost Value = { Said };

    ghost use Rattle.gs_script.specs.inside.Kept.{IsKept};

    ghost view = { λ s. record { text = s.text; quanta = s.quanta; lines = s.lines.items } };

    ghost invariant = { λ s.
        IsKept (record { text = s.text; quanta = s.quanta; lines = s.lines.items }) s.star s.nodes.items };
}

impl Script {
    /// The script of these records.
    pub(crate) fn of(
        alloc: Global,
        plan: &Plan,
        quanta: u32,
        lines: Vec<Line>,
    ) -> Result<Self, AllocError>
        requires few { length lines.items ≤ MAX_RECORDS }
        requires fits { All (Fits (text_of plan.now)) lines.items }
        requires spans { All (λ l. IsSpan l.span) lines.items }
        requires small { is_large (text_of plan.now) quanta ≡ false }
        ensures value { IfOk result (λ script.
            script ≡ record { text = text_of plan.now; quanta = quanta; lines = lines.items }) }
        ensures within { IfOk result IsScript }
    {
        let star = star_of(alloc, &lines)?;
        let nodes = nodes_of(alloc, plan, &lines)?;
        let text = plan.text().copy(alloc)?;
        Ok(Script {
            text,
            quanta,
            lines,
            star,
            nodes,
        })
    }

    /// The count of quanta.
    pub fn quanta(&self) -> u32
        ensures value { result ≡ self.now.quanta }
        ensures within { IsScript self.now }
    {
        self.quanta
    }

    /// What is kept of the star.
    fn star(&self) -> &StarRecords
        ensures { IsStar self.now.lines result.now }
    {
        &self.star
    }

    /// What is kept of a node.
    fn node(&self, v: u32) -> &NodeRecords
        requires { v < (graph_of_text self.now.text).nodes }
        ensures { IsNode self.now.text self.now.lines v result.now }
    {
        &self.nodes[v as usize]
    }

    /// What is kept of the way from a node to a neighbour.
    fn way(&self, from: u32, to: u32) -> &WayRecords
        requires sender { from < (graph_of_text self.now.text).nodes }
        requires receiver { to < (graph_of_text self.now.text).nodes }
        requires neighbours { Adjacent (graph_of_text self.now.text) from to }
        ensures { IsWay self.now.text self.now.lines from to result.now }
    {
        let ways = &self.node(from).ways;
        &ways.items[usize::from(ways.index[to as usize])]
    }

    /// What the hardware clock of `v` advances by in quantum `t`, in clock units, and up to which quantum
    /// it stays the same.
    pub fn inc_run(&self, v: u32, t: u32) -> Run
        requires { v < (graph_of_text self.now.text).nodes }
        ensures value { Lasts (inc_of self.now v) t result.until result.value }
        ensures low { self.now.text.lo ≤ result.value }
        ensures high { result.value ≤ self.now.text.hi }
    {
        let last = drift_at(&self.star().clock, &self.node(v).clock, t);
        Run {
            value: inc_set(&self.lines, last.value).unwrap_or(self.text.lo),
            until: last.until,
        }
    }

    /// What the hardware clock of `v` advances by in quantum `t`, in clock units.
    pub fn inc(&self, v: u32, t: u32) -> u32
        requires { v < (graph_of_text self.now.text).nodes }
        ensures value { result ≡ inc_of self.now v t }
        ensures low { self.now.text.lo ≤ result }
        ensures high { result ≤ self.now.text.hi }
    {
        self.inc_run(v, t).value
    }

    /// The gap between ticks that is asked of `v` in quantum `t`, in quanta, and up to which quantum it
    /// stays the same.
    pub fn gap_run(&self, v: u32, t: u32) -> Run
        requires { v < (graph_of_text self.now.text).nodes }
        ensures value { Lasts (gap_of self.now v) t result.until result.value }
        ensures low { 1 ≤ result.value }
        ensures high { result.value ≤ self.now.text.tick }
    {
        let last = tick_at(&self.star().clock, &self.node(v).clock, t);
        Run {
            value: gap_set(&self.lines, last.value).unwrap_or(self.text.tick),
            until: last.until,
        }
    }

    /// The gap between ticks that is asked of `v` in quantum `t`, in quanta.
    pub fn gap(&self, v: u32, t: u32) -> u32
        requires { v < (graph_of_text self.now.text).nodes }
        ensures value { result ≡ gap_of self.now v t }
        ensures low { 1 ≤ result }
        ensures high { result ≤ self.now.text.tick }
    {
        self.gap_run(v, t).value
    }

    /// The run of the delay of beacons between two neighbours.
    fn delay_run(&self, from: u32, to: u32, t: u32) -> Run
        requires sender { from < (graph_of_text self.now.text).nodes }
        requires receiver { to < (graph_of_text self.now.text).nodes }
        requires neighbours { Adjacent (graph_of_text self.now.text) from to }
        ensures value { Lasts (delay_of self.now from to) t result.until result.value }
        ensures low { least_delay (edge_given self.now.text (from, to)).delay_min ≤ result.value }
        ensures high { result.value ≤ (edge_given self.now.text (from, to)).delay_max }
    {
        let way = self.way(from, to);
        let sent = &self.node(from).sent;
        let received = &self.node(to).received;
        let last = delay_at(&self.star().beacons, sent, received, &way.named, t);
        Run {
            value: delay_set(&self.lines, last.value).unwrap_or(way.least),
            until: last.until,
        }
    }

    /// The run of the number of the record that decides whether beacons between two neighbours are lost.
    fn loss_run(&self, from: u32, to: u32, t: u32) -> Run
        requires sender { from < (graph_of_text self.now.text).nodes }
        requires receiver { to < (graph_of_text self.now.text).nodes }
        requires neighbours { Adjacent (graph_of_text self.now.text) from to }
        ensures { Lasts (last_number (λ s. is_some (loss_said from to s)) 0 self.now.lines) t
            result.until result.value }
    {
        let way = self.way(from, to);
        let sent = &self.node(from).sent;
        let received = &self.node(to).received;
        loss_at(&self.star().beacons, sent, received, &way.named, t)
    }

    /// The delay of a beacon that `from` sends to its neighbour `to` in quantum `t`, in quanta, whether it
    /// is lost, and up to which quantum both stay the same.
    pub fn way_run(&self, from: u32, to: u32, t: u32) -> WayRun
        requires sender { from < (graph_of_text self.now.text).nodes }
        requires receiver { to < (graph_of_text self.now.text).nodes }
        requires neighbours { Adjacent (graph_of_text self.now.text) from to }
        ensures delay { Lasts (delay_of self.now from to) t result.until result.delay }
        ensures lost { Lasts (is_lost self.now from to) t result.until result.is_lost }
        ensures low { least_delay (edge_given self.now.text (from, to)).delay_min ≤ result.delay }
        ensures high { result.delay ≤ (edge_given self.now.text (from, to)).delay_max }
    {
        let delay = self.delay_run(from, to, t);
        let loss = self.loss_run(from, to, t);
        WayRun {
            delay: delay.value,
            is_lost: is_lost_set(&self.lines, loss.value).unwrap_or(false),
            until: delay.until.min(loss.until),
        }
    }

    /// The delay of a beacon that `from` sends to its neighbour `to` in quantum `t`, in quanta.
    pub fn delay(&self, from: u32, to: u32, t: u32) -> u32
        requires sender { from < (graph_of_text self.now.text).nodes }
        requires receiver { to < (graph_of_text self.now.text).nodes }
        requires neighbours { Adjacent (graph_of_text self.now.text) from to }
        ensures value { result ≡ delay_of self.now from to t }
        ensures low { least_delay (edge_given self.now.text (from, to)).delay_min ≤ result }
        ensures high { result ≤ (edge_given self.now.text (from, to)).delay_max }
    {
        self.delay_run(from, to, t).value
    }

    /// Whether a beacon that `from` sends to its neighbour `to` in quantum `t` is lost.
    pub fn lost(&self, from: u32, to: u32, t: u32) -> bool
        requires sender { from < (graph_of_text self.now.text).nodes }
        requires receiver { to < (graph_of_text self.now.text).nodes }
        requires neighbours { Adjacent (graph_of_text self.now.text) from to }
        ensures { result ≡ is_lost self.now from to t }
    {
        let loss = self.loss_run(from, to, t);
        is_lost_set(&self.lines, loss.value).unwrap_or(false)
    }
}
