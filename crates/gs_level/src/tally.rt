ghost use Rattle.std.specs.Prelude.{◌≡◌, ◌+◌, ◌-◌, ◌<◌, ◌^◌, ◌++◌, ◌∷◌, [], ℕ, List, IfOk, length};
ghost use Rattle.gs_topo.specs.Walks.{IsTopology};
ghost use Rattle.gs_plan.specs.Plans.{text_of, graph_of};
ghost use Rattle.gs_level.specs.Reports.{report_of};
ghost use Rattle.gs_skew.specs.Skews.{global_skew, neighbour_skew};

use crate::potentials::peaks;
use crate::report::Report;
use gs_plan::Plan;
use gs_skew::{first_edge, global_skew, neighbour_skew};
use gs_topo::Topology;
use std::alloc::{AllocError, Global};

/// The greatest skews of the rows of clocks so far, in clock units, without the rows: the row at the
/// start of a play, then one at the end of each quantum.
#[derive(Clone, Copy, Debug, PartialEq, Eq)]
pub struct Tally {
    rows: u32,
    global: u64,
    global_at: u32,
    near: u64,
    near_at: u32,
    near_edge: Option<(u32, u32)>,
}

impl Tally {
    ghost use Rattle.gs_level.specs.Tallies.{IsSeenAs, global_in, near_in, rows_in, tally_of};
    ghost use Rattle.gs_level.specs.inside.Running.{added, raised_global, raised_near};

    /// The tally of the clocks at the start.
    pub fn new(plan: &Plan, clocks: &[u64]) -> Self
        requires { length clocks.now ≡ (graph_of plan.now).nodes }
        ensures value { result ≡ tally_of (graph_of plan.now) (clocks.now ∷ []) }
        ensures rows { rows_in result ≡ 1 }
    {
        let near = neighbour_skew(plan.topo(), clocks);
        Tally {
            rows: 1,
            global: global_skew(clocks),
            global_at: 0,
            near,
            near_at: 0,
            near_edge: first_edge(plan.topo(), clocks, near),
        }
    }

    /// The greatest global skew so far, in clock units.
    pub fn global(&self) -> u64
        ensures { result ≡ global_in self.now }
    {
        self.global
    }

    /// The greatest difference of neighbours so far, in clock units.
    pub fn near(&self) -> u64
        ensures { result ≡ near_in self.now }
    {
        self.near
    }

    /// Takes in the clocks at the end of one more quantum.
    pub fn add(&mut self, plan: &Plan, clocks: &[u64])
        requires count { length clocks.now ≡ (graph_of plan.now).nodes }
        requires room { rows_in self.old < 2 ^ 32 - 1 }
        ensures value { (rows : List (List ℕ)) → self.old ≡ tally_of (graph_of plan.now) rows
            → self.new ≡ tally_of (graph_of plan.now) (rows ++ clocks.now ∷ []) }
        ensures rows { rows_in self.new ≡ rows_in self.old + 1 }
    {
        let global = global_skew(clocks);
        let near = self.near_seen(plan.topo(), clocks, global);
        self.see(plan, clocks, global, near);
    }

    /// Takes in one more row whose skews were bounded without a look at all of its clocks. Each bound is
    /// the skew itself where it is above the greatest so far.
    pub fn see(&mut self, plan: &Plan, clocks: &[u64], global: u64, near: u64)
        requires count { length clocks.now ≡ (graph_of plan.now).nodes }
        requires room { rows_in self.old < 2 ^ 32 - 1 }
        requires global { IsSeenAs (global_in self.old) (global_skew clocks.now) global }
        requires near { IsSeenAs (near_in self.old) (neighbour_skew (graph_of plan.now).edges clocks.now) near }
        ensures value { (rows : List (List ℕ)) → self.old ≡ tally_of (graph_of plan.now) rows
            → self.new ≡ tally_of (graph_of plan.now) (rows ++ clocks.now ∷ []) }
        ensures rows { rows_in self.new ≡ rows_in self.old + 1 }
    {
        *self = self.with(plan.topo(), clocks, global, near);
    }

    /// What is reported once these clocks, the last, were taken in, where nodes took `fast` quanta in
    /// fast mode in all.
    pub fn report(
        &self,
        alloc: Global,
        plan: &Plan,
        clocks: &[u64],
        fast: u64,
    ) -> Result<Report, AllocError>
        requires { length clocks.now ≡ (graph_of plan.now).nodes }
        ensures value { (before : List (List ℕ)) → self.now ≡ tally_of (graph_of plan.now) (before ++ clocks.now ∷ [])
            → IfOk result
            (λ report. report ≡ report_of (text_of plan.now) (graph_of plan.now) (before ++ clocks.now ∷ []) fast) }
        ensures levels { IfOk result (λ report. length report.levels ≡ (text_of plan.now).levels + 1) }
    {
        Ok(Report {
            quanta: self.rows.saturating_sub(1),
            global: self.global,
            global_at: self.global_at,
            near: self.near,
            near_at: self.near_at,
            near_edge: self.near_edge,
            levels: peaks(alloc, plan, clocks)?,
            fast,
        })
    }

    /// The neighbour skew of a row, as far as it may be above the greatest so far. It is at most the
    /// row's global skew, so most rows are done with without a look at their edges.
    fn near_seen(&self, topo: &Topology, clocks: &[u64], global: u64) -> u64
        requires graph { IsTopology topo.now }
        requires count { length clocks.now ≡ topo.now.nodes }
        requires global { global ≡ global_skew clocks.now }
        ensures { IsSeenAs self.now.near (neighbour_skew topo.now.edges clocks.now) result }
    {
        if global <= self.near {
            return global;
        }
        neighbour_skew(topo, clocks)
    }

    /// The tally with one more row, of these skews where they are above those so far.
    #[tactic(auto, unfolding(crate::specs::inside::Running::added))]
    fn with(self, topo: &Topology, clocks: &[u64], global: u64, near: u64) -> Self
        requires count { length clocks.now ≡ topo.now.nodes }
        requires room { rows_in self < 2 ^ 32 - 1 }
        requires global { IsSeenAs self.global (global_skew clocks.now) global }
        requires near { IsSeenAs self.near (neighbour_skew topo.now.edges clocks.now) near }
        ensures value { result ≡ added topo.now self clocks.now }
        ensures rows { rows_in result ≡ rows_in self + 1 }
    {
        let raised = self.raised_global(global).raised_near(topo, clocks, near);
        Tally {
            rows: self.rows + 1,
            ..raised
        }
    }

    /// The tally with the global skew of one more row.
    #[tactic(auto, unfolding(crate::specs::inside::Running::raised_global))]
    fn raised_global(self, seen: u64) -> Self
        ensures value { (skew : ℕ) → IsSeenAs self.global skew seen → result ≡ raised_global self skew }
        ensures near { result.near ≡ self.near }
    {
        if seen > self.global {
            Tally {
                global: seen,
                global_at: self.rows,
                ..self
            }
        } else {
            self
        }
    }

    /// The tally with the neighbour skew of one more row.
    #[tactic(auto, unfolding(crate::specs::inside::Running::raised_near))]
    fn raised_near(self, topo: &Topology, clocks: &[u64], seen: u64) -> Self
        requires count { length clocks.now ≡ topo.now.nodes }
        requires near { IsSeenAs self.near (neighbour_skew topo.now.edges clocks.now) seen }
        ensures { result ≡ raised_near topo.now.edges self clocks.now }
    {
        if seen > self.near {
            Tally {
                near: seen,
                near_at: self.rows,
                near_edge: first_edge(topo, clocks, seen),
                ..self
            }
        } else {
            self
        }
    }
}
