ghost use Rattle.std.specs.Prelude.{◌≡◌, ◌+◌, ◌≤◌, ◌<◌, ◌^◌, length, IsTrue};
ghost use Rattle.gs_level.specs.Tallies.{IsSeenAs};
ghost use Rattle.gs_skew.specs.Skews.{global_skew, neighbour_skew};

use gs_skew::{global_skew, neighbour_skew, skew_between};
use gs_topo::Topology;

/// A bound of the global skew of some clocks, and the two that had it when all were last looked at.
#[derive(Drop)]
pub(crate) struct Ends {
    most: u64,
    behind: usize,
    ahead: usize,
}

impl Ends {
    /// The clocks that are furthest apart.
    pub(crate) fn of(clocks: &[u64]) -> Self
        ensures { result.most ≡ global_skew clocks.now }
    {
        let (mut behind, mut least) = (0, u64::MAX);
        let (mut ahead, mut greatest) = (0, 0);
        for (v, clock) in clocks.iter().enumerate() {
            if *clock < least {
                (behind, least) = (v, *clock);
            }
            if *clock > greatest {
                (ahead, greatest) = (v, *clock);
            }
        }
        Ends {
            most: global_skew(clocks),
            behind,
            ahead,
        }
    }

    /// Whether the two are as far apart as clocks may be.
    fn are_at_most(&self, clocks: &[u64]) -> bool
        ensures { IsTrue result → self.now.most ≤ global_skew clocks.now }
    {
        if self.behind >= clocks.len() || self.ahead >= clocks.len() {
            return false;
        }
        clocks[self.ahead].saturating_sub(clocks[self.behind]) == self.most
    }

    /// The global skew of the clocks a quantum later, as far as it is above `kept`: they are at most `by`
    /// further apart than they were.
    pub(crate) fn seen(&mut self, clocks: &[u64], by: u64, kept: u64) -> u64
        requires { global_skew clocks.now ≤ self.old.most + by }
        ensures seen { IsSeenAs kept (global_skew clocks.now) result }
        ensures bound { global_skew clocks.now ≤ self.new.most }
    {
        self.most = grown(self.most, by, clocks);
        if self.most <= kept {
            return self.most;
        }
        if !self.are_at_most(clocks) {
            *self = Ends::of(clocks);
        }
        self.most
    }
}

/// The bound of the global skew a quantum later.
fn grown(most: u64, by: u64, clocks: &[u64]) -> u64
    requires { global_skew clocks.now ≤ most + by }
    ensures { global_skew clocks.now ≤ result }
{
    most.saturating_add(by)
}

/// A bound of the neighbour skew of some clocks, and the place of an edge that had it when all were last
/// looked at.
#[derive(Drop)]
pub(crate) struct Link {
    most: u64,
    edge: usize,
}

impl Link {
    /// The first edge whose ends are furthest apart.
    pub(crate) fn of(topo: &Topology, clocks: &[u64]) -> Self
        requires { length clocks.now ≡ topo.now.nodes }
        ensures { result.most ≡ neighbour_skew topo.now.edges clocks.now }
    {
        let most = neighbour_skew(topo, clocks);
        Link {
            most,
            edge: first_place(topo, clocks, most),
        }
    }

    /// Whether the ends of that edge are as far apart as neighbours may be.
    fn is_at_most(&self, topo: &Topology, clocks: &[u64]) -> bool
        requires { length clocks.now ≡ topo.now.nodes }
        ensures { IsTrue result → self.now.most ≤ neighbour_skew topo.now.edges clocks.now }
    {
        if self.edge >= topo.edges().len() {
            return false;
        }
        let (v, w) = topo.edges()[self.edge];
        skew_between(clocks, v, w) == self.most
    }

    /// The neighbour skew of the clocks a quantum later, as far as it is above `kept`: they are at most
    /// `by` further apart than they were, and at most `global` apart.
    pub(crate) fn seen(
        &mut self,
        topo: &Topology,
        clocks: &[u64],
        by: u64,
        global: u64,
        kept: u64,
    ) -> u64
        requires count { length clocks.now ≡ topo.now.nodes }
        requires grown { neighbour_skew topo.now.edges clocks.now ≤ self.old.most + by }
        requires global { neighbour_skew topo.now.edges clocks.now ≤ global }
        ensures seen { IsSeenAs kept (neighbour_skew topo.now.edges clocks.now) result }
        ensures bound { neighbour_skew topo.now.edges clocks.now ≤ self.new.most }
    {
        self.most = self.most.saturating_add(by).min(global);
        if self.most <= kept {
            return self.most;
        }
        if !self.is_at_most(topo, clocks) {
            *self = Link::of(topo, clocks);
        }
        self.most
    }
}

/// The place of the first edge whose ends differ by this, or past the last one.
fn first_place(topo: &Topology, clocks: &[u64], skew: u64) -> usize
    requires { length clocks.now ≡ topo.now.nodes }
{
    for (place, edge) in topo.edges().iter().enumerate() {
        if skew_between(clocks, edge.0, edge.1) == skew {
            return place;
        }
    }
    topo.edges().len()
}
