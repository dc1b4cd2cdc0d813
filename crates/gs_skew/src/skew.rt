ghost use Rattle.std.specs.Prelude.{◌≡◌, ◌==◌, ◌<◌, ◌∷◌, length};
ghost use Rattle.std.specs.List.{find};
ghost use Rattle.gs_skew.specs.Ranges.{AreEnds};
ghost use Rattle.gs_skew.specs.Skews.{edge_skew, global_skew, neighbour_skew, skew_between};

use crate::range::ClockRange;
use gs_topo::Topology;

/// The greatest difference of two clocks, in clock units, by one pass.
pub fn global_skew(clocks: &[u64]) -> u64
    ensures { result ≡ global_skew clocks.now }
{
    match clocks {
        [] => 0,
        [first, rest @ ..] => range_of(*first, rest).width(),
    }
}

/// The range of a first clock and the rest.
fn range_of(first: u64, rest: &[u64]) -> ClockRange
    ensures { AreEnds (first ∷ rest.now) result.least result.greatest }
{
    let mut range = ClockRange::of(first);
    for clock in rest {
        range.add(*clock);
    }
    range
}

/// The difference of the clocks of two nodes, in clock units.
pub fn skew_between(clocks: &[u64], v: u32, w: u32) -> u64
    requires { (v < length clocks.now) × (w < length clocks.now) }
    ensures { result ≡ skew_between clocks.now v w }
{
    clocks[v as usize].abs_diff(clocks[w as usize])
}

/// The greatest difference of the ends of an edge, in clock units, and 0 where there is no edge.
pub fn neighbour_skew(topo: &Topology, clocks: &[u64]) -> u64
    requires { length clocks.now ≡ topo.now.nodes }
    ensures { result ≡ neighbour_skew topo.now.edges clocks.now }
{
    let mut most = 0;
    for edge in topo.edges() {
        most = most.max(skew_between(clocks, edge.0, edge.1));
    }
    most
}

/// The first edge whose ends differ by exactly this.
pub fn first_edge(topo: &Topology, clocks: &[u64], skew: u64) -> Option<(u32, u32)>
    requires { length clocks.now ≡ topo.now.nodes }
    ensures { result ≡ find (λ e. edge_skew clocks.now e == skew) topo.now.edges }
{
    for edge in topo.edges() {
        if skew_between(clocks, edge.0, edge.1) == skew {
            return Some(*edge);
        }
    }
    None
}
