ghost use Rattle.std.specs.Prelude.{◌≡◌, ◌≢◌, ◌+◌, ◌<◌, ◌≤◌, ℕ, IfErr, IfOk, None, Option, Some};
ghost use Rattle.std.specs.Prelude.{All, AllPairs, length, position};
ghost use Rattle.gs_topo.specs.Faults.{fault_of};
ghost use Rattle.gs_topo.specs.Graph.{Graph, IsBefore, Adjacent, adjacent, graph_of, joins, neighbours_of, number_of};
ghost use Rattle.gs_topo.specs.Walks.{IsCloser, IsTopology, IsLeast, IsSplitAt, diameter_of, distance_of, one_each};

use crate::build::{edge_list, neighbour_lists};
use crate::distance_table::{greatest, table_of};
use crate::fault::TopoFault;
use crate::flags::flags_of;
use crate::levels::{first_unreached, levels_from};
use crate::lists::Nodes;
use std::alloc::Global;
use std::marker::Model;

/// The most nodes of a topology.
pub const MAX_NODES: u32 = 512;

/// The most edges of a topology.
pub const MAX_EDGES: usize = 4096;

/// A connected graph of nodes 0, 1, .. with the distances of all pairs. An edge joins two different
/// nodes a < b; the edges are in ascending order, and an edge's number is its place there.
#[derive(Drop)]
pub struct Topology {
    nodes: u32,
    edges: Vec<(u32, u32)>,
    lists: Vec<Nodes>,
    /// The distance of v and w at place v * nodes + w.
    table: Vec<u16>,
    diameter: u16,
}

impl Model for Topology {
    ghost use Rattle.std.specs.Prelude.{◌≡◌, ℕ, List};
    ghost use Rattle.gs_topo.specs.Graph.{Graph};

    ghost Value = { Graph };

    ghost use Rattle.gs_topo.specs.inside.Kept.{AreKept};

    ghost view = { λ a. record { nodes = a.nodes; edges = a.edges.items } };

    ghost invariant = { λ a. AreKept
        (record { nodes = a.nodes; edges = a.edges.items })
        a.lists.items a.table.items a.diameter };
}

impl Topology {
    /// The topology of `n` nodes and these edges, in any order and either way round, or the first of
    /// its faults: the numbers of nodes and edges, then the edges in the order given, then the nodes
    /// that node 0 does not reach.
    pub fn new(alloc: Global, n: u32, edges: &[(u32, u32)]) -> Result<Topology, TopoFault>
        ensures ok { IfOk result (λ topology. topology ≡ graph_of n edges.now) }
        ensures sound { IfOk result (λ topology. fault_of n edges.now ≡ None) }
        ensures err { IfErr result (λ e. e ≢ TopoFault.OutOfMemory → fault_of n edges.now ≡ Some e) }
        ensures split { (v : ℕ) → result ≡ Err (TopoFault.Split v) → IsSplitAt (graph_of n edges.now) v }
        ensures graph { IfOk result IsTopology }
    {
        if n == 0 || n > MAX_NODES {
            return Err(TopoFault::Count);
        }
        if edges.len() > MAX_EDGES {
            return Err(TopoFault::Edges);
        }
        let flags = flags_of(alloc, n, edges)?;
        let edges = edge_list(alloc, n, &flags)?;
        let lists = neighbour_lists(alloc, n, &flags)?;
        let levels = levels_from(alloc, &lists, 0)?;
        if let Some(node) = first_unreached(&levels) {
            return Err(TopoFault::Split(node));
        }
        let table = table_of(alloc, &lists)?;
        let diameter = greatest(&table);
        Ok(Topology {
            nodes: n,
            edges,
            lists,
            table,
            diameter,
        })
    }

    /// The number of nodes.
    pub fn nodes(&self) -> u32
        ensures value { result ≡ self.now.nodes }
        ensures graph { IsTopology self.now }
    {
        self.nodes
    }

    /// The edges in ascending order, the lower end of each first.
    pub fn edges(&self) -> &[(u32, u32)]
        ensures value { result.now ≡ self.now.edges }
        ensures graph { IsTopology self.now }
    {
        &self.edges
    }

    /// The neighbours of `v` in ascending order.
    pub fn neighbours(&self, v: u32) -> &[u32]
        requires { v < self.now.nodes }
        ensures { result.now ≡ neighbours_of self.now v }
    {
        self.lists[v as usize].as_slice()
    }

    /// The least number of steps of a walk from `v` to `w`.
    pub fn distance(&self, v: u32, w: u32) -> u32
        requires { (v < self.now.nodes) × (w < self.now.nodes) }
        ensures value { result ≡ distance_of self.now v w }
        ensures graph { IsTopology self.now }
        ensures least { IsLeast (Adjacent self.now) self.now.nodes one_each v w result }
        ensures below { result < self.now.nodes }
    {
        u32::from(self.table[v as usize * self.nodes as usize + w as usize])
    }

    /// The greatest distance of two nodes.
    pub fn diameter(&self) -> u32
        ensures value { result ≡ diameter_of self.now }
        ensures most { (v w : ℕ) → v < self.now.nodes → w < self.now.nodes → distance_of self.now v w ≤ result }
    {
        u32::from(self.diameter)
    }

    /// Whether an edge joins `v` and `w`.
    pub fn adjacent(&self, v: u32, w: u32) -> bool
        requires { (v < self.now.nodes) × (w < self.now.nodes) }
        ensures { result ≡ adjacent self.now v w }
    {
        self.distance(v, w) == 1
    }

    /// The number of the edge between `v` and `w`, where there is one.
    pub fn edge_between(&self, v: u32, w: u32) -> Option<u32>
        ensures { result ≡ number_of self.now v w }
    {
        edge_number(&self.edges, v, w)
    }

    /// The least neighbour of `v` that is one step nearer to `w`.
    pub fn closer(&self, v: u32, w: u32) -> u32
        requires nodes { (v < self.now.nodes) × (w < self.now.nodes) }
        requires other { v ≢ w }
        ensures { IsCloser self.now v w result }
    {
        let far = self.distance(v, w);
        for x in self.neighbours(v) {
            if self.distance(*x, w) + 1 == far {
                return *x;
            }
        }
        unreachable!()
    }
}

/// The place of the pair of `v` and `w`, either way round, among edges in ascending order.
fn edge_number(edges: &[(u32, u32)], v: u32, w: u32) -> Option<u32>
    requires few { length edges.now ≤ 4096 }
    requires upright { All (λ e. e.0 < e.1) edges.now }
    requires ascending { AllPairs IsBefore edges.now }
    ensures { result ≡ position (λ e. joins e v w) edges.now }
{
    match edges.binary_search(&(v.min(w), v.max(w))) {
        Ok(number) => Some(number as u32),
        Err(_) => None,
    }
}
