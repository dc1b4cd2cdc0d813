ghost use Rattle.std.specs.Prelude.{◌≡◌, ◌<◌, All, IfOk, IfSome, length, map};
ghost use Rattle.std.specs.List.{range_with_len};
ghost use Rattle.gs_topo.specs.Graph.{Adjacent, Graph, neighbours_of};
ghost use Rattle.gs_topo.specs.Walks.{IsLeast};
ghost use Rattle.gs_topo.specs.Weights.{Lengths, length_between};
ghost use Rattle.gs_topo.specs.inside.Search.{steps_over};
ghost use Rattle.gs_topo.specs.inside.Weighted.{AreRows, AreWeights};

use crate::search::sums_from;
use crate::steps::{Step, Steps};
use crate::topology::Topology;
use std::alloc::{AllocError, Global};
use std::marker::Model;

/// How weights are kept.
#[derive(Drop)]
enum Table {
    /// The length of all edges: a weight is that many times a distance.
    Even(u64),
    /// The weight of v and w at place v * nodes + w.
    Each(Vec<u128>),
}

/// The weights of all pairs of nodes of a topology: the least sums of the lengths of edges over the
/// walks between them.
#[derive(Drop)]
pub struct Weights {
    nodes: u32,
    // The edges and their lengths are kept for contracts, which see them: no call reads them.
    edges: Vec<(u32, u32)>,
    lengths: Vec<u64>,
    table: Table,
}

impl Model for Weights {
    ghost use Rattle.gs_topo.specs.Weights.{Lengths};

    ghost Value = { Lengths };

    ghost use Rattle.gs_topo.specs.inside.Weighted.{AreWeights};

    ghost view = { λ a. record {
      graph = record { nodes = a.nodes; edges = a.edges.items };
      lengths = a.lengths.items;
    } };

    ghost invariant = { λ a. AreWeights
        (record { graph = record { nodes = a.nodes; edges = a.edges.items }; lengths = a.lengths.items })
        a.table };
}

impl Weights {
    /// The weights for these lengths of the edges, in the order of the edges. Where all lengths are
    /// equal no search is made, and no table.
    pub fn new(alloc: Global, topology: &Topology, lengths: &[u64]) -> Result<Weights, AllocError>
        requires { length lengths.now ≡ length topology.now.edges }
        ensures { IfOk result (λ weights. weights ≡ record { graph = topology.now; lengths = lengths.now }) }
    {
        let table = table_of_weights(alloc, topology, lengths)?;
        Ok(Weights {
            nodes: topology.nodes(),
            edges: Vec::from_slice(alloc, topology.edges())?,
            lengths: Vec::from_slice(alloc, lengths)?,
            table,
        })
    }

    /// The least sum of the lengths of a walk from `v` to `w`, where `topology` is the one that these
    /// weights were made for.
    pub fn weight(&self, topology: &Topology, v: u32, w: u32) -> u128
        requires topology { topology.now ≡ self.now.graph }
        requires nodes { (v < self.now.graph.nodes) × (w < self.now.graph.nodes) }
        ensures { IsLeast (Adjacent self.now.graph) self.now.graph.nodes (length_between self.now) v w result }
    {
        match &self.table {
            Table::Even(common) => u128::from(*common) * u128::from(topology.distance(v, w)),
            Table::Each(sums) => sums[v as usize * self.nodes as usize + w as usize],
        }
    }
}

/// The length of all edges, where they have one length.
fn common_length(lengths: &[u64]) -> Option<u64>
    ensures { IfSome result (λ common. All (λ length. length ≡ common) lengths.now) }
{
    let common = lengths.first().copied().unwrap_or(0);
    for length in lengths {
        if *length != common {
            return None;
        }
    }
    Some(common)
}

/// The length of the edge between `v` and `w`, and 0 where there is none.
fn length_over(topology: &Topology, lengths: &[u64], v: u32, w: u32) -> u64
    requires { length lengths.now ≡ length topology.now.edges }
    ensures { result ≡ length_between (record { graph = topology.now; lengths = lengths.now }) v w }
{
    match topology.edge_between(v, w) {
        Some(number) => lengths[number as usize],
        None => 0,
    }
}

/// The steps to the neighbours of `v`.
fn steps_from(
    alloc: Global,
    topology: &Topology,
    lengths: &[u64],
    v: u32,
) -> Result<Steps, AllocError>
    requires count { length lengths.now ≡ length topology.now.edges }
    requires node { v < topology.now.nodes }
    ensures { IfOk result (λ steps. steps ≡ steps_over
        (length_between (record { graph = topology.now; lengths = lengths.now }) v) (neighbours_of topology.now v)) }
{
    let mut steps = Vec::new(alloc);
    for to in topology.neighbours(v) {
        let length = length_over(topology, lengths, v, *to);
        steps.push(Step { to: *to, length })?;
    }
    Ok(Steps::from_vec(steps))
}

/// The steps to the neighbours of each node.
fn all_steps(alloc: Global, topology: &Topology, lengths: &[u64]) -> Result<Vec<Steps>, AllocError>
    requires { length lengths.now ≡ length topology.now.edges }
    ensures { IfOk result (λ all. all.items ≡ map (λ v. steps_over
        (length_between (record { graph = topology.now; lengths = lengths.now }) v) (neighbours_of topology.now v))
        (range_with_len 0 topology.now.nodes)) }
{
    let mut all = Vec::new(alloc);
    for v in 0..topology.nodes() {
        all.push(steps_from(alloc, topology, lengths, v)?)?;
    }
    Ok(all)
}

/// The weights by a search from each node.
fn least_table(alloc: Global, topology: &Topology, lengths: &[u64]) -> Result<Vec<u128>, AllocError>
    requires { length lengths.now ≡ length topology.now.edges }
    ensures { IfOk result (λ table. AreRows (record { graph = topology.now; lengths = lengths.now })
        topology.now.nodes table.items) }
{
    let all = all_steps(alloc, topology, lengths)?;
    let mut table = Vec::new(alloc);
    for source in 0..topology.nodes() {
        let row = sums_from(alloc, &all, source)?;
        table.extend_from_slice(&row)?;
    }
    Ok(table)
}

/// How the weights for these lengths are kept.
fn table_of_weights(
    alloc: Global,
    topology: &Topology,
    lengths: &[u64],
) -> Result<Table, AllocError>
    requires { length lengths.now ≡ length topology.now.edges }
    ensures { IfOk result (AreWeights (record { graph = topology.now; lengths = lengths.now })) }
{
    match common_length(lengths) {
        Some(common) => Ok(Table::Even(common)),
        None => Ok(Table::Each(least_table(alloc, topology, lengths)?)),
    }
}
