//! Topologies of a cluster: the graph of its nodes with the distances of all pairs and, for edges of
//! different lengths, the weights of all pairs.
#![tactic(auto)]

pub use fault::TopoFault;
pub use laws::{distances_are_metric, least_sums_weigh};
pub use topology::{MAX_EDGES, MAX_NODES, Topology};
pub use weights::Weights;

mod build;
mod distance_table;
mod fault;
mod flags;
mod laws;
mod levels;
mod lists;
mod search;
mod steps;
mod topology;
mod weights;
