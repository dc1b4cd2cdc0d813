//! The traces of runs as bytes: the head and the events of a world's trace and of a node's, written one by
//! one, and read in place. See `docs/FORMATS.md`, "The trace of a world" and "The trace of a node".
#![tactic(auto)]

pub use fault::TraceFault;
pub use laws::{faults_are_first, traces_are_read_back};
pub use node::{node_event, node_head};
pub use node_reading::read_node;
pub use node_scan::{NodeScan, scan_node};
pub use reading::read_world;
pub use scan::{Next, WorldScan, scan_world};
pub use start::{NodeStart, Readings, WorldStart};
pub use world::{world_event, world_head};

mod fault;
mod head;
mod laws;
mod node;
mod node_reading;
mod node_scan;
mod numbers;
mod reading;
mod scan;
mod start;
mod world;
