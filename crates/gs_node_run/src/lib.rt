//! The command `node`: a node of a plan that runs over its ports, and the trace of what it took. See
//! `docs/FORMATS.md`, "Commands", "Statuses" and "The trace of a node".
#![tactic(auto)]

pub use ends::{Left, NodeEnd};
pub use run::run_node;

mod addresses;
mod asking;
mod ends;
mod lines;
mod reading;
mod returning;
mod run;
mod serving;
#[cfg(test)]
mod tests;
#[cfg(test)]
mod tests_pair;
#[cfg(test)]
mod tests_ports;
#[cfg(test)]
mod tests_star;
#[cfg(test)]
mod tests_wire;
mod tracing;
mod words;
