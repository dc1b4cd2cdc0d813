//! Plan files: the TOML text in which an operator describes a network and its numbers, read to the
//! plan's text or to the first fault, and written again in the newest version.
#![tactic(auto)]

pub use key::{Key, PlanFileFault};
pub use laws::faults_are_at_keys;
pub use read::read_plan;
pub use text::{EdgeList, EdgeSpan, PlanText, Shape, Spans, Version, base};
pub use write::migrate;

mod copy;
mod key;
mod laws;
mod lists;
mod read;
mod shape;
mod text;
mod values;
mod write;
