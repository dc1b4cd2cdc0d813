//! One node as a deterministic state machine with no IO: ticks of its timer and beacons of its
//! neighbours come to it, each with a hardware reading, and it answers with its clock, its mode and the
//! beacons to send. See `docs/MODEL.md`, "The rules of a node".
#![tactic(auto)]

pub use event::{Event, Incs, NodeEvent};
pub use gs_estimate::Heard;
pub use laws::replay_laws;
pub use node::Core;
pub use reply::{CoreFault, Reply, Ticked};

mod event;
mod laws;
mod node;
mod quiet;
mod reply;
