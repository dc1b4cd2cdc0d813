//! Scripts: what happens to a cluster in a run, quantum by quantum. A script sets the drift of clocks,
//! the gaps between ticks, and the delays and losses of beacons.
#![tactic(auto)]

pub use fault::ScriptFault;
pub use laws::scripts_are_within;
pub use read::read_script;
pub use run::{Run, WayRun};
pub use script::Script;

mod checks;
mod fault;
mod fields;
mod index;
mod kept;
mod laws;
mod line;
mod links;
mod places;
mod read;
mod record;
mod rows;
mod run;
mod runs;
mod script;
mod settings;
