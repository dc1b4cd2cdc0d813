//! The inputs that the words of a command name, plans and scripts, built in or in files: read, accepted,
//! or refused in order. See `docs/FORMATS.md`, "Commands" and "Statuses".
#![tactic(auto)]

pub use inputs::{Inputs, accepted, read_inputs, read_plan};
pub use plans::{node_refusal, plan_in};
pub use source::{Kind, Source, read_file, read_source};

mod inputs;
mod plans;
mod scripts;
mod source;
