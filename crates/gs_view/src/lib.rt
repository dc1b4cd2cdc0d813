//! A clock that one thread publishes and that others ask without a lock, without memory and without
//! waiting. See `docs/MODEL.md`, "The outside".
#![tactic(auto)]

pub use ends::{Note, Publisher};
pub use laws::late_notes_lose_nothing;
pub use passes::Reader;
pub use snaps::Snap;

mod desks;
mod ends;
mod handles;
mod laws;
mod passes;
mod rules;
mod shown;
mod snaps;
