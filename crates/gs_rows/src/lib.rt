//! Watching a play: a script is played on its plan one quantum after another, from any clocks at the start,
//! with a look at the clocks of all nodes at each quantum's end, and it stops exactly at the script's breach.
//! What looks at a play only there stands on it, so that no one else has the loop over events.
#![tactic(auto)]

pub use laws::{rows_are_reported, rows_are_steady};
pub use rows::Rows;
pub use taking::take_event;

mod advancing;
mod laws;
mod rows;
mod taking;
