//! The time requests of a node and their answers, and the responder that answers those of one door. See
//! `docs/FORMATS.md`, "Time requests".
#![tactic(auto)]

pub use answering::answer;
pub use laws::time_requests;
pub use responder::ResponderName;
pub use responding::{Responded, Responding};
pub use rests::Rest;

mod answering;
mod laws;
mod replying;
mod responder;
#[cfg(test)]
mod responder_tests;
mod responding;
mod rests;
#[cfg(test)]
mod tests;
mod time_format;
