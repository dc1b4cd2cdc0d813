//! A node, its clock and the journal of what it took, as one step to be kept under one lock: the node is
//! always the replay of its journal. Seats are what the callers of a board were told, one for the timer
//! and one for each neighbour, and can be compared with the journal. See `docs/THEOREMS.md`, "Boards".
#![tactic(auto)]

pub use boards::{Board, Shared};
pub use faults::{BoardFault, BoardStop, Halt, ReserveStop, Torn};
pub use seats::Seat;
pub use told::{Receipt, Told};

mod boards;
mod compare;
mod faults;
mod journaled;
mod seats;
mod told;

/// The greatest number of events that a journal may have.
pub const MOST: u64 = 4_194_304;
