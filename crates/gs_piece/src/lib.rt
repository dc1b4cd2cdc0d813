//! Pieces of a play: some nodes that follow one another, which one worker takes through a window of quanta
//! alone. Most nodes sleep in most quanta, so a quantum is one pass over a column of clocks, and a turn for
//! the few nodes that wake up.
#![tactic(auto)]

pub use piece::Piece;

mod columns;
mod nodes;
mod piece;
mod row;
