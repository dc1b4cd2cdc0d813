use gs_board::{Board, Seat};
use gs_cli::Status;
use gs_clock::Clock;

/// What is left of a run of a node.
#[derive(Drop)]
pub enum Left<C: Clock> {
    /// The clock of a node that was not served.
    Clock(C),
    /// The board of a node that was, closed, and what its timer and its receivers were told.
    Served {
        board: Board<C>,
        seats: Vec<Seat<C>>,
    },
}

/// How a run of a node ended, and what is left of it.
#[derive(Drop)]
pub struct NodeEnd<C: Clock, V: Clock> {
    pub status: Status,
    pub left: Left<C>,
    /// The clock at whose readings time requests were answered.
    pub view_clock: V,
}
