use gs_board::{Seat, Shared};
use gs_clock::Clock;
use gs_net::{Door, Inlet, Outlet};
use gs_units::NodeParams;

/// What all that runs goes by: the runtime, the board and what the node was told.
#[derive(Drop)]
pub(crate) struct Places<'e, R, C: Clock> {
    pub rt: &'e R,
    pub board: &'e Shared<C>,
    pub params: &'e NodeParams,
}

/// What the threads of a node are handed.
#[derive(Drop)]
pub(crate) struct Hands<C: Clock, V: Clock, I: Inlet, O: Outlet, D: Door> {
    pub timer: Seat<C>,
    /// The neighbours' seats and their inlets, in order.
    pub seats: Vec<Seat<C>>,
    pub inlets: Vec<I>,
    pub outlet: O,
    pub door: D,
    pub view_clock: V,
}

/// Lists with room for what comes back from the receivers.
#[derive(Drop)]
pub(crate) struct Room<C: Clock, I: Inlet> {
    pub seats: Vec<Seat<C>>,
    pub inlets: Vec<I>,
}

/// What the timer of a node does.
#[derive(Clone, Copy, Debug)]
pub(crate) struct Course {
    /// How many turns it takes.
    pub ticks: u32,
    /// For how many units it rests before each.
    pub pace: u64,
}
