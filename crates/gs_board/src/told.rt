use gs_core::{NodeEvent, Ticked};

/// An entry of a journal, as a seat is told of it.
#[derive(Clone, Copy, Debug, PartialEq, Eq)]
pub struct Told {
    /// Its place in the journal, from 0.
    pub place: u64,
    /// The event, with the reading at which it came.
    pub event: NodeEvent,
    /// The whole reply of a tick, and none of a delivery.
    pub ticked: Option<Ticked>,
}

/// What a board answers to an event that its node took.
#[derive(Clone, Copy, Debug, PartialEq, Eq)]
pub struct Receipt<R> {
    /// Its place in the journal, from 0.
    pub place: u64,
    /// The event, with the reading at which it came.
    pub event: NodeEvent,
    /// What the node replied.
    pub reply: R,
}
