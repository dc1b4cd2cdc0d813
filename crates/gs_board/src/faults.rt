ghost use Rattle.std.specs.Prelude.{◌≡◌};
ghost use Rattle.gs_board.specs.Faults.{board_fault, halt_of};

use crate::told::Told;
use gs_core::CoreFault;
use thiserror::Error;

/// Why no board was made.
#[derive(Clone, Copy, Debug, PartialEq, Eq, Error)]
pub enum BoardStop {
    /// The clock failed.
    #[error("the clock failed")]
    ClockFailed,
    /// The clock's reading is not below `END`.
    #[error("the clock is at its end")]
    Far,
    /// There was no memory for the node.
    #[error("out of memory")]
    OutOfMemory,
}

/// Why a journal was not given more room.
#[derive(Clone, Copy, Debug, PartialEq, Eq, Error)]
pub enum ReserveStop {
    /// The journal would have more than `MOST` events.
    #[error("the journal is full")]
    Filled,
    /// There was no memory for it.
    #[error("out of memory")]
    OutOfMemory,
}

/// The first thing that keeps a board from an event.
#[derive(Clone, Copy, Debug, PartialEq, Eq, Error)]
pub enum BoardFault {
    /// The board is closed.
    #[error("the board is closed")]
    Closed,
    /// The journal has no room: reserve first.
    #[error("the journal has no room")]
    Full,
    /// The beacon is of another cluster.
    #[error("the beacon is of another cluster")]
    Cluster,
    /// Its sender is not the seat's neighbour, or no neighbour of the node.
    #[error("the beacon is of a stranger")]
    Stranger,
    /// The clock failed. The board is closed.
    #[error("the clock failed")]
    ClockFailed,
    /// The clock's reading is below one that the node was given before. The board is closed.
    #[error("the clock fell from {last} to {now}")]
    Fell { last: u64, now: u64 },
    /// The reading, the clock or the maximum of the node reaches `END`, or the last sequence was given to
    /// a beacon and one is due. The board is closed.
    #[error("the clock is at its end")]
    Far,
    /// What the beacon tells reaches `END` when it is raised for its way.
    #[error("the beacon is too far ahead")]
    Ahead,
}

/// Why a board was closed for good by its clock.
#[derive(Clone, Copy, Debug, PartialEq, Eq)]
pub enum Halt {
    /// The clock failed.
    ClockFailed,
    /// The clock fell below a reading that the node was given before.
    Fell { last: u64, now: u64 },
    /// The reading, the clock or the maximum of the node reached `END`, or no sequence was left.
    Far,
}

impl BoardFault {
    /// The halt that this fault is, if it is one.
    pub fn halt(self) -> Option<Halt>
        ensures { result ≡ halt_of self }
    {
        match self {
            BoardFault::ClockFailed => Some(Halt::ClockFailed),
            BoardFault::Fell { last, now } => Some(Halt::Fell { last, now }),
            BoardFault::Far => Some(Halt::Far),
            _ => None,
        }
    }
}

impl From<CoreFault> for BoardFault {
    ghost from_gives = { λ core fault. fault ≡ board_fault core };

    fn from(fault: CoreFault) -> BoardFault {
        match fault {
            CoreFault::Cluster => BoardFault::Cluster,
            CoreFault::Stranger(_) => BoardFault::Stranger,
            CoreFault::Backward { last, now } => BoardFault::Fell { last, now },
            CoreFault::Far => BoardFault::Far,
            CoreFault::Ahead => BoardFault::Ahead,
        }
    }
}

/// How a seat differs from its board.
#[derive(Clone, Copy, Debug, PartialEq, Eq)]
pub enum Torn {
    /// It has other parameters or another start.
    Frame,
    /// The first entry that differs: what the seat was told there, and what the journal has, where either
    /// has one.
    Entry {
        index: u64,
        told: Option<Told>,
        kept: Option<Told>,
    },
}
