use gs_beacon::Beacon;
use gs_estimate::Heard;
use gs_units::Mode;
use std::error::Error;
use std::fmt;

/// What a tick answers.
#[derive(Clone, Copy, Debug, PartialEq, Eq)]
pub struct Ticked {
    /// The clock at the tick, in clock units.
    pub l: u64,
    /// What the node knew of the greatest clock at the tick, in clock units.
    pub m: u64,
    /// The mode from this tick on.
    pub mode: Mode,
    /// What the neighbours are to be sent, where a beacon is due.
    pub beacon: Option<Beacon>,
}

/// What an event answers that is not refused.
#[derive(Clone, Copy, Debug, PartialEq, Eq)]
pub enum Reply {
    /// What the tick answers.
    Ticked(Ticked),
    /// How the beacon was taken.
    Heard(Heard),
}

/// The first thing that keeps a node from an event.
#[derive(Clone, Copy, Debug, PartialEq, Eq)]
pub enum CoreFault {
    /// The beacon is of another cluster.
    Cluster,
    /// Its sender, this node, is no neighbour.
    Stranger(u32),
    /// The reading is below one that the node was given before.
    Backward { last: u64, now: u64 },
    /// The reading, the clock or the maximum reaches `END`, or the last sequence was given to a beacon
    /// and one is due.
    Far,
    /// What the beacon tells reaches `END` when it is raised for its way.
    Ahead,
}

impl fmt::Display for CoreFault {
    ghost use Rattle.std.specs.Prelude.{Some};
    ghost use Rattle.gs_core.specs.FaultWords.{why_of};

    ghost output = { λ fault. Some (why_of fault) };

    fn fmt<W: fmt::Write>(&self, f: &mut fmt::Formatter<W>) -> fmt::Result {
        match self {
            CoreFault::Cluster => f.write_str("cluster"),
            CoreFault::Stranger(sender) => write!(f, "stranger {sender}"),
            CoreFault::Backward { last, now } => write!(f, "backward {last} {now}"),
            CoreFault::Far => f.write_str("far"),
            CoreFault::Ahead => f.write_str("ahead"),
        }
    }
}

impl Error for CoreFault {}
