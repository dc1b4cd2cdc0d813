use gs_core::CoreFault;
use gs_level::Report;
use gs_units::Mode;
use gs_world::Refused;

/// What an audit of a world's events comes to.
#[derive(Debug, Drop)]
pub enum Verdict {
    /// All events are allowed, with this report.
    Within(Report),
    /// The event of this index, from 0, is the first that is not allowed, and why.
    Refused { index: u64, why: Refused },
}

/// What a replay of a node's events comes to.
#[derive(Clone, Copy, Debug, PartialEq, Eq)]
pub enum NodeVerdict {
    /// The node takes all events; its clock and its maximum at the last reading, in clock units, and its mode.
    Within { l: u64, m: u64, mode: Mode },
    /// The event of this index, from 0, is the first that the node refuses, and why.
    Refused { index: u64, why: CoreFault },
}
