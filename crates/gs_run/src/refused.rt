ghost use Rattle.std.specs.Prelude.{◌≡◌};
ghost use Rattle.gs_run.specs.declared.refused.Refused.TheVariants.{OutOfMemory};

use std::alloc::AllocError;
use std::error::Error;
use std::fmt;

/// Why an event is not allowed.
#[derive(Clone, Copy, Debug, PartialEq, Eq)]
pub enum Refused {
    /// There are not as many increments as nodes, or no such node or no such edge.
    Shape,
    /// The world has taken all its quanta.
    End,
    /// The increment of this node is out of its bounds.
    Drift(u32),
    /// The last tick of this node is as old as it may get.
    TickDue(u32),
    /// What the second node last heard of the first is as old as it may get.
    Stale(u32, u32),
    /// No such beacon was sent.
    Unknown,
    /// The beacon comes sooner than its edge allows.
    Early,
    /// The beacon comes later than its edge allows.
    Late,
    /// Memory was refused.
    OutOfMemory,
}

impl fmt::Display for Refused {
    ghost use Rattle.std.specs.Prelude.{Some};
    ghost use Rattle.gs_run.specs.FaultWords.{why_of};

    ghost output = { λ refused. Some (why_of refused) };

    fn fmt<W: fmt::Write>(&self, f: &mut fmt::Formatter<W>) -> fmt::Result {
        match self {
            Refused::Shape => f.write_str("shape"),
            Refused::End => f.write_str("end"),
            Refused::Drift(v) => write!(f, "drift {v}"),
            Refused::TickDue(v) => write!(f, "due {v}"),
            Refused::Stale(from, to) => write!(f, "stale {from} {to}"),
            Refused::Unknown => f.write_str("unknown"),
            Refused::Early => f.write_str("early"),
            Refused::Late => f.write_str("late"),
            Refused::OutOfMemory => f.write_str("out of memory"),
        }
    }
}

impl Error for Refused {}

impl From<AllocError> for Refused {
    ghost from_gives = { λ _ e. e ≡ OutOfMemory };

    fn from(_: AllocError) -> Self {
        Refused::OutOfMemory
    }
}
