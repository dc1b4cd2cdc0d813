ghost use Rattle.std.specs.Prelude.{◌≡◌};
ghost use Rattle.gs_trace.specs.declared.fault.TraceFault.TheVariants.{OutOfMemory};

use std::alloc::AllocError;
use std::error::Error;
use std::fmt;

/// The first thing that keeps bytes from spelling a trace. Places are those of the first byte of the event
/// at fault, counted from 0.
#[derive(Clone, Copy, Debug, PartialEq, Eq)]
pub enum TraceFault {
    /// The head is cut, of another format, or says a clock or a reading that is too far.
    Header,
    /// The head is of another plan or node.
    Plan,
    /// There is no such kind of event.
    Kind(u64),
    /// The bytes end inside the event.
    Cut(u64),
    /// The beacon of the delivery is refused.
    Beacon(u64),
    /// Memory was refused.
    OutOfMemory,
}

impl fmt::Display for TraceFault {
    ghost use Rattle.std.specs.Prelude.{Some};
    ghost use Rattle.gs_trace.specs.FaultWords.{why_of};

    ghost output = { λ fault. Some (why_of fault) };

    fn fmt<W: fmt::Write>(&self, f: &mut fmt::Formatter<W>) -> fmt::Result {
        match self {
            TraceFault::Header => f.write_str("header"),
            TraceFault::Plan => f.write_str("plan"),
            TraceFault::Kind(place) => write!(f, "kind {place}"),
            TraceFault::Cut(place) => write!(f, "cut {place}"),
            TraceFault::Beacon(place) => write!(f, "beacon {place}"),
            TraceFault::OutOfMemory => f.write_str("out of memory"),
        }
    }
}

impl Error for TraceFault {}

impl From<AllocError> for TraceFault {
    ghost from_gives = { λ _ e. e ≡ OutOfMemory };

    fn from(_: AllocError) -> Self {
        TraceFault::OutOfMemory
    }
}
