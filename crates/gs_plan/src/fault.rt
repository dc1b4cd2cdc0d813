ghost use Rattle.std.specs.Prelude.{◌≡◌};
ghost use Rattle.gs_plan.specs.declared.fault.PlanFault.TheVariants.{OutOfMemory};

use gs_topo::TopoFault;
use gs_units::RateFault;
use std::alloc::AllocError;
use std::error::Error;
use std::fmt;

/// The first thing that is wrong with a plan. The variants stand in the order in which they are
/// looked for, but for the last.
#[derive(Clone, Copy, Debug, PartialEq, Eq)]
pub enum PlanFault {
    /// The rate of clocks.
    Rate(RateFault),
    /// The graph.
    Topo(TopoFault),
    /// The greatest gap between ticks is not 1 to 65,536 quanta.
    Tick,
    /// The least delay is above the greatest, or the greatest is not 1 to 65,536 quanta.
    Delay,
    /// This span, counted from 0, stands in a plan of version 1, names no edge or the edge of an
    /// earlier span, or has delays that are at fault as in `Delay`.
    Span(u32),
    /// `every` is not 1 to 1,024.
    Every,
    /// More than 1,024 beacons in a row may be lost.
    Losses,
    /// `age` is below `(losses + 1) * every * tick` and the greatest delay together.
    Age,
    /// The levels are not 1 to 32.
    Levels,
    /// The first port is below 1,024, or the ports of the plan go past 65,536.
    Port,
    /// The boost is less than twice the drift.
    Weak,
    /// A given kappa is too low for its delays.
    Kappa,
    /// The bounds reach the end of clocks, 2^62.
    Wide,
    /// Memory was refused.
    OutOfMemory,
}

impl fmt::Display for PlanFault {
    ghost use Rattle.std.specs.Prelude.{Some};
    ghost use Rattle.gs_plan.specs.FaultWords.{why_of};

    ghost output = { λ f. Some (why_of f) };

    fn fmt<W: fmt::Write>(&self, f: &mut fmt::Formatter<W>) -> fmt::Result {
        match self {
            PlanFault::Rate(fault) => write!(f, "{fault}"),
            PlanFault::Topo(fault) => write!(f, "{fault}"),
            PlanFault::Tick => f.write_str("tick"),
            PlanFault::Delay => f.write_str("delay"),
            PlanFault::Span(i) => write!(f, "span {i}"),
            PlanFault::Every => f.write_str("every"),
            PlanFault::Losses => f.write_str("losses"),
            PlanFault::Age => f.write_str("age"),
            PlanFault::Levels => f.write_str("levels"),
            PlanFault::Port => f.write_str("port"),
            PlanFault::Weak => f.write_str("weak"),
            PlanFault::Kappa => f.write_str("kappa"),
            PlanFault::Wide => f.write_str("wide"),
            PlanFault::OutOfMemory => f.write_str("out of memory"),
        }
    }
}

impl Error for PlanFault {}

impl From<AllocError> for PlanFault {
    ghost from_gives = { λ _ e. e ≡ OutOfMemory };

    fn from(_: AllocError) -> Self {
        PlanFault::OutOfMemory
    }
}
