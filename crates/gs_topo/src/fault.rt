ghost use Rattle.std.specs.Prelude.{◌≡◌};
ghost use Rattle.gs_topo.specs.declared.fault.TopoFault.TheVariants.{OutOfMemory};

use std::alloc::AllocError;
use std::error::Error;
use std::fmt;

/// The first thing that is wrong with a graph. Edges are counted from 0, in the order given.
#[derive(Clone, Copy, Debug, PartialEq, Eq)]
pub enum TopoFault {
    /// The number of nodes is 0 or above 512.
    Count,
    /// There are more than 4,096 edges.
    Edges,
    /// An end of this edge is no node.
    Node(u32),
    /// The ends of this edge are the same node.
    Loop(u32),
    /// This edge stands earlier too, in this order of its ends or the other.
    Double(u32),
    /// Node 0 does not reach this node, the least of those.
    Split(u32),
    /// Memory was refused.
    OutOfMemory,
}

impl fmt::Display for TopoFault {
    ghost use Rattle.std.specs.Prelude.{Some};
    ghost use Rattle.gs_topo.specs.FaultWords.{why_of};

    ghost output = { λ f. Some (why_of f) };

    fn fmt<W: fmt::Write>(&self, f: &mut fmt::Formatter<W>) -> fmt::Result {
        match self {
            TopoFault::Count => f.write_str("count"),
            TopoFault::Edges => f.write_str("edges"),
            TopoFault::Node(i) => write!(f, "node {i}"),
            TopoFault::Loop(i) => write!(f, "loop {i}"),
            TopoFault::Double(i) => write!(f, "double {i}"),
            TopoFault::Split(v) => write!(f, "split {v}"),
            TopoFault::OutOfMemory => f.write_str("out of memory"),
        }
    }
}

impl Error for TopoFault {}

impl From<AllocError> for TopoFault {
    ghost from_gives = { λ _ e. e ≡ OutOfMemory };

    fn from(_: AllocError) -> Self {
        TopoFault::OutOfMemory
    }
}
