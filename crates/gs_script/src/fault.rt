ghost use Rattle.std.specs.Prelude.{◌≡◌, Some};
ghost use Rattle.gs_script.specs.declared.fault.ScriptFault.TheVariants.{OutOfMemory};

use std::alloc::AllocError;
use std::error::Error;
use std::fmt;

/// The first thing that is wrong with a script. A number is that of the record at fault, from 1. For
/// one record the variants are looked for in the order `Csv`, `First`, `Large` (of the record's
/// number), `Word`, `Again`, `Fields`, `Number`, `Large` (of the quanta), `Node`, `Edge`, `Span`,
/// `Bound`.
#[derive(Clone, Copy, Debug, PartialEq, Eq)]
pub enum ScriptFault {
    /// There is no record, or the first is not the count of quanta.
    First,
    /// A field is not UTF-8.
    Csv(u32),
    /// The first field is none of the words of records.
    Word(u32),
    /// The count of quanta a second time.
    Again(u32),
    /// The word wants another count of fields.
    Fields(u32),
    /// A field that is to be a number is no plain decimal below 2^64.
    Number(u32),
    /// A node that the plan does not have.
    Node(u32),
    /// No edge joins the two nodes.
    Edge(u32),
    /// The span begins before quantum 1, ends before it begins, or ends after the last quantum.
    Span(u32),
    /// The value is out of the range that the plan gives.
    Bound(u32),
    /// Too many records or quanta, or too much work.
    Large,
    /// Memory was refused.
    OutOfMemory,
}

impl fmt::Display for ScriptFault {
    ghost use Rattle.std.specs.Prelude.{Some};
    ghost use Rattle.gs_script.specs.FaultWords.{why_of};

    ghost output = { λ f. Some (why_of f) };

    fn fmt<W: fmt::Write>(&self, f: &mut fmt::Formatter<W>) -> fmt::Result {
        match self {
            ScriptFault::First => f.write_str("first"),
            ScriptFault::Csv(k) => write!(f, "csv {k}"),
            ScriptFault::Word(k) => write!(f, "word {k}"),
            ScriptFault::Again(k) => write!(f, "again {k}"),
            ScriptFault::Fields(k) => write!(f, "fields {k}"),
            ScriptFault::Number(k) => write!(f, "number {k}"),
            ScriptFault::Node(k) => write!(f, "node {k}"),
            ScriptFault::Edge(k) => write!(f, "edge {k}"),
            ScriptFault::Span(k) => write!(f, "span {k}"),
            ScriptFault::Bound(k) => write!(f, "bound {k}"),
            ScriptFault::Large => f.write_str("large"),
            ScriptFault::OutOfMemory => f.write_str("out of memory"),
        }
    }
}

impl Error for ScriptFault {}

impl From<AllocError> for ScriptFault {
    ghost from_gives = { λ _ e. e ≡ OutOfMemory };

    fn from(_: AllocError) -> Self {
        ScriptFault::OutOfMemory
    }
}
