ghost use Rattle.std.specs.Prelude.{◌≡◌, ◌&&◌};
ghost use Rattle.std.specs.Str.{bytes_eq};
ghost use Rattle.gs_planfile.specs.Extra.{is_allowed, may_stand};
ghost use Rattle.gs_planfile.specs.Keys.{key_name};

use crate::text::{Shape, Version};
use std::error::Error;
use std::fmt;

/// The keys that a plan file may have at its top, in the order in which they are looked at.
#[derive(Clone, Copy, Debug, PartialEq, Eq)]
pub enum Key {
    /// 1 or 2.
    Version,
    /// The cluster that every beacon names.
    Cluster,
    /// `line`, `ring`, `grid` or `edges`.
    Topology,
    /// The count of nodes of a line, of a ring or of listed edges.
    Nodes,
    /// The count of rows of a grid.
    Rows,
    /// The count of columns of a grid.
    Cols,
    /// The edges where they are listed.
    Edges,
    /// The least that a hardware clock adds in one quantum, in clock units.
    Lo,
    /// The greatest that a hardware clock adds in one quantum, in clock units.
    Hi,
    /// The boost of the fast mode, in parts per million.
    Mu,
    /// The greatest gap between two ticks of a node, in quanta.
    Tick,
    /// The least delay of a beacon, in quanta.
    DelayMin,
    /// The greatest delay of a beacon, in quanta.
    DelayMax,
    /// A node sends a beacon at every `every`-th tick.
    Every,
    /// How many beacons in a row a directed edge may lose.
    Losses,
    /// The greatest age of the newest beacon heard, in quanta.
    Age,
    /// The skew that one level of the gradient allows at an edge, in clock units.
    Kappa,
    /// The last level that the planner and the player report; the first is 0.
    Levels,
    /// The first UDP port of the cluster.
    Port,
    /// Edges with numbers of their own.
    Spans,
}

/// Every key, in the order in which they are looked at.
const EVERY_KEY: [Key; 20] = [
    Key::Version,
    Key::Cluster,
    Key::Topology,
    Key::Nodes,
    Key::Rows,
    Key::Cols,
    Key::Edges,
    Key::Lo,
    Key::Hi,
    Key::Mu,
    Key::Tick,
    Key::DelayMin,
    Key::DelayMax,
    Key::Every,
    Key::Losses,
    Key::Age,
    Key::Kappa,
    Key::Levels,
    Key::Port,
    Key::Spans,
];

/// The first thing that is wrong with a plan file.
#[derive(Clone, Copy, Debug, PartialEq, Eq)]
pub enum PlanFileFault {
    /// The bytes are not UTF-8.
    Utf8,
    /// The text is no TOML document.
    Toml,
    /// A key that this plan needs does not stand there.
    Missing(Key),
    /// The value at a key is not of the form that the key takes.
    Kind(Key),
    /// The value at a key has the form and is out of range.
    Range(Key),
    /// A key stands there that this plan does not take.
    Extra,
    /// There was not memory enough to read the file.
    OutOfMemory,
}

impl fmt::Display for PlanFileFault {
    ghost use Rattle.std.specs.Prelude.{Some};
    ghost use Rattle.gs_planfile.specs.FaultWords.{why_of};

    ghost output = { λ f. Some (why_of f) };

    fn fmt<W: fmt::Write>(&self, f: &mut fmt::Formatter<W>) -> fmt::Result {
        match self {
            PlanFileFault::Utf8 => f.write_str("utf8"),
            PlanFileFault::Toml => f.write_str("toml"),
            PlanFileFault::Missing(key) => write!(f, "missing {}", key.name()),
            PlanFileFault::Kind(key) => write!(f, "kind {}", key.name()),
            PlanFileFault::Range(key) => write!(f, "range {}", key.name()),
            PlanFileFault::Extra => f.write_str("extra"),
            PlanFileFault::OutOfMemory => f.write_str("out of memory"),
        }
    }
}

impl Error for PlanFileFault {}

impl Key {
    /// The key as a file spells it.
    pub fn name(self) -> &'static str
        ensures { result.now ≡ key_name self }
    {
        match self {
            Key::Version => "version",
            Key::Cluster => "cluster",
            Key::Topology => "topology",
            Key::Nodes => "nodes",
            Key::Rows => "rows",
            Key::Cols => "cols",
            Key::Edges => "edges",
            Key::Lo => "lo",
            Key::Hi => "hi",
            Key::Mu => "mu",
            Key::Tick => "tick",
            Key::DelayMin => "delay_min",
            Key::DelayMax => "delay_max",
            Key::Every => "every",
            Key::Losses => "losses",
            Key::Age => "age",
            Key::Kappa => "kappa",
            Key::Levels => "levels",
            Key::Port => "port",
            Key::Spans => "spans",
        }
    }

    /// Whether the key may stand in a file of this version and shape.
    fn may_stand(self, version: Version, shape: &Shape) -> bool
        ensures { result ≡ may_stand version shape.now self }
    {
        match self {
            Key::Nodes => !matches!(shape, Shape::Grid(_, _)),
            Key::Rows | Key::Cols => matches!(shape, Shape::Grid(_, _)),
            Key::Edges => matches!(shape, Shape::Edges(_, _)),
            Key::Spans => version == Version::Two,
            _ => true,
        }
    }

    /// Whether the key has this name, and may stand in a file of this version and shape.
    fn is_allowed_as(self, version: Version, shape: &Shape, name: &str) -> bool
        ensures { result ≡ (bytes_eq (key_name self) name.now && may_stand version shape.now self) }
    {
        self.name() == name && self.may_stand(version, shape)
    }
}

/// Whether a key of this name may stand in a file of this version and shape.
#[tactic(auto, unfolding(crate::specs::Extra::is_allowed))]
pub(crate) fn is_allowed(version: Version, shape: &Shape, name: &str) -> bool
    ensures { result ≡ is_allowed version shape.now name.now }
{
    EVERY_KEY
        .iter()
        .any(|&key| key.is_allowed_as(version, shape, name))
}
