ghost use Rattle.std.specs.Prelude.{◌≡◌};
ghost use Rattle.gs_planfile.specs.Texts.{IsText, base_text};

use std::alloc::Global;
use std::marker::Model;

/// The version of a plan file.
#[derive(Clone, Copy, Debug, PartialEq, Eq)]
pub enum Version {
    /// All edges have the plan's numbers.
    One,
    /// Some edges may have numbers of their own.
    Two,
}

/// The numbers of one edge that are its own.
#[derive(Clone, Copy, Debug, PartialEq, Eq)]
pub struct EdgeSpan {
    /// One end of the edge.
    pub a: u32,
    /// The other end.
    pub b: u32,
    /// The least delay of a beacon on this edge, in quanta.
    pub delay_min: u32,
    /// The greatest delay of a beacon on this edge, in quanta.
    pub delay_max: u32,
    /// The skew that one level of the gradient allows at this edge, in clock units, where it is
    /// given.
    pub kappa: Option<u64>,
}

/// Edges with numbers of their own. Contracts see the list of them.
#[derive(Debug, Drop)]
pub struct Spans {
    items: Vec<EdgeSpan>,
}

impl Model for Spans {
    ghost use Rattle.std.specs.Prelude.{List};
    ghost use Rattle.gs_planfile.specs.declared.text.EdgeSpan.{EdgeSpan};

    ghost Value = { List EdgeSpan };

    ghost view = { λ s. s.items.items };
}

impl Spans {
    /// The spans of this list, in its order.
    pub fn from_vec(items: Vec<EdgeSpan>) -> Self
        ensures { result ≡ items.items }
    {
        Spans { items }
    }

    /// The spans in order.
    pub fn as_slice(&self) -> &[EdgeSpan]
        ensures { result.now ≡ self.now }
    {
        &self.items
    }
}

/// Edges as pairs of nodes. Contracts see the list of them.
#[derive(Debug, Drop)]
pub struct EdgeList {
    items: Vec<(u32, u32)>,
}

impl Model for EdgeList {
    ghost use Rattle.std.specs.Prelude.{List, ℕ};

    ghost Value = { List (ℕ × ℕ) };

    ghost view = { λ e. e.items.items };
}

impl EdgeList {
    /// The edges of this list, in its order.
    pub fn from_vec(items: Vec<(u32, u32)>) -> Self
        ensures { result ≡ items.items }
    {
        EdgeList { items }
    }

    /// The edges in order.
    pub fn as_slice(&self) -> &[(u32, u32)]
        ensures { result.now ≡ self.now }
    {
        &self.items
    }
}

/// The graph of a network.
#[derive(Debug, Drop)]
pub enum Shape {
    /// This many nodes, each with an edge to the next.
    Line(u32),
    /// This many nodes, each with an edge to the next and, from three nodes on, the last to the first.
    Ring(u32),
    /// Rows and columns of nodes, with edges to the right and downwards.
    Grid(u32, u32),
    /// This many nodes with the edges that are listed.
    Edges(u32, EdgeList),
}

/// What a plan file says, before anything of it is checked against the rest. `Key` says what each
/// number is.
#[derive(Debug, Drop)]
pub struct PlanText {
    pub version: Version,
    pub cluster: u32,
    pub shape: Shape,
    pub lo: u32,
    pub hi: u32,
    pub mu: u32,
    pub tick: u32,
    pub delay_min: u32,
    pub delay_max: u32,
    pub every: u32,
    pub losses: u32,
    pub age: u32,
    pub kappa: Option<u64>,
    pub levels: u32,
    pub port: u32,
    pub spans: Spans,
}

/// The text of the built-in plan `base:n`, a line of `n` nodes. It takes no memory.
pub fn base(alloc: Global, n: u32) -> PlanText
    ensures value { result ≡ base_text n }
    ensures text { IsText result }
{
    PlanText {
        version: Version::One,
        cluster: 7,
        shape: Shape::Line(n),
        lo: 10_000,
        hi: 10_001,
        mu: 2_000,
        tick: 100,
        delay_min: 2,
        delay_max: 12,
        every: 1,
        losses: 3,
        age: 412,
        kappa: None,
        levels: 4,
        port: 40_000,
        spans: Spans::from_vec(Vec::new(alloc)),
    }
}
