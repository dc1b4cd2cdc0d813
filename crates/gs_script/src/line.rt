ghost use Rattle.std.specs.Prelude.{◌≡◌};
ghost use Rattle.gs_script.specs.inside.Kept.{home, is_in, is_same};
ghost use Rattle.gs_script.specs.Lines.{is_for};

/// A node, or the star, which stands for every node.
#[derive(Clone, Copy, Debug, PartialEq, Eq)]
pub enum Who {
    Every,
    One(u32),
}

/// Some quanta, with both ends.
#[derive(Clone, Copy, Debug, PartialEq, Eq)]
pub struct Span {
    pub from: u32,
    pub to: u32,
}

/// What a record sets, and to which value.
#[derive(Clone, Copy, Debug, PartialEq, Eq)]
pub enum Setting {
    /// What a node's hardware clock advances by in a quantum, in clock units.
    Drift { node: Who, inc: u32 },
    /// The gap between a node's ticks, in quanta.
    Tick { node: Who, gap: u32 },
    /// The delay of beacons from a sender to a receiver, in quanta.
    Delay { from: Who, to: Who, quanta: u32 },
    /// Whether beacons from a sender to a receiver are lost.
    Loss { from: Who, to: Who, is_lost: bool },
}

/// A record of a script behind the first: what it sets, and when.
#[derive(Clone, Copy, Debug, PartialEq, Eq)]
pub struct Line {
    pub span: Span,
    pub setting: Setting,
}

/// A part of the records: those that set one thing and name the same nodes or stars.
#[derive(Clone, Copy, Debug, PartialEq, Eq)]
pub enum Part {
    Drift(Who),
    Tick(Who),
    Delay(Who, Who),
    Loss(Who, Who),
}

impl Who {
    /// Whether this is the node or the star.
    pub(crate) fn is_for(self, v: u32) -> bool
        ensures { result ≡ is_for self v }
    {
        match self {
            Who::Every => true,
            Who::One(w) => w == v,
        }
    }

    /// Whether both are the star, or the same node.
    pub(crate) fn is_same(self, other: Who) -> bool
        ensures { result ≡ is_same self other }
    {
        match (self, other) {
            (Who::Every, Who::Every) => true,
            (Who::One(v), Who::One(w)) => v == w,
            _ => false,
        }
    }
}

impl Setting {
    /// The node that keeps a record: the one that it names, of two the sender, or the star.
    pub(crate) fn home(self) -> Who
        ensures { result ≡ home self }
    {
        match self {
            Setting::Drift { node, .. } | Setting::Tick { node, .. } => node,
            Setting::Delay { from, to, .. } | Setting::Loss { from, to, .. } => match from {
                Who::Every => to,
                Who::One(v) => Who::One(v),
            },
        }
    }
}

impl Part {
    /// Whether a record belongs to it.
    pub(crate) fn has(self, setting: Setting) -> bool
        ensures { result ≡ is_in self setting }
    {
        match (self, setting) {
            (Part::Drift(who), Setting::Drift { node, .. })
            | (Part::Tick(who), Setting::Tick { node, .. }) => node.is_same(who),
            (Part::Delay(v, w), Setting::Delay { from, to, .. })
            | (Part::Loss(v, w), Setting::Loss { from, to, .. }) => from.is_same(v)
                && to.is_same(w),
            _ => false,
        }
    }
}
