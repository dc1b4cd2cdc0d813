/// A number that a script gives, and how long it stays the same.
#[derive(Clone, Copy, Debug, PartialEq, Eq)]
pub struct Run {
    /// The number in the quantum that was asked for: an increment in clock units, or a gap between ticks
    /// in quanta.
    pub value: u32,
    /// The number is the same in each quantum from the one that was asked for up to this one, and may be
    /// so in the next. This quantum may lie behind the script's last.
    pub until: u32,
}

/// What a script says of beacons from a node to a neighbour, and how long it stays the same.
#[derive(Clone, Copy, Debug, PartialEq, Eq)]
pub struct WayRun {
    /// The delay, in quanta, of a beacon that is sent in the quantum that was asked for.
    pub delay: u32,
    /// Whether such a beacon is lost.
    pub is_lost: bool,
    /// Both are the same for beacons that are sent in any quantum from the one that was asked for up to
    /// this one, and may be so in the next. This quantum may lie behind the script's last.
    pub until: u32,
}
