use gs_units::Mode;

/// What is published: a clock that ran from `l` on at the reading `at`, in one mode. Both are in clock
/// units.
#[derive(Clone, Copy, Debug, PartialEq, Eq)]
pub struct Snap {
    /// Its place in the journal of its node. Places that are published never fall.
    pub place: u64,
    /// The logical clock at the reading.
    pub l: u64,
    /// The reading of the hardware clock.
    pub at: u64,
    /// How the clock goes on from there.
    pub mode: Mode,
}
