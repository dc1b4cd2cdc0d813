/// An event of a node, with the quanta at whose ends it began and finished.
#[derive(Clone, Copy, Debug, PartialEq, Eq)]
pub struct Timed {
    pub node: u32,
    pub begun: u32,
    /// The clock of the node when it began, in clock units.
    pub stamp: u64,
    /// None where it has not finished.
    pub finished: Option<u32>,
}
