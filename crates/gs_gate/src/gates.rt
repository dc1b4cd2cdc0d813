use std::thread;
use std::time::{Clock, Duration};

/// What the threads of a run pass. A test may hold it: it keeps a thread in a call until another
/// thread has come to where the test wants it. Every call returns at last, and has no effect on
/// anything that a contract speaks of.
///
/// A play calls `enter` and `leave` alone, both from the thread that runs the piece; `rest` is for the
/// timer of a node that runs.
pub trait Gate: Sync {
    /// A worker begins with a piece: called once for each piece and window, before its nodes go through the
    /// window.
    fn enter(&self, piece: u32);

    /// A worker is done with a piece: called once for each piece and window, after its nodes went through
    /// the window.
    fn leave(&self, piece: u32);

    /// A timer has nothing to do for so many units, each of a nanosecond.
    fn rest(&self, units: u64);
}

/// The gate of a real run: nobody is held, and a rest is so many nanoseconds of sleep.
#[derive(Drop)]
pub struct PlainGate<R> {
    clock: R,
}

impl<R: Clock> PlainGate<R> {
    /// A gate that sleeps by this clock.
    pub fn new(clock: R) -> Self {
        PlainGate { clock }
    }
}

impl<R: Clock + Sync> Gate for PlainGate<R> {
    fn enter(&self, _piece: u32) {}

    fn leave(&self, _piece: u32) {}

    fn rest(&self, units: u64) {
        thread::sleep(&self.clock, Duration::from_nanos(units))
    }
}
