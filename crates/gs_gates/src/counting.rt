use gs_gate::Gate;
use std::sync::atomic::{AtomicU64, Ordering};

/// A gate that counts the calls of `enter`, and holds nobody.
#[derive(Drop)]
pub struct CountGate {
    entered: AtomicU64,
}

impl CountGate {
    /// A gate that nobody has entered.
    pub fn new() -> Self {
        CountGate {
            entered: AtomicU64::new(0),
        }
    }

    /// How many calls of `enter` there were so far.
    pub fn entered(&self) -> u64 {
        self.entered.load(Ordering::SeqCst)
    }
}

impl Gate for CountGate {
    fn enter(&self, _piece: u32) {
        self.entered.fetch_add(1, Ordering::SeqCst);
    }

    fn leave(&self, _piece: u32) {}

    fn rest(&self, _units: u64) {}
}
