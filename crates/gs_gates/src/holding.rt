use crate::waiting::{TURNS, is_set_within};
use gs_gate::Gate;
use std::sync::atomic::{AtomicBool, Ordering};

/// A gate that holds each rest until the flag of a test is set, or for 100,000,000 turns.
#[derive(Drop)]
pub struct HoldGate {
    turns: u64,
    flag: AtomicBool,
    rested: AtomicBool,
    gave_up: AtomicBool,
}

impl HoldGate {
    /// A gate whose flag is not set.
    pub fn new() -> Self {
        HoldGate::within(TURNS)
    }

    /// A gate that holds a rest for `turns` turns at most.
    pub(crate) fn within(turns: u64) -> Self {
        HoldGate {
            turns,
            flag: AtomicBool::new(false),
            rested: AtomicBool::new(false),
            gave_up: AtomicBool::new(false),
        }
    }

    /// Sets the flag: rests go on, and those to come are not held.
    pub fn set(&self) {
        self.flag.store(true, Ordering::SeqCst);
    }

    /// Waits until a rest was begun, and tells whether one was: false after the limit of turns.
    pub fn wait_rested(&self) -> bool {
        is_set_within(&self.rested, self.turns)
    }

    /// Whether no rest ended by the limit.
    pub fn met(&self) -> bool {
        !self.gave_up.load(Ordering::SeqCst)
    }
}

impl Gate for HoldGate {
    fn enter(&self, _piece: u32) {}

    fn leave(&self, _piece: u32) {}

    fn rest(&self, _units: u64) {
        self.rested.store(true, Ordering::SeqCst);
        if !is_set_within(&self.flag, self.turns) {
            self.gave_up.store(true, Ordering::SeqCst);
        }
    }
}
