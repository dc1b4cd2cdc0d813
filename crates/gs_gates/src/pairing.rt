use crate::waiting::{TURNS, is_above_within};
use gs_gate::Gate;
use std::sync::atomic::{AtomicU64, Ordering};

/// A gate at which pieces 0 and 1 meet each time: a piece's k-th `enter` returns only after the k-th of the
/// other came, or after a limit of turns. It counts how often they met, both inside.
#[derive(Drop)]
pub struct PairGate {
    turns: u64,
    zero: AtomicU64,
    one: AtomicU64,
    met: AtomicU64,
}

impl PairGate {
    /// A gate to which nobody has come, which holds a piece for 100,000,000 turns at most.
    pub fn new() -> Self {
        PairGate::within(TURNS)
    }

    /// A gate that holds a piece for `turns` turns at most.
    pub fn within(turns: u64) -> Self {
        PairGate {
            turns,
            zero: AtomicU64::new(0),
            one: AtomicU64::new(0),
            met: AtomicU64::new(0),
        }
    }

    /// How often piece 0 met piece 1, both inside.
    pub fn met(&self) -> u64 {
        self.met.load(Ordering::SeqCst)
    }
}

impl Gate for PairGate {
    fn enter(&self, piece: u32) {
        match piece {
            0 => {
                let before = self.zero.fetch_add(1, Ordering::SeqCst);
                if is_above_within(&self.one, before, self.turns) {
                    self.met.fetch_add(1, Ordering::SeqCst);
                }
            }
            1 => {
                let before = self.one.fetch_add(1, Ordering::SeqCst);
                is_above_within(&self.zero, before, self.turns);
            }
            _ => (),
        }
    }

    fn leave(&self, _piece: u32) {}

    fn rest(&self, _units: u64) {}
}
