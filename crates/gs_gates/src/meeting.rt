use crate::waiting::{TURNS, is_set_within};
use gs_gate::Gate;
use std::sync::atomic::{AtomicBool, Ordering};

/// A gate at which pieces 0 and 1 meet: the first `enter(0)` returns only after `enter(1)` came, or
/// after 100,000,000 turns.
#[derive(Drop)]
pub struct Rendezvous {
    turns: u64,
    zero_came: AtomicBool,
    one_came: AtomicBool,
    met: AtomicBool,
}

impl Rendezvous {
    /// A gate to which nobody has come.
    pub fn new() -> Self {
        Rendezvous::within(TURNS)
    }

    /// A gate that holds piece 0 for `turns` turns at most.
    pub(crate) fn within(turns: u64) -> Self {
        Rendezvous {
            turns,
            zero_came: AtomicBool::new(false),
            one_came: AtomicBool::new(false),
            met: AtomicBool::new(false),
        }
    }

    /// Whether both pieces were in: the first `enter(0)` did not end by the limit.
    pub fn met(&self) -> bool {
        self.met.load(Ordering::SeqCst)
    }
}

impl Gate for Rendezvous {
    fn enter(&self, piece: u32) {
        match piece {
            0 => {
                if !self.zero_came.swap(true, Ordering::SeqCst) {
                    let met = is_set_within(&self.one_came, self.turns);
                    self.met.store(met, Ordering::SeqCst);
                }
            }
            1 => self.one_came.store(true, Ordering::SeqCst),
            _ => (),
        }
    }

    fn leave(&self, _piece: u32) {}

    fn rest(&self, _units: u64) {}
}
