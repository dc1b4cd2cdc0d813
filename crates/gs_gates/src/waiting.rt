use std::sync::atomic::{AtomicBool, AtomicU64, Ordering};
use std::thread;

/// For how many turns a gate holds a thread.
pub(crate) const TURNS: u64 = 100_000_000;

/// Waits until the flag is set, for `turns` turns at most, and tells whether it is. Each turn leaves
/// the processor to other threads.
pub(crate) fn is_set_within(flag: &AtomicBool, turns: u64) -> bool {
    for _ in 0..turns {
        if flag.load(Ordering::SeqCst) {
            return true;
        }
        thread::yield_now();
    }
    flag.load(Ordering::SeqCst)
}

/// Waits until a count is above this one, for `turns` turns at most, and tells whether it is.
pub(crate) fn is_above_within(count: &AtomicU64, before: u64, turns: u64) -> bool {
    for _ in 0..turns {
        if count.load(Ordering::SeqCst) > before {
            return true;
        }
        thread::yield_now();
    }
    count.load(Ordering::SeqCst) > before
}
