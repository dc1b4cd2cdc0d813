ghost use Rattle.std.specs.Prelude.{◌<◌, ◌≤◌};

/// So many events of a window pay for a thread more.
const EVENTS_FOR_A_THREAD: u64 = 16_000;

/// The work that is expected of a window, by the one before it. It decides between threads alone, so no
/// contract says how well it is met.
#[derive(Drop)]
pub(crate) struct Load {
    /// Ticks and deliveries of a quantum.
    events: u64,
}

impl Load {
    /// Before the first window, of which it is not known how much there is to do.
    pub(crate) fn unknown() -> Load {
        Load { events: u64::MAX }
    }

    /// After a window of `n` quanta with `events` ticks and deliveries.
    pub(crate) fn of_window(events: u64, n: u32) -> Load
        requires { 1 ≤ n }
    {
        Load {
            events: events.div_ceil(u64::from(n)),
        }
    }

    /// How many of the pieces go into each thread in a window of `n` quanta: one each where that pays,
    /// and all of them where no second thread does.
    pub(crate) fn share(&self, pieces: usize, n: u32) -> usize
        requires { 1 ≤ pieces }
        ensures { 1 ≤ result }
    {
        let events = self.events.saturating_mul(u64::from(n));
        let threads = (events / EVENTS_FOR_A_THREAD).max(1);
        if threads < pieces as u64 {
            pieces.div_ceil(threads as usize)
        } else {
            1
        }
    }
}
