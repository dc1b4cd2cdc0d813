ghost use Rattle.std.specs.Prelude.{◌≡◌, ◌⊎◌, ◌≤◌, ℕ, List, map, string_bytes, Some, None};
ghost use Rattle.gs_io.specs.Causes.{Rose};
ghost use Rattle.gs_stamp.specs.Disk.{LeavesOnly};
ghost use Rattle.gs_stamp.specs.Format.{ceiling_of};
ghost use Rattle.gs_stamp_run.specs.Lines.{IsOfStamp};
ghost use Rattle.gs_stamp_run.specs.Runs.{NotOpened, Ran};
ghost use Rattle.gs_stamp_run.specs.Words.{count_of};

use crate::issuing::issue_all;
use crate::lines::told;
use crate::words::count_of;
use gs_cli::Status;
use gs_clock::Clock;
use gs_io::Sink;
use gs_stamp::{OpenStop, Stamper, Store};
use std::alloc::Global;

/// How a run ended, and what is left of it.
#[derive(Drop)]
pub struct StampEnd<T, C> {
    /// How it ended.
    pub status: Status,
    /// The store, as it is after the last call.
    pub store: T,
    /// The clock.
    pub clock: C,
}

/// Does what the words `stamp FILE COUNT` ask for: issues COUNT stamps from the store at the clock's
/// readings, and writes each as one line before the next reading. The words name the file only for
/// the caller, which makes the store. Words that are no such command call neither store nor clock.
pub fn run_stamp<T: Store, C: Clock, K: Sink>(
    alloc: Global,
    words: &[String],
    store: T,
    clock: C,
    out: &mut K,
) -> StampEnd<T, C>
    // Where the words are others, or the store is not opened, no stamp is written. Else stamps rose from the
    // ceiling of the store on, each has its line, and whatever a crash may leave now has a ceiling above them.
    ensures went { NotOpened (T.seen store) result.status (K.bytes out.old) (K.bytes out.new)
        ⊎ ((count : ℕ) × (count_of (map string_bytes words.now) ≡ Some count)
        × Ran count (T.seen store) (C.left clock) (T.may_leave result.store)
        result.status (K.bytes out.old) (K.bytes out.new)) }

    // A crash at any moment leaves what it might have left before, or a ceiling that is not below the one that
    // was read.
    ensures any_moment { (bytes : List ℕ) → T.seen store ≡ Some bytes
        → LeavesOnly T.moment T.left_since store result.store
        (λ c. T.may_leave store c ⊎ (ceiling_of bytes ≤ ceiling_of c)) }

    ensures of_stamp { IsOfStamp result.status }
    ensures usage { count_of (map string_bytes words.now) ≡ None
        → (result.status ≡ Status.Usage) ⊎ (result.status ≡ Status.WriteFault) }
    ensures only_usage { result.status ≡ Status.Usage → count_of (map string_bytes words.now) ≡ None }
    ensures clock { result.status ≡ Status.ClockFault → Rose (C.faults clock) (C.faults result.clock) }
    ensures store { result.status ≡ Status.StoreFault → Rose (T.faults store) (T.faults result.store) }
    ensures sink { result.status ≡ Status.WriteFault → Rose (K.faults out.old) (K.faults out.new) }
{
    let Some(count) = count_of(words) else {
        return StampEnd {
            status: told(out, Status::Usage),
            store,
            clock,
        };
    };
    match Stamper::open(store) {
        Err((OpenStop::Failed, store)) => StampEnd {
            status: told(out, Status::StoreFault),
            store,
            clock,
        },
        Err((OpenStop::Full, store)) => StampEnd {
            status: told(out, Status::StampEnd),
            store,
            clock,
        },
        Ok(stamper) => {
            let mut stamper = stamper;
            let mut clock = clock;
            let status = issue_all(alloc, &mut stamper, &mut clock, out, count);
            StampEnd {
                status,
                store: stamper.into_store(),
                clock,
            }
        }
    }
}
