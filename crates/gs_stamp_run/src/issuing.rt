ghost use Rattle.std.specs.Prelude.{◌≡◌, ◌⊎◌, ◌+◌, ◌^◌, ◌<◌, ◌≤◌, max, ℕ, List, Some, Err, false, IfOk, IfErr, OnOk, OnErr};
ghost use Rattle.gs_io.specs.Causes.{Rose};
ghost use Rattle.gs_io.specs.Held.{Appends};
ghost use Rattle.gs_clock.specs.Readings.{first_of, rest_of};
ghost use Rattle.gs_stamp.specs.Disk.{LeavesOnly};
ghost use Rattle.gs_stamp.specs.Format.{ceiling_of};
ghost use Rattle.gs_stamp.specs.Stampers.{is_closed, next_of, store_of};
ghost use Rattle.gs_stamp_run.specs.Lines.{IsOfStamp, line_of};
ghost use Rattle.gs_stamp_run.specs.Runs.{Went};

use crate::lines::{told, write_stamp};
use gs_cli::Status;
use gs_clock::Clock;
use gs_io::Sink;
use gs_stamp::{StampFault, Stamper, Store};
use std::alloc::Global;

/// The stamp at the next reading.
#[tactic(auto, using(crate::proofs::Exact::reads_told))]
fn next_stamp<T: Store, C: Clock>(stamper: &mut Stamper<T>, clock: &mut C) -> Result<u64, Status>
    ensures ok { IfOk result (λ s. (next_of stamper.old ≤ s) × (next_of stamper.new ≡ s + 1)) }
    ensures told { IfOk result (λ s. (rs : List ℕ) → C.left clock.old ≡ Some rs
        → (s ≡ max (next_of stamper.old) (first_of rs)) × (C.left clock.new ≡ Some (rest_of rs))) }
    ensures low { IfOk result (λ s. s + 1048576 < 2 ^ 62) }
    ensures full { is_closed stamper.old ≡ false → result ≡ Err Status.StampEnd
        → (rs : List ℕ) → C.left clock.old ≡ Some rs
        → 2 ^ 62 ≤ max (next_of stamper.old) (first_of rs) + 1048576 }
    ensures err { OnErr result (next_of stamper.new ≡ next_of stamper.old) }
    ensures stops { IfErr result (λ status. (status ≡ Status.ClockFault)
        ⊎ ((status ≡ Status.StoreFault) ⊎ (status ≡ Status.StampEnd))) }
    ensures of_stamp { IfErr result IsOfStamp }
    ensures clock { result ≡ Err Status.ClockFault → Rose (C.faults clock.old) (C.faults clock.new) }
    ensures store { is_closed stamper.old ≡ false → result ≡ Err Status.StoreFault
        → Rose (T.faults (store_of stamper.old)) (T.faults (store_of stamper.new)) }
    ensures open { OnOk result (is_closed stamper.new ≡ false) }
    ensures clock_later { C.faults clock.old ≤ C.faults clock.new }
    ensures store_later { T.faults (store_of stamper.old) ≤ T.faults (store_of stamper.new) }
    ensures any_moment { LeavesOnly T.moment T.left_since (store_of stamper.old) (store_of stamper.new)
        (λ c. next_of stamper.old ≤ ceiling_of c) }
{
    let Ok(reading) = clock.read() else {
        return Err(Status::ClockFault);
    };
    match stamper.stamp(reading) {
        Ok(stamp) => Ok(stamp),
        Err(StampFault::Full) => Err(Status::StampEnd),
        Err(StampFault::Failed | StampFault::Closed) => Err(Status::StoreFault),
    }
}

/// Issues a stamp and writes its line. An `Err` is how the run ended, with that status's line written.
fn issue<T: Store, C: Clock, K: Sink>(
    alloc: Global,
    stamper: &mut Stamper<T>,
    clock: &mut C,
    out: &mut K,
) -> Result<u64, Status>
    requires { is_closed stamper.old ≡ false }
    ensures ok { IfOk result (λ s. (next_of stamper.old ≤ s) × (next_of stamper.new ≡ s + 1)
        × Appends (K.bytes out.old) (K.bytes out.new) (line_of s)) }
    ensures told { IfOk result (λ s. (rs : List ℕ) → C.left clock.old ≡ Some rs
        → (s ≡ max (next_of stamper.old) (first_of rs)) × (C.left clock.new ≡ Some (rest_of rs))) }
    ensures low { IfOk result (λ s. s + 1048576 < 2 ^ 62) }
    ensures err { IfErr result (λ status. (n : ℕ)
        → Went (n + 1) (next_of stamper.old) (next_of stamper.new) (C.left clock.old)
        status (K.bytes out.old) (K.bytes out.new)) }
    ensures undone { IfErr result (λ status. status ≡ Status.Done → ⊥) }
    ensures of_stamp { IfErr result IsOfStamp }
    ensures no_usage { (result ≡ Err Status.Usage) → ⊥ }
    ensures open { OnOk result (is_closed stamper.new ≡ false) }
    ensures clock { result ≡ Err Status.ClockFault → Rose (C.faults clock.old) (C.faults clock.new) }
    ensures store { result ≡ Err Status.StoreFault
        → Rose (T.faults (store_of stamper.old)) (T.faults (store_of stamper.new)) }
    ensures sink { result ≡ Err Status.WriteFault → Rose (K.faults out.old) (K.faults out.new) }
    ensures clock_later { C.faults clock.old ≤ C.faults clock.new }
    ensures store_later { T.faults (store_of stamper.old) ≤ T.faults (store_of stamper.new) }
    ensures sink_later { K.faults out.old ≤ K.faults out.new }
    ensures any_moment { LeavesOnly T.moment T.left_since (store_of stamper.old) (store_of stamper.new)
        (λ c. next_of stamper.old ≤ ceiling_of c) }
{
    match next_stamp(stamper, clock) {
        Err(status) => Err(told(out, status)),
        Ok(stamp) => match write_stamp(alloc, out, stamp) {
            Ok(()) => Ok(stamp),
            Err(status) => Err(status),
        },
    }
}

/// Issues `count` stamps, each with its line, and answers how the run ended, with that status's line
/// written.
pub(crate) fn issue_all<T: Store, C: Clock, K: Sink>(
    alloc: Global,
    stamper: &mut Stamper<T>,
    clock: &mut C,
    out: &mut K,
    count: u64,
) -> Status
    requires { is_closed stamper.old ≡ false }
    ensures went { Went count (next_of stamper.old) (next_of stamper.new) (C.left clock.old)
        result (K.bytes out.old) (K.bytes out.new) }
    ensures of_stamp { IsOfStamp result }
    ensures no_usage { (result ≡ Status.Usage) → ⊥ }
    ensures clock { result ≡ Status.ClockFault → Rose (C.faults clock.old) (C.faults clock.new) }
    ensures store { result ≡ Status.StoreFault
        → Rose (T.faults (store_of stamper.old)) (T.faults (store_of stamper.new)) }
    ensures sink { result ≡ Status.WriteFault → Rose (K.faults out.old) (K.faults out.new) }
    ensures store_later { T.faults (store_of stamper.old) ≤ T.faults (store_of stamper.new) }
    ensures any_moment { LeavesOnly T.moment T.left_since (store_of stamper.old) (store_of stamper.new)
        (λ c. next_of stamper.old ≤ ceiling_of c) }
{
    for _turn in 0..count {
        match issue(alloc, stamper, clock, out) {
            Ok(_stamp) => {}
            Err(status) => return status,
        }
    }
    Status::Done
}
