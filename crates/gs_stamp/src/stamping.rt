ghost use Rattle.std.specs.Prelude.{◌≡◌, ◌+◌, ◌<◌, ◌≤◌, ◌^◌, ◌⊎◌, ◌↔◌, ℕ, max, List, Some, Err, IfOk, IfErr, OnErr, false, true, option_map};
ghost use Rattle.gs_io.specs.Causes.{Rose};
ghost use Rattle.gs_stamp.specs.Disk.{LeavesOnly};
ghost use Rattle.gs_stamp.specs.Format.{IsOldOrRaised, ceiling_of, stamped};
ghost use Rattle.gs_stamp.specs.Slots.{Has};
ghost use Rattle.std.proofs.Props.{props};

use crate::Store;
use crate::slots::{STEP, Slots, cover, load};
use gs_io::Failed;
use gs_units::END;
use thiserror::Error;

/// Why a store was not opened.
#[derive(Clone, Copy, Debug, PartialEq, Eq, Error)]
pub enum OpenStop {
    /// The store failed.
    #[error("the store failed")]
    Failed,
    /// No stamp is left.
    #[error("no stamp is left")]
    Full,
}

/// Why no stamp was issued.
#[derive(Clone, Copy, Debug, PartialEq, Eq, Error)]
pub enum StampFault {
    /// The store has failed before: open it again.
    #[error("the stamper is closed")]
    Closed,
    /// No stamp is left at or above the clock.
    #[error("no stamp is left")]
    Full,
    /// The store failed. The stamper is closed.
    #[error("the store failed")]
    Failed,
}

/// Issues rising numbers. Whatever a crash leaves of its store, the ceiling there is at or above its next
/// stamp, and so above all that it has issued: this is so of each stamper at each moment.
#[derive(Drop)]
pub struct Stamper<S: Store> {
    store: S,
    slots: Slots,
    next: u64,
    closed: bool,
    ghost above: { (c : List ℕ) → S.may_leave store c → next ≤ ceiling_of c },
    ghost known: { closed ≡ false → (c : List ℕ) → S.may_leave store c → Has slots c } by { Prim.hlevel props },
}

impl<S: Store> Stamper<S> {
    ghost use Rattle.gs_stamp.specs.Stampers.{is_closed, next_of, store_of};

    /// Syncs and reads the store, and goes on from the ceiling there. It writes nothing. Where it fails the
    /// store comes back.
    pub fn open(store: S) -> Result<Stamper<S>, (OpenStop, S)>
        ensures next { IfOk result
            (λ stamper. (bytes : List ℕ) → S.seen store ≡ Some bytes → next_of stamper ≡ ceiling_of bytes) }
        ensures low { IfOk result (λ stamper. next_of stamper < 2 ^ 62) }
        ensures fresh { IfOk result (λ stamper. is_closed stamper ≡ false) }
        ensures seen { IfOk result (λ stamper. S.seen (store_of stamper) ≡ S.seen store) }

        // A crash at any moment leaves what it might have left before.
        ensures any_moment { IfOk result (λ stamper.
            LeavesOnly S.moment S.left_since store (store_of stamper) (S.may_leave store)) }
        ensures any_moment_err { IfErr result (λ stop.
            LeavesOnly S.moment S.left_since store stop.1 (S.may_leave store)) }

        ensures full { IfErr result (λ stop. stop.0 ≡ OpenStop.Full
            → (bytes : List ℕ) → S.seen store ≡ Some bytes → 2 ^ 62 ≤ ceiling_of bytes) }
        ensures failed { IfErr result (λ stop. stop.0 ≡ OpenStop.Failed → Rose (S.faults store) (S.faults stop.1)) }
        ensures later { IfOk result (λ stamper. S.faults store ≤ S.faults (store_of stamper)) }
        ensures later_err { IfErr result (λ stop. S.faults store ≤ S.faults stop.1) }
    {
        let mut store = store;
        match load(&mut store) {
            Err(Failed) => Err((OpenStop::Failed, store)),
            Ok(slots) => {
                let next = slots.ceiling();
                if next >= END {
                    return Err((OpenStop::Full, store));
                }
                Ok(Stamper {
                    store,
                    slots,
                    next,
                    closed: false,
                })
            }
        }
    }

    /// The next stamp, at or above the clock. Where the ceiling is not above it, the ceiling is first raised
    /// on the disk. After `Failed` the stamper is closed, and the store is to be opened again.
    pub fn stamp(&mut self, clock: u64) -> Result<u64, StampFault>
        ensures stamp { IfOk result (λ s. s ≡ max (next_of self.old) clock) }
        ensures next { IfOk result (λ s. next_of self.new ≡ s + 1) }
        ensures low { IfOk result (λ s. s + 1048576 < 2 ^ 62) }

        // From now on a crash leaves a ceiling above the stamp,
        ensures issued { IfOk result (λ s.
            (c : List ℕ) → S.may_leave (store_of self.new) c → s < ceiling_of c) }

        // and at any moment of the call it leaves one above all that was issued before:
        ensures any_moment { LeavesOnly S.moment S.left_since (store_of self.old) (store_of self.new)
            (λ c. next_of self.old ≤ ceiling_of c) }

        // the one that it might have left before the call, or the one that is being written.
        ensures during { LeavesOnly S.moment S.left_since (store_of self.old) (store_of self.new)
            (IsOldOrRaised (S.may_leave (store_of self.old)) (max (next_of self.old) clock + 1048576)) }

        // What a read gives is the format's,
        ensures bytes { IfOk result (λ s.
            S.seen (store_of self.new) ≡ option_map (stamped s) (S.seen (store_of self.old))) }

        // and where a crash would leave a ceiling above the stamp already, the store is not called.
        ensures untouched { IfOk result (λ s. (c : List ℕ)
            → S.may_leave (store_of self.old) c → s < ceiling_of c → store_of self.new ≡ store_of self.old) }

        ensures closed { result ≡ Err StampFault.Closed ↔ is_closed self.old ≡ true }
        ensures full { result ≡ Err StampFault.Full
            ↔ (is_closed self.old ≡ false) × (2 ^ 62 ≤ max (next_of self.old) clock + 1048576) }
        ensures failed { result ≡ Err StampFault.Failed
            → Rose (S.faults (store_of self.old)) (S.faults (store_of self.new)) }
        ensures later { S.faults (store_of self.old) ≤ S.faults (store_of self.new) }
        ensures refused { (result ≡ Err StampFault.Closed) ⊎ (result ≡ Err StampFault.Full) → self.new ≡ self.old }
        ensures closes { result ≡ Err StampFault.Failed → is_closed self.new ≡ true }
        ensures stays_open { IfOk result (λ _. is_closed self.new ≡ false) }
        ensures kept { OnErr result (next_of self.new ≡ next_of self.old) }
    {
        if self.closed {
            return Err(StampFault::Closed);
        }
        let stamp = self.next.max(clock);
        if stamp >= END - STEP {
            return Err(StampFault::Full);
        }
        match cover(&mut self.store, self.slots, stamp) {
            Ok(slots) => {
                self.slots = slots;
                self.next = stamp + 1;
                Ok(stamp)
            }
            Err(Failed) => {
                self.closed = true;
                Err(StampFault::Failed)
            }
        }
    }

    /// The store, as it is.
    pub fn into_store(self) -> S
        ensures { result ≡ store_of self }
    {
        self.store
    }
}
