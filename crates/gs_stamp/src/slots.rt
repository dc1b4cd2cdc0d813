ghost use Rattle.std.specs.Prelude.{◌≡◌, ◌+◌, ◌<◌, ◌≤◌, ◌^◌, ◌⊎◌, ℕ, List, [], ◌∷◌, length, None, Some, IsTrue, IsSome, ◌↔◌, IfOk, OnOk, option_map};
ghost use Rattle.gs_io.specs.Causes.{HasCause};
ghost use Rattle.byteorder.specs.Endian.{big_bytes};
ghost use Rattle.gs_stamp.specs.Disk.{LeavesOnly, Torn, put};
ghost use Rattle.gs_stamp.specs.Format.{With, IsOldOrRaised, ceiling_in, ceiling_of, open_ceiling, other, place_of, raised, spare_slot, stamped};
ghost use Rattle.gs_stamp.specs.Slots.{Has, in_slot, top_of};

use crate::Store;
use byteorder::{BigEndian, ByteOrder};
use gs_io::Failed;

/// How far above a stamp the ceiling is raised.
pub const STEP: u64 = 1_048_576;

/// One of the two parts of a store.
#[derive(Clone, Copy, Debug, PartialEq, Eq)]
pub enum Slot {
    First,
    Second,
}

impl Slot {
    /// Where it begins.
    fn place(self) -> u32
        ensures { result ≡ place_of self }
    {
        match self {
            Slot::First => 0,
            Slot::Second => 9,
        }
    }
}

/// The ceilings of the slots whose gate is open.
#[derive(Clone, Copy, Debug, PartialEq, Eq)]
pub struct Slots {
    first: Option<u64>,
    second: Option<u64>,
}

impl Slots {
    /// The slots that bytes have.
    pub fn of(bytes: &[u8; 18]) -> Slots
        ensures { Has result bytes.now }
    {
        Slots {
            first: open_ceiling(&bytes[..9]),
            second: open_ceiling(&bytes[9..]),
        }
    }

    /// The greatest ceiling, 0 where no gate is open.
    pub fn ceiling(self) -> u64
        ensures { result ≡ top_of self }
    {
        self.first.unwrap_or(0).max(self.second.unwrap_or(0))
    }

    /// The slot that is not current.
    fn spare(self) -> Slot
        ensures { result ≡ spare_slot self.first self.second }
    {
        let Some(first) = self.first else {
            return Slot::First;
        };
        if first < self.second.unwrap_or(0) {
            Slot::First
        } else {
            Slot::Second
        }
    }

    fn is_open(self, slot: Slot) -> bool
        ensures { IsTrue result ↔ IsSome (in_slot slot self) }
    {
        match slot {
            Slot::First => self.first.is_some(),
            Slot::Second => self.second.is_some(),
        }
    }

    /// The slots with this ceiling in one of them.
    fn with(self, slot: Slot, ceiling: u64) -> Slots
        ensures own { in_slot slot result ≡ Some ceiling }
        ensures rest { in_slot (other slot) result ≡ in_slot (other slot) self }
    {
        match slot {
            Slot::First => Slots {
                first: Some(ceiling),
                second: self.second,
            },
            Slot::Second => Slots {
                first: self.first,
                second: Some(ceiling),
            },
        }
    }
}

/// The ceiling of a slot, where its gate is open.
fn open_ceiling(slot: &[u8]) -> Option<u64>
    requires { 9 ≤ length slot.now }
    ensures { result ≡ open_ceiling slot.now }
{
    let [gate, number @ ..] = slot else {
        return None;
    };
    if *gate == 1 {
        Some(BigEndian::read_u64(number))
    } else {
        None
    }
}

/// Writes a piece, and sees to it that it outlives a crash.
fn write_down<S: Store>(store: &mut S, at: u32, piece: &[u8]) -> Result<(), Failed>
    requires { at + length piece.now ≤ 18 }
    ensures written { OnOk result ((c : List ℕ) → S.may_leave store.new c → (d : List ℕ) × S.may_leave store.old d × (c ≡ put at piece.now d)) }
    ensures bytes { OnOk result (S.seen store.new ≡ option_map (put at piece.now) (S.seen store.old)) }
    ensures during { LeavesOnly S.moment S.left_since store.old store.new
        (λ c. (d : List ℕ) × S.may_leave store.old d × Torn at (length piece.now) d c) }
    ensures cause { HasCause (S.faults store.old) (S.faults store.new) result }
{
    store.write(at, piece)?;
    store.sync()
}

/// Closes the gate of an open slot.
fn close<S: Store>(store: &mut S, slot: Slot) -> Result<(), Failed>
    requires { (d : List ℕ) → S.may_leave store.old d → IsSome (ceiling_in slot d) }
    ensures closed { OnOk result ((c : List ℕ) → S.may_leave store.new c
        → (d : List ℕ) × S.may_leave store.old d × With slot None d c) }
    ensures bytes { OnOk result (S.seen store.new ≡ option_map (put (place_of slot) (0 ∷ [])) (S.seen store.old)) }
    ensures during { LeavesOnly S.moment S.left_since store.old store.new
        (λ c. (d : List ℕ) × S.may_leave store.old d × (With slot None d c ⊎ With slot (ceiling_in slot d) d c)) }
    ensures cause { HasCause (S.faults store.old) (S.faults store.new) result }
{
    write_down(store, slot.place(), &[0])
}

/// Writes a ceiling into a closed slot, and then opens its gate.
fn fill<S: Store>(store: &mut S, slot: Slot, ceiling: u64) -> Result<(), Failed>
    requires { (d : List ℕ) → S.may_leave store.old d → ceiling_in slot d ≡ None }
    ensures filled { OnOk result ((c : List ℕ) → S.may_leave store.new c
        → (d : List ℕ) × S.may_leave store.old d × With slot (Some ceiling) d c) }
    ensures bytes { OnOk result (S.seen store.new
        ≡ option_map (put (place_of slot) (1 ∷ big_bytes 8 ceiling)) (S.seen store.old)) }
    ensures during { LeavesOnly S.moment S.left_since store.old store.new
        (λ c. (d : List ℕ) × S.may_leave store.old d × (With slot None d c ⊎ With slot (Some ceiling) d c)) }
    ensures cause { HasCause (S.faults store.old) (S.faults store.new) result }
{
    write_down(store, slot.place() + 1, &number_bytes(ceiling))?;
    write_down(store, slot.place(), &[1])
}

/// The bytes of a ceiling, the highest first.
fn number_bytes(ceiling: u64) -> [u8; 8]
    ensures { result ≡ big_bytes 8 ceiling }
{
    let mut bytes = [0; 8];
    BigEndian::write_u64(&mut bytes, ceiling);
    bytes
}

/// Closes the gate of a slot, unless it is closed.
fn make_closed<S: Store>(store: &mut S, slots: Slots, slot: Slot) -> Result<(), Failed>
    requires { (d : List ℕ) → S.may_leave store.old d → Has slots d }
    ensures closed { OnOk result ((c : List ℕ) → S.may_leave store.new c
        → (d : List ℕ) × S.may_leave store.old d × With slot None d c) }
    ensures bytes { OnOk result ((S.seen store.new ≡ S.seen store.old)
        ⊎ (S.seen store.new ≡ option_map (put (place_of slot) (0 ∷ [])) (S.seen store.old))) }
    ensures during { LeavesOnly S.moment S.left_since store.old store.new
        (λ c. (d : List ℕ) × S.may_leave store.old d × (With slot None d c ⊎ With slot (ceiling_in slot d) d c)) }
    ensures cause { HasCause (S.faults store.old) (S.faults store.new) result }
{
    if slots.is_open(slot) {
        close(store, slot)
    } else {
        Ok(())
    }
}

/// Raises the ceiling, in the slot that is not current.
fn raise<S: Store>(store: &mut S, slots: Slots, ceiling: u64) -> Result<Slots, Failed>
    requires known { (d : List ℕ) → S.may_leave store.old d → Has slots d }
    requires higher { top_of slots ≤ ceiling }
    ensures known { IfOk result (λ new. (c : List ℕ) → S.may_leave store.new c → Has new c) }
    ensures top { IfOk result (λ new. top_of new ≡ ceiling) }
    ensures bytes { OnOk result (S.seen store.new ≡ option_map (raised ceiling) (S.seen store.old)) }
    ensures during { LeavesOnly S.moment S.left_since store.old store.new
        (IsOldOrRaised (S.may_leave store.old) ceiling) }
    ensures cause { HasCause (S.faults store.old) (S.faults store.new) result }
{
    let spare = slots.spare();
    make_closed(store, slots, spare)?;
    fill(store, spare, ceiling)?;
    Ok(slots.with(spare, ceiling))
}

/// Slots with a ceiling above this stamp: those that there are, or else those with a raised one.
pub fn cover<S: Store>(store: &mut S, slots: Slots, stamp: u64) -> Result<Slots, Failed>
    requires known { (d : List ℕ) → S.may_leave store.old d → Has slots d }
    requires room { stamp + 1048576 < 2 ^ 64 }
    ensures known { IfOk result (λ new. (c : List ℕ) → S.may_leave store.new c → Has new c) }
    ensures above { IfOk result (λ new. stamp < top_of new) }
    ensures bytes { OnOk result (S.seen store.new ≡ option_map (stamped stamp) (S.seen store.old)) }
    ensures during { LeavesOnly S.moment S.left_since store.old store.new
        (IsOldOrRaised (S.may_leave store.old) (stamp + 1048576)) }
    ensures cause { HasCause (S.faults store.old) (S.faults store.new) result }

    // Where a crash would leave a ceiling above the stamp already, the store is not called.
    ensures untouched { (c : List ℕ) → S.may_leave store.old c → stamp < ceiling_of c → store.new ≡ store.old }
{
    if stamp < slots.ceiling() {
        return Ok(slots);
    }
    raise(store, slots, stamp + STEP)
}

/// The slots of a store, of which a crash leaves nothing else from then on.
pub fn load<S: Store>(store: &mut S) -> Result<Slots, Failed>
    ensures known { IfOk result (λ slots. (c : List ℕ) → S.may_leave store.new c → Has slots c) }
    ensures told { IfOk result (λ slots. (b : List ℕ) → S.seen store.old ≡ Some b → Has slots b) }
    ensures seen { OnOk result (S.seen store.new ≡ S.seen store.old) }
    ensures during { LeavesOnly S.moment S.left_since store.old store.new (S.may_leave store.old) }
    ensures cause { HasCause (S.faults store.old) (S.faults store.new) result }
{
    store.sync()?;
    let mut bytes = [0; 18];
    store.read(&mut bytes)?;
    Ok(Slots::of(&bytes))
}
