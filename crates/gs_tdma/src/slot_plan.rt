ghost use Rattle.std.specs.Prelude.{◌≡◌, ◌≢◌, ◌+◌, ◌*◌, ◌<◌, ◌≤◌, ◌^◌, ℕ, IfErr, IfOk, IfNone, IfSome, None, OnOk, Some, length};
ghost use Rattle.gs_tdma.specs.Faults.{slot_fault};
ghost use Rattle.gs_tdma.specs.Slots.{AreSlots, IsFirst, colour_of, count_of, period_of, sends, sends_in};

use crate::colours::{colours_of, count_of};
use crate::fault::SlotFault;
use crate::near::guard;
use gs_plan::Plan;
use gs_units::END;
use std::alloc::Global;
use std::marker::Model;

/// Which node may send at which clock: a period of clock units has one slot for each colour, and a node
/// sends in the slot of its colour, off both ends by a guard.
#[derive(Drop)]
pub struct SlotPlan {
    reach: u32,
    slot: u64,
    guard: u64,
    /// The colour of each node.
    colours: Vec<u32>,
    /// The number of colours.
    count: u32,
}

impl Model for SlotPlan {
    ghost use Rattle.gs_tdma.specs.Slots.{Slots};

    ghost Value = { Slots };

    ghost use Rattle.gs_tdma.specs.inside.Kept.{AreKept};

    ghost view = { λ a. record { reach = a.reach; slot = a.slot; guard = a.guard; colours = a.colours.items } };

    ghost invariant = { λ a. AreKept a.slot a.guard a.count a.colours.items };
}

/// The slot plan of a plan in which nodes at most `reach` steps apart never send at one moment, with slots
/// of `slot` clock units: see [`slots_never_collide`]. A reach that is refused is named before a slot.
///
/// [`slots_never_collide`]: crate::slots_never_collide
pub fn slots(alloc: Global, plan: &Plan, reach: u32, slot: u64) -> Result<SlotPlan, SlotFault>
    ensures numbers { IfOk result (λ slots. (slots.reach ≡ reach) × (slots.slot ≡ slot)) }
    ensures slots { IfOk result (AreSlots plan.now) }
    ensures ok { OnOk result (slot_fault plan.now reach slot ≡ None) }
    ensures err { IfErr result (λ fault. fault ≢ SlotFault.OutOfMemory → slot_fault plan.now reach slot ≡ Some fault) }
{
    if reach < 1 || reach > 4 {
        return Err(SlotFault::Reach);
    }
    let guard = guard(plan, reach);
    if u128::from(slot) <= 2 * u128::from(guard) || slot >= 1 << 48 {
        return Err(SlotFault::Slot);
    }
    let colours = colours_of(alloc, plan.topo(), reach)?;
    let count = count_of(&colours);
    Ok(SlotPlan {
        reach,
        slot,
        guard,
        colours,
        count,
    })
}

/// Whether a clock is in the slot of a colour, and in no guard of it.
fn sends_in(period: u64, slot: u64, guard: u64, colour: u32, clock: u64) -> bool
    requires period { 0 < period }
    requires room { 2 * guard < slot }
    requires fits { (colour + 1) * slot ≤ period }
    requires short { period < 2 ^ 62 }
    ensures { result ≡ sends_in period slot guard colour clock }
{
    let at = clock % period;
    u64::from(colour) * slot + guard <= at && at + guard < (u64::from(colour) + 1) * slot
}

/// The first clock from this one on that is in the slot of a colour, and in no guard of it.
fn next_in(period: u64, slot: u64, guard: u64, colour: u32, clock: u64) -> u64
    requires room { 2 * guard < slot }
    requires fits { (colour + 1) * slot ≤ period }
    requires short { period < 2 ^ 62 }
    requires clock { clock < END }
    ensures { IsFirst (sends_in period slot guard colour) clock result }
{
    let at = clock % period;
    let opens = u64::from(colour) * slot + guard;
    if at < opens {
        clock + (opens - at)
    } else if at + guard < (u64::from(colour) + 1) * slot {
        clock
    } else {
        clock + (period - at) + opens
    }
}

impl SlotPlan {
    /// The guard at each end of a slot, in clock units.
    pub fn guard(&self) -> u64
        ensures { result ≡ self.now.guard }
    {
        self.guard
    }

    /// A slot, in clock units.
    pub fn slot(&self) -> u64
        ensures { result ≡ self.now.slot }
    {
        self.slot
    }

    /// The number of colours.
    pub fn colours(&self) -> u32
        ensures { result ≡ count_of self.now.colours }
    {
        self.count
    }

    /// The colour of node `v`.
    pub fn colour(&self, v: u32) -> u32
        requires { v < length self.now.colours }
        ensures value { result ≡ colour_of self.now v }
        ensures below { result < count_of self.now.colours }
    {
        self.colours[v as usize]
    }

    /// A slot for each colour.
    fn period(&self) -> u64
        ensures value { result ≡ period_of self.now }
        ensures short { result < 2 ^ 62 }
    {
        u64::from(self.count) * self.slot
    }

    /// Whether node `v` may send at this clock, in clock units.
    pub fn may_send(&self, v: u32, clock: u64) -> bool
        requires { v < length self.now.colours }
        ensures { result ≡ sends self.now v clock }
    {
        sends_in(self.period(), self.slot, self.guard, self.colour(v), clock)
    }

    /// The first clock from this one on at which node `v` may send, in clock units, or none where that is no
    /// clock: where it reaches `END`.
    pub fn next(&self, v: u32, clock: u64) -> Option<u64>
        requires node { v < length self.now.colours }
        requires clock { clock < END }
        ensures some { IfSome result (λ at. (at < END) × IsFirst (sends self.now v) clock at) }
        ensures none { IfNone result ((at : ℕ) × (END ≤ at) × IsFirst (sends self.now v) clock at) }
    {
        let at = next_in(self.period(), self.slot, self.guard, self.colour(v), clock);
        if at < END { Some(at) } else { None }
    }
}
