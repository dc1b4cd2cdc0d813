ghost use Rattle.std.specs.Prelude.{◌≡◌, ◌<◌, ◌≤◌, IfOk, All, length, map, replicate};
ghost use Rattle.gs_units.specs.Offsets.{IsOffset};
ghost use Rattle.gs_estimate.specs.Entries.{answer_of, entry_at, heard_at, offset_of};

use gs_units::END;
use std::alloc::{AllocError, Global};
use std::marker::Model;

/// What a node keeps of the newest beacon of one neighbour.
#[derive(Clone, Copy, Debug, PartialEq, Eq)]
pub struct Entry {
    /// The sequence of that beacon, or 0 before the first.
    pub seq: u64,
    /// The neighbour's clock as the beacon told it, raised for its way, in clock units.
    pub value: u64,
    /// The node's own hardware reading when the beacon came.
    pub at: u64,
}

/// How a beacon was taken.
#[derive(Clone, Copy, Debug, PartialEq, Eq)]
pub enum Heard {
    /// It is newer than all that were heard from its sender.
    Fresh,
    /// One at least as new was heard before.
    Old,
}

/// One entry for each neighbour of a node. Contracts see the list of them.
#[derive(Debug, Drop)]
pub struct Slots {
    entries: Vec<Entry>,
}

impl Model for Slots {
    ghost use Rattle.std.specs.Prelude.{List};
    ghost use Rattle.gs_estimate.specs.declared.slots.Entry.{Entry};

    ghost Value = { List Entry };

    ghost view = { λ a. a.entries.items };
}

impl Slots {
    /// The entries of a node that starts with the clock `l0` at the reading `hw`: each neighbour is
    /// taken to start with the same clock.
    pub fn new(alloc: Global, count: u32, l0: u64, hw: u64) -> Result<Slots, AllocError>
        ensures { IfOk result (λ slots. slots ≡ replicate count (record { seq = 0; value = l0; at = hw })) }
    {
        let start = Entry {
            seq: 0,
            value: l0,
            at: hw,
        };
        Ok(Slots {
            entries: vec![in alloc; start; count as usize]?,
        })
    }

    /// The entries in order.
    pub fn as_slice(&self) -> &[Entry]
        ensures { result.now ≡ self.now }
    {
        self.entries.as_slice()
    }

    /// The entry of the neighbour at place `i`.
    pub fn entry(&self, i: u32) -> &Entry
        requires { i < length self.now }
        ensures { result.now ≡ entry_at self.now i }
    {
        &self.entries[i as usize]
    }

    /// Takes a beacon of the neighbour at place `i`, which came at the reading `now` and tells the
    /// clock `value`. An older beacon changes nothing. See `docs/MODEL.md`, rule 8.
    pub fn hear(&mut self, i: u32, seq: u64, value: u64, now: u64) -> Heard
        requires { i < length self.old }
        ensures answer { result ≡ answer_of (entry_at self.old i) seq }
        ensures entries { self.new ≡ heard_at self.old i (record { seq = seq; value = value; at = now }) }
    {
        let entry = &mut self.entries[i as usize];
        if seq <= entry.seq {
            return Heard::Old;
        }
        *entry = Entry {
            seq,
            value,
            at: now,
        };
        Heard::Fresh
    }

    /// How far the estimate of the neighbour at place `i` is ahead of the clock `l`, at the reading
    /// `now`, in clock units. See `docs/MODEL.md`, rule 2.
    pub fn offset(&self, i: u32, now: u64, l: u64) -> i128
        requires place { i < length self.now }
        requires heard { (entry_at self.now i).at ≤ now }
        ensures { result ≡ offset_of l now (entry_at self.now i) }
    {
        offset(&self.entries[i as usize], now, l)
    }

    /// Writes the offsets of all neighbours, each at its place. Where readings and values are below
    /// `END`, no offset is 2^64 or more from 0.
    pub fn write_offsets(&self, now: u64, l: u64, out: &mut [i128])
        requires length { length out.old ≡ length self.now }
        requires heard { All (λ e. e.at ≤ now) self.now }
        requires values { All (λ e. e.value < END) self.now }
        requires now { now < END }
        ensures offsets { out.new ≡ map (offset_of l now) self.now }
        ensures within { All IsOffset out.new }
    {
        for (i, entry) in self.entries.iter().enumerate() {
            out[i] = offset(entry, now, l);
        }
    }

    /// Takes over the entries of other slots, as many as these are.
    pub fn copy_from(&mut self, other: &Slots)
        requires { length self.old ≡ length other.now }
        ensures { self.new ≡ other.now }
    {
        self.entries.copy_from_slice(&other.entries);
    }
}

/// How far an entry's estimate is ahead of the clock `l`, at the reading `now`.
fn offset(entry: &Entry, now: u64, l: u64) -> i128
    requires { entry.now.at ≤ now }
    ensures { result ≡ offset_of l now entry.now }
{
    i128::from(entry.value) + i128::from(now - entry.at) - i128::from(l)
}
