ghost use Rattle.std.specs.Prelude.{◌≡◌, ◌++◌, ◌+◌, ◌≤◌, ◌⊎◌, ℕ, List, length, take, drop, replicate, true, false, ◌∷◌, Some, IsErr, IsTrue, IfSome, OnOk, OnErr, option_map};
ghost use Rattle.gs_io.specs.Causes.{HasCause, counted, is_to_fail};
ghost use Rattle.gs_stamp.specs.Disk.{put};
ghost use Rattle.gs_stamp.specs.Tears.{Leaves};

use crate::Store;
use gs_io::Failed;
use std::alloc::Global;
use std::collections::LinkedList;

/// A store in memory at one moment: its bytes, and which of them a crash may change.
#[derive(Clone, Copy)]
pub struct State {
    bytes: [u8; 18],
    torn: [bool; 18],
    ghost whole: { length bytes ≡ 18 },
    ghost each: { length torn ≡ 18 },
}

/// The state after a piece was put at a place.
fn written(state: State, at: usize, piece: &[u8]) -> State
    requires { at + length piece.now ≤ 18 }
    ensures bytes { result.bytes ≡ put at piece.now state.bytes }
    ensures torn { result.torn ≡ take at state.torn ++ replicate (length piece.now) true ++ drop (at + length piece.now) state.torn }
{
    let mut bytes = state.bytes;
    let mut torn = state.torn;
    bytes[at..at + piece.len()].copy_from_slice(piece);
    torn[at..at + piece.len()].fill(true);
    State { bytes, torn }
}

/// The state after a sync.
fn synced(state: State) -> State
    ensures bytes { result.bytes ≡ state.bytes }
    ensures torn { result.torn ≡ replicate 18 false }
{
    let bytes = state.bytes;
    State {
        bytes,
        torn: [false; 18],
    }
}

/// A store in memory, which keeps each state that it had, the newest first. The calls whose numbers
/// it was given, from 1, fail and change nothing, and so does a call that finds no memory for the
/// state before it.
#[derive(Drop)]
pub struct MemStore {
    state: State,
    past: LinkedList<State>,
    fails: Vec<u64>,
    calls: u64,
    faults: u64,
}

impl MemStore {
    /// A store with these bytes, all of them on the disk. `fails` are the numbers of the calls that
    /// are to fail.
    pub fn new(alloc: Global, bytes: [u8; 18], fails: Vec<u64>) -> Self
        ensures seen { ⟦<MemStore as Store>⟧.seen result ≡ Some bytes }
        ensures durable { (c : List ℕ) → ⟦<MemStore as Store>⟧.may_leave result c → c ≡ bytes }
        ensures faults { ⟦<MemStore as Store>⟧.faults result ≡ 0 }
    {
        MemStore {
            state: State {
                bytes,
                torn: [false; 18],
            },
            past: LinkedList::new(alloc),
            fails,
            calls: 0,
            faults: 0,
        }
    }

    /// What a read gives.
    pub fn bytes(&self) -> &[u8; 18]
        ensures { ⟦<MemStore as Store>⟧.seen self.now ≡ Some (result.now) }
    {
        &self.state.bytes
    }

    /// What a crash leaves that puts this byte into each range that was written since the last sync:
    /// a new store, with no call made and none to fail.
    pub fn crash(self, fill: u8) -> MemStore
        ensures left { IfSome (⟦<MemStore as Store>⟧.seen result) (⟦<MemStore as Store>⟧.may_leave self) }
        ensures durable { (c : List ℕ) → ⟦<MemStore as Store>⟧.may_leave result c → ⟦<MemStore as Store>⟧.seen result ≡ Some c }
        ensures faults { ⟦<MemStore as Store>⟧.faults result ≡ 0 }
    {
        let mut past = self.past;
        past.clear();
        let mut fails = self.fails;
        fails.clear();
        MemStore {
            state: crashed(self.state, fill),
            past,
            fails,
            calls: 0,
            faults: 0,
        }
    }

    /// Counts a call, and tells whether it is to fail.
    fn is_to_fail(&mut self) -> bool
        ensures named { result ≡ is_to_fail self.old.fails.items (counted self.old.calls) }
        ensures calls { self.new.calls ≡ counted self.old.calls }
        ensures fails { self.new.fails ≡ self.old.fails }
        ensures state { self.new.state ≡ self.old.state }
        ensures past { self.new.past ≡ self.old.past }
        ensures faults { self.new.faults ≡ self.old.faults }
    {
        self.calls = self.calls.saturating_add(1);
        self.fails.contains(&self.calls)
    }

    /// Counts a failure.
    fn fail(&mut self) -> Result<(), Failed>
        ensures state { self.new.state ≡ self.old.state }
        ensures past { self.new.past ≡ self.old.past }
        ensures cause { HasCause self.old.faults self.new.faults result }
        ensures failed { IsErr result }
    {
        self.faults = self.faults.saturating_add(1);
        Err(Failed)
    }

    /// Goes on to this state, unless the call is to fail.
    fn goes_on(&mut self, next: State) -> Result<(), Failed>
        ensures named { IsTrue (is_to_fail self.old.fails.items (counted self.old.calls)) → IsErr result }
        ensures ok { OnOk result (self.new.state ≡ next) }
        ensures past { OnOk result (self.new.past ≡ self.old.state ∷ self.old.past) }
        ensures err { OnErr result (self.new.state ≡ self.old.state) }
        ensures either { (self.new.state ≡ next) ⊎ (self.new.state ≡ self.old.state) }
        ensures past_err { OnErr result (self.new.past ≡ self.old.past) }
        ensures cause { HasCause self.old.faults self.new.faults result }
    {
        if self.is_to_fail() || self.past.push_front(self.state).is_err() {
            return self.fail();
        }
        self.state = next;
        Ok(())
    }
}

/// What a crash leaves of a state that puts this byte wherever it may.
fn crashed(state: State, fill: u8) -> State
    ensures left { Leaves state.torn state.bytes result.bytes }
    ensures torn { result.torn ≡ replicate 18 false }
{
    let mut bytes = state.bytes;
    for (place, torn) in state.torn.iter().enumerate() {
        if *torn {
            bytes[place] = fill;
        }
    }
    State {
        bytes,
        torn: [false; 18],
    }
}

impl Store for MemStore {
    ghost use Rattle.gs_stamp.specs.Disk.{Elapses, Follows, Torn};
    ghost use Rattle.gs_stamp.specs.Kept.{LeavesOf, LeftSince, counts_now, left_size, only_now, seen_may_stay};
    ghost use Rattle.gs_stamp.specs.Stores.{is_next_to_fail, state_of};

    ghost seen = { λ store. Some store.state.bytes };

    ghost may_leave = { λ store c. LeavesOf store.state c };

    ghost moment = { λ store. length store.past };

    ghost left_since = { λ store t c. LeftSince store.state store.past t c };

    ghost faults = { λ store. store.faults };

    fn read(&mut self, into: &mut [u8; 18]) -> Result<(), Failed>
        ensures bytes { OnOk result (IfSome (⟦<MemStore as Store>⟧.seen self.old) (λ bytes. into.new ≡ bytes)) }
        ensures seen { OnOk result (⟦<MemStore as Store>⟧.seen self.new ≡ ⟦<MemStore as Store>⟧.seen self.old) }
        ensures crash { (c : List ℕ) → ⟦<MemStore as Store>⟧.may_leave self.new c → ⟦<MemStore as Store>⟧.may_leave self.old c }
        ensures time { Elapses (⟦<MemStore as Store>⟧.moment self.old) (⟦<MemStore as Store>⟧.moment self.new)
            (⟦<MemStore as Store>⟧.left_since self.old) (⟦<MemStore as Store>⟧.left_since self.new) (⟦<MemStore as Store>⟧.may_leave self.new) }
        ensures cause { HasCause (⟦<MemStore as Store>⟧.faults self.old) (⟦<MemStore as Store>⟧.faults self.new) result }
        ensures named { IsTrue (is_next_to_fail self.old) → IsErr result }
        ensures same { OnErr result (state_of self.new ≡ state_of self.old) }
    {
        if self.is_to_fail() {
            return self.fail();
        }
        *into = self.state.bytes;
        Ok(())
    }

    fn write(&mut self, at: u32, piece: &[u8]) -> Result<(), Failed>
        requires { at + length piece.now ≤ 18 }
        ensures written { OnOk result (⟦<MemStore as Store>⟧.seen self.new ≡ option_map (put at piece.now) (⟦<MemStore as Store>⟧.seen self.old)) }
        ensures crash { Follows (Torn at (length piece.now)) (⟦<MemStore as Store>⟧.may_leave self.old) (⟦<MemStore as Store>⟧.may_leave self.new) }
        ensures time { Elapses (⟦<MemStore as Store>⟧.moment self.old) (⟦<MemStore as Store>⟧.moment self.new)
            (⟦<MemStore as Store>⟧.left_since self.old) (⟦<MemStore as Store>⟧.left_since self.new) (⟦<MemStore as Store>⟧.may_leave self.new) }
        ensures cause { HasCause (⟦<MemStore as Store>⟧.faults self.old) (⟦<MemStore as Store>⟧.faults self.new) result }
        ensures named { IsTrue (is_next_to_fail self.old) → IsErr result }
        ensures same { OnErr result (state_of self.new ≡ state_of self.old) }
    {
        self.goes_on(written(self.state, at as usize, piece))
    }

    fn sync(&mut self) -> Result<(), Failed>
        ensures durable { OnOk result ((c : List ℕ) → ⟦<MemStore as Store>⟧.may_leave self.new c → ⟦<MemStore as Store>⟧.seen self.old ≡ Some c) }
        ensures seen { OnOk result (⟦<MemStore as Store>⟧.seen self.new ≡ ⟦<MemStore as Store>⟧.seen self.old) }
        ensures crash { (c : List ℕ) → ⟦<MemStore as Store>⟧.may_leave self.new c → ⟦<MemStore as Store>⟧.may_leave self.old c }
        ensures time { Elapses (⟦<MemStore as Store>⟧.moment self.old) (⟦<MemStore as Store>⟧.moment self.new)
            (⟦<MemStore as Store>⟧.left_since self.old) (⟦<MemStore as Store>⟧.left_since self.new) (⟦<MemStore as Store>⟧.may_leave self.new) }
        ensures cause { HasCause (⟦<MemStore as Store>⟧.faults self.old) (⟦<MemStore as Store>⟧.faults self.new) result }
        ensures named { IsTrue (is_next_to_fail self.old) → IsErr result }
        ensures same { OnErr result (state_of self.new ≡ state_of self.old) }
    {
        self.goes_on(synced(self.state))
    }

    ghost size = { λ store c left. left_size store.state c left };

    ghost seen_may_stay = { λ store c is. seen_may_stay store.state c is };

    ghost counts_now = { λ store t c late left. counts_now store.state store.past t c left };

    ghost only_now = { λ store c left. only_now store.state store.past c left };
}
