ghost use Rattle.std.specs.Prelude.{◌≡◌, ◌↔◌, ◌≤◌, [], ◌∷◌, length, min, take, drop, Some, IfOk, IsErr, IsTrue, OnOk, OnErr, vec_len};
ghost use Rattle.gs_io.specs.Causes.{Rose};
ghost use Rattle.gs_net.specs.Memory.{Fronts, Lane, after_call, after_failed_receive, after_fault};
ghost use Rattle.gs_net.specs.Memory.{after_receive, got_of, is_named, new_lane};

use crate::calls::Calls;
use crate::inlets::Inlet;
use crate::items::{Got, Item};
use gs_io::Failed;
use std::marker::Model;

/// An inlet in memory. The calls whose numbers it was given, from 1, fail and give nothing, and no
/// others. It is quiet exactly at a mark, and ends exactly where no item is left.
#[derive(Debug, Drop)]
pub struct MemInlet {
    items: Vec<Item>,
    at: usize,
    calls: Calls,
    taken: bool,
}

impl Model for MemInlet {
    ghost Value = { Lane };

    ghost view = { λ inlet. record {
      tale = record { given = take inlet.at inlet.items.items; left = drop inlet.at inlet.items.items };
      calls = inlet.calls;
      taken = inlet.taken;
    } };

    ghost invariant = { λ inlet. inlet.at ≤ vec_len inlet.items };
}

impl MemInlet {
    /// An inlet with these items. `fails` are the numbers of the calls that are to fail.
    pub fn new(items: Vec<Item>, fails: Vec<u64>) -> Self
        ensures { result ≡ new_lane items.items fails.items }
    {
        MemInlet {
            items,
            at: 0,
            calls: Calls::new(fails),
            taken: false,
        }
    }

    /// Begins a call of another kind, which is numbered with the others.
    pub(crate) fn begin_call(&mut self) -> Result<(), Failed>
        ensures ok { OnOk result (self.new ≡ record self.old { calls = after_call self.old.calls }) }
        ensures err { OnErr result (self.new ≡ after_failed_receive self.old) }
        ensures named { IsErr result ↔ IsTrue (is_named self.old.calls) }
        ensures cause { OnErr result (Rose self.old.calls.faults self.new.calls.faults) }
        ensures never_falls { self.old.calls.faults ≤ self.new.calls.faults }
    {
        self.calls.begin()
    }

    /// Counts the call as one that failed.
    pub(crate) fn fail_call(&mut self)
        ensures counted { self.new ≡ record self.old { calls = after_fault self.old.calls } }
        ensures rose { Rose self.old.calls.faults self.new.calls.faults }
        ensures never_falls { self.old.calls.faults ≤ self.new.calls.faults }
    {
        self.calls.fail()
    }

    /// How many calls failed.
    pub(crate) fn faults(&self) -> u64
        ensures { result ≡ self.now.calls.faults }
    {
        self.calls.faults()
    }
}

impl Inlet for MemInlet {
    ghost faults = { λ inlet. inlet.calls.faults };

    ghost tale = { λ inlet. Some inlet.tale };

    ghost replies = { λ inlet. Some [] };

    ghost taken = { λ inlet. inlet.taken };

    fn receive(&mut self, into: &mut [u8; 64]) -> Result<Got, Failed>
        ensures gives { IfOk result (λ got. got ≡ got_of self.old.tale.left) }
        ensures front { OnOk result (Fronts self.old.tale.left into.new) }
        ensures given { OnOk result (self.new ≡ after_receive self.old) }
        ensures failed { OnErr result (self.new ≡ after_failed_receive self.old) }
        ensures named { IsErr result ↔ IsTrue (is_named self.old.calls) }
        ensures cause { OnErr result (Rose self.old.calls.faults self.new.calls.faults) }
        ensures never_falls { self.old.calls.faults ≤ self.new.calls.faults }
    {
        self.calls.begin()?;
        if self.at >= self.items.len() {
            return Ok(Got::Ended);
        }
        let got = show(&self.items[self.at], into);
        self.at += 1;
        if let Got::Datagram(_) = got {
            self.taken = true;
        }
        Ok(got)
    }
}

/// What a call gets of an item, with the front of a datagram put in front.
fn show(item: &Item, into: &mut [u8; 64]) -> Got
    ensures got { result ≡ got_of (item.now ∷ []) }
    ensures front { Fronts (item.now ∷ []) into.new }
{
    match item {
        Item::Datagram(payload) => Got::Datagram(copy_front(payload.as_slice(), into)),
        Item::Quiet => Got::Quiet,
    }
}

/// Copies the first 64 bytes.
fn copy_front(bytes: &[u8], into: &mut [u8; 64]) -> u32
    ensures count { result ≡ min 64 (length bytes.now) }
    ensures front { take result into.new ≡ take result bytes.now }
{
    let n = bytes.len().min(64);
    into[..n].copy_from_slice(&bytes[..n]);
    n as u32
}
