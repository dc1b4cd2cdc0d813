ghost use Rattle.std.specs.Prelude.{◌≡◌, ◌<◌, ◌≤◌, ◌+◌, ◌^◌, ◌⊎◌, [], map, vec_len, Some, true, false, All};
ghost use Rattle.std.specs.Vec.{vec_capacity};
ghost use Rattle.std.specs.List.{AllZip, sum_by};
ghost use Rattle.gs_net.specs.Tales.{whole, wholes};
ghost use Rattle.gs_callers.specs.Seats.{Drops, SeatAgrees, SeatTaken};
ghost use Rattle.gs_callers.specs.Stops.{is_final};
ghost use Rattle.gs_node.specs.Handing.{IsDropped};
ghost use Rattle.gs_node.specs.inside.Begun.{of_task};

use crate::starts::Begun;
use gs_board::{ReserveStop, Seat};
use gs_callers::{Left, Listening, Refusal, Stop};
use gs_clock::Clock;
use gs_crew::Refused;
use gs_net::Inlet;
use gs_units::NodeParams;
use std::sync::Wait;
use std::thread::Threads;

/// What the receivers met.
#[derive(Clone, Copy, Debug, PartialEq, Eq)]
pub(crate) struct Met {
    /// An inlet failed.
    pub fault: bool,
    /// A reserve found the journal full.
    pub filled: bool,
    /// One stopped for a reason that a run which was done does not have.
    pub short: bool,
    /// How many datagrams were dropped.
    pub dropped: u64,
}

impl Met {
    /// With one receiver more.
    fn with(self, stop: Stop, dropped: u64) -> Met
        requires room { self.dropped + dropped < 2 ^ 64 }
        ensures dropped { result.dropped ≡ self.dropped + dropped }
        ensures fault { result.fault ≡ true → (self.fault ≡ true) ⊎ (stop ≡ Stop.Fault) }
        ensures short { result.short ≡ false → (self.short ≡ false) × (is_final stop ≡ true) }
    {
        Met {
            fault: self.fault || stop == Stop::Fault,
            filled: self.filled || stop == Stop::Refused(Refusal::Reserve(ReserveStop::Filled)),
            short: self.short || !is_final(stop),
            dropped: self.dropped + dropped,
        }
    }
}

/// Waits for all receivers, in order, and takes them apart.
pub(crate) fn join_all<'s, 'e, R: Threads + Wait + Sync, C: Clock + Send, I: Inlet + Send>(
    rt: &R,
    params: &NodeParams,
    begun: Vec<Begun<'s, Listening<'e, R, C, I>>>,
    seats: &mut Vec<Seat<C>>,
    inlets: &mut Vec<I>,
) -> Met
    requires named { All (λ b. of_task (λ t. t.receiver.params.now) b ≡ params.now) begun.items }
    requires seats { (seats.old.items ≡ []) × (vec_len begun ≤ vec_capacity seats.old) }
    requires inlets { (inlets.old.items ≡ []) × (vec_len begun ≤ vec_capacity inlets.old) }
    requires few { vec_len begun ≤ 511 }
    ensures agree { AllZip (SeatAgrees params.now) seats.new.items (map I.tale inlets.new.items) }
    ensures whose { map (λ s. s.whose) seats.new.items
        ≡ map (λ b. Some (of_task (λ t. t.receiver.neighbour) b)) begun.entry.items }
    ensures items { wholes I.tale inlets.new.items
        ≡ map (of_task (λ t. whole (I.tale t.receiver.inlet))) begun.entry.items }
    ensures taken { result.short ≡ false
        → AllZip (SeatTaken params.now) seats.new.items (map I.tale inlets.new.items) }
    ensures fault { result.fault ≡ true → 0 < sum_by I.faults inlets.new.items }
    ensures dropped { IsDropped params.now
        (map (λ s. s.whose) seats.new.items) (map I.tale inlets.new.items) result.dropped }
{
    let mut met = Met {
        fault: false,
        filled: false,
        short: false,
        dropped: 0,
    };
    for one in begun {
        let Left {
            seat,
            inlet,
            dropped,
            stop,
        } = join_one(rt, params, one);
        met = met.with(stop, dropped);
        seats.push_reserved(seat);
        inlets.push_reserved(inlet);
    }
    met
}

/// Waits for a receiver, if it was started, and takes it apart.
fn join_one<'s, 'e, R: Threads + Wait + Sync, C: Clock + Send, I: Inlet + Send>(
    rt: &R,
    params: &NodeParams,
    one: Begun<'s, Listening<'e, R, C, I>>,
) -> Left<C, I>
    requires named { of_task (λ t. t.receiver.params.now) one ≡ params.now }
    ensures agree { SeatAgrees params.now result.seat (I.tale result.inlet) }
    ensures whose { result.seat.whose ≡ Some (of_task (λ t. t.receiver.neighbour) one.entry) }
    ensures items { whole (I.tale result.inlet) ≡ of_task (λ t. whole (I.tale t.receiver.inlet)) one.entry }
    ensures taken { is_final result.stop ≡ true → SeatTaken params.now result.seat (I.tale result.inlet) }
    ensures fault { result.stop ≡ Stop.Fault → 0 < I.faults result.inlet }
    ensures dropped { Drops params.now result.seat.whose (I.tale result.inlet) result.dropped }
    ensures few { result.dropped ≤ 2 ^ 48 }
{
    let _params = params;
    wait_for(rt, one).leave()
}

/// Waits for a receiver, if it was started.
fn wait_for<'s, 'e, R: Threads + Wait + Sync, C: Clock + Send, I: Inlet + Send>(
    rt: &R,
    one: Begun<'s, Listening<'e, R, C, I>>,
) -> Listening<'e, R, C, I>
    ensures params { result.receiver.params.now ≡ of_task (λ t. t.receiver.params.now) one.entry }
    ensures neighbour { result.receiver.neighbour ≡ of_task (λ t. t.receiver.neighbour) one.entry }
    ensures items { whole (I.tale result.receiver.inlet) ≡ of_task (λ t. whole (I.tale t.receiver.inlet)) one.entry }
{
    match one {
        Ok(running) => running.join(rt),
        Err(refused) => {
            let Refused { task } = refused;
            task
        }
    }
}

/// Whether a run that was done may have this stop.
fn is_final(stop: Stop) -> bool
    ensures { result ≡ is_final stop }
{
    match stop {
        Stop::Ended | Stop::Quiet | Stop::Many | Stop::Refused(_) => true,
        Stop::Open | Stop::Fault | Stop::Memory => false,
    }
}
