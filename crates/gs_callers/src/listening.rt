ghost use Rattle.std.specs.Prelude.{◌≡◌, ◌<◌, ◌≤◌, ◌^◌, [], Some, true};
ghost use Rattle.gs_units.specs.Params.{AreValid};
ghost use Rattle.gs_net.specs.Tales.{IsFresh, whole};
ghost use Rattle.gs_callers.specs.Seats.{Drops, SeatAgrees, SeatTaken};
ghost use Rattle.gs_callers.specs.Stops.{is_final};
ghost use Rattle.gs_callers.specs.inside.Reasons.{Stops};

use crate::receiver::{Receiver, Stop};
use gs_board::{Seat, Shared};
use gs_clock::Clock;
use gs_crew::Task;
use gs_net::{Inlet, Item};
use gs_units::NodeParams;
use std::collections::LinkedList;
use std::sync::Wait;

/// What a receiver is known by when it comes back: its node's parameters, its neighbour, and the items of
/// its inlet, given and left together. No value of it is made.
#[derive(Drop)]
pub struct ReceiverName {
    pub params: NodeParams,
    pub neighbour: u32,
    pub items: Option<LinkedList<Item>>,
}

/// A receiver as a task, with the reason why it stopped.
#[derive(Drop)]
pub struct Listening<'a, R: Wait, C: Clock, I: Inlet> {
    pub(crate) receiver: Receiver<'a, R, C, I>,
    pub(crate) stop: Stop,
    ghost stops: { Stops stop (I.tale receiver.inlet) receiver.left_out (I.faults receiver.inlet) },
}

/// What a receiver leaves behind.
#[derive(Drop)]
pub struct Left<C: Clock, I: Inlet> {
    pub seat: Seat<C>,
    pub inlet: I,
    /// How many datagrams were dropped.
    pub dropped: u64,
    pub stop: Stop,
}

impl<'a, R: Wait, C: Clock, I: Inlet> Listening<'a, R, C, I> {
    /// A receiver that has taken nothing yet, with the seat of its neighbour.
    #[tactic(auto, using(crate::proofs::Taking::stops_open, crate::proofs::Taking::new_accounts))]
    pub fn new(
        rt: &'a R,
        board: &'a Shared<C>,
        params: &'a NodeParams,
        neighbour: u32,
        seat: Seat<C>,
        inlet: I,
    ) -> Self
        requires valid { AreValid params.now }
        requires seat { (seat.told ≡ []) × (seat.whose ≡ Some neighbour) }
        requires fresh { IsFresh (I.tale inlet) }
        ensures params { result.receiver.params.now ≡ params.now }
        ensures neighbour { result.receiver.neighbour ≡ neighbour }
        ensures inlet { result.receiver.inlet ≡ inlet }
    {
        let receiver = Receiver {
            rt,
            board,
            params,
            neighbour,
            seat,
            inlet,
            left_out: None,
            dropped: 0,
            since: 0,
        };
        Listening {
            receiver,
            stop: Stop::Open,
        }
    }

    /// Takes the receiver apart.
    pub fn leave(self) -> Left<C, I>
        ensures agree { SeatAgrees self.entry.receiver.params.now result.seat (I.tale result.inlet) }
        ensures whose { result.seat.whose ≡ Some self.entry.receiver.neighbour }
        ensures items { whole (I.tale result.inlet) ≡ whole (I.tale self.entry.receiver.inlet) }
        ensures taken { is_final result.stop ≡ true
            → SeatTaken self.entry.receiver.params.now result.seat (I.tale result.inlet) }
        ensures fault { result.stop ≡ Stop.Fault → 0 < I.faults result.inlet }
        ensures dropped { Drops self.entry.receiver.params.now result.seat.whose (I.tale result.inlet) result.dropped }
        ensures few { result.dropped ≤ 2 ^ 48 }
    {
        let Listening { receiver, stop } = self;
        let Receiver {
            rt: _,
            board: _,
            params: _,
            neighbour: _,
            seat,
            inlet,
            left_out: _,
            dropped,
            since: _,
        } = receiver;
        Left {
            seat,
            inlet,
            dropped,
            stop,
        }
    }
}

impl<'a, R: Wait + Sync, C: Clock + Send, I: Inlet + Send> Task for Listening<'a, R, C, I> {
    type Name = ReceiverName;

    ghost name = { λ listening. record {
      params = listening.receiver.params.now;
      neighbour = listening.receiver.neighbour;
      items = whole (I.tale listening.receiver.inlet);
    } };

    fn run(&mut self) {
        for _ in self.receiver.rt.forever() {
            self.stop = self.receiver.turn();
            if self.stop != Stop::Open {
                return;
            }
        }
    }
}
