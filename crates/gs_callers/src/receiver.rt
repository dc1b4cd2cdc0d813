ghost use Rattle.std.specs.Prelude.{◌≡◌, ◌<◌, ◌≤◌, ◌+◌, ◌++◌, ◌∷◌, [], Some, true, is_some, IfSome, IsSome, OnOk, OnErr};
ghost use Rattle.gs_units.specs.Params.{AreValid};
ghost use Rattle.gs_beacon.specs.Beacons.{IsBeacon};
ghost use Rattle.gs_net.specs.Tales.{whole};
ghost use Rattle.gs_callers.specs.declared.receiver.TheConstants.{MOST_DROPPED};
ghost use Rattle.gs_callers.specs.Items.{one_if_none};
ghost use Rattle.gs_callers.specs.Seats.{as_list, beacons_of};
ghost use Rattle.gs_callers.specs.inside.Accounts.{Accounts};
ghost use Rattle.gs_callers.specs.inside.Reasons.{IsAfter, IsSettled, Stops};

use crate::rooms::{has_room, is_open, make_spare};
use crate::wanting::wanted_beacon;
use gs_beacon::Beacon;
use gs_board::{BoardFault, ReserveStop, Seat, Shared};
use gs_clock::Clock;
use gs_net::{Got, Inlet};
use gs_units::NodeParams;
use std::sync::Wait;

/// How many datagrams a receiver drops at most. No run is long enough for so many.
pub const MOST_DROPPED: u64 = 1 << 48;

/// After how many datagrams a receiver looks whether the board is closed.
const ROUND: u32 = 64;

/// What refused an event.
#[derive(Clone, Copy, Debug, PartialEq, Eq)]
pub enum Refusal {
    /// The board did.
    Board(BoardFault),
    /// Its journal was given no more room.
    Reserve(ReserveStop),
}

impl From<BoardFault> for Refusal {
    ghost use Rattle.std.specs.Prelude.{◌≡◌};
    ghost use Rattle.gs_callers.specs.declared.receiver.Refusal.{Refusal};

    ghost from_gives = { λ fault refusal. refusal ≡ Refusal.Board fault };

    fn from(fault: BoardFault) -> Refusal {
        Refusal::Board(fault)
    }
}

impl From<ReserveStop> for Refusal {
    ghost use Rattle.std.specs.Prelude.{◌≡◌};
    ghost use Rattle.gs_callers.specs.declared.receiver.Refusal.{Refusal};

    ghost from_gives = { λ stop refusal. refusal ≡ Refusal.Reserve stop };

    fn from(stop: ReserveStop) -> Refusal {
        Refusal::Reserve(stop)
    }
}

/// Why a receiver stopped.
#[derive(Clone, Copy, Debug, PartialEq, Eq)]
pub enum Stop {
    /// It has not stopped.
    Open,
    /// The inlet had ended.
    Ended,
    /// The board was closed, and the last item was a quiet mark.
    Quiet,
    /// The board was closed, and 64 datagrams had come.
    Many,
    /// A board or reserve call refused the last beacon, which is left out.
    Refused(Refusal),
    /// The inlet failed.
    Fault,
    /// The seat could not grow, or too many datagrams were dropped.
    Memory,
}

/// Takes the datagrams of one inlet and delivers their beacons.
#[derive(Drop)]
pub struct Receiver<'a, R: Wait, C: Clock, I: Inlet> {
    pub(crate) rt: &'a R,
    pub(crate) board: &'a Shared<C>,
    pub(crate) params: &'a NodeParams,
    pub(crate) neighbour: u32,
    pub(crate) seat: Seat<C>,
    pub(crate) inlet: I,
    /// The beacon of the last item, where a call refused it.
    pub(crate) left_out: Option<Beacon>,
    pub(crate) dropped: u64,
    /// How many datagrams came since the last look at the board.
    pub(crate) since: u32,
    ghost whose: { seat.whose ≡ Some neighbour },
    ghost accounts: { Accounts params.now neighbour (I.tale inlet) seat.told left_out dropped since },
    ghost valid: { AreValid params.now },
    ghost few: { dropped ≤ MOST_DROPPED },
    ghost round: { since < 64 },
}

/// What becomes of a datagram.
#[derive(Clone, Copy)]
struct Settled {
    left_out: Option<Beacon>,
    dropped: u64,
    stop: Stop,
}

impl<'a, R: Wait, C: Clock, I: Inlet> Receiver<'a, R, C, I> {
    /// Takes an item, and says why to stop, if it is to.
    #[tactic(auto, using(crate::proofs::Taking::stops_open, crate::proofs::Taking::stops_memory, crate::proofs::Taking::stops_quiet, crate::proofs::Taking::stops_ended, crate::proofs::Taking::stops_fault))]
    pub(crate) fn turn(&mut self) -> Stop
        ensures items { whole (I.tale self.new.inlet) ≡ whole (I.tale self.old.inlet) }
        ensures params { self.new.params.now ≡ self.old.params.now }
        ensures neighbour { self.new.neighbour ≡ self.old.neighbour }
        ensures stops { Stops result (I.tale self.new.inlet) self.new.left_out (I.faults self.new.inlet) }
    {
        if self.left_out.is_some() || self.dropped >= MOST_DROPPED {
            return Stop::Memory;
        }
        if !has_room(&mut self.seat) {
            return Stop::Memory;
        }
        let mut into = [0; 64];
        match self.inlet.receive(&mut into) {
            Ok(Got::Datagram(n)) => {
                let beacon = wanted_beacon(self.params, self.neighbour, &into[..n as usize]);
                let settled = settle(self.rt, self.board, &mut self.seat, beacon);
                let since = self.since + 1;
                self.left_out = settled.left_out;
                self.dropped += settled.dropped;
                self.since = since % ROUND;
                stop_after(self.rt, self.board, settled.stop, since)
            }
            Ok(Got::Quiet) => {
                if is_open(self.rt, self.board) {
                    Stop::Open
                } else {
                    Stop::Quiet
                }
            }
            Ok(Got::Ended) => Stop::Ended,
            Err(_) => Stop::Fault,
        }
    }
}

/// Delivers the beacon of a datagram that is wanted, and drops one that is not.
fn settle<R: Wait, C: Clock>(
    rt: &R,
    board: &Shared<C>,
    seat: &mut Seat<C>,
    beacon: Option<Beacon>,
) -> Settled
    requires room { 0 < seat.old.room }
    requires neighbour { IsSome seat.old.whose }
    requires valid { IfSome beacon IsBeacon }
    ensures beacons { beacons_of seat.new.told ++ as_list result.left_out ≡ beacons_of seat.old.told ++ as_list beacon }
    ensures dropped { result.dropped ≡ one_if_none beacon }
    ensures only { is_some result.left_out ≡ true → is_some beacon ≡ true }
    ensures stop { IsSettled result.left_out result.stop }
    ensures whose { seat.new.whose ≡ seat.old.whose }
{
    let Some(beacon) = beacon else {
        return Settled {
            left_out: None,
            dropped: 1,
            stop: Stop::Open,
        };
    };
    match deliver(rt, board, seat, &beacon) {
        Ok(()) => Settled {
            left_out: None,
            dropped: 0,
            stop: Stop::Open,
        },
        Err(refusal) => Settled {
            left_out: Some(beacon),
            dropped: 0,
            stop: Stop::Refused(refusal),
        },
    }
}

/// Delivers a beacon under the lock, with room made for it.
fn deliver<R: Wait, C: Clock>(
    rt: &R,
    board: &Shared<C>,
    seat: &mut Seat<C>,
    beacon: &Beacon,
) -> Result<(), Refusal>
    requires room { 0 < seat.old.room }
    requires neighbour { IsSome seat.old.whose }
    requires valid { IsBeacon beacon.now }
    ensures delivered { OnOk result (beacons_of seat.new.told ≡ beacons_of seat.old.told ++ beacon.now ∷ []) }
    ensures refused { OnErr result (seat.new.told ≡ seat.old.told) }
    ensures whose { seat.new.whose ≡ seat.old.whose }
{
    let mut board = board.lock(rt);
    make_spare(&mut board)?;
    board.deliver(seat, beacon)?;
    Ok(())
}

/// Whether to stop after `since` datagrams, counted from the last look at the board.
fn stop_after<R: Wait, C: Clock>(rt: &R, board: &Shared<C>, stop: Stop, since: u32) -> Stop
    ensures { IsAfter stop since result }
{
    if stop == Stop::Open && since >= ROUND && !is_open(rt, board) {
        return Stop::Many;
    }
    stop
}
