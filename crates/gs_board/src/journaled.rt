ghost use Rattle.std.specs.Prelude.{◌≡◌, ◌+◌, ◌-◌, ◌<◌, ◌≤◌, ◌++◌, ◌∷◌, [], max, length, vec_len, None, Some, IfOk, IfErr, OnOk, OnErr, IfSome};
ghost use Rattle.std.specs.Vec.{vec_capacity};
ghost use Rattle.gs_units.specs.Params.{AreValid};
ghost use Rattle.gs_beacon.specs.Beacons.{IsBeacon};
ghost use Rattle.gs_core.specs.Steps.{tick_fault, deliver_fault};
ghost use Rattle.gs_trace.specs.Starts.{FitsNode};
ghost use Rattle.gs_board.specs.Entries.{is_neighbour};
ghost use Rattle.gs_board.specs.Faults.{TakesBeacon, TakesTick, bar_of, beacon_bar, deliver_bar, is_seat_of, is_stranger, refused, tick_refusal, beacon_refusal};
ghost use Rattle.gs_board.specs.Ledger.{IsKept, clock_failed, grown, opened, shut};

use crate::MOST;
use crate::faults::{BoardFault, Halt, ReserveStop};
use crate::told::Receipt;
use gs_beacon::Beacon;
use gs_core::{Core, CoreFault, Heard, NodeEvent, Reply, Ticked};
use gs_trace::NodeStart;
use gs_units::NodeParams;
use std::alloc::{AllocError, Global};
use std::marker::Model;

/// A board without its clock: the node and the journal of what it took, with its replies.
#[derive(Drop)]
pub struct Journaled {
    core: Core,
    begun: NodeStart,
    journal: Vec<NodeEvent>,
    /// One reply for each event.
    replies: Vec<Reply>,
    spare: u64,
    closed: bool,
    halt: Option<Halt>,
    issued: Vec<Option<u32>>,
}

impl Model for Journaled {
    ghost use Rattle.gs_board.specs.Ledger.{Ledger};

    ghost Value = { Ledger };

    ghost use Rattle.gs_board.specs.inside.Seen.{HasRoom, ledger_of};

    ghost view = { ledger_of };

    ghost invariant = { HasRoom };
}

impl Journaled {
    /// A node at its start, with an empty journal.
    pub(crate) fn start(
        alloc: Global,
        params: NodeParams,
        begun: NodeStart,
    ) -> Result<Journaled, AllocError>
        requires valid { AreValid params }
        requires begun { FitsNode begun }
        ensures { IfOk result (λ t. t ≡ opened params begun) }
    {
        let core = Core::start(alloc, params, begun.hw, begun.l0)?;
        Ok(Journaled {
            core,
            begun,
            journal: Vec::new(alloc),
            replies: Vec::new(alloc),
            spare: 0,
            closed: false,
            halt: None,
            issued: Vec::new(alloc),
        })
    }

    /// What refuses any event before the clock is read.
    pub(crate) fn bar(&self) -> Option<BoardFault>
        ensures bar { result ≡ bar_of self.now }
        ensures spare { result ≡ None → 0 < self.now.spare }
    {
        if self.closed {
            return Some(BoardFault::Closed);
        }
        if self.spare == 0 {
            return Some(BoardFault::Full);
        }
        None
    }

    /// What refuses a beacon for this seat before the clock is read.
    pub(crate) fn deliver_bar(&self, whose: Option<u32>, beacon: &Beacon) -> Option<BoardFault>
        ensures bar { result ≡ deliver_bar self.now whose beacon.now }
        ensures spare { result ≡ None → 0 < self.now.spare }
    {
        self.bar().or_else(|| self.beacon_bar(whose, beacon))
    }

    /// What refuses a beacon for this seat, whatever the board is.
    fn beacon_bar(&self, whose: Option<u32>, beacon: &Beacon) -> Option<BoardFault>
        ensures { result ≡ beacon_bar self.now.core.params whose beacon.now }
    {
        let params = self.core.params();
        if beacon.cluster != params.cluster {
            return Some(BoardFault::Cluster);
        }
        if is_stranger(params, whose, beacon.sender) {
            return Some(BoardFault::Stranger);
        }
        None
    }

    /// A tick at a reading. A fault that is a halt closes the board.
    pub(crate) fn enter_tick(&mut self, now: u64) -> Result<Receipt<Ticked>, BoardFault>
        requires { 0 < self.old.spare }
        ensures ok { IfOk result (TakesTick self.old self.new now) }
        ensures beacon { IfOk result (λ r. IfSome r.reply.beacon IsBeacon) }
        ensures cause { IfErr result (λ fault. tick_refusal self.old now ≡ Some fault) }
        ensures err { IfErr result (λ fault. self.new ≡ refused self.old fault) }
        ensures kept { IsKept self.old → IsKept self.new }
        ensures halt { self.new.halt ≡ clock_failed → self.old.halt ≡ clock_failed }
    {
        match self.tick(now) {
            Ok(receipt) => Ok(receipt),
            Err(fault) => Err(self.refuse(BoardFault::from(fault))),
        }
    }

    /// A beacon at a reading. A fault that is a halt closes the board.
    pub(crate) fn enter_beacon(
        &mut self,
        beacon: &Beacon,
        now: u64,
    ) -> Result<Receipt<Heard>, BoardFault>
        requires spare { 0 < self.old.spare }
        requires valid { IsBeacon beacon.now }
        ensures ok { IfOk result (TakesBeacon self.old self.new beacon.now now) }
        ensures cause { IfErr result (λ fault. beacon_refusal self.old beacon.now now ≡ Some fault) }
        ensures err { IfErr result (λ fault. self.new ≡ refused self.old fault) }
        ensures kept { IsKept self.old → IsKept self.new }
        ensures halt { self.new.halt ≡ clock_failed → self.old.halt ≡ clock_failed }
    {
        match self.deliver(beacon, now) {
            Ok(receipt) => Ok(receipt),
            Err(fault) => Err(self.refuse(BoardFault::from(fault))),
        }
    }

    /// Takes a tick at a reading, or nothing.
    fn tick(&mut self, now: u64) -> Result<Receipt<Ticked>, CoreFault>
        requires { 0 < self.old.spare }
        ensures ok { IfOk result (TakesTick self.old self.new now) }
        ensures beacon { IfOk result (λ r. IfSome r.reply.beacon IsBeacon) }
        ensures cause { IfErr result (λ fault. tick_fault self.old.core.params self.old.core.node now ≡ Some fault) }
        ensures err { OnErr result (self.new ≡ self.old) }
    {
        let reply = self.core.tick(now)?;
        let event = NodeEvent::Tick { hw: now };
        let place = self.keep(event, Reply::Ticked(reply));
        Ok(Receipt {
            place,
            event,
            reply,
        })
    }

    /// Takes a beacon at a reading, or nothing.
    fn deliver(&mut self, beacon: &Beacon, now: u64) -> Result<Receipt<Heard>, CoreFault>
        requires spare { 0 < self.old.spare }
        requires valid { IsBeacon beacon.now }
        ensures ok { IfOk result (TakesBeacon self.old self.new beacon.now now) }
        ensures cause { IfErr result (λ fault.
            deliver_fault self.old.core.params self.old.core.node beacon.now now ≡ Some fault) }
        ensures err { OnErr result (self.new ≡ self.old) }
    {
        let reply = self.core.deliver(beacon, now)?;
        let event = NodeEvent::Deliver {
            hw: now,
            beacon: *beacon,
        };
        let place = self.keep(event, Reply::Heard(reply));
        Ok(Receipt {
            place,
            event,
            reply,
        })
    }

    /// Puts an event and its reply at the end, and gives its place.
    fn keep(&mut self, event: NodeEvent, reply: Reply) -> u64
        requires { 0 < self.old.spare }
        ensures place { result ≡ length self.old.journal }
        ensures kept { self.new ≡ record self.old {
          journal = self.old.journal ++ event ∷ [];
          replies = self.old.replies ++ reply ∷ [];
          spare = self.old.spare - 1;
        } }
    {
        let place = self.journal.len() as u64;
        self.journal.push_reserved(event);
        self.replies.push_reserved(reply);
        self.spare -= 1;
        place
    }

    /// Refuses an event: a fault that is a halt closes the board and is kept.
    pub(crate) fn refuse(&mut self, fault: BoardFault) -> BoardFault
        ensures fault { result ≡ fault }
        ensures refused { self.new ≡ refused self.old fault }
    {
        if let Some(halt) = fault.halt() {
            self.closed = true;
            self.halt = Some(halt);
        }
        fault
    }

    /// Makes the spare room at least `n`.
    pub(crate) fn reserve(&mut self, n: u64) -> Result<(), ReserveStop>
        ensures room { OnOk result (length self.old.journal + n ≤ MOST) }
        ensures ok { OnOk result (self.new ≡ record self.old { spare = max self.old.spare n }) }
        ensures err { OnErr result (self.new ≡ self.old) }
        ensures filled { IfErr result (λ stop. stop ≡ ReserveStop.Filled → MOST < length self.old.journal + n) }
        ensures short { IfErr result (λ stop. stop ≡ ReserveStop.OutOfMemory → length self.old.journal + n ≤ MOST) }
    {
        let length = self.journal.len() as u64;
        if n > MOST || length > MOST - n {
            return Err(ReserveStop::Filled);
        }
        if n > self.spare {
            self.grow(n).map_err(|_| ReserveStop::OutOfMemory)?;
        }
        Ok(())
    }

    /// Raises the spare room to `n`.
    fn grow(&mut self, n: u64) -> Result<(), AllocError>
        requires { self.old.spare < n }
        ensures ok { OnOk result (self.new ≡ record self.old { spare = n }) }
        ensures err { OnErr result (self.new ≡ self.old) }
    {
        self.journal.reserve(n as usize)?;
        self.replies.reserve(n as usize)?;
        self.spare = n;
        Ok(())
    }

    /// Notes that a seat is issued.
    pub(crate) fn issue(&mut self, whose: Option<u32>) -> Result<(), AllocError>
        ensures ok { OnOk result (self.new ≡ record self.old { issued = self.old.issued ++ whose ∷ [] }) }
        ensures err { OnErr result (self.new ≡ self.old) }
    {
        self.issued.push(whose)?;
        Ok(())
    }

    pub(crate) fn close(&mut self)
        ensures { self.new ≡ shut self.old }
    {
        self.closed = true;
    }

    pub(crate) fn core(&self) -> &Core
        ensures { result.now ≡ self.now.core }
    {
        &self.core
    }

    pub(crate) fn begun(&self) -> NodeStart
        ensures { result ≡ self.now.begun }
    {
        self.begun
    }

    pub(crate) fn journal(&self) -> &[NodeEvent]
        ensures { result.now ≡ self.now.journal }
    {
        &self.journal
    }

    pub(crate) fn replies(&self) -> &[Reply]
        ensures { result.now ≡ self.now.replies }
    {
        &self.replies
    }

    pub(crate) fn spare(&self) -> u64
        ensures { result ≡ self.now.spare }
    {
        self.spare
    }

    pub(crate) fn closed(&self) -> bool
        ensures { result ≡ self.now.closed }
    {
        self.closed
    }

    pub(crate) fn halt(&self) -> Option<Halt>
        ensures { result ≡ self.now.halt }
    {
        self.halt
    }
}

/// Whether a sender is not the seat's neighbour, or no neighbour of the node.
fn is_stranger(params: &NodeParams, whose: Option<u32>, sender: u32) -> bool
    ensures { result ≡ is_stranger params.now whose sender }
{
    !(is_seat_of(whose, sender) && is_neighbour(params, sender))
}

/// Whether a node has a link to this one.
fn is_neighbour(params: &NodeParams, node: u32) -> bool
    ensures { result ≡ is_neighbour params.now node }
{
    params.links.as_slice().iter().any(|link| link.node == node)
}

/// Whether a seat is this neighbour's.
fn is_seat_of(whose: Option<u32>, neighbour: u32) -> bool
    ensures { result ≡ is_seat_of whose neighbour }
{
    match whose {
        None => false,
        Some(node) => node == neighbour,
    }
}
