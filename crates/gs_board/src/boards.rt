ghost use Rattle.std.specs.Prelude.{◌≡◌, ◌+◌, ◌<◌, ◌≤◌, ◌↔◌, ◌++◌, ◌∷◌, [], max, length, All, Contains, None, Some, Err, IfOk, IfErr, IfSome, IsSome, IsTrue, OnOk, OnErr, MatchOption};
ghost use Rattle.gs_units.specs.Params.{AreValid};
ghost use Rattle.gs_beacon.specs.Beacons.{IsBeacon};
ghost use Rattle.gs_core.specs.State.{CarriesBeacon};
ghost use Rattle.gs_core.specs.Steps.{Whole};
ghost use Rattle.gs_trace.specs.Starts.{FitsNode};
ghost use Rattle.gs_io.specs.Causes.{Rose};
ghost use Rattle.gs_clock.specs.Readings.{Reads};
ghost use Rattle.gs_board.specs.Entries.{IsOwned, neighbours_of};
ghost use Rattle.gs_board.specs.Faults.{ComesFromClock, StopsFor, TakesBeacon, TakesTick, bar_of, beacon_refusal, deliver_bar, reading_of, refused, tick_refusal};
ghost use Rattle.gs_board.specs.Ledger.{IsKept, IsKept-prop, clock_failed, opened, replay_of, shut};
ghost use Rattle.gs_board.specs.Slips.{SameSeat, new_slip, noted};
ghost use Rattle.gs_board.specs.Torn.{IsTorn, IsWhole, SameFrame};

use crate::MOST;
use crate::compare::first_torn;
use crate::faults::{BoardFault, BoardStop, Halt, ReserveStop, Torn};
use crate::journaled::Journaled;
use crate::seats::Seat;
use crate::told::{Receipt, Told};
use gs_beacon::Beacon;
use gs_clock::Clock;
use gs_core::{Core, Heard, NodeEvent, Ticked};
use gs_trace::NodeStart;
use gs_units::{END, NodeParams};
use std::alloc::{AllocError, Global};
use std::sync::Mutex;

/// A node with its clock and the journal of what it took. Of each board, also of one that comes out of a
/// lock, it is known that its node and its replies are those of the replay of its journal, and that a halt
/// for its clock means a clock that has failed. An event reads the clock and stands in the journal within
/// one call. Contracts see the clock, and the ledger: all that is kept beside it.
#[derive(Drop)]
pub struct Board<C: Clock> {
    clock: C,
    kept: Journaled,
    ghost ledger: { IsKept kept } by { IsKept-prop kept },
    ghost halted: { kept.halt ≡ clock_failed → 0 < C.faults clock },
}

/// A board that threads share. Each call of it under the lock is one step.
pub type Shared<C> = Mutex<Board<C>>;

impl<C: Clock> Board<C> {
    ghost use Rattle.gs_board.specs.Boards.{clock_in, ledger_in};

    /// Reads the clock once, and starts the node of these parameters there, with its own clock at `l0`. It
    /// is open, and has no event, no room and no seat. A stop gives the clock back.
    pub fn new(
        alloc: Global,
        params: NodeParams,
        l0: u64,
        clock: C,
    ) -> Result<Board<C>, (BoardStop, C)>
        requires valid { AreValid params }
        requires l0 { l0 < END }
        ensures ok { IfOk result (λ board. ledger_in board ≡ opened params (ledger_in board).begun) }
        ensures l0 { IfOk result (λ board. (ledger_in board).begun.l0 ≡ l0) }
        ensures reading { IfOk result
            (λ board. Reads (C.left clock) (C.left (clock_in board)) (ledger_in board).begun.hw) }
        ensures near { IfOk result (λ board. (ledger_in board).begun.hw < END) }
        ensures later { IfOk result (λ board. C.faults clock ≤ C.faults (clock_in board)) }

        // `Far` comes exactly where the reading reaches the end, and `ClockFailed` only where the count rose.
        ensures cause { IfErr result (λ stop.
            StopsFor (C.left clock) (C.left stop.1) (C.faults clock) (C.faults stop.1) stop.0) }
        ensures later_err { IfErr result (λ stop. C.faults clock ≤ C.faults stop.1) }
    {
        let mut clock = clock;
        let Ok(hw) = clock.read() else {
            return Err((BoardStop::ClockFailed, clock));
        };
        if hw >= END {
            return Err((BoardStop::Far, clock));
        }
        match Journaled::start(alloc, params, NodeStart { l0, hw }) {
            Ok(kept) => Ok(Board { clock, kept }),
            Err(_) => Err((BoardStop::OutOfMemory, clock)),
        }
    }

    /// Issues the seat of the timer, for none, or of a neighbour. There is no other way to a seat, and each
    /// is issued once.
    pub fn seat(&mut self, alloc: Global, whose: Option<u32>) -> Result<Seat<C>, AllocError>
        requires neighbour { IfSome whose (Contains (neighbours_of (ledger_in self.old).core.params)) }
        requires once { ¬ Contains (ledger_in self.old).issued whose }
        ensures seat { IfOk result (λ seat. seat ≡ new_slip (ledger_in self.old) whose) }
        ensures issued { OnOk result (ledger_in self.new
            ≡ record (ledger_in self.old) { issued = (ledger_in self.old).issued ++ whose ∷ [] }) }
        ensures err { OnErr result (ledger_in self.new ≡ ledger_in self.old) }
        ensures clock { clock_in self.new ≡ clock_in self.old }
    {
        let params = self.kept.core().params().copy(alloc)?;
        self.kept.issue(whose)?;
        Ok(Seat::new(alloc, whose, params, self.kept.begun()))
    }

    /// Makes room for at least `n` events more.
    pub fn reserve(&mut self, n: u64) -> Result<(), ReserveStop>
        ensures ok { OnOk result (ledger_in self.new
            ≡ record (ledger_in self.old) { spare = max (ledger_in self.old).spare n }) }
        ensures err { OnErr result (ledger_in self.new ≡ ledger_in self.old) }
        ensures clock { clock_in self.new ≡ clock_in self.old }

        // `Filled` comes exactly where the journal would have more events than it may.
        ensures within { OnOk result (length (ledger_in self.old).journal + n ≤ MOST) }
        ensures filled { IfErr result (λ stop.
            stop ≡ ReserveStop.Filled → MOST < length (ledger_in self.old).journal + n) }
        ensures short { IfErr result (λ stop.
            stop ≡ ReserveStop.OutOfMemory → length (ledger_in self.old).journal + n ≤ MOST) }
    {
        self.kept.reserve(n)
    }

    /// A tick of the node at the reading that its clock gives now. It stands at the end of the journal and
    /// of the seat with its whole reply.
    pub fn tick(&mut self, seat: &mut Seat<C>) -> Result<Receipt<Ticked>, BoardFault>
        requires room { 0 < seat.old.room }
        requires timer { seat.old.whose ≡ None }
        ensures ok { IfOk result (λ r.
            TakesTick (ledger_in self.old) (ledger_in self.new) (reading_of r.event) r) }
        ensures told { IfOk result (λ r. seat.new ≡ noted seat.old
            (record { place = r.place; event = r.event; ticked = Some r.reply })) }
        ensures reading { IfOk result (λ r.
            Reads (C.left (clock_in self.old)) (C.left (clock_in self.new)) (reading_of r.event)) }
        ensures beacon { IfOk result (λ r. IfSome r.reply.beacon IsBeacon) }

        // What refuses any event is asked first, without a look at the clock.
        ensures barred { IfSome (bar_of (ledger_in self.old)) (λ fault.
            (result ≡ Err fault) × (clock_in self.new ≡ clock_in self.old)) }
        ensures cause { bar_of (ledger_in self.old) ≡ None → IfErr result (ComesFromClock
            (tick_refusal (ledger_in self.old)) (C.left (clock_in self.old)) (C.left (clock_in self.new))
            (C.faults (clock_in self.old)) (C.faults (clock_in self.new))) }

        // A halt closes the board; no other fault changes anything.
        ensures err { IfErr result (λ fault. ledger_in self.new ≡ refused (ledger_in self.old) fault) }
        ensures untold { OnErr result (seat.new ≡ seat.old) }
        ensures same_seat { SameSeat seat.old seat.new }
        ensures later { C.faults (clock_in self.old) ≤ C.faults (clock_in self.new) }
    {
        if let Some(fault) = self.kept.bar() {
            return Err(fault);
        }
        let now = self.read()?;
        let receipt = self.kept.enter_tick(now)?;
        seat.note(Told {
            place: receipt.place,
            event: receipt.event,
            ticked: Some(receipt.reply),
        });
        Ok(receipt)
    }

    /// A beacon comes to the node at the reading that its clock gives now. It stands at the end of the
    /// journal and of the seat.
    pub fn deliver(
        &mut self,
        seat: &mut Seat<C>,
        beacon: &Beacon,
    ) -> Result<Receipt<Heard>, BoardFault>
        requires room { 0 < seat.old.room }
        requires neighbour { IsSome seat.old.whose }
        requires valid { IsBeacon beacon.now }
        ensures ok { IfOk result (λ r.
            TakesBeacon (ledger_in self.old) (ledger_in self.new) beacon.now (reading_of r.event) r) }
        ensures told { IfOk result (λ r. seat.new ≡ noted seat.old
            (record { place = r.place; event = r.event; ticked = None })) }
        ensures reading { IfOk result (λ r.
            Reads (C.left (clock_in self.old)) (C.left (clock_in self.new)) (reading_of r.event)) }

        // What refuses any event, and then the beacon, is asked first, without a look at the clock.
        ensures barred { IfSome (deliver_bar (ledger_in self.old) seat.old.whose beacon.now) (λ fault.
            (result ≡ Err fault) × (clock_in self.new ≡ clock_in self.old)) }
        ensures cause { deliver_bar (ledger_in self.old) seat.old.whose beacon.now ≡ None
            → IfErr result (ComesFromClock (beacon_refusal (ledger_in self.old) beacon.now)
            (C.left (clock_in self.old)) (C.left (clock_in self.new))
            (C.faults (clock_in self.old)) (C.faults (clock_in self.new))) }

        // A halt closes the board; no other fault changes anything.
        ensures err { IfErr result (λ fault. ledger_in self.new ≡ refused (ledger_in self.old) fault) }
        ensures untold { OnErr result (seat.new ≡ seat.old) }
        ensures same_seat { SameSeat seat.old seat.new }
        ensures later { C.faults (clock_in self.old) ≤ C.faults (clock_in self.new) }
    {
        if let Some(fault) = self.kept.deliver_bar(seat.whose(), beacon) {
            return Err(fault);
        }
        let now = self.read()?;
        let receipt = self.kept.enter_beacon(beacon, now)?;
        seat.note(Told {
            place: receipt.place,
            event: receipt.event,
            ticked: None,
        });
        Ok(receipt)
    }

    /// Reads the clock. Where it fails the board is closed.
    fn read(&mut self) -> Result<u64, BoardFault>
        ensures reading { IfOk result (λ now.
            Reads (C.left (clock_in self.old)) (C.left (clock_in self.new)) now) }
        ensures ok { OnOk result (ledger_in self.new ≡ ledger_in self.old) }
        ensures failed { IfErr result (λ fault. (fault ≡ BoardFault.ClockFailed)
            × Rose (C.faults (clock_in self.old)) (C.faults (clock_in self.new))
            × (C.left (clock_in self.new) ≡ C.left (clock_in self.old))) }
        ensures err { IfErr result (λ fault. ledger_in self.new ≡ refused (ledger_in self.old) fault) }
        ensures later { C.faults (clock_in self.old) ≤ C.faults (clock_in self.new) }
    {
        match self.clock.read() {
            Ok(now) => Ok(now),
            Err(_) => Err(self.kept.refuse(BoardFault::ClockFailed)),
        }
    }

    /// How a seat differs from this board, if it does: it was made by another one, or an entry that it has
    /// is not the journal's, or the other way round.
    pub fn compare(&self, seat: &Seat<C>) -> Option<Torn>
        ensures { MatchOption result (IsWhole (ledger_in self.now) seat.now) (IsTorn (ledger_in self.now) seat.now) }
    {
        if !self.is_framed(seat) {
            return Some(Torn::Frame);
        }
        first_torn(
            seat.whose(),
            seat.told(),
            self.kept.journal(),
            self.kept.replies(),
        )
    }

    /// Whether a seat has the parameters and the start of this board.
    fn is_framed(&self, seat: &Seat<C>) -> bool
        ensures { IsTrue result ↔ SameFrame (ledger_in self.now) seat.now }
    {
        seat.params() == self.kept.core().params() && seat.begun() == self.kept.begun()
    }

    /// Closes the board for good: every later event is refused as `Closed`.
    pub fn close(&mut self)
        ensures ledger { ledger_in self.new ≡ shut (ledger_in self.old) }
        ensures clock { clock_in self.new ≡ clock_in self.old }
    {
        self.kept.close();
    }

    /// Whether the board is closed, by a call or by a halt.
    pub fn closed(&self) -> bool
        ensures { result ≡ (ledger_in self.now).closed }
    {
        self.kept.closed()
    }

    /// The halt that closed the board, if one did.
    pub fn halt(&self) -> Option<Halt>
        ensures halt { result ≡ (ledger_in self.now).halt }
        ensures failed { result ≡ clock_failed → 0 < C.faults (clock_in self.now) }
    {
        self.kept.halt()
    }

    /// For how many more events the journal has room.
    pub fn spare(&self) -> u64
        ensures value { result ≡ (ledger_in self.now).spare }
        ensures within { length (ledger_in self.now).journal + result ≤ MOST }
    {
        self.kept.spare()
    }

    /// The node.
    pub fn core(&self) -> &Core
        ensures core { result.now ≡ (ledger_in self.now).core }
        ensures replayed { replay_of (ledger_in self.now) ≡ Whole result.now.node (ledger_in self.now).replies }
    {
        self.kept.core()
    }

    /// The events that the node took, in order. Each is the timer's or a neighbour's.
    #[tactic(auto, using(crate::proofs::Owning::all_owned))]
    pub fn journal(&self) -> &[NodeEvent]
        ensures journal { result.now ≡ (ledger_in self.now).journal }
        ensures owned { All (IsOwned (ledger_in self.now).core.params) result.now }
        ensures beacons { All CarriesBeacon result.now }
    {
        self.kept.journal()
    }

    /// How the node began.
    pub fn begun(&self) -> NodeStart
        ensures begun { result ≡ (ledger_in self.now).begun }
        ensures fits { FitsNode result }
    {
        self.kept.begun()
    }

    /// The clock, of a board that has issued no seat.
    pub fn into_clock(self) -> C
        requires { (ledger_in self).issued ≡ [] }
        ensures { result ≡ clock_in self }
    {
        let Board { clock, kept: _ } = self;
        clock
    }
}
