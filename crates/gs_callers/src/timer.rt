ghost use Rattle.std.specs.Prelude.{◌≡◌, ◌<◌, ◌≤◌, ◌+◌, ◌++◌, ◌∷◌, [], ℕ, None, Some, length, take, Err, IfOk, IfSome, OnOk, OnErr};
ghost use Rattle.gs_beacon.specs.Beacons.{IsBeacon};
ghost use Rattle.gs_net.specs.Tales.{OnTold};
ghost use Rattle.gs_board.specs.Faults.{reading_of};
ghost use Rattle.gs_board.specs.Slips.{SameSeat};
ghost use Rattle.gs_callers.specs.Sends.{sends_by};
ghost use Rattle.gs_callers.specs.Snaps.{snap_by};
ghost use Rattle.gs_callers.specs.Timed.{IsCutOff, IsInStep};

use crate::receiver::Refusal;
use crate::rooms::{has_room, make_spare};
use crate::sending::send_beacon;
use gs_board::{Board, Receipt, Seat, Shared};
use gs_clock::Clock;
use gs_core::{NodeEvent, Ticked};
use gs_gate::Gate;
use gs_net::Outlet;
use gs_units::Link;
use gs_view::{Publisher, Snap};
use std::sync::Wait;

/// Why the timer stopped before its last turn.
#[derive(Clone, Copy, Debug, PartialEq, Eq)]
pub enum TimerStop {
    /// Its seat could not grow.
    Memory,
    /// A board or reserve call refused the tick.
    Refused(Refusal),
    /// The outlet failed.
    Send,
    /// The tick's place is below that of the snap published last.
    Behind,
    /// A start was refused.
    NoThread,
    /// The view refused the snap.
    Publish,
}

/// Takes `ticks` turns as the timer of a node, and stops at the first that is cut off. A turn rests for
/// `pace` units, ticks the board under its lock, sends the beacon that the tick gave over each link, and
/// publishes the tick's snap.
pub fn run_turns<R: Wait, C: Clock, O: Outlet, G: Gate>(
    rt: &R,
    board: &Shared<C>,
    seat: &mut Seat<C>,
    outlet: &mut O,
    publisher: &mut Publisher,
    links: &[Link],
    gate: &G,
    ticks: u32,
    pace: u64,
) -> Result<(), TimerStop>
    requires timer { seat.old.whose ≡ None }
    requires new { seat.old.told ≡ [] }
    requires step { IsInStep links.now seat.old (O.sent outlet.old) publisher.old }
    ensures ok { OnOk result (IsInStep links.now seat.new (O.sent outlet.new) publisher.new) }
    ensures all { OnOk result (length seat.new.told ≡ ticks) }
    ensures err { OnErr result (IsCutOff links.now seat.new (O.sent outlet.new) publisher.new) }
    ensures most { length seat.new.told ≤ ticks }
    ensures same { SameSeat seat.old seat.new }
    ensures cause { result ≡ Err TimerStop.Send → 0 < O.faults outlet.new }
    ensures never_falls { O.faults outlet.old ≤ O.faults outlet.new }
{
    for _ in 0..ticks {
        gate.rest(pace);
        turn(rt, board, seat, outlet, publisher, links)?;
    }
    Ok(())
}

/// Ticks, sends and publishes.
fn turn<R: Wait, C: Clock, O: Outlet>(
    rt: &R,
    board: &Shared<C>,
    seat: &mut Seat<C>,
    outlet: &mut O,
    publisher: &mut Publisher,
    links: &[Link],
) -> Result<(), TimerStop>
    requires timer { seat.old.whose ≡ None }
    requires step { IsInStep links.now seat.old (O.sent outlet.old) publisher.old }
    ensures ok { OnOk result (IsInStep links.now seat.new (O.sent outlet.new) publisher.new) }
    ensures one { OnOk result (length seat.new.told ≡ length seat.old.told + 1) }
    ensures err { OnErr result (IsCutOff links.now seat.new (O.sent outlet.new) publisher.new) }
    ensures most { length seat.new.told ≤ length seat.old.told + 1 }
    ensures same { SameSeat seat.old seat.new }
    ensures cause { result ≡ Err TimerStop.Send → 0 < O.faults outlet.new }
    ensures never_falls { O.faults outlet.old ≤ O.faults outlet.new }
{
    if !has_room(seat) {
        return Err(TimerStop::Memory);
    }
    match tick_locked(rt, board, seat) {
        Ok(receipt) => tell(rt, outlet, publisher, links, &receipt),
        Err(refusal) => Err(TimerStop::Refused(refusal)),
    }
}

/// A tick under the lock, with room made for it.
fn tick_locked<R: Wait, C: Clock>(
    rt: &R,
    board: &Shared<C>,
    seat: &mut Seat<C>,
) -> Result<Receipt<Ticked>, Refusal>
    requires room { 0 < seat.old.room }
    requires timer { seat.old.whose ≡ None }
    ensures ok { IfOk result (λ r. seat.new.told
        ≡ seat.old.told ++ (record { place = r.place; event = r.event; ticked = Some r.reply }) ∷ []) }
    ensures valid { IfOk result (λ r. IfSome r.reply.beacon IsBeacon) }
    ensures err { OnErr result (seat.new.told ≡ seat.old.told) }
    ensures same { SameSeat seat.old seat.new }
{
    let mut board = board.lock(rt);
    tick_board(&mut board, seat)
}

/// A tick of a board, with room made for it.
fn tick_board<C: Clock>(
    board: &mut Board<C>,
    seat: &mut Seat<C>,
) -> Result<Receipt<Ticked>, Refusal>
    requires room { 0 < seat.old.room }
    requires timer { seat.old.whose ≡ None }
    ensures ok { IfOk result (λ r. seat.new.told
        ≡ seat.old.told ++ (record { place = r.place; event = r.event; ticked = Some r.reply }) ∷ []) }
    ensures valid { IfOk result (λ r. IfSome r.reply.beacon IsBeacon) }
    ensures err { OnErr result (seat.new.told ≡ seat.old.told) }
    ensures same { SameSeat seat.old seat.new }
{
    make_spare(board)?;
    Ok(board.tick(seat)?)
}

/// Sends what a tick gave, and then publishes its snap.
fn tell<R: Wait, O: Outlet>(
    rt: &R,
    outlet: &mut O,
    publisher: &mut Publisher,
    links: &[Link],
    receipt: &Receipt<Ticked>,
) -> Result<(), TimerStop>
    requires valid { IfSome receipt.now.reply.beacon IsBeacon }
    ensures sent { OnOk result (O.sent outlet.new
        ≡ OnTold (O.sent outlet.old) (λ taken. taken ++ sends_by links.now receipt.now.reply.beacon)) }
    ensures cut { OnErr result ((k : ℕ) × (O.sent outlet.new
        ≡ OnTold (O.sent outlet.old) (λ taken. taken ++ take k (sends_by links.now receipt.now.reply.beacon)))) }
    ensures shown { OnOk result (publisher.new
        ≡ publisher.old ++ snap_by receipt.now.place (reading_of receipt.now.event) receipt.now.reply ∷ []) }
    ensures kept { OnErr result (publisher.new ≡ publisher.old) }
    ensures cause { result ≡ Err TimerStop.Send → 0 < O.faults outlet.new }
    ensures never_falls { O.faults outlet.old ≤ O.faults outlet.new }
{
    match send_beacon(outlet, links, receipt.reply.beacon) {
        Ok(()) => show(rt, publisher, receipt),
        Err(_) => Err(TimerStop::Send),
    }
}

/// Publishes the snap of a tick.
fn show<R: Wait>(
    rt: &R,
    publisher: &mut Publisher,
    receipt: &Receipt<Ticked>,
) -> Result<(), TimerStop>
    ensures ok { OnOk result (publisher.new
        ≡ publisher.old ++ snap_by receipt.now.place (reading_of receipt.now.event) receipt.now.reply ∷ []) }
    ensures err { OnErr result (publisher.new ≡ publisher.old) }
    ensures only { result ≡ Err TimerStop.Send → ⊥ }
{
    if receipt.place < publisher.last() {
        return Err(TimerStop::Behind);
    }
    let snap = snap_of(receipt);
    match publisher.publish(rt, snap) {
        Ok(_note) => Ok(()),
        Err(_) => Err(TimerStop::Publish),
    }
}

/// The snap of a tick.
fn snap_of(receipt: &Receipt<Ticked>) -> Snap
    ensures value { result ≡ snap_by receipt.now.place (reading_of receipt.now.event) receipt.now.reply }
    ensures place { result.place ≡ receipt.now.place }
{
    Snap {
        place: receipt.place,
        l: receipt.reply.l,
        at: reading_of(&receipt.event),
        mode: receipt.reply.mode,
    }
}

/// The reading at which an event came.
fn reading_of(event: &NodeEvent) -> u64
    ensures { result ≡ reading_of event.now }
{
    match event {
        NodeEvent::Tick { hw } | NodeEvent::Deliver { hw, .. } => *hw,
    }
}
