ghost use Rattle.std.specs.Prelude.{◌≡◌, false, [], length, Some, IfOk};
ghost use Rattle.gs_net.specs.Tales.{IsFresh, IsUnused};
ghost use Rattle.gs_board.specs.Boards.{ledger_in};

use crate::{End, Served, serve};
use gs_board::Board;
use gs_clock::MemClock;
use gs_crew::ThreadCrew;
use gs_gate::Gate;
use gs_io::Failed;
use gs_net::{Door, Got, Inlet, Item, MemDoor, MemInlet, MemOutlet, Payload};
use gs_units::{Links, NodeParams, Rate};
use std::alloc::{AllocError, Global};
use std::sync::Wait;
use std::sync::atomic::{AtomicBool, AtomicU64, Ordering};
use std::test::Fail;
use std::thread;
use std::thread::Threads;

/// For how many turns a thread waits for another.
const TURNS: u64 = 100_000_000;

/// A gate that holds the second rest until a reply was made, and where a door waits for that rest.
#[derive(Drop)]
struct AskedBetween {
    rests: AtomicU64,
    rested_twice: AtomicBool,
    replied: AtomicBool,
    gave_up: AtomicBool,
}

impl AskedBetween {
    fn new() -> Self {
        AskedBetween {
            rests: AtomicU64::new(0),
            rested_twice: AtomicBool::new(false),
            replied: AtomicBool::new(false),
            gave_up: AtomicBool::new(false),
        }
    }

    /// Waits until the flag is set, or gives up after so many turns.
    fn wait_for(&self, flag: &AtomicBool) {
        for _ in 0..TURNS {
            if flag.load(Ordering::SeqCst) {
                return;
            }
            thread::yield_now();
        }
        self.gave_up.store(true, Ordering::SeqCst);
    }

    /// Whether nobody gave up.
    fn met(&self) -> bool {
        !self.gave_up.load(Ordering::SeqCst)
    }
}

impl Gate for AskedBetween {
    fn enter(&self, _piece: u32) {}

    fn leave(&self, _piece: u32) {}

    fn rest(&self, _units: u64) {
        if self.rests.fetch_add(1, Ordering::SeqCst) == 1 {
            self.rested_twice.store(true, Ordering::SeqCst);
            self.wait_for(&self.replied);
        }
    }
}

/// A door whose calls begin once the timer rests for the second time.
#[derive(Drop)]
struct LateDoor<'a> {
    door: MemDoor,
    gate: &'a AskedBetween,
}

impl Inlet for LateDoor<'_> {
    ghost use Rattle.std.specs.Prelude.{Some};

    ghost faults = { λ late. late.door.lane.calls.faults };

    ghost tale = { λ late. Some late.door.lane.tale };

    ghost replies = { λ late. Some late.door.replies };

    ghost taken = { λ late. late.door.lane.taken };

    fn receive(&mut self, into: &mut [u8; 64]) -> Result<Got, Failed> {
        self.gate.wait_for(&self.gate.rested_twice);
        self.door.receive(into)
    }
}

impl Door for LateDoor<'_> {
    fn reply(&mut self, answer: &[u8; 24]) -> Result<(), Failed> {
        let replied = self.door.reply(answer);
        self.gate.replied.store(true, Ordering::SeqCst);
        replied
    }
}

/// A board of a node without a neighbour, with the readings 0, 100 and 200.
fn board(alloc: Global) -> Result<Board<MemClock>, Fail>
    ensures open { IfOk result (λ b. (ledger_in b).closed ≡ false) }
    ensures empty { IfOk result (λ b. (ledger_in b).journal ≡ []) }
    ensures unissued { IfOk result (λ b. (ledger_in b).issued ≡ []) }
    ensures alone { IfOk result (λ b. length (ledger_in b).core.params.links ≡ 0) }
{
    let params = NodeParams {
        cluster: 7,
        node: 0,
        links: Links::from_vec(Vec::new(alloc)),
        rate: Rate::new(10_000, 10_001, 2_000)?,
        iota: 2_201,
        every: 1,
    };
    let clock = MemClock::new([0, 100, 200].to_vec(alloc)?, Vec::new(alloc));
    match Board::new(alloc, params, 0, clock) {
        Ok(board) => Ok(board),
        Err((stop, _)) => Err(stop)?,
    }
}

/// A door at which one request waits, with the number 5.
fn door<'a>(alloc: Global, gate: &'a AskedBetween) -> Result<LateDoor<'a>, AllocError>
    ensures fresh { IfOk result (λ late. IsFresh (Some late.door.lane.tale)) }
    ensures unused { IfOk result (λ late. IsUnused (Some late.door.replies)) }
{
    let mut items = Vec::new(alloc);
    let request = b"GCSQ\0\0\0\0\0\0\0\0\0\0\0\x05".to_vec(alloc)?;
    items.push(Item::Datagram(Payload::from_vec(request)))?;
    let door = MemDoor::new(alloc, items, Vec::new(alloc));
    Ok(LateDoor { door, gate })
}

/// Runs the node for two turns at the reading 50 of the view clock. Tells how it ended, and the replies.
fn run_asked<R: Threads + Wait + Sync>(
    rt: &R,
    alloc: Global,
    gate: &AskedBetween,
) -> Result<(End, Vec<[u8; 24]>), Fail> {
    let inlets: Vec<MemInlet> = Vec::new(alloc);
    let Served {
        end,
        board: _,
        seats: _,
        inlets: _,
        outlet: _,
        door,
        view_clock: _,
        publisher,
        dropped: _,
    } = serve(
        rt,
        alloc,
        board(alloc)?,
        inlets,
        MemOutlet::new(alloc, Vec::new(alloc)),
        door(alloc, gate)?,
        MemClock::new([50].to_vec(alloc)?, Vec::new(alloc)),
        &mut ThreadCrew::new(alloc),
        gate,
        2,
        0,
    );
    if let Some(publisher) = publisher {
        publisher.end(rt);
    }
    Ok((end, door.door.replies().to_vec(alloc)?))
}

#[test]
fn a_request_between_two_ticks_is_answered_from_the_first(rt: HostRuntime) -> Result<(), Fail> {
    let gate = AskedBetween::new();
    let (end, replies) = run_asked(&rt, rt.alloc(), &gate)?;
    let answer = *b"GCSA\0\0\0\0\0\0\0\0\0\0\0\x05\0\0\0\0\0\0\0\x64";
    assert!(rt; end == End::Done && gate.met());
    assert!(rt; replies.as_slice() == [answer].as_slice());
    Ok(())
}
