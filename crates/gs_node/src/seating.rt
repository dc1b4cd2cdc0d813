ghost use Rattle.std.specs.Prelude.{◌≡◌, ◌≤◌, ◌+◌, [], map, length, IfOk, Some, None};
ghost use Rattle.std.specs.Vec.{vec_capacity};
ghost use Rattle.gs_board.specs.Boards.{ledger_in};
ghost use Rattle.gs_board.specs.Slips.{new_slip};

use gs_board::{Board, Seat};
use gs_clock::Clock;
use gs_net::Inlet;
use gs_units::NodeParams;
use std::alloc::{AllocError, Global};

/// All that takes memory before the first thread: the seats, a copy of the parameters, and lists for what
/// comes back.
pub(crate) struct Ready<C: Clock, I: Inlet> {
    pub timer: Seat<C>,
    pub seats: Vec<Seat<C>>,
    pub params: NodeParams,
    pub others: Vec<Seat<C>>,
    pub back: Vec<I>,
    pub all: Vec<Seat<C>>,
}

/// Makes ready for `count` inlets. The seats come last, so that a refusal of any kind leaves none.
pub(crate) fn prepare<C: Clock, I: Inlet>(
    alloc: Global,
    board: &mut Board<C>,
    count: usize,
) -> Result<Ready<C, I>, AllocError>
    requires none { (ledger_in board.old).issued ≡ [] }
    requires few { count ≤ 511 }
    ensures timer { IfOk result (λ r. r.timer ≡ new_slip (ledger_in board.old) None) }
    ensures seats { IfOk result (λ r. r.seats.items
        ≡ map (λ link. new_slip (ledger_in board.old) (Some link.node)) (ledger_in board.old).core.params.links) }
    ensures params { IfOk result (λ r. r.params ≡ (ledger_in board.old).core.params) }
    ensures others { IfOk result (λ r. (r.others.items ≡ []) × (count ≤ vec_capacity r.others)) }
    ensures back { IfOk result (λ r. (r.back.items ≡ []) × (count ≤ vec_capacity r.back)) }
    ensures all { IfOk result (λ r. (r.all.items ≡ []) × (count + 1 ≤ vec_capacity r.all)) }
    ensures core { (ledger_in board.new).core ≡ (ledger_in board.old).core }
    ensures begun { (ledger_in board.new).begun ≡ (ledger_in board.old).begun }
    ensures journal { (ledger_in board.new).journal ≡ (ledger_in board.old).journal }
    ensures halt { (ledger_in board.new).halt ≡ (ledger_in board.old).halt }
{
    let params = board.core().params().copy(alloc)?;
    let mut others = Vec::new(alloc);
    others.reserve(count)?;
    let mut back = Vec::new(alloc);
    back.reserve(count)?;
    let mut all = Vec::new(alloc);
    all.reserve(count + 1)?;
    let (timer, seats) = issue(alloc, board, &params)?;
    Ok(Ready {
        timer,
        seats,
        params,
        others,
        back,
        all,
    })
}

/// Issues the timer's seat and each neighbour's.
fn issue<C: Clock>(
    alloc: Global,
    board: &mut Board<C>,
    params: &NodeParams,
) -> Result<(Seat<C>, Vec<Seat<C>>), AllocError>
    requires none { (ledger_in board.old).issued ≡ [] }
    requires params { params.now ≡ (ledger_in board.old).core.params }
    ensures timer { IfOk result (λ r. r.0 ≡ new_slip (ledger_in board.old) None) }
    ensures seats { IfOk result (λ r. r.1.items
        ≡ map (λ link. new_slip (ledger_in board.old) (Some link.node)) params.now.links) }
    ensures core { (ledger_in board.new).core ≡ (ledger_in board.old).core }
    ensures begun { (ledger_in board.new).begun ≡ (ledger_in board.old).begun }
    ensures journal { (ledger_in board.new).journal ≡ (ledger_in board.old).journal }
    ensures halt { (ledger_in board.new).halt ≡ (ledger_in board.old).halt }
{
    let timer = board.seat(alloc, None)?;
    let mut seats = Vec::new(alloc);
    for link in params.links.as_slice() {
        seats.push(board.seat(alloc, Some(link.node))?)?;
    }
    Ok((timer, seats))
}
