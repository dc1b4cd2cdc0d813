ghost use Rattle.std.specs.Prelude.{◌≡◌, suc, ◌<◌, ◌≤◌, ℕ, true, IfOk};
ghost use Rattle.gs_plan.specs.Plans.{text_of};
ghost use Rattle.gs_plan.specs.declared.plan.Plan.{Plan};
ghost use Rattle.gs_run.specs.Net.{Net, neighbours};
ghost use Rattle.gs_run.specs.Nets.{net_of};
ghost use Rattle.gs_calendar.specs.Course.{Course, course_of};
ghost use Rattle.gs_calendar.specs.Scripts.{IsReadFor};
ghost use Rattle.gs_calendar.specs.Transits.{Has};
ghost use Rattle.gs_piece.specs.Pieces.{HasRows, IsPiece, IsPieceIn};

use gs_piece::Piece;
use gs_plan::{Plan, check};
use gs_planfile::base;
use gs_script::{Script, read_script};
use std::alloc::{AllocError, Global};

/// Whether node 0 has node 1 as a neighbour, and what is heard stays fresh for a quantum at least.
fn can_send(plan: &Plan) -> bool
    ensures { result ≡ true → (1 < (net_of plan.now).nodes) × Has 1 (neighbours (net_of plan.now) 0)
        × (1 ≤ (net_of plan.now).age) }
{
    let topo = plan.topo();
    if topo.nodes() < 2 {
        return false;
    }
    if !topo.adjacent(0, 1) {
        return false;
    }
    plan.text().age > 0
}

/// A piece of node `v` alone after the first quantum, once it has ended a window of no quanta.
fn first_quantum(alloc: Global, plan: &Plan, script: &Script, v: u32) -> Result<Piece, AllocError>
    requires read { IsReadFor (text_of plan.now) script.now }
    requires node { v < (net_of plan.now).nodes }
    requires end { 1 ≤ script.now.quanta }
    requires age { 1 ≤ (net_of plan.now).age }
    ensures piece { IfOk result (IsPieceIn (net_of plan.now) (course_of script.now) v (suc v) 0 1) }
    ensures rows { IfOk result (HasRows (net_of plan.now) (course_of script.now) v (suc v) 0 1) }
{
    let mut piece = Piece::start(alloc, plan, script, v, v + 1)?;
    piece.end_window();
    piece.run(plan, script, 0, 1);
    Ok(piece)
}

/// Whether a piece has this clock alone at the end of the first quantum, which no node took in the fast mode.
fn has_clock(piece: &Piece, clock: u64) -> bool
    requires { (net : Net) × (c : Course) × (a : ℕ) × (b : ℕ) × HasRows net c a b 0 1 piece.now }
{
    piece.row(0) == [clock].as_slice() && piece.fasts(0) == 0
}

/// Whether a piece of node 0 alone has one beacon to hand over, of quantum 1.
fn has_sent(piece: &Piece) -> bool
    requires { (p : Plan) × (c : Course) × IsPieceIn (net_of p) c 0 1 0 1 piece.now }
{
    match piece.sent(0) {
        [beacon] => beacon.quantum() == 1 && piece.first_sender(0) == Some(0),
        _ => false,
    }
}

/// Whether a piece has heard nothing since the start, and its nodes may go on to quantum 2.
fn can_go_on(plan: &Plan, piece: &Piece) -> bool
    requires { (c : Course) × (by : ℕ → ℕ → ℕ) × (a : ℕ) × (b : ℕ) × IsPiece (net_of plan.now) c by a b 0 1 piece.now }
{
    piece.oldest() == 0 && piece.first_stale(plan, 1).is_none()
}

/// Whether nodes 0 and 1, in a piece each, have these clocks at the end of the first quantum, and node 1 takes
/// over what node 0 sent in it.
fn hand_over(
    alloc: Global,
    plan: &Plan,
    script: &Script,
    first_clock: u64,
    second_clock: u64,
) -> bool
    requires { IsReadFor (text_of plan.now) script.now }
{
    if !can_send(plan) {
        return false;
    }
    if script.quanta() == 0 {
        return false;
    }
    let Ok(one) = first_quantum(alloc, plan, script, 0) else {
        return false;
    };
    let Ok(mut two) = first_quantum(alloc, plan, script, 1) else {
        return false;
    };
    let have_clocks = has_clock(&one, first_clock) && has_clock(&two, second_clock);
    let Ok(()) = two.take_over(plan, script, 0, 1, one.sent(0)) else {
        return false;
    };
    have_clocks && has_sent(&one) && can_go_on(plan, &two)
}

#[test]
fn a_piece_hands_over_what_it_sent(rt: HostRuntime) {
    let alloc = rt.alloc();
    let Ok(plan) = check(alloc, &base(alloc, 2)) else {
        panic!(rt; "the plan is refused");
    };
    let records = "quanta,8\ntick,0,1,1,1\ndrift,1,1,8,10001\n";
    let Ok(script) = read_script(alloc, records.as_bytes(), &plan) else {
        panic!(rt; "the script is refused");
    };
    assert!(rt; hand_over(alloc, &plan, &script, 10_000, 10_001));
}
