ghost use Rattle.std.specs.Prelude.{◌≡◌, ◌+◌, ◌<◌, ◌≤◌, length};
ghost use Rattle.gs_play.specs.inside.Pieces.{AreReady, AreRun};

use gs_gate::Gate;
use gs_piece::Piece;
use gs_plan::Plan;
use gs_script::Script;
use std::thread;
use std::thread::Threads;

/// Takes the pieces through the window of the `n` quanta after quantum `m`: `some` of them in each thread,
/// one after the other. Where `some` is all of them no thread is started.
pub(crate) fn run_pieces<R: Threads + Sync, G: Gate>(
    rt: &R,
    plan: &Plan,
    script: &Script,
    gate: &G,
    pieces: &mut [Piece],
    some: usize,
    m: u32,
    n: u32,
)
    requires some { 0 < some }
    requires few { length pieces.old ≤ 64 }
    requires ready { AreReady plan.now script.now m n pieces.old }
    ensures count { length pieces.new ≡ length pieces.old }
    ensures run { AreRun plan.now script.now m n pieces.old pieces.new }
{
    let run = move |start: usize, part: &mut [Piece]|
        requires { (start + length part.now ≤ 64) × AreReady plan.now script.now m n part.now }
        ensures { AreRun plan.entry.now script.entry.now m n part.entry.now part.exit.now }
    { run_in_turn(plan, script, gate, part, start, m, n) };
    thread::for_each_chunk_mut(rt, pieces, some, &run);
}

/// Takes some pieces through a window, one after the other, each between its `enter` and `leave`.
fn run_in_turn<G: Gate>(
    plan: &Plan,
    script: &Script,
    gate: &G,
    pieces: &mut [Piece],
    start: usize,
    m: u32,
    n: u32,
)
    requires few { start + length pieces.old ≤ 64 }
    requires ready { AreReady plan.now script.now m n pieces.old }
    ensures count { length pieces.new ≡ length pieces.old }
    ensures run { AreRun plan.now script.now m n pieces.old pieces.new }
{
    for i in 0..pieces.len() {
        let piece = (start + i) as u32;
        gate.enter(piece);
        pieces[i].run(plan, script, m, n);
        gate.leave(piece);
    }
}
