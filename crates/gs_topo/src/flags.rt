ghost use Rattle.std.specs.Prelude.{◌≡◌, ◌≢◌, ◌*◌, ◌<◌, ◌≤◌, ◌||◌, ℕ, Bool, true, List, [], length, vec_len};
ghost use Rattle.std.specs.Prelude.{IfErr, IfNone, IfOk, None, Some};
ghost use Rattle.gs_topo.specs.Faults.{edge_fault, edges_fault};
ghost use Rattle.gs_topo.specs.Graph.{joined, joins};
ghost use Rattle.gs_topo.specs.inside.Kept.{HasFlags, flag_at};

use crate::fault::TopoFault;
use std::alloc::Global;

/// Whether the pair of v and w is flagged, in rows of `side` flags.
pub(crate) fn is_flagged(flags: &[bool], side: u32, v: u32, w: u32) -> bool
    requires square { length flags.now ≡ side * side }
    requires nodes { (v < side) × (w < side) }
    ensures { result ≡ flag_at flags.now side v w }
{
    flags[v as usize * side as usize + w as usize]
}

/// Flags the pair of v and w.
fn set_flag(flags: &mut Vec<bool>, side: u32, v: u32, w: u32)
    requires square { vec_len flags.old ≡ side * side }
    requires nodes { (v < side) × (w < side) }
    ensures square { vec_len flags.new ≡ side * side }
    ensures here { flag_at flags.new.items side v w ≡ true }
    ensures others { (a b : ℕ) → a < side → b < side → ((a ≡ v) × (b ≡ w) → ⊥)
        → flag_at flags.new.items side a b ≡ flag_at flags.old.items side a b }
{
    flags[v as usize * side as usize + w as usize] = true;
}

/// Flags the pair of v and w, both ways round.
fn flag_both_ways(flags: &mut Vec<bool>, side: u32, v: u32, w: u32)
    requires square { vec_len flags.old ≡ side * side }
    requires nodes { (v < side) × (w < side) }
    ensures { (test : ℕ → ℕ → Bool) → HasFlags side test flags.old.items
        → HasFlags side (λ a b. test a b || joins (v, w) a b) flags.new.items }
{
    set_flag(flags, side, v, w);
    set_flag(flags, side, w, v);
}

/// What is wrong with the edge of number `i`, where the flags are those of the edges before it.
fn fault_of_edge(n: u32, flags: &[bool], i: u32, edge: (u32, u32)) -> Option<TopoFault>
    requires square { length flags.now ≡ n * n }
    ensures inside { IfNone result ((edge.0 < n) × (edge.1 < n)) }
    ensures fault { (before : List (ℕ × ℕ)) → HasFlags n (joined before) flags.now
        → result ≡ edge_fault n before i edge }
{
    let (v, w) = edge;
    if v >= n || w >= n {
        Some(TopoFault::Node(i))
    } else if v == w {
        Some(TopoFault::Loop(i))
    } else if is_flagged(flags, n, v, w) {
        Some(TopoFault::Double(i))
    } else {
        None
    }
}

/// Flags the pairs that these edges join, or gives the first fault of them.
pub(crate) fn flags_of(alloc: Global, n: u32, edges: &[(u32, u32)]) -> Result<Vec<bool>, TopoFault>
    requires few { (n ≤ 512) × (length edges.now ≤ 4096) }
    ensures ok { IfOk result (λ flags. edges_fault n [] 0 edges.now ≡ None) }
    ensures flags { IfOk result (λ flags. HasFlags n (joined edges.now) flags.items) }
    ensures err { IfErr result (λ e. e ≢ TopoFault.OutOfMemory → edges_fault n [] 0 edges.now ≡ Some e) }
{
    let side = n as usize;
    let mut flags = vec![in alloc; false; side * side]?;
    for i in 0..edges.len() {
        let edge = edges[i];
        if let Some(fault) = fault_of_edge(n, &flags, i as u32, edge) {
            return Err(fault);
        }
        flag_both_ways(&mut flags, n, edge.0, edge.1);
    }
    Ok(flags)
}
