ghost use Rattle.std.specs.Prelude.{◌≡◌, ◌≢◌, ◌+◌, ◌<◌, ◌≤◌, ℕ, IfNone, IfOk, IfSome, All, List, length};
ghost use Rattle.std.specs.Prelude.{slice_index, vec_len};
ghost use Rattle.gs_topo.specs.inside.Search.{AreBelow, AreLevels, all_reached, far_level};

use crate::lists::Nodes;
use std::alloc::{AllocError, Global};

/// The level of a node that was not reached yet: a walk of fewer steps leads to each of at most 512
/// nodes that is reached.
const UNREACHED: u16 = 512;

/// Reaches these nodes at this level: those that had a greater one have it now, and come into the
/// queue.
fn reach(
    levels: &mut Vec<u16>,
    queue: &mut Vec<u32>,
    level: u16,
    nodes: &[u32],
) -> Result<(), AllocError>
    requires { All (λ x. x < vec_len levels.old) nodes.now }
    ensures { IfOk result (λ _. record { sums = levels.new.items; pending = queue.new.items }
        ≡ all_reached level (record { sums = levels.old.items; pending = queue.old.items }) nodes.now) }
{
    for node in nodes {
        if level < levels[*node as usize] {
            levels[*node as usize] = level;
            queue.push(*node)?;
        }
    }
    Ok(())
}

/// The least number of steps from a node to each, or `UNREACHED`, by levels: breadth first, so that
/// a node comes into the queue once.
pub(crate) fn levels_from(
    alloc: Global,
    lists: &[Nodes],
    source: u32,
) -> Result<Vec<u16>, AllocError>
    requires source { source < length lists.now }
    requires below { AreBelow lists.now }
    ensures { IfOk result (λ levels. AreLevels lists.now source levels.items) }
{
    let mut levels = vec![in alloc; UNREACHED; lists.len()]?;
    levels[source as usize] = 0;
    let mut queue = Vec::with_capacity(alloc, lists.len())?;
    queue.push(source)?;
    let mut next = 0;
    while next < queue.len() {
        let node = queue[next] as usize;
        let here = levels[node];
        next += 1;
        reach(&mut levels, &mut queue, here + 1, lists[node].as_slice())?;
    }
    Ok(levels)
}

/// The first node that is not reached.
pub(crate) fn first_unreached(levels: &[u16]) -> Option<u32>
    requires { length levels.now ≤ 512 }
    ensures some { IfSome result (λ v. (v < length levels.now) × (slice_index levels.now v ≡ far_level)
        × ((u : ℕ) → u < v → slice_index levels.now u ≢ far_level)) }
    ensures none { IfNone result ((u : ℕ) → u < length levels.now → slice_index levels.now u ≢ far_level) }
{
    for v in 0..levels.len() {
        if levels[v] == UNREACHED {
            return Some(v as u32);
        }
    }
    None
}
