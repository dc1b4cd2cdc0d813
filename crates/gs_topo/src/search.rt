ghost use Rattle.std.specs.Prelude.{◌≡◌, ◌+◌, ◌*◌, ◌<◌, ◌≤◌, ◌^◌, ℕ, IfOk};
ghost use Rattle.std.specs.Prelude.{All, List, length, slice_index, vec_len};
ghost use Rattle.gs_topo.specs.inside.Search.{AreInside, Searched, all_tried, far_sum};

use crate::build::push_if;
use crate::steps::{Step, Steps};
use std::alloc::{AllocError, Global};

/// The sum of a node that was not reached yet, above that of any walk of the search.
const FAR: u128 = 1 << 96;

/// Tries the steps of a node of this sum: where one makes a sum less, that is the new sum. A node
/// that had none becomes pending.
fn relax(
    sums: &mut Vec<u128>,
    pending: &mut Vec<u32>,
    here: u128,
    steps: &[Step],
) -> Result<(), AllocError>
    requires inside { AreInside (vec_len sums.old) steps.now }
    requires small { here ≤ FAR }
    ensures { IfOk result (λ _. record { sums = sums.new.items; pending = pending.new.items }
        ≡ all_tried here (record { sums = sums.old.items; pending = pending.old.items }) steps.now) }
{
    for step in steps {
        let sum = here + u128::from(step.length);
        let before = sums[step.to as usize];
        if sum < before {
            sums[step.to as usize] = sum;
            push_if(pending, before == FAR, step.to)?;
        }
    }
    Ok(())
}

/// The place of a pending node of the least sum.
fn least_place(sums: &[u128], pending: &[u32]) -> usize
    requires some { 0 < length pending.now }
    requires inside { All (λ x. x < length sums.now) pending.now }
    ensures place { result < length pending.now }
    ensures least { All (λ x. slice_index sums.now (slice_index pending.now result) ≤ slice_index sums.now x) pending.now }
{
    let mut best = 0;
    let mut least = sums[pending[0] as usize];
    for place in 1..pending.len() {
        let sum = sums[pending[place] as usize];
        if sum < least {
            best = place;
            least = sum;
        }
    }
    best
}

/// The least sums of the lengths of walks from a node, or `FAR`. The steps of a pending node of the
/// least sum are tried next (after Dijkstra), so that no later sum is less than its own: the steps
/// of each node are tried once.
pub(crate) fn sums_from(alloc: Global, all: &[Steps], source: u32) -> Result<Vec<u128>, AllocError>
    requires source { source < length all.now }
    requires inside { All (AreInside (length all.now)) all.now }
    ensures { IfOk result (λ sums. Searched all.now source sums.items) }
{
    let mut sums = vec![in alloc; FAR; all.len()]?;
    sums[source as usize] = 0;
    let mut pending = Vec::new(alloc);
    pending.push(source)?;
    while !pending.is_empty() {
        let place = least_place(&sums, &pending);
        let node = pending.swap_remove(place) as usize;
        let here = sums[node];
        relax(&mut sums, &mut pending, here, all[node].as_slice())?;
    }
    Ok(sums)
}
