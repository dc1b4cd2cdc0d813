ghost use Rattle.std.specs.Prelude.{◌≡◌, ◌+◌, ◌<◌, ◌≤◌, ℕ, false, length, max, true, IfOk};
ghost use Rattle.gs_tdma.specs.inside.Kept.{AreLow, IsFree, IsTaken};
ghost use Rattle.gs_tdma.specs.Slots.{AreColours, count_of};

use gs_topo::Topology;
use std::alloc::{AllocError, Global};

/// Whether a node below `v` within reach has this colour.
fn is_taken(topo: &Topology, reach: u32, colours: &[u32], v: u32, colour: u32) -> bool
    requires node { v < topo.now.nodes }
    requires below { length colours.now ≡ v }
    ensures taken { result ≡ true → IsTaken topo.now reach colours.now v colour }
    ensures free { result ≡ false → IsFree topo.now reach colours.now v colour }
{
    for u in 0..v {
        if topo.distance(u, v) <= reach && colours[u as usize] == colour {
            return true;
        }
    }
    false
}

/// The least colour that no node below `v` within reach has.
fn least_free(topo: &Topology, reach: u32, colours: &[u32], v: u32) -> u32
    requires node { v < topo.now.nodes }
    requires below { length colours.now ≡ v }
    requires low { AreLow colours.now }
    ensures low { result ≤ v }
    ensures free { IsFree topo.now reach colours.now v result }
    ensures least { (c : ℕ) → c < result → IsTaken topo.now reach colours.now v c }
{
    for colour in 0..v {
        if !is_taken(topo, reach, colours, v, colour) {
            return colour;
        }
    }
    // No node below has a colour as high as this.
    v
}

/// The colours of all nodes.
pub(crate) fn colours_of(alloc: Global, topo: &Topology, reach: u32) -> Result<Vec<u32>, AllocError>
    ensures colours { IfOk result (λ colours. AreColours topo.now reach colours.items topo.now.nodes) }
    ensures low { IfOk result (λ colours. AreLow colours.items) }
    ensures few { IfOk result (λ colours. length colours.items ≤ 512) }
{
    let mut colours = Vec::new(alloc);
    for v in 0..topo.nodes() {
        let colour = least_free(topo, reach, &colours, v);
        colours.push(colour)?;
    }
    Ok(colours)
}

/// The number of colours: the greatest and 1.
pub(crate) fn count_of(colours: &[u32]) -> u32
    requires low { AreLow colours.now }
    requires few { length colours.now ≤ 512 }
    ensures value { result ≡ count_of colours.now }
    ensures few { result ≤ 513 }
{
    let mut greatest = 0;
    for colour in colours {
        greatest = greatest.max(*colour);
    }
    greatest + 1
}
