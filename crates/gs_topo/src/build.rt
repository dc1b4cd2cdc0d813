ghost use Rattle.std.specs.Prelude.{◌≡◌, ◌+◌, ◌-◌, ◌*◌, ◌<◌, ◌≤◌, ℕ, IfOk, if◌then◌else◌};
ghost use Rattle.std.specs.Prelude.{[], ◌∷◌, ◌++◌, filter, length, map};
ghost use Rattle.std.specs.List.{range_with_len};
ghost use Rattle.gs_topo.specs.Graph.{pairs_below};
ghost use Rattle.gs_topo.specs.inside.Kept.{flag_at};

use crate::flags::is_flagged;
use crate::lists::Nodes;
use std::alloc::{AllocError, Global};

/// Adds an item, if it is wanted.
pub(crate) fn push_if<T: Copy>(list: &mut Vec<T>, wanted: bool, item: T) -> Result<(), AllocError>
    ensures { IfOk result (λ _. list.new.items ≡ list.old.items ++ (if wanted then item ∷ [] else [])) }
{
    if wanted {
        list.push(item)?;
    }
    Ok(())
}

/// Adds the flagged pairs of `a` and a greater node.
fn add_edges(edges: &mut Vec<(u32, u32)>, n: u32, flags: &[bool], a: u32) -> Result<(), AllocError>
    requires square { length flags.now ≡ n * n }
    requires node { a < n }
    ensures { IfOk result (λ _. edges.new.items ≡ edges.old.items
        ++ filter (λ e. flag_at flags.now n e.0 e.1) (map (λ b. (a, b)) (range_with_len (a + 1) (n - (a + 1))))) }
{
    for b in a + 1..n {
        push_if(edges, is_flagged(flags, n, a, b), (a, b))?;
    }
    Ok(())
}

/// The flagged pairs a < b, in ascending order.
pub(crate) fn edge_list(
    alloc: Global,
    n: u32,
    flags: &[bool],
) -> Result<Vec<(u32, u32)>, AllocError>
    requires { length flags.now ≡ n * n }
    ensures { IfOk result (λ edges. edges.items ≡ filter (λ e. flag_at flags.now n e.0 e.1) (pairs_below n)) }
{
    let mut edges = Vec::new(alloc);
    for a in 0..n {
        add_edges(&mut edges, n, flags, a)?;
    }
    Ok(edges)
}

/// The nodes whose pair with `v` is flagged, in ascending order.
fn neighbours(alloc: Global, n: u32, flags: &[bool], v: u32) -> Result<Nodes, AllocError>
    requires square { length flags.now ≡ n * n }
    requires node { v < n }
    ensures { IfOk result (λ nodes. nodes ≡ filter (flag_at flags.now n v) (range_with_len 0 n)) }
{
    let mut nodes = Vec::new(alloc);
    for w in 0..n {
        push_if(&mut nodes, is_flagged(flags, n, v, w), w)?;
    }
    Ok(Nodes::from_vec(nodes))
}

/// The neighbours of each node.
pub(crate) fn neighbour_lists(
    alloc: Global,
    n: u32,
    flags: &[bool],
) -> Result<Vec<Nodes>, AllocError>
    requires { length flags.now ≡ n * n }
    ensures { IfOk result (λ lists. lists.items
        ≡ map (λ v. filter (flag_at flags.now n v) (range_with_len 0 n)) (range_with_len 0 n)) }
{
    let mut lists = Vec::new(alloc);
    for v in 0..n {
        lists.push(neighbours(alloc, n, flags, v)?)?;
    }
    Ok(lists)
}
