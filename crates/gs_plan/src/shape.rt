ghost use Rattle.std.specs.Prelude.{◌≡◌, ◌≢◌, ◌+◌, ◌-◌, ◌*◌, ◌<◌, ◌≤◌, ◌++◌, IfErr, IfOk, OnOk, None, Some, option_map};
ghost use Rattle.std.specs.List.{flat_map, range_with_len};
ghost use Rattle.gs_topo.specs.Faults.{fault_of};
ghost use Rattle.gs_plan.specs.Shapes.{column_edges, graph_of_text, grid_edges, line_edges, ring_edges, row_edges, shape_edges, shape_nodes};

use crate::fault::PlanFault;
use gs_planfile::{PlanText, Shape};
use gs_topo::{MAX_NODES, TopoFault, Topology};
use std::alloc::{AllocError, Global};

/// The number of nodes of a shape.
fn shape_nodes(shape: &Shape) -> u64
    ensures { result ≡ shape_nodes shape.now }
{
    match shape {
        Shape::Line(nodes) | Shape::Ring(nodes) | Shape::Edges(nodes, _) => u64::from(*nodes),
        Shape::Grid(rows, cols) => u64::from(*rows) * u64::from(*cols),
    }
}

/// An edge from each node but the last to the next.
#[tactic(auto, using(crate::proofs::Filling::filling))]
fn line_edges(alloc: Global, nodes: u32) -> Result<Vec<(u32, u32)>, AllocError>
    ensures { IfOk result (λ edges. edges.items ≡ line_edges nodes) }
{
    let mut edges = Vec::new(alloc);
    for i in 0..nodes.saturating_sub(1) {
        edges.push((i, i + 1))?;
    }
    Ok(edges)
}

/// The line's edges and, from three nodes on, one from the first node to the last.
fn ring_edges(alloc: Global, nodes: u32) -> Result<Vec<(u32, u32)>, AllocError>
    ensures { IfOk result (λ edges. edges.items ≡ ring_edges nodes) }
{
    let mut edges = line_edges(alloc, nodes)?;
    if nodes >= 3 {
        edges.push((0, nodes - 1))?;
    }
    Ok(edges)
}

/// Adds the edges to the right of a row of a grid.
#[tactic(auto, using(crate::proofs::Filling::filling))]
fn add_row(edges: &mut Vec<(u32, u32)>, cols: u32, row: u32) -> Result<(), AllocError>
    requires { row * cols + cols ≤ 512 }
    ensures { OnOk result (edges.new.items ≡ edges.old.items ++ row_edges cols row) }
{
    for col in 0..cols.saturating_sub(1) {
        edges.push((row * cols + col, row * cols + col + 1))?;
    }
    Ok(())
}

/// Adds the edges from a row of a grid to the next.
#[tactic(auto, using(crate::proofs::Filling::filling))]
fn add_columns(edges: &mut Vec<(u32, u32)>, cols: u32, row: u32) -> Result<(), AllocError>
    requires { row * cols + cols + cols ≤ 512 }
    ensures { OnOk result (edges.new.items ≡ edges.old.items ++ column_edges cols row) }
{
    for col in 0..cols {
        edges.push((row * cols + col, row * cols + col + cols))?;
    }
    Ok(())
}

/// Adds the edges to the right of each row.
#[tactic(auto, using(crate::proofs::Filling::rows))]
fn add_rows(edges: &mut Vec<(u32, u32)>, rows: u32, cols: u32) -> Result<(), AllocError>
    requires { rows * cols ≤ 512 }
    ensures { OnOk result (edges.new.items ≡ edges.old.items ++ flat_map (row_edges cols) (range_with_len 0 rows)) }
{
    for row in 0..rows {
        add_row(edges, cols, row)?;
    }
    Ok(())
}

/// Adds the edges downwards from each row but the last.
#[tactic(auto, using(crate::proofs::Filling::rows))]
fn add_all_columns(edges: &mut Vec<(u32, u32)>, rows: u32, cols: u32) -> Result<(), AllocError>
    requires { rows * cols ≤ 512 }
    ensures { OnOk result (edges.new.items
        ≡ edges.old.items ++ flat_map (column_edges cols) (range_with_len 0 (rows - 1))) }
{
    for row in 0..rows.saturating_sub(1) {
        add_columns(edges, cols, row)?;
    }
    Ok(())
}

/// The edges of a grid, which has at most 512 nodes.
fn grid_edges(alloc: Global, rows: u32, cols: u32) -> Result<Vec<(u32, u32)>, AllocError>
    requires { rows * cols ≤ 512 }
    ensures { IfOk result (λ edges. edges.items ≡ grid_edges rows cols) }
{
    let mut edges = Vec::new(alloc);
    add_rows(&mut edges, rows, cols)?;
    add_all_columns(&mut edges, rows, cols)?;
    Ok(edges)
}

/// The edges of a shape of at most 512 nodes.
fn shape_edges(alloc: Global, shape: &Shape) -> Result<Vec<(u32, u32)>, AllocError>
    requires { shape_nodes shape.now ≤ 512 }
    ensures { IfOk result (λ edges. edges.items ≡ shape_edges shape.now) }
{
    match shape {
        Shape::Line(nodes) => line_edges(alloc, *nodes),
        Shape::Ring(nodes) => ring_edges(alloc, *nodes),
        Shape::Grid(rows, cols) => grid_edges(alloc, *rows, *cols),
        Shape::Edges(_, edges) => Vec::from_slice(alloc, edges.as_slice()),
    }
}

/// The topology of a plan's shape. The count of nodes is checked before an edge is made.
pub(crate) fn topology_of(alloc: Global, text: &PlanText) -> Result<Topology, PlanFault>
    ensures graph { IfOk result (λ topo. topo ≡ graph_of_text text.now) }
    ensures ok { OnOk result (fault_of (shape_nodes text.now.shape) (shape_edges text.now.shape) ≡ None) }
    ensures err { IfErr result (λ e. e ≢ PlanFault.OutOfMemory
        → option_map PlanFault.Topo (fault_of (shape_nodes text.now.shape) (shape_edges text.now.shape)) ≡ Some e) }
{
    let nodes = shape_nodes(&text.shape);
    if nodes == 0 || nodes > u64::from(MAX_NODES) {
        return Err(PlanFault::Topo(TopoFault::Count));
    }
    let edges = shape_edges(alloc, &text.shape)?;
    match Topology::new(alloc, nodes as u32, &edges) {
        Ok(topo) => Ok(topo),
        Err(TopoFault::OutOfMemory) => Err(PlanFault::OutOfMemory),
        Err(fault) => Err(PlanFault::Topo(fault)),
    }
}
