ghost use Rattle.std.specs.Prelude.{◌≡◌, ◌≢◌, Err, IfErr, IfOk, Ok};
ghost use Rattle.toml.specs.View.{table_view};
ghost use Rattle.gs_planfile.specs.Shapes.{grid_at, line_at, listed_at, ring_at, shape_at, shape_named};

use crate::key::{Key, PlanFileFault};
use crate::lists::edges_at;
use crate::text::Shape;
use crate::values::{number_at, value_at};
use std::alloc::Global;
use toml::{Table, Value};

fn line_at(table: &Table) -> Result<Shape, PlanFileFault>
    ensures { result ≡ line_at (table_view table.now) }
{
    let nodes = number_at(table, Key::Nodes)?;
    Ok(Shape::Line(nodes))
}

fn ring_at(table: &Table) -> Result<Shape, PlanFileFault>
    ensures { result ≡ ring_at (table_view table.now) }
{
    let nodes = number_at(table, Key::Nodes)?;
    Ok(Shape::Ring(nodes))
}

fn grid_at(table: &Table) -> Result<Shape, PlanFileFault>
    ensures { result ≡ grid_at (table_view table.now) }
{
    let rows = number_at(table, Key::Rows)?;
    let cols = number_at(table, Key::Cols)?;
    Ok(Shape::Grid(rows, cols))
}

fn listed_at(alloc: Global, table: &Table) -> Result<Shape, PlanFileFault>
    ensures ok { IfOk result (λ shape. listed_at (table_view table.now) ≡ Ok shape) }
    ensures err { IfErr result (λ e. e ≢ PlanFileFault.OutOfMemory → listed_at (table_view table.now) ≡ Err e) }
{
    let nodes = number_at(table, Key::Nodes)?;
    let edges = edges_at(alloc, table)?;
    Ok(Shape::Edges(nodes, edges))
}

fn shape_named(alloc: Global, table: &Table, name: &str) -> Result<Shape, PlanFileFault>
    ensures ok { IfOk result (λ shape. shape_named name.now (table_view table.now) ≡ Ok shape) }
    ensures err { IfErr result (λ e. e ≢ PlanFileFault.OutOfMemory
        → shape_named name.now (table_view table.now) ≡ Err e) }
{
    match name {
        "line" => line_at(table),
        "ring" => ring_at(table),
        "grid" => grid_at(table),
        "edges" => listed_at(alloc, table),
        _ => Err(PlanFileFault::Range(Key::Topology)),
    }
}

/// The shape that the topology names, with the keys that it needs.
pub(crate) fn shape_at(alloc: Global, table: &Table) -> Result<Shape, PlanFileFault>
    ensures ok { IfOk result (λ shape. shape_at (table_view table.now) ≡ Ok shape) }
    ensures err { IfErr result (λ e. e ≢ PlanFileFault.OutOfMemory → shape_at (table_view table.now) ≡ Err e) }
{
    match value_at(table, Key::Topology) {
        Some(Value::String(name)) => shape_named(alloc, table, name.as_str()),
        Some(_) => Err(PlanFileFault::Kind(Key::Topology)),
        None => Err(PlanFileFault::Missing(Key::Topology)),
    }
}
