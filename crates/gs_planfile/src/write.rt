ghost use Rattle.std.specs.Prelude.{◌≡◌, ◌<◌, ◌^◌, All, IfOk, IfSome, OnOk, Ok, Some, map, pos};
ghost use Rattle.std.specs.List.{AllByRecursion};
ghost use Rattle.toml.specs.Data.{integer, string};
ghost use Rattle.toml.specs.Parse.{parse_document};
ghost use Rattle.toml.specs.View.{table_view, view};
ghost use Rattle.gs_planfile.specs.Meaning.{plan_of};
ghost use Rattle.gs_planfile.specs.Texts.{IsText, KappaFits, newest};
ghost use Rattle.gs_planfile.specs.Writing.{EdgeFits, Fits, RatesFit, ShapeFits, SpanFits, TimesFit};
ghost use Rattle.gs_planfile.specs.Writing.{edge_data, edges_data, span_data, written};
ghost use Rattle.gs_planfile.specs.Writing.{put, put_kappa, put_number, put_rates, put_shape, put_spans, put_times};

use crate::key::Key;
use crate::text::{EdgeSpan, PlanText, Shape};
use std::alloc::{AllocError, Global};
use toml::{Table, Value};

// `fits` says what the types of a text's numbers say, as far as the code has read them: a number is
// read back only where it is below 2^32.

/// Sets the value of a key.
fn put_value(alloc: Global, table: &mut Table, key: Key, value: Value) -> Result<(), AllocError>
    ensures { OnOk result (table_view table.new ≡ put key (view value) (table_view table.old)) }
{
    let name = String::from_str(alloc, key.name())?;
    table.insert(name, value)?;
    Ok(())
}

/// A number as a value.
fn integer(n: u32) -> Value
    ensures view { view result ≡ integer (pos n) }
    ensures fits { n < 2 ^ 32 }
{
    Value::Integer(i64::from(n))
}

/// Sets a key to a number.
fn put_number(alloc: Global, table: &mut Table, key: Key, n: u32) -> Result<(), AllocError>
    ensures set { OnOk result (table_view table.new ≡ put_number key n (table_view table.old)) }
    ensures fits { n < 2 ^ 32 }
{
    put_value(alloc, table, key, integer(n))
}

/// Sets the topology to a name.
fn put_topology(alloc: Global, table: &mut Table, name: &str) -> Result<(), AllocError>
    ensures { OnOk result (table_view table.new ≡ put Key.Topology (string name.now) (table_view table.old)) }
{
    let name = String::from_str(alloc, name)?;
    put_value(alloc, table, Key::Topology, Value::String(name))
}

/// An edge as an array of two integers.
fn edge_value(alloc: Global, edge: (u32, u32)) -> Result<Value, AllocError>
    ensures view { IfOk result (λ v. view v ≡ edge_data edge) }
    ensures fits { OnOk result (EdgeFits edge) }
{
    let (a, b) = edge;
    Ok(Value::Array(vec![in alloc; integer(a), integer(b)]?))
}

/// Sets the list of edges.
fn put_edges(alloc: Global, table: &mut Table, edges: &[(u32, u32)]) -> Result<(), AllocError>
    ensures set { OnOk result (table_view table.new ≡ put Key.Edges (edges_data edges.now) (table_view table.old)) }
    ensures fits { OnOk result (AllByRecursion EdgeFits edges.now) }
{
    let mut items = Vec::new(alloc);
    for edge in edges {
        items.push(edge_value(alloc, *edge)?)?;
    }
    put_value(alloc, table, Key::Edges, Value::Array(items))
}

/// Sets the topology and the keys that it needs.
#[tactic(auto, unfolding(crate::specs::Writing::put_shape))]
fn put_shape(alloc: Global, table: &mut Table, shape: &Shape) -> Result<(), AllocError>
    ensures set { OnOk result (table_view table.new ≡ put_shape shape.now (table_view table.old)) }
    ensures fits { OnOk result (ShapeFits shape.now) }
{
    match shape {
        Shape::Line(nodes) => {
            put_topology(alloc, table, "line")?;
            put_number(alloc, table, Key::Nodes, *nodes)
        }
        Shape::Ring(nodes) => {
            put_topology(alloc, table, "ring")?;
            put_number(alloc, table, Key::Nodes, *nodes)
        }
        Shape::Grid(rows, cols) => {
            put_topology(alloc, table, "grid")?;
            put_number(alloc, table, Key::Rows, *rows)?;
            put_number(alloc, table, Key::Cols, *cols)
        }
        Shape::Edges(nodes, edges) => {
            put_topology(alloc, table, "edges")?;
            put_number(alloc, table, Key::Nodes, *nodes)?;
            put_edges(alloc, table, edges.as_slice())
        }
    }
}

/// Sets the numbers of the rate.
fn put_rates(alloc: Global, table: &mut Table, text: &PlanText) -> Result<(), AllocError>
    ensures set { OnOk result (table_view table.new ≡ put_rates text.now (table_view table.old)) }
    ensures fits { OnOk result (RatesFit text.now) }
{
    put_number(alloc, table, Key::Lo, text.lo)?;
    put_number(alloc, table, Key::Hi, text.hi)?;
    put_number(alloc, table, Key::Mu, text.mu)
}

/// Sets the numbers of ticks and beacons.
fn put_times(alloc: Global, table: &mut Table, text: &PlanText) -> Result<(), AllocError>
    ensures set { OnOk result (table_view table.new ≡ put_times text.now (table_view table.old)) }
    ensures fits { OnOk result (TimesFit text.now) }
{
    put_number(alloc, table, Key::Tick, text.tick)?;
    put_number(alloc, table, Key::DelayMin, text.delay_min)?;
    put_number(alloc, table, Key::DelayMax, text.delay_max)?;
    put_number(alloc, table, Key::Every, text.every)?;
    put_number(alloc, table, Key::Losses, text.losses)?;
    put_number(alloc, table, Key::Age, text.age)
}

/// Sets a kappa that is given.
#[tactic(auto, unfolding(crate::specs::Writing::put_kappa))]
fn put_kappa(alloc: Global, table: &mut Table, kappa: Option<u64>) -> Result<(), AllocError>
    requires { IfSome kappa (λ k. k < 2 ^ 62) }
    ensures { OnOk result (table_view table.new ≡ put_kappa kappa (table_view table.old)) }
{
    match kappa {
        Some(kappa) => put_value(alloc, table, Key::Kappa, Value::Integer(kappa as i64)),
        None => Ok(()),
    }
}

/// A span as an array of four or five integers.
fn span_value(alloc: Global, span: &EdgeSpan) -> Result<Value, AllocError>
    requires { KappaFits span.now }
    ensures view { IfOk result (λ v. view v ≡ span_data span.now) }
    ensures fits { OnOk result (SpanFits span.now) }
{
    let mut items = vec![in alloc;
        integer(span.a),
        integer(span.b),
        integer(span.delay_min),
        integer(span.delay_max),
    ]?;
    if let Some(kappa) = span.kappa {
        items.push(Value::Integer(kappa as i64))?;
    }
    Ok(Value::Array(items))
}

/// Sets the list of spans, where there are any.
#[tactic(auto, unfolding(crate::specs::Writing::put_spans))]
fn put_spans(alloc: Global, table: &mut Table, spans: &[EdgeSpan]) -> Result<(), AllocError>
    requires { All KappaFits spans.now }
    ensures set { OnOk result (table_view table.new ≡ put_spans spans.now (table_view table.old)) }
    ensures fits { OnOk result (AllByRecursion SpanFits spans.now) }
{
    if spans.is_empty() {
        return Ok(());
    }
    let items = span_values(alloc, spans)?;
    put_value(alloc, table, Key::Spans, Value::Array(items))
}

/// The spans as values, in their order.
fn span_values(alloc: Global, spans: &[EdgeSpan]) -> Result<Vec<Value>, AllocError>
    requires { All KappaFits spans.now }
    ensures view { IfOk result (λ items. map view items.items ≡ map span_data spans.now) }
    ensures fits { OnOk result (AllByRecursion SpanFits spans.now) }
{
    let mut items = Vec::new(alloc);
    for span in spans {
        items.push(span_value(alloc, span)?)?;
    }
    Ok(items)
}

/// The table of a text, in version 2.
fn table_of(alloc: Global, text: &PlanText) -> Result<Table, AllocError>
    requires { IsText text.now }
    ensures view { IfOk result (λ t. table_view t ≡ written text.now) }
    ensures fits { OnOk result (Fits text.now) }
{
    let mut table = Table::new(alloc);
    put_number(alloc, &mut table, Key::Version, 2)?;
    put_number(alloc, &mut table, Key::Cluster, text.cluster)?;
    put_shape(alloc, &mut table, &text.shape)?;
    put_rates(alloc, &mut table, text)?;
    put_times(alloc, &mut table, text)?;
    put_kappa(alloc, &mut table, text.kappa)?;
    put_number(alloc, &mut table, Key::Levels, text.levels)?;
    put_number(alloc, &mut table, Key::Port, text.port)?;
    put_spans(alloc, &mut table, text.spans.as_slice())?;
    Ok(table)
}

/// Writes a plan file of version 2 that says the same. An absent kappa and an empty list of spans
/// are left out.
pub fn migrate(alloc: Global, text: &PlanText) -> Result<Vec<u8>, AllocError>
    requires { IsText text.now }
    ensures plan { IfOk result (λ bytes. plan_of bytes.items ≡ Ok (newest text.now)) }
    ensures document { IfOk result (λ bytes. parse_document bytes.items ≡ Some (written text.now)) }
{
    let table = table_of(alloc, text)?;
    match toml::table_to_string(alloc, &table) {
        Ok(text) => Ok(text.into_bytes()),
        Err(toml::ser::Error::OutOfMemory) => Err(AllocError),
        // No date is written.
        Err(toml::ser::Error::DateInvalid) => unreachable!(),
    }
}
