ghost use Rattle.std.specs.Prelude.{◌≡◌, ◌≢◌, ◌<◌, ◌^◌, All, Err, IfErr, IfOk, IfSome, Ok, map, []};
ghost use Rattle.std.specs.List.{list_all};
ghost use Rattle.toml.specs.Data.{at};
ghost use Rattle.toml.specs.View.{table_view, view};
ghost use Rattle.gs_planfile.specs.Lists.{each, edge_of, edges_at, edges_of, is_edge, is_integer, is_span};
ghost use Rattle.gs_planfile.specs.Lists.{list_of, number_in, span_of, spans_at, spans_of};
ghost use Rattle.gs_planfile.specs.Texts.{KappaFits};
ghost use Rattle.gs_planfile.specs.Values.{optional_kappa};

use crate::key::{Key, PlanFileFault};
use crate::text::{EdgeList, EdgeSpan, Spans, Version};
use crate::values::{kappa_of, number_of, value_at};
use std::alloc::Global;
use toml::{Table, Value};

/// The number at a place of an array.
fn number_in(key: Key, i: usize, value: &Value) -> Result<u32, PlanFileFault>
    ensures { result ≡ number_in key i (view value.now) }
{
    match value.get(i) {
        Some(item) => number_of(key, item),
        None => Err(PlanFileFault::Kind(key)),
    }
}

/// The kappa at a place of an array, where the array is so long.
fn optional_kappa_in(key: Key, i: usize, value: &Value) -> Result<Option<u64>, PlanFileFault>
    ensures value { result ≡ optional_kappa key (at i (view value.now)) }
    ensures fits { IfOk result (λ o. IfSome o (λ kappa. kappa < 2 ^ 62)) }
{
    match value.get(i) {
        Some(item) => Ok(Some(kappa_of(key, item)?)),
        None => Ok(None),
    }
}

fn is_integer(value: &Value) -> bool
    ensures { result ≡ is_integer (view value.now) }
{
    matches!(value, Value::Integer(_))
}

fn all_integers(items: &[Value]) -> bool
    ensures { result ≡ list_all (λ v. is_integer (view v)) items.now }
{
    items.iter().all(|item| is_integer(item))
}

#[tactic(auto, using(crate::proofs::Views::arrays))]
fn is_edge(value: &Value) -> bool
    ensures { result ≡ is_edge (view value.now) }
{
    match value {
        Value::Array(items) => items.len() == 2 && all_integers(items.as_slice()),
        _ => false,
    }
}

#[tactic(auto, using(crate::proofs::Views::arrays))]
fn is_span(value: &Value) -> bool
    ensures { result ≡ is_span (view value.now) }
{
    match value {
        Value::Array(items) => {
            (items.len() == 4 || items.len() == 5) && all_integers(items.as_slice())
        }
        _ => false,
    }
}

fn are_edges(items: &[Value]) -> bool
    ensures { result ≡ list_all (λ v. is_edge (view v)) items.now }
{
    items.iter().all(|item| is_edge(item))
}

fn are_spans(items: &[Value]) -> bool
    ensures { result ≡ list_all (λ v. is_span (view v)) items.now }
{
    items.iter().all(|item| is_span(item))
}

fn edge_of(value: &Value) -> Result<(u32, u32), PlanFileFault>
    ensures { result ≡ edge_of (view value.now) }
{
    let a = number_in(Key::Edges, 0, value)?;
    let b = number_in(Key::Edges, 1, value)?;
    Ok((a, b))
}

#[tactic(auto, unfolding(crate::specs::Lists::span_of))]
fn span_of(value: &Value) -> Result<EdgeSpan, PlanFileFault>
    ensures value { result ≡ span_of (view value.now) }
    ensures fits { IfOk result KappaFits }
{
    let a = number_in(Key::Spans, 0, value)?;
    let b = number_in(Key::Spans, 1, value)?;
    let delay_min = number_in(Key::Spans, 2, value)?;
    let delay_max = number_in(Key::Spans, 3, value)?;
    let kappa = optional_kappa_in(Key::Spans, 4, value)?;
    Ok(EdgeSpan {
        a,
        b,
        delay_min,
        delay_max,
        kappa,
    })
}

#[tactic(auto, using(crate::proofs::Views::steps))]
fn each_edge(alloc: Global, items: &[Value]) -> Result<Vec<(u32, u32)>, PlanFileFault>
    ensures ok { IfOk result (λ edges. each edge_of (map view items.now) ≡ Ok edges.items) }
    ensures err { IfErr result (λ e. e ≢ PlanFileFault.OutOfMemory → each edge_of (map view items.now) ≡ Err e) }
{
    let mut edges = Vec::new(alloc);
    for item in items {
        let edge = edge_of(item)?;
        if edges.push(edge).is_err() {
            return Err(PlanFileFault::OutOfMemory);
        }
    }
    Ok(edges)
}

#[tactic(auto, using(crate::proofs::Views::steps))]
fn each_span(alloc: Global, items: &[Value]) -> Result<Vec<EdgeSpan>, PlanFileFault>
    ensures ok { IfOk result (λ spans. each span_of (map view items.now) ≡ Ok spans.items) }
    ensures err { IfErr result (λ e. e ≢ PlanFileFault.OutOfMemory → each span_of (map view items.now) ≡ Err e) }
    ensures fits { IfOk result (λ spans. All KappaFits spans.items) }
{
    let mut spans = Vec::new(alloc);
    for item in items {
        let span = span_of(item)?;
        if spans.push(span).is_err() {
            return Err(PlanFileFault::OutOfMemory);
        }
    }
    Ok(spans)
}

#[tactic(auto, using(crate::proofs::Views::tests))]
fn edges_in(alloc: Global, items: &[Value]) -> Result<EdgeList, PlanFileFault>
    ensures ok { IfOk result (λ edges. list_of Key.Edges is_edge edge_of (map view items.now) ≡ Ok edges) }
    ensures err { IfErr result (λ e. e ≢ PlanFileFault.OutOfMemory
        → list_of Key.Edges is_edge edge_of (map view items.now) ≡ Err e) }
{
    if !are_edges(items) {
        return Err(PlanFileFault::Kind(Key::Edges));
    }
    Ok(EdgeList::from_vec(each_edge(alloc, items)?))
}

#[tactic(auto, using(crate::proofs::Views::arrays))]
fn edges_of(alloc: Global, value: &Value) -> Result<EdgeList, PlanFileFault>
    ensures ok { IfOk result (λ edges. edges_of (view value.now) ≡ Ok edges) }
    ensures err { IfErr result (λ e. e ≢ PlanFileFault.OutOfMemory → edges_of (view value.now) ≡ Err e) }
{
    match value {
        Value::Array(items) => edges_in(alloc, items.as_slice()),
        _ => Err(PlanFileFault::Kind(Key::Edges)),
    }
}

#[tactic(auto, using(crate::proofs::Views::tests))]
fn spans_in(alloc: Global, items: &[Value]) -> Result<Spans, PlanFileFault>
    ensures ok { IfOk result (λ spans. list_of Key.Spans is_span span_of (map view items.now) ≡ Ok spans) }
    ensures err { IfErr result (λ e. e ≢ PlanFileFault.OutOfMemory
        → list_of Key.Spans is_span span_of (map view items.now) ≡ Err e) }
    ensures fits { IfOk result (All KappaFits) }
{
    if !are_spans(items) {
        return Err(PlanFileFault::Kind(Key::Spans));
    }
    Ok(Spans::from_vec(each_span(alloc, items)?))
}

#[tactic(auto, using(crate::proofs::Views::arrays))]
fn spans_of(alloc: Global, value: &Value) -> Result<Spans, PlanFileFault>
    ensures ok { IfOk result (λ spans. spans_of (view value.now) ≡ Ok spans) }
    ensures err { IfErr result (λ e. e ≢ PlanFileFault.OutOfMemory → spans_of (view value.now) ≡ Err e) }
    ensures fits { IfOk result (All KappaFits) }
{
    match value {
        Value::Array(items) => spans_in(alloc, items.as_slice()),
        _ => Err(PlanFileFault::Kind(Key::Spans)),
    }
}

/// The edges, which are needed where the topology lists them.
pub(crate) fn edges_at(alloc: Global, table: &Table) -> Result<EdgeList, PlanFileFault>
    ensures ok { IfOk result (λ edges. edges_at (table_view table.now) ≡ Ok edges) }
    ensures err { IfErr result (λ e. e ≢ PlanFileFault.OutOfMemory → edges_at (table_view table.now) ≡ Err e) }
{
    match value_at(table, Key::Edges) {
        Some(value) => edges_of(alloc, value),
        None => Err(PlanFileFault::Missing(Key::Edges)),
    }
}

/// The spans, at which version 1 does not look.
pub(crate) fn spans_at(
    alloc: Global,
    version: Version,
    table: &Table,
) -> Result<Spans, PlanFileFault>
    ensures ok { IfOk result (λ spans. spans_at version (table_view table.now) ≡ Ok spans) }
    ensures err { IfErr result (λ e. e ≢ PlanFileFault.OutOfMemory → spans_at version (table_view table.now) ≡ Err e) }
    ensures fits { IfOk result (All KappaFits) }
    ensures none { IfOk result (λ spans. version ≡ Version.One → spans ≡ []) }
{
    match version {
        Version::One => Ok(Spans::from_vec(Vec::new(alloc))),
        Version::Two => match value_at(table, Key::Spans) {
            Some(value) => spans_of(alloc, value),
            None => Ok(Spans::from_vec(Vec::new(alloc))),
        },
    }
}
