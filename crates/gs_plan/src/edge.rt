ghost use Rattle.std.specs.Prelude.{◌≡◌, IfOk, map};
ghost use Rattle.std.specs.Option.{option_map_or};
ghost use Rattle.gs_plan.specs.Edges.{own_given, span_given};

use gs_planfile::{EdgeSpan, PlanText};
use std::alloc::{AllocError, Global};

/// What a plan says of an edge.
#[derive(Clone, Copy, Debug, PartialEq, Eq)]
pub(crate) struct EdgeGiven {
    pub(crate) delay_min: u32,
    pub(crate) delay_max: u32,
    /// The kappa that is given.
    pub(crate) kappa: Option<u64>,
}

/// The numbers of an edge: delays in quanta, all else in clock units.
#[derive(Clone, Copy, Debug, PartialEq, Eq)]
pub struct EdgeNumbers {
    /// The least delay of a beacon.
    pub delay_min: u32,
    /// The greatest delay of a beacon.
    pub delay_max: u32,
    /// The skew that one level of the gradient allows.
    pub kappa: u64,
    /// How far an offset may be off when it is used.
    pub delta: u64,
    /// What a beacon's clock is raised by for its way.
    pub comp: u64,
    /// What a beacon's maximum is raised by for its way.
    pub jump: u64,
}

/// What the plan itself says of its edges.
pub(crate) fn own_given(text: &PlanText) -> EdgeGiven
    ensures { result ≡ own_given text.now }
{
    EdgeGiven {
        delay_min: text.delay_min,
        delay_max: text.delay_max,
        kappa: text.kappa,
    }
}

/// What a span says of its edge.
pub(crate) fn span_given(span: &EdgeSpan) -> EdgeGiven
    ensures { result ≡ span_given span.now }
{
    EdgeGiven {
        delay_min: span.delay_min,
        delay_max: span.delay_max,
        kappa: span.kappa,
    }
}

/// What the plan says of an edge with this span.
fn edge_given(text: &PlanText, span: Option<EdgeSpan>) -> EdgeGiven
    ensures { result ≡ option_map_or span_given span (own_given text.now) }
{
    match span {
        Some(span) => span_given(&span),
        None => own_given(text),
    }
}

/// What the plan says of each edge, where these are their spans.
pub(crate) fn edges_given(
    alloc: Global,
    text: &PlanText,
    spans: &[Option<EdgeSpan>],
) -> Result<Vec<EdgeGiven>, AllocError>
    ensures { IfOk result (λ texts.
        texts.items ≡ map (λ span. option_map_or span_given span (own_given text.now)) spans.now) }
{
    let mut texts = Vec::new(alloc);
    for span in spans {
        texts.push(edge_given(text, *span))?;
    }
    Ok(texts)
}
