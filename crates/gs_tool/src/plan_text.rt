//! The text that `plan` writes: `docs/FORMATS.md`, "The text of a plan".

ghost use Rattle.std.specs.Prelude.{◌≡◌, ◌+◌, ◌<◌, ◌≤◌, ◌++◌, ℕ, length, decimal, OnOk, IfOk};
ghost use Rattle.gs_plan.specs.Plans.{text_of, graph_of};
ghost use Rattle.gs_tool.specs.PlanTexts.{edge_line, plan_text, with_best, with_edge, with_edges, with_level};
ghost use Rattle.gs_tool.specs.PlanTexts.{with_levels, with_link, with_rate, with_size, with_spans, with_terms};
ghost use Rattle.gs_tool.specs.PlanTexts.{with_times};

use gs_plan::{EdgeNumbers, Plan};
use gs_planfile::Version;
use gs_text::Lines;
use std::alloc::{AllocError, Global};

/// All lines of a plan.
pub fn plan_text(alloc: Global, plan: &Plan) -> Result<Lines, AllocError>
    ensures { IfOk result (λ text. text ≡ plan_text (text_of plan.now) (graph_of plan.now)) }
{
    let mut text = Lines::new(alloc);
    write_size(&mut text, plan)?;
    write_rate(&mut text, plan)?;
    write_times(&mut text, plan)?;
    write_link(&mut text, plan)?;
    write_terms(&mut text, plan)?;
    write_levels(&mut text, plan)?;
    write_best(&mut text, plan)?;
    write_spans(&mut text, plan)?;
    Ok(text)
}

/// A word and a number after it.
pub(crate) fn write_number(text: &mut Lines, word: &str, n: u128) -> Result<(), AllocError>
    ensures { OnOk result (text.new ≡ text.old ++ word.now ++ decimal n) }
{
    text.word(word)?;
    text.num(n)
}

fn write_size(text: &mut Lines, plan: &Plan) -> Result<(), AllocError>
    ensures { OnOk result (text.new ≡ with_size text.old (graph_of plan.now)) }
{
    let topo = plan.topo();
    write_number(text, "nodes ", u128::from(topo.nodes()))?;
    write_number(text, " edges ", topo.edges().len() as u128)?;
    write_number(text, " diameter ", u128::from(topo.diameter()))?;
    text.end()
}

fn write_rate(text: &mut Lines, plan: &Plan) -> Result<(), AllocError>
    ensures { OnOk result (text.new ≡ with_rate text.old (text_of plan.now)) }
{
    let rate = plan.rate();
    write_number(text, "rate lo ", u128::from(rate.lo()))?;
    write_number(text, " hi ", u128::from(rate.hi()))?;
    write_number(text, " mu ", u128::from(rate.mu()))?;
    write_number(text, " q ", u128::from(rate.q()))?;
    write_number(text, " top ", u128::from(rate.top()))?;
    write_number(text, " sigma ", u128::from(rate.sigma()))?;
    text.end()
}

fn write_times(text: &mut Lines, plan: &Plan) -> Result<(), AllocError>
    ensures { OnOk result (text.new ≡ with_times text.old (text_of plan.now)) }
{
    let given = plan.text();
    write_number(text, "tick ", u128::from(given.tick))?;
    write_number(text, " delay ", u128::from(given.delay_min))?;
    write_number(text, " ", u128::from(given.delay_max))?;
    write_number(text, " age ", u128::from(given.age))?;
    text.end()
}

fn write_link(text: &mut Lines, plan: &Plan) -> Result<(), AllocError>
    ensures { OnOk result (text.new ≡ with_link text.old (text_of plan.now)) }
{
    write_number(text, "kappa ", u128::from(plan.kappa()))?;
    write_number(text, " delta ", u128::from(plan.delta()))?;
    write_number(text, " comp ", u128::from(plan.comp()))?;
    text.end()
}

fn write_terms(text: &mut Lines, plan: &Plan) -> Result<(), AllocError>
    ensures { OnOk result (text.new ≡ with_terms text.old (text_of plan.now) (graph_of plan.now)) }
{
    write_number(text, "iota ", u128::from(plan.iota()))?;
    write_number(text, " lambda ", u128::from(plan.lambda()))?;
    write_number(text, " term ", u128::from(plan.rate().r()))?;
    text.end()
}

#[tactic(auto, using(crate::proofs::Growing::lines))]
fn write_levels(text: &mut Lines, plan: &Plan) -> Result<(), AllocError>
    ensures { OnOk result (text.new ≡ with_levels text.old (text_of plan.now) (graph_of plan.now)
        ((text_of plan.now).levels + 1)) }
{
    let last = plan.text().levels;
    for s in 0..last {
        write_level(text, plan, s)?;
    }
    write_level(text, plan, last)
}

fn write_level(text: &mut Lines, plan: &Plan, s: u32) -> Result<(), AllocError>
    requires { s ≤ (text_of plan.now).levels }
    ensures { OnOk result (text.new ≡ with_level text.old (text_of plan.now) (graph_of plan.now) s) }
{
    write_number(text, "level ", u128::from(s))?;
    write_number(text, " skew ", u128::from(plan.g_level(s)))?;
    write_number(text, " neighbour ", u128::from(plan.local(s)))?;
    text.end()
}

fn write_best(text: &mut Lines, plan: &Plan) -> Result<(), AllocError>
    ensures { OnOk result (text.new ≡ with_best text.old (text_of plan.now) (graph_of plan.now)) }
{
    let (s, skew) = plan.best();
    write_number(text, "best ", u128::from(s))?;
    write_number(text, " ", u128::from(skew))?;
    text.end()
}

/// The lines of the edges, which plans of version 2 have.
fn write_spans(text: &mut Lines, plan: &Plan) -> Result<(), AllocError>
    ensures { OnOk result (text.new ≡ with_spans text.old (text_of plan.now) (graph_of plan.now)) }
{
    match plan.text().version {
        Version::One => Ok(()),
        Version::Two => write_edges(text, plan),
    }
}

#[tactic(auto, using(crate::proofs::Growing::lines))]
fn write_edges(text: &mut Lines, plan: &Plan) -> Result<(), AllocError>
    ensures { OnOk result (text.new ≡ with_edges text.old (text_of plan.now) (graph_of plan.now)
        (length (graph_of plan.now).edges)) }
{
    for e in 0..plan.topo().edges().len() as u32 {
        write_edge(text, plan, e)?;
    }
    Ok(())
}

#[tactic(auto, using(crate::proofs::Growing::one_edge))]
fn write_edge(text: &mut Lines, plan: &Plan, e: u32) -> Result<(), AllocError>
    requires { e < length (graph_of plan.now).edges }
    ensures { OnOk result (text.new ≡ with_edge text.old (text_of plan.now) (graph_of plan.now) e) }
{
    let ends = plan.topo().edges()[e as usize];
    write_edge_line(text, ends, &plan.edge(e), plan.best_edge(e))
}

fn write_edge_line(
    text: &mut Lines,
    ends: (u32, u32),
    edge: &EdgeNumbers,
    best: (u32, u64),
) -> Result<(), AllocError>
    ensures { OnOk result (text.new ≡ edge_line text.old ends edge.now best) }
{
    write_number(text, "edge ", u128::from(ends.0))?;
    write_number(text, " ", u128::from(ends.1))?;
    write_number(text, " delay ", u128::from(edge.delay_min))?;
    write_number(text, " ", u128::from(edge.delay_max))?;
    write_number(text, " kappa ", u128::from(edge.kappa))?;
    write_number(text, " best ", u128::from(best.0))?;
    write_number(text, " ", u128::from(best.1))?;
    text.end()
}
