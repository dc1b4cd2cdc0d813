//! The text of a report: `docs/FORMATS.md`, "The text of a report".

ghost use Rattle.std.specs.Prelude.{◌≡◌, ◌+◌, ◌≤◌, ◌++◌, length, decimal, OnOk, IfOk};
ghost use Rattle.gs_plan.specs.Plans.{text_of, graph_of};
ghost use Rattle.gs_level.specs.ReportText.{report_text, with_best, with_edge, with_fast, with_global, with_level, with_levels, with_near, with_size};

use crate::peak::Peak;
use crate::report::Report;
use gs_plan::Plan;
use gs_text::Lines;
use std::alloc::{AllocError, Global};

/// All lines of a report.
pub(crate) fn report_text(alloc: Global, plan: &Plan, report: &Report) -> Result<Lines, AllocError>
    requires { length report.now.levels ≡ (text_of plan.now).levels + 1 }
    ensures { IfOk result (λ text. text ≡ report_text (text_of plan.now) (graph_of plan.now) report.now) }
{
    let mut text = Lines::new(alloc);
    write_size(&mut text, plan, report.quanta)?;
    write_global(&mut text, plan, report.global, report.global_at)?;
    write_near(
        &mut text,
        plan,
        report.near,
        report.near_at,
        report.near_edge,
    )?;
    write_levels(&mut text, plan, report.levels.as_slice())?;
    write_fast(&mut text, report.fast)?;
    Ok(text)
}

fn write_number(text: &mut Lines, word: &str, n: u64) -> Result<(), AllocError>
    ensures { OnOk result (text.new ≡ text.old ++ word.now ++ decimal n) }
{
    text.word(word)?;
    text.num(u128::from(n))
}

fn write_size(text: &mut Lines, plan: &Plan, quanta: u32) -> Result<(), AllocError>
    ensures { OnOk result (text.new ≡ with_size text.old (graph_of plan.now) quanta) }
{
    let topo = plan.topo();
    write_number(text, "nodes ", u64::from(topo.nodes()))?;
    write_number(text, " edges ", topo.edges().len() as u64)?;
    write_number(text, " quanta ", u64::from(quanta))?;
    text.end()
}

fn write_global(text: &mut Lines, plan: &Plan, skew: u64, at: u32) -> Result<(), AllocError>
    ensures { OnOk result (text.new ≡ with_global text.old (text_of plan.now) (graph_of plan.now) skew at) }
{
    write_number(text, "global ", skew)?;
    write_number(text, " at ", u64::from(at))?;
    write_number(text, " bound ", plan.g_level(0))?;
    text.end()
}

fn write_near(
    text: &mut Lines,
    plan: &Plan,
    skew: u64,
    at: u32,
    edge: Option<(u32, u32)>,
) -> Result<(), AllocError>
    ensures { OnOk result (text.new ≡ with_near text.old (text_of plan.now) (graph_of plan.now) skew at edge) }
{
    write_number(text, "neighbour ", skew)?;
    write_number(text, " at ", u64::from(at))?;
    write_edge(text, edge)?;
    write_best(text, plan)
}

fn write_edge(text: &mut Lines, edge: Option<(u32, u32)>) -> Result<(), AllocError>
    ensures { OnOk result (text.new ≡ with_edge text.old edge) }
{
    match edge {
        None => text.word(" edge none"),
        Some((v, w)) => {
            write_number(text, " edge ", u64::from(v))?;
            write_number(text, " ", u64::from(w))
        }
    }
}

fn write_best(text: &mut Lines, plan: &Plan) -> Result<(), AllocError>
    ensures { OnOk result (text.new ≡ with_best text.old (text_of plan.now) (graph_of plan.now)) }
{
    let (s, skew) = plan.best();
    write_number(text, " bound ", skew)?;
    write_number(text, " level ", u64::from(s))?;
    text.end()
}

fn write_levels(text: &mut Lines, plan: &Plan, peaks: &[Peak]) -> Result<(), AllocError>
    requires { length peaks.now ≡ (text_of plan.now).levels + 1 }
    ensures { OnOk result (text.new ≡ with_levels text.old (text_of plan.now) (graph_of plan.now) 0 peaks.now) }
{
    for s in 0..peaks.len() {
        write_level(text, plan, s as u32, peaks[s])?;
    }
    Ok(())
}

fn write_level(text: &mut Lines, plan: &Plan, s: u32, peak: Peak) -> Result<(), AllocError>
    requires { s ≤ (text_of plan.now).levels }
    ensures { OnOk result (text.new ≡ with_level text.old (text_of plan.now) (graph_of plan.now) s peak) }
{
    write_number(text, "level ", u64::from(s))?;
    write_number(text, " potential ", peak.value)?;
    write_number(text, " pair ", u64::from(peak.v))?;
    write_number(text, " ", u64::from(peak.w))?;
    write_number(text, " bound ", plan.g_level(s))?;
    text.end()
}

fn write_fast(text: &mut Lines, fast: u64) -> Result<(), AllocError>
    ensures { OnOk result (text.new ≡ with_fast text.old fast) }
{
    write_number(text, "fast ", fast)?;
    text.end()
}
