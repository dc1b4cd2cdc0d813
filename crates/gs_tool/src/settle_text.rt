//! The text that `settle` writes: `docs/FORMATS.md`, "The text of settling".

ghost use Rattle.std.specs.Prelude.{◌≡◌, ◌+◌, ◌≤◌, ◌++◌, length, OnOk, IfOk};
ghost use Rattle.gs_plan.specs.Plans.{graph_of, text_of};
ghost use Rattle.gs_level.specs.ReportText.{with_fast};
ghost use Rattle.gs_tool.specs.Settled.{quantum_text, settled_text, with_gamma, with_time, with_times};

use crate::plan_text::write_number;
use gs_plan::Plan;
use gs_settle::Settled;
use gs_text::Lines;
use std::alloc::{AllocError, Global};

/// All lines of how the levels of a plan settled over `quanta` quanta.
pub(crate) fn settled_text(
    alloc: Global,
    plan: &Plan,
    quanta: u32,
    gamma: u64,
    settled: &Settled,
) -> Result<Lines, AllocError>
    requires times { length settled.now.times.items ≡ (text_of plan.now).levels + 1 }
    requires last { length settled.now.last.items ≡ (text_of plan.now).levels + 1 }
    ensures { IfOk result (λ text. text
        ≡ settled_text plan.now quanta gamma settled.now.times.items settled.now.last.items settled.now.fast) }
{
    let mut text = Lines::new(alloc);
    write_gamma(&mut text, plan, quanta, gamma)?;
    write_times(&mut text, plan, &settled.times, &settled.last)?;
    write_fast(&mut text, settled.fast)?;
    Ok(text)
}

fn write_gamma(text: &mut Lines, plan: &Plan, quanta: u32, gamma: u64) -> Result<(), AllocError>
    ensures { OnOk result (text.new ≡ with_gamma text.old (graph_of plan.now) quanta gamma) }
{
    let topo = plan.topo();
    write_number(text, "nodes ", u128::from(topo.nodes()))?;
    write_number(text, " edges ", topo.edges().len() as u128)?;
    write_number(text, " quanta ", u128::from(quanta))?;
    write_number(text, " gamma ", u128::from(gamma))?;
    text.end()
}

#[tactic(auto, using(crate::proofs::SettleTexts::times))]
fn write_times(
    text: &mut Lines,
    plan: &Plan,
    times: &[u128],
    last: &[Option<u32>],
) -> Result<(), AllocError>
    requires times { length times.now ≡ (text_of plan.now).levels + 1 }
    requires last { length last.now ≡ (text_of plan.now).levels + 1 }
    ensures { OnOk result
        (text.new ≡ with_times text.old plan.now times.now last.now ((text_of plan.now).levels + 1)) }
{
    let levels = plan.text().levels + 1;
    for s in 0..levels {
        write_time(text, plan, s, times[s as usize], last[s as usize])?;
    }
    Ok(())
}

fn write_time(
    text: &mut Lines,
    plan: &Plan,
    s: u32,
    time: u128,
    last: Option<u32>,
) -> Result<(), AllocError>
    requires { s ≤ (text_of plan.now).levels }
    ensures { OnOk result (text.new ≡ with_time text.old plan.now s time last) }
{
    write_number(text, "level ", u128::from(s))?;
    write_number(text, " time ", time)?;
    write_number(text, " bound ", u128::from(plan.g_level(s)))?;
    text.word(" last ")?;
    write_quantum(text, last)?;
    text.end()
}

fn write_quantum(text: &mut Lines, quantum: Option<u32>) -> Result<(), AllocError>
    ensures { OnOk result (text.new ≡ text.old ++ quantum_text quantum) }
{
    match quantum {
        Some(t) => text.num(u128::from(t)),
        None => text.word("none"),
    }
}

fn write_fast(text: &mut Lines, fast: u64) -> Result<(), AllocError>
    ensures { OnOk result (text.new ≡ with_fast text.old fast) }
{
    write_number(text, "fast ", u128::from(fast))?;
    text.end()
}
