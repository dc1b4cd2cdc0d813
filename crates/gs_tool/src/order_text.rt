//! The text that `order` writes: `docs/FORMATS.md`, "The text of an order".

ghost use Rattle.std.specs.Prelude.{◌≡◌, ◌++◌, OnOk, IfOk};
ghost use Rattle.gs_order.specs.declared.timed.Timed.{Timed};
ghost use Rattle.gs_tool.specs.Orders.{finished_in, order_text, with_count, with_event, with_events, with_finish};
ghost use Rattle.gs_tool.specs.Orders.{with_wait};

use crate::plan_text::write_number;
use gs_order::Timed;
use gs_plan::Plan;
use gs_script::Script;
use gs_text::Lines;
use std::alloc::{AllocError, Global};

/// All lines of these events over a plan and a script.
pub(crate) fn order_text(
    alloc: Global,
    plan: &Plan,
    script: &Script,
    events: &[Timed],
) -> Result<Lines, AllocError>
    ensures { IfOk result (λ text. text ≡ order_text plan.now script.now events.now) }
{
    let mut text = Lines::new(alloc);
    write_wait(&mut text, plan, script)?;
    write_events(&mut text, events)?;
    write_count(&mut text, events)?;
    Ok(text)
}

fn write_wait(text: &mut Lines, plan: &Plan, script: &Script) -> Result<(), AllocError>
    ensures { OnOk result (text.new ≡ with_wait text.old plan.now script.now) }
{
    write_number(text, "nodes ", u128::from(plan.topo().nodes()))?;
    write_number(text, " quanta ", u128::from(script.quanta()))?;
    write_number(text, " wait ", u128::from(plan.g_level(0)))?;
    text.end()
}

fn write_events(text: &mut Lines, events: &[Timed]) -> Result<(), AllocError>
    ensures { OnOk result (text.new ≡ with_events text.old 0 events.now) }
{
    for i in 0..events.len() {
        write_event(text, i, events[i])?;
    }
    Ok(())
}

fn write_event(text: &mut Lines, i: usize, event: Timed) -> Result<(), AllocError>
    ensures { OnOk result (text.new ≡ with_event text.old i event) }
{
    write_number(text, "event ", i as u128)?;
    write_number(text, " node ", u128::from(event.node))?;
    write_number(text, " begun ", u128::from(event.begun))?;
    write_number(text, " stamp ", u128::from(event.stamp))?;
    write_finish(text, event.finished)
}

fn write_finish(text: &mut Lines, finished: Option<u32>) -> Result<(), AllocError>
    ensures { OnOk result (text.new ≡ with_finish text.old finished) }
{
    match finished {
        None => text.word(" finished none")?,
        Some(t) => write_number(text, " finished ", u128::from(t))?,
    }
    text.end()
}

fn write_count(text: &mut Lines, events: &[Timed]) -> Result<(), AllocError>
    ensures { OnOk result (text.new ≡ with_count text.old events.now) }
{
    write_number(text, "finished ", finished_in(events) as u128)?;
    text.end()
}

/// The number of events that have finished.
fn finished_in(events: &[Timed]) -> usize
    ensures { result ≡ finished_in events.now }
{
    events
        .iter()
        .filter(|event| event.finished.is_some())
        .count()
}
