//! The text that `slots` writes: `docs/FORMATS.md`, "The text of a slot plan".

ghost use Rattle.std.specs.Prelude.{◌≡◌, ◌<◌, length, OnOk, IfOk};
ghost use Rattle.gs_plan.specs.Plans.{graph_of};
ghost use Rattle.gs_tool.specs.Slotted.{slots_text, with_node, with_nodes, with_slots};

use crate::plan_text::write_number;
use gs_plan::Plan;
use gs_tdma::SlotPlan;
use gs_text::Lines;
use std::alloc::{AllocError, Global};

/// All lines of a slot plan of this reach, with the count of quanta at whose end each node may send.
pub(crate) fn slots_text(
    alloc: Global,
    plan: &Plan,
    slots: &SlotPlan,
    reach: u32,
    sent: &[u32],
) -> Result<Lines, AllocError>
    requires colours { length slots.now.colours ≡ (graph_of plan.now).nodes }
    requires reach { slots.now.reach ≡ reach }
    requires sent { length sent.now ≡ (graph_of plan.now).nodes }
    ensures { IfOk result (λ text. text ≡ slots_text (graph_of plan.now) slots.now sent.now) }
{
    let mut text = Lines::new(alloc);
    write_slots(&mut text, plan, slots, reach)?;
    write_nodes(&mut text, plan, slots, sent)?;
    Ok(text)
}

fn write_slots(
    text: &mut Lines,
    plan: &Plan,
    slots: &SlotPlan,
    reach: u32,
) -> Result<(), AllocError>
    requires { slots.now.reach ≡ reach }
    ensures { OnOk result (text.new ≡ with_slots text.old (graph_of plan.now) slots.now) }
{
    write_number(text, "nodes ", u128::from(plan.topo().nodes()))?;
    write_number(text, " colours ", u128::from(slots.colours()))?;
    write_number(text, " slot ", u128::from(slots.slot()))?;
    write_number(text, " guard ", u128::from(slots.guard()))?;
    write_number(text, " reach ", u128::from(reach))?;
    text.end()
}

#[tactic(auto, using(crate::proofs::SlotTexts::nodes))]
fn write_nodes(
    text: &mut Lines,
    plan: &Plan,
    slots: &SlotPlan,
    sent: &[u32],
) -> Result<(), AllocError>
    requires colours { length slots.now.colours ≡ (graph_of plan.now).nodes }
    requires sent { length sent.now ≡ (graph_of plan.now).nodes }
    ensures { OnOk result (text.new ≡ with_nodes text.old slots.now sent.now (graph_of plan.now).nodes) }
{
    for v in 0..plan.topo().nodes() {
        write_node(text, slots, v, sent[v as usize])?;
    }
    Ok(())
}

fn write_node(text: &mut Lines, slots: &SlotPlan, v: u32, sent: u32) -> Result<(), AllocError>
    requires { v < length slots.now.colours }
    ensures { OnOk result (text.new ≡ with_node text.old slots.now v sent) }
{
    write_number(text, "node ", u128::from(v))?;
    write_number(text, " colour ", u128::from(slots.colour(v)))?;
    write_number(text, " sent ", u128::from(sent))?;
    text.end()
}
