ghost use Rattle.std.specs.Prelude.{◌≡◌, IfOk};
ghost use Rattle.gs_plan.specs.Plans.{graph_of, text_of};
ghost use Rattle.gs_trace.specs.Starts.{FitsWorld};
ghost use Rattle.gs_trace.specs.Worlds.{event_bytes, head_bytes};

use crate::numbers::{push_all_u32, push_all_u64, push_u32, push_u64};
use crate::start::WorldStart;
use gs_core::Event;
use gs_plan::Plan;
use std::alloc::{AllocError, Global};

/// "GCSW", the version 1 and 0, as a big-endian number.
pub(crate) const TAG: u64 = 0x4743_5357_0001_0000;

/// The head of the trace of a world of this plan: `docs/FORMATS.md`, "The trace of a world".
pub fn world_head(alloc: Global, plan: &Plan, start: &WorldStart) -> Result<Vec<u8>, AllocError>
    requires { FitsWorld (graph_of plan.now).nodes start.now }
    ensures { IfOk result
        (λ bytes. bytes.items ≡ head_bytes (text_of plan.now).cluster (graph_of plan.now).nodes start.now) }
{
    let mut bytes = Vec::new(alloc);
    push_u64(&mut bytes, TAG)?;
    push_u32(&mut bytes, plan.text().cluster)?;
    push_u32(&mut bytes, plan.topo().nodes())?;
    push_u64(&mut bytes, start.l0)?;
    push_all_u64(&mut bytes, start.hw.as_slice())?;
    Ok(bytes)
}

/// An event in the trace of a world.
pub fn world_event(alloc: Global, event: &Event) -> Result<Vec<u8>, AllocError>
    ensures { IfOk result (λ bytes. bytes.items ≡ event_bytes event.now) }
{
    let mut bytes = Vec::new(alloc);
    match event {
        Event::Quantum(incs) => {
            bytes.push(1)?;
            push_all_u32(&mut bytes, incs.as_slice())?;
        }
        Event::Tick(v) => {
            bytes.push(2)?;
            push_u32(&mut bytes, *v)?;
        }
        Event::Deliver { from, to, seq } => {
            bytes.push(3)?;
            push_u32(&mut bytes, *from)?;
            push_u32(&mut bytes, *to)?;
            push_u64(&mut bytes, *seq)?;
        }
    }
    Ok(bytes)
}
