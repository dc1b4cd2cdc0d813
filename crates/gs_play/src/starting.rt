ghost use Rattle.std.specs.Prelude.{◌≡◌, ◌+◌, ◌*◌, ◌<◌, ◌≤◌, ℕ, length, IfOk};
ghost use Rattle.gs_plan.specs.Plans.{text_of};
ghost use Rattle.gs_run.specs.Nets.{net_of};
ghost use Rattle.gs_calendar.specs.Course.{course_of};
ghost use Rattle.gs_calendar.specs.Scripts.{IsReadFor};
ghost use Rattle.gs_play.specs.inside.Pieces.{ArePiecesIn};

use gs_piece::Piece;
use gs_plan::Plan;
use gs_script::Script;
use std::alloc::{AllocError, Global};

/// All nodes at the start of a script, in pieces of `size` nodes.
pub(crate) fn pieces_of(
    alloc: Global,
    plan: &Plan,
    script: &Script,
    size: u32,
) -> Result<Vec<Piece>, AllocError>
    requires read { IsReadFor (text_of plan.now) script.now }
    requires size { 0 < size }
    ensures few { IfOk result (λ v. length v.items * size < (net_of plan.now).nodes + size) }
    ensures pieces { IfOk result (λ v. ArePiecesIn (net_of plan.now) (course_of script.now) size 0 0 v.items) }
{
    let nodes = plan.topo().nodes();
    let mut pieces = Vec::new(alloc);
    for i in 0..nodes.div_ceil(size) {
        let first = i * size;
        let end = nodes.min(first + size);
        pieces.push(Piece::start(alloc, plan, script, first, end)?)?;
    }
    Ok(pieces)
}
