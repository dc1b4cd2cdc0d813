ghost use Rattle.std.specs.Prelude.{◌≡◌, ◌≢◌, ◌+◌, ◌≤◌, All, Err, IfErr, IfOk, Ok, length, map};
ghost use Rattle.csv.specs.Records.{fields_of};
ghost use Rattle.gs_plan.specs.Plans.{text_of};
ghost use Rattle.gs_script.specs.inside.Kept.{Fits, IsSpan, links_of};
ghost use Rattle.gs_script.specs.Reading.{lines_from, script_of, script_of_records, steady_of};
ghost use Rattle.gs_script.specs.Script.{IsScript};

use crate::checks::quanta_in;
use crate::fault::ScriptFault;
use crate::line::Line;
use crate::links::{Link, links};
use crate::record::{MAX_RECORDS, line_at, quanta_at};
use crate::rows::first_rows;
use crate::script::Script;
use csv::ByteRecord;
use gs_plan::Plan;
use std::alloc::Global;

/// The records behind the first.
#[tactic(auto, using(crate::proofs::Folded::steps))]
fn lines_from(
    alloc: Global,
    plan: &Plan,
    links: &[Link],
    quanta: u32,
    rows: &[ByteRecord],
) -> Result<Vec<Line>, ScriptFault>
    requires few { length rows.now ≤ MAX_RECORDS }
    requires links { links.now ≡ links_of (text_of plan.now) }
    ensures ok { IfOk result (λ lines.
        lines_from (text_of plan.now) quanta 2 (map fields_of rows.now) ≡ Ok lines.items) }
    ensures fits { IfOk result (λ lines. All (Fits (text_of plan.now)) lines.items) }
    ensures spans { IfOk result (λ lines. All (λ l. IsSpan l.span) lines.items) }
    ensures few { IfOk result (λ lines. length lines.items ≤ MAX_RECORDS) }
    ensures err { IfErr result (λ e. e ≢ ScriptFault.OutOfMemory
        → lines_from (text_of plan.now) quanta 2 (map fields_of rows.now) ≡ Err e) }
{
    let mut lines = Vec::new(alloc);
    for (i, row) in rows.iter().enumerate() {
        let line = line_at(plan, links, quanta, i as u32 + 2, row)?;
        if lines.push(line).is_err() {
            return Err(ScriptFault::OutOfMemory);
        }
    }
    Ok(lines)
}

/// The script of these records.
#[tactic(auto, unfolding(crate::specs::Reading::script_of_records))]
fn script_of_records(alloc: Global, plan: &Plan, rows: &[ByteRecord]) -> Result<Script, ScriptFault>
    requires { length rows.now ≤ MAX_RECORDS + 1 }
    ensures ok { IfOk result (λ script. script_of_records (text_of plan.now) (map fields_of rows.now) ≡ Ok script) }
    ensures text { IfOk result (λ script. script.text ≡ text_of plan.now) }
    ensures within { IfOk result IsScript }
    ensures err { IfErr result (λ e. e ≢ ScriptFault.OutOfMemory
        → script_of_records (text_of plan.now) (map fields_of rows.now) ≡ Err e) }
{
    match rows {
        [] => Err(ScriptFault::First),
        [first, rest @ ..] => {
            let quanta = quanta_at(plan, first)?;
            let links = links(alloc, plan)?;
            let lines = lines_from(alloc, plan, &links, quanta, rest)?;
            Ok(Script::of(alloc, plan, quanta, lines)?)
        }
    }
}

/// Reads a script for a plan. Its records are looked at in order, and the first that is at fault is
/// named; `ScriptFault` has the order for one record. See `docs/FORMATS.md`, "Script file".
pub fn read_script(alloc: Global, bytes: &[u8], plan: &Plan) -> Result<Script, ScriptFault>
    ensures ok { IfOk result (λ script. script_of (text_of plan.now) bytes.now ≡ Ok script) }
    ensures text { IfOk result (λ script. script.text ≡ text_of plan.now) }
    ensures within { IfOk result IsScript }
    ensures err { IfErr result (λ e. e ≢ ScriptFault.OutOfMemory
        → script_of (text_of plan.now) bytes.now ≡ Err e) }
{
    let rows = first_rows(alloc, bytes)?;
    script_of_records(alloc, plan, &rows)
}

impl Script {
    /// The script of the one record `quanta,N`.
    pub fn steady(alloc: Global, quanta: u64, plan: &Plan) -> Result<Script, ScriptFault>
        ensures ok { IfOk result (λ script. steady_of (text_of plan.now) quanta ≡ Ok script) }
        ensures text { IfOk result (λ script. script.text ≡ text_of plan.now) }
        ensures within { IfOk result IsScript }
        ensures err { IfErr result (λ e. e ≢ ScriptFault.OutOfMemory
            → steady_of (text_of plan.now) quanta ≡ Err e) }
    {
        let quanta = quanta_in(plan, quanta)?;
        Ok(Script::of(alloc, plan, quanta, Vec::new(alloc))?)
    }
}
