ghost use Rattle.std.specs.Prelude.{◌≡◌, ◌≤◌, IfOk, false};
ghost use Rattle.csv.specs.Records.{fields_of};
ghost use Rattle.gs_plan.specs.Plans.{text_of};
ghost use Rattle.gs_script.specs.Checks.{is_large};
ghost use Rattle.gs_script.specs.inside.Kept.{Fits, IsSpan, links_of};
ghost use Rattle.gs_script.specs.Reading.{beacon_fields, delay_at, drift_at, line_at, line_of, loss_at};
ghost use Rattle.gs_script.specs.Reading.{node_fields, quanta_at, tick_at};

use crate::checks::{delay_in, edge_in, flag_in, quanta_in, span_in, value_within, who_in};
use crate::fault::ScriptFault;
use crate::fields::{Word, begins_with, count_in, node_at, number_at, require, texts_in, word_at};
use crate::line::{Line, Setting, Span, Who};
use crate::links::Link;
use csv::ByteRecord;
use gs_plan::Plan;

/// The most records of a script.
pub(crate) const MAX_RECORDS: u32 = 4_096;

/// NODE,FROM,TO,VALUE of record `k`: of whom, in which quanta, and the value, which is within `low` to
/// `high`.
#[tactic(auto, unfolding(crate::specs::Reading::node_fields))]
fn node_fields(
    plan: &Plan,
    quanta: u32,
    low: u32,
    high: u32,
    k: u32,
    row: &ByteRecord,
) -> Result<(Who, Span, u32), ScriptFault>
    ensures value { result ≡ node_fields (text_of plan.now) quanta low high k (fields_of row.now) }
    ensures within { IfOk result (λ said. (low ≤ said.2) × (said.2 ≤ high)) }
    ensures span { IfOk result (λ said. IsSpan said.1) }
{
    count_in(5, k, row)?;
    let node = node_at(k, row, 1)?;
    let from = number_at(k, row, 2)?;
    let to = number_at(k, row, 3)?;
    let number = number_at(k, row, 4)?;
    let who = who_in(plan, k, node)?;
    let span = span_in(quanta, k, from, to)?;
    let value = value_within(low, high, k, number)?;
    Ok((who, span, value))
}

/// drift,NODE,FROM,TO,INC
#[tactic(auto, unfolding(crate::specs::Reading::drift_at))]
fn drift_at(plan: &Plan, quanta: u32, k: u32, row: &ByteRecord) -> Result<Line, ScriptFault>
    ensures value { result ≡ drift_at (text_of plan.now) quanta k (fields_of row.now) }
    ensures fits { IfOk result (Fits (text_of plan.now)) }
    ensures span { IfOk result (λ l. IsSpan l.span) }
{
    let text = plan.text();
    let (who, span, inc) = node_fields(plan, quanta, text.lo, text.hi, k, row)?;
    Ok(Line {
        span,
        setting: Setting::Drift { node: who, inc },
    })
}

/// tick,NODE,FROM,TO,GAP
#[tactic(auto, unfolding(crate::specs::Reading::tick_at))]
fn tick_at(plan: &Plan, quanta: u32, k: u32, row: &ByteRecord) -> Result<Line, ScriptFault>
    ensures value { result ≡ tick_at (text_of plan.now) quanta k (fields_of row.now) }
    ensures fits { IfOk result (Fits (text_of plan.now)) }
    ensures span { IfOk result (λ l. IsSpan l.span) }
{
    let (who, span, gap) = node_fields(plan, quanta, 1, plan.text().tick, k, row)?;
    Ok(Line {
        span,
        setting: Setting::Tick { node: who, gap },
    })
}

/// SENDER,RECEIVER,FROM,TO,VALUE of record `k`: from whom, to whom, in which quanta, and the number as
/// it stands there.
#[tactic(auto, unfolding(crate::specs::Reading::beacon_fields))]
fn beacon_fields(
    plan: &Plan,
    quanta: u32,
    k: u32,
    row: &ByteRecord,
) -> Result<(Who, Who, Span, u64), ScriptFault>
    ensures value { result ≡ beacon_fields (text_of plan.now) quanta k (fields_of row.now) }
    ensures span { IfOk result (λ said. IsSpan said.2) }
{
    count_in(6, k, row)?;
    let first = node_at(k, row, 1)?;
    let second = node_at(k, row, 2)?;
    let from = number_at(k, row, 3)?;
    let to = number_at(k, row, 4)?;
    let number = number_at(k, row, 5)?;
    let sender = who_in(plan, k, first)?;
    let receiver = who_in(plan, k, second)?;
    edge_in(plan, k, sender, receiver)?;
    let span = span_in(quanta, k, from, to)?;
    Ok((sender, receiver, span, number))
}

/// delay,SENDER,RECEIVER,FROM,TO,D
#[tactic(auto, unfolding(crate::specs::Reading::delay_at))]
fn delay_at(
    plan: &Plan,
    links: &[Link],
    quanta: u32,
    k: u32,
    row: &ByteRecord,
) -> Result<Line, ScriptFault>
    requires { links.now ≡ links_of (text_of plan.now) }
    ensures value { result ≡ delay_at (text_of plan.now) quanta k (fields_of row.now) }
    ensures fits { IfOk result (Fits (text_of plan.now)) }
    ensures span { IfOk result (λ l. IsSpan l.span) }
{
    let (sender, receiver, span, delay) = beacon_fields(plan, quanta, k, row)?;
    let delay = delay_in(plan, links, k, sender, receiver, delay)?;
    Ok(Line {
        span,
        setting: Setting::Delay {
            from: sender,
            to: receiver,
            quanta: delay,
        },
    })
}

/// loss,SENDER,RECEIVER,FROM,TO,FLAG
#[tactic(auto, unfolding(crate::specs::Reading::loss_at))]
fn loss_at(plan: &Plan, quanta: u32, k: u32, row: &ByteRecord) -> Result<Line, ScriptFault>
    ensures value { result ≡ loss_at (text_of plan.now) quanta k (fields_of row.now) }
    ensures fits { IfOk result (Fits (text_of plan.now)) }
    ensures span { IfOk result (λ l. IsSpan l.span) }
{
    let (sender, receiver, span, flag) = beacon_fields(plan, quanta, k, row)?;
    let is_lost = flag_in(k, flag)?;
    Ok(Line {
        span,
        setting: Setting::Loss {
            from: sender,
            to: receiver,
            is_lost,
        },
    })
}

/// A record by its word.
fn line_of(
    plan: &Plan,
    links: &[Link],
    quanta: u32,
    k: u32,
    row: &ByteRecord,
    word: Word,
) -> Result<Line, ScriptFault>
    requires { links.now ≡ links_of (text_of plan.now) }
    ensures value { result ≡ line_of (text_of plan.now) quanta k (fields_of row.now) word }
    ensures fits { IfOk result (Fits (text_of plan.now)) }
    ensures span { IfOk result (λ l. IsSpan l.span) }
{
    match word {
        Word::Quanta => Err(ScriptFault::Again(k)),
        Word::Drift => drift_at(plan, quanta, k, row),
        Word::Tick => tick_at(plan, quanta, k, row),
        Word::Delay => delay_at(plan, links, quanta, k, row),
        Word::Loss => loss_at(plan, quanta, k, row),
    }
}

/// Record `k`, from the second on.
#[tactic(auto, unfolding(crate::specs::Reading::line_at))]
pub(crate) fn line_at(
    plan: &Plan,
    links: &[Link],
    quanta: u32,
    k: u32,
    row: &ByteRecord,
) -> Result<Line, ScriptFault>
    requires { links.now ≡ links_of (text_of plan.now) }
    ensures value { result ≡ line_at (text_of plan.now) quanta k (fields_of row.now) }
    ensures fits { IfOk result (Fits (text_of plan.now)) }
    ensures span { IfOk result (λ l. IsSpan l.span) }
{
    texts_in(k, row)?;
    require(k <= MAX_RECORDS, ScriptFault::Large)?;
    let word = word_at(k, row)?;
    line_of(plan, links, quanta, k, row, word)
}

/// The first record, which is quanta,N.
#[tactic(auto, unfolding(crate::specs::Reading::quanta_at))]
pub(crate) fn quanta_at(plan: &Plan, row: &ByteRecord) -> Result<u32, ScriptFault>
    ensures value { result ≡ quanta_at (text_of plan.now) (fields_of row.now) }
    ensures fits { IfOk result (λ n. is_large (text_of plan.now) n ≡ false) }
{
    texts_in(1, row)?;
    require(begins_with(b"quanta".as_slice(), row), ScriptFault::First)?;
    count_in(2, 1, row)?;
    let n = number_at(1, row, 1)?;
    quanta_in(plan, n)
}
