ghost use Rattle.std.specs.Prelude.{◌≡◌, ◌≢◌, ◌↔◌, ◌⊎◌, Err, IfErr, IfOk, IsUtf8, None, Ok, not, string_bytes};
ghost use Rattle.std.specs.BTreeMap.{keys};
ghost use Rattle.std.specs.List.{list_any};
ghost use Rattle.toml.specs.Parse.{parse_document};
ghost use Rattle.toml.specs.View.{table_view};
ghost use Rattle.gs_planfile.specs.Extra.{has_extra, is_allowed};
ghost use Rattle.gs_planfile.specs.Meaning.{plan_in, plan_of, plan_of_document};
ghost use Rattle.gs_planfile.specs.Texts.{IsText};

use crate::key::{Key, PlanFileFault, is_allowed};
use crate::lists::spans_at;
use crate::shape::shape_at;
use crate::text::{PlanText, Shape, Version};
use crate::values::{kappa_at, number_at, number_or, version_at};
use std::alloc::Global;
use toml::Table;

fn any_refused(table: &Table, version: Version, shape: &Shape) -> bool
    ensures { result ≡ list_any (λ k. not (is_allowed version shape.now (string_bytes k))) (keys table.now) }
{
    table
        .keys()
        .any(|name| !is_allowed(version, shape, name.as_str()))
}

#[tactic(auto, using(crate::proofs::Views::keys))]
fn has_extra(table: &Table, version: Version, shape: &Shape) -> bool
    ensures { result ≡ has_extra version shape.now (table_view table.now) }
{
    any_refused(table, version, shape)
}

/// What a document says as a plan, its keys looked at one after the other.
#[tactic(auto, unfolding(crate::specs::Meaning::plan_in))]
fn plan_in(alloc: Global, table: &Table) -> Result<PlanText, PlanFileFault>
    ensures ok { IfOk result (λ text. plan_in (table_view table.now) ≡ Ok text) }
    ensures text { IfOk result IsText }
    ensures err { IfErr result (λ e. e ≢ PlanFileFault.OutOfMemory → plan_in (table_view table.now) ≡ Err e) }
{
    let version = version_at(table)?;
    let cluster = number_at(table, Key::Cluster)?;
    let shape = shape_at(alloc, table)?;
    let lo = number_at(table, Key::Lo)?;
    let hi = number_at(table, Key::Hi)?;
    let mu = number_at(table, Key::Mu)?;
    let tick = number_at(table, Key::Tick)?;
    let delay_min = number_at(table, Key::DelayMin)?;
    let delay_max = number_at(table, Key::DelayMax)?;
    let every = number_at(table, Key::Every)?;
    let losses = number_at(table, Key::Losses)?;
    let age = number_at(table, Key::Age)?;
    let kappa = kappa_at(table)?;
    let levels = number_or(table, Key::Levels, 4)?;
    let port = number_or(table, Key::Port, 40_000)?;
    let spans = spans_at(alloc, version, table)?;
    if has_extra(table, version, &shape) {
        return Err(PlanFileFault::Extra);
    }
    Ok(PlanText {
        version,
        cluster,
        shape,
        lo,
        hi,
        mu,
        tick,
        delay_min,
        delay_max,
        every,
        losses,
        age,
        kappa,
        levels,
        port,
        spans,
    })
}

fn plan_of_text(alloc: Global, text: &str) -> Result<PlanText, PlanFileFault>
    ensures ok { IfOk result (λ plan. plan_of_document (parse_document text.now) ≡ Ok plan) }
    ensures text { IfOk result IsText }
    ensures err { IfErr result (λ e. e ≢ PlanFileFault.OutOfMemory
        → plan_of_document (parse_document text.now) ≡ Err e) }
    ensures never_utf8 { result ≢ Err PlanFileFault.Utf8 }
    ensures toml { result ≡ Err PlanFileFault.Toml → parse_document text.now ≡ None }
{
    match toml::table_from_str(alloc, text) {
        Ok(table) => plan_in(alloc, &table),
        Err(e) => Err(if e.is_memory() {
            PlanFileFault::OutOfMemory
        } else {
            PlanFileFault::Toml
        }),
    }
}

/// Reads a plan file. Its keys are looked at in the order of `Key`, and the first at fault is
/// named; a key is asked whether it stands there, then for the form of its value, then for its
/// range. See `docs/FORMATS.md`, "Plan file".
#[tactic(auto, using(crate::proofs::Views::utf8_tests))]
pub fn read_plan(alloc: Global, bytes: &[u8]) -> Result<PlanText, PlanFileFault>
    ensures ok { IfOk result (λ text. plan_of bytes.now ≡ Ok text) }
    ensures text { IfOk result IsText }
    ensures err { IfErr result (λ e. e ≢ PlanFileFault.OutOfMemory → plan_of bytes.now ≡ Err e) }

    // What the text alone is refused for, in the words of UTF-8 and TOML.
    ensures utf8 { (result ≡ Err PlanFileFault.Utf8) ↔ ¬ IsUtf8 bytes.now }
    ensures toml { result ≡ Err PlanFileFault.Toml → IsUtf8 bytes.now × (parse_document bytes.now ≡ None) }
    ensures no_document { IsUtf8 bytes.now → parse_document bytes.now ≡ None
        → (result ≡ Err PlanFileFault.Toml) ⊎ (result ≡ Err PlanFileFault.OutOfMemory) }
{
    match str::from_utf8(bytes) {
        Ok(text) => plan_of_text(alloc, text),
        Err(_) => Err(PlanFileFault::Utf8),
    }
}
