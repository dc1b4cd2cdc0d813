ghost use Rattle.std.specs.Prelude.{List, ◌-◌, ◌^◌, ◌≡◌, ◌+◌, ◌≤◌, ℕ, ◌++◌, ◌∷◌, [], All, IfOk, max, if◌then◌else◌, nat_le, true};
ghost use Rattle.gs_script.specs.inside.Kept.{IsSpan, greatest, number_in};
ghost use Rattle.gs_script.specs.Lines.{holds};
ghost use Rattle.gs_script.specs.Lasts.{Lasts};
ghost use Rattle.gs_script.specs.inside.Runs.{AreBehind, Rise, value_at, value_or};

use crate::index::Index;
use crate::line::{Line, Span};
use crate::run::Run;
use std::alloc::{AllocError, Global};
use std::marker::Model;

/// For each quantum the number of the last of some records that holds in it, in runs one after the other.
/// Numbers count from 1, and 0 stands for no record, also behind the last run.
#[derive(Debug, Drop)]
pub(crate) struct Runs {
    items: Vec<Run>,
    index: Index,
}

impl Model for Runs {
    ghost use Rattle.std.specs.Prelude.{List};
    ghost use Rattle.gs_script.specs.declared.run.Run.{Run};

    ghost Value = { List Run };

    ghost view = { λ r. r.items.items };

    ghost use Rattle.gs_script.specs.inside.Runs.{Rise};

    ghost invariant = { λ r. Rise 0 r.items.items };
}

impl Run {
    /// The greater of both values, as long as both stay the same.
    pub(crate) fn greater(self, other: Run) -> Run
        ensures { (f g : ℕ → ℕ) (t : ℕ) → Lasts f t self.until self.value → Lasts g t other.until other.value
            → Lasts (λ i. max (f i) (g i)) t result.until result.value }
    {
        Run {
            value: self.value.max(other.value),
            until: self.until.min(other.until),
        }
    }
}

/// One run more, which takes the place of the last where both have the same value.
#[tactic(auto, using(crate::proofs::Painting::adding))]
fn add(items: &mut Vec<Run>, run: Run) -> Result<(), AllocError>
    requires { Rise 0 (items.old.items ++ run ∷ []) }
    ensures value { IfOk result (λ _. (t n : ℕ)
        → value_or t items.new.items n ≡ value_or t (items.old.items ++ run ∷ []) n) }
    ensures rise { IfOk result (λ _. (rest : List Run)
        → Rise 0 (items.old.items ++ run ∷ rest) → Rise 0 (items.new.items ++ rest)) }
{
    match items.pop() {
        None => {
            items.push(run)?;
            Ok(())
        }
        Some(last) => {
            if last.value == run.value {
                items.push(run)?;
                Ok(())
            } else {
                items.push(last)?;
                items.push(run)?;
                Ok(())
            }
        }
    }
}

/// The place of the next run, where the one at this place has ended by quantum `until`.
fn passed(i: usize, run: Run, until: u32) -> usize
    requires { i + 1 ≤ 2 ^ 64 - 1 }
    ensures { result ≡ (if nat_le run.until until then i + 1 else i) }
{
    if run.until <= until { i + 1 } else { i }
}

/// The runs of the greater of two values in each quantum.
#[tactic(auto, using(crate::proofs::Painting::merging))]
fn merged(alloc: Global, a: &[Run], b: &[Run]) -> Result<Vec<Run>, AllocError>
    requires first { Rise 0 a.now }
    requires second { Rise 0 b.now }
    ensures value { IfOk result (λ runs. (t : ℕ)
        → value_at runs.items t ≡ max (value_at a.now t) (value_at b.now t)) }
    ensures rise { IfOk result (λ runs. Rise 0 runs.items) }
{
    let mut items = Vec::with_capacity(alloc, a.len())?;
    let mut i = 0;
    let mut k = 0;
    while i < a.len() && k < b.len() {
        let x = a[i];
        let y = b[k];
        let until = x.until.min(y.until);
        let value = x.value.max(y.value);
        add(&mut items, Run { value, until })?;
        i = passed(i, x, until);
        k = passed(k, y, until);
    }
    items.extend_from_slice(&a[i..])?;
    items.extend_from_slice(&b[k..])?;
    Ok(items)
}

/// The runs of one record: none before its span, and its number in it.
#[tactic(auto, using(crate::proofs::Painting::one), unfolding(crate::specs::inside::Runs::value_or, crate::specs::inside::Runs::Rise))]
fn run_of(alloc: Global, span: Span, number: u32) -> Result<Vec<Run>, AllocError>
    requires { IsSpan span }
    ensures value { IfOk result (λ runs. (t : ℕ) → value_at runs.items t ≡ (if holds span t then number else 0)) }
    ensures rise { IfOk result (λ runs. Rise 0 runs.items) }
{
    let mut items = Vec::with_capacity(alloc, 2)?;
    items.push(Run {
        value: 0,
        until: span.from - 1,
    })?;
    items.push(Run {
        value: number,
        until: span.to,
    })?;
    Ok(items)
}

/// The runs of the record at a place.
#[tactic(auto, unfolding(crate::specs::inside::Runs::value_or, crate::specs::inside::Runs::Rise))]
fn run_at(alloc: Global, lines: &[Line], place: u16) -> Result<Vec<Run>, AllocError>
    requires { All (λ l. IsSpan l.span) lines.now }
    ensures value { IfOk result (λ runs. (t : ℕ) → value_at runs.items t ≡ number_in t lines.now place) }
    ensures rise { IfOk result (λ runs. Rise 0 runs.items) }
{
    match lines.get(usize::from(place)) {
        Some(line) => run_of(alloc, line.span, u32::from(place) + 1),
        None => Ok(Vec::new(alloc)),
    }
}

/// The runs of the records at some places: those of both halves, merged.
#[tactic(auto, using(crate::proofs::Numbers::halves), unfolding(crate::specs::inside::Runs::value_or, crate::specs::inside::Runs::Rise, crate::specs::inside::Kept::greatest))]
fn painted(alloc: Global, lines: &[Line], places: &[u16]) -> Result<Vec<Run>, AllocError>
    requires { All (λ l. IsSpan l.span) lines.now }
    ensures value { IfOk result (λ runs. (t : ℕ) → value_at runs.items t ≡ greatest t lines.now places.now) }
    ensures rise { IfOk result (λ runs. Rise 0 runs.items) }
{
    match places {
        [] => Ok(Vec::new(alloc)),
        [place] => run_at(alloc, lines, *place),
        _ => {
            let (front, back) = places.split_at(places.len() / 2);
            let front = painted(alloc, lines, front)?;
            let back = painted(alloc, lines, back)?;
            merged(alloc, &front, &back)
        }
    }
}

/// The value in quantum `t`, and how long it stays the same.
fn run_in(items: &[Run], t: u32) -> Run
    requires { Rise 0 items.now }
    ensures { Lasts (value_at items.now) t result.until result.value }
{
    let i = items.partition_point(|run| run.until < t);
    match items.get(i) {
        Some(found) => *found,
        None => Run {
            value: 0,
            until: u32::MAX,
        },
    }
}

/// Whether all runs before this place end before quantum `t`.
fn is_behind(items: &[Run], place: usize, t: u32) -> bool
    requires { Rise 0 items.now }
    ensures { result ≡ true → AreBehind t items.now place }
{
    if place == 0 {
        return true;
    }
    match items.get(place - 1) {
        Some(run) => run.until < t,
        None => false,
    }
}

/// The value in quantum `t`, and how long it stays the same, where the run is likely to be not far behind
/// a place.
fn run_from(items: &[Run], place: usize, t: u32) -> Run
    requires { Rise 0 items.now }
    ensures { Lasts (value_at items.now) t result.until result.value }
{
    if !is_behind(items, place, t) {
        return run_in(items, t);
    }
    for i in place..items.len() {
        if t <= items[i].until {
            return items[i];
        }
    }
    Run {
        value: 0,
        until: u32::MAX,
    }
}

impl Runs {
    /// Of the records at these places.
    pub(crate) fn of(alloc: Global, lines: &[Line], places: &[u16]) -> Result<Self, AllocError>
        requires { All (λ l. IsSpan l.span) lines.now }
        ensures { IfOk result (λ runs. (t : ℕ) → value_at runs t ≡ greatest t lines.now places.now) }
    {
        let items = painted(alloc, lines, places)?;
        let index = Index::of(alloc, &items)?;
        Ok(Runs { items, index })
    }

    /// The number in quantum `t`, and how long it stays the same.
    pub(crate) fn at(&self, t: u32) -> Run
        ensures { Lasts (value_at self.now) t result.until result.value }
    {
        if self.items.is_empty() {
            return Run {
                value: 0,
                until: u32::MAX,
            };
        }
        run_from(&self.items, self.index.guess(t), t)
    }
}
