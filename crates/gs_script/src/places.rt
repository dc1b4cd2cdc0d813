ghost use Rattle.std.specs.Prelude.{◌≡◌, ◌<◌, ◌≤◌, IfOk, List, length, slice_index_or};
ghost use Rattle.gs_script.specs.inside.Kept.{home, home_of, homes_in, is_at, is_in, is_same, latest};

use crate::line::{Line, Part, Who};
use crate::record::MAX_RECORDS;
use std::alloc::{AllocError, Global};

/// Whether the record at a place belongs to a part.
fn is_in_at(lines: &[Line], place: u16, part: Part) -> bool
    ensures { result ≡ is_at (is_in part) lines.now place }
{
    match lines.get(usize::from(place)) {
        Some(line) => part.has(line.setting),
        None => false,
    }
}

/// Who keeps each record.
pub(crate) fn homes_of(alloc: Global, lines: &[Line]) -> Result<Vec<Who>, AllocError>
    ensures { IfOk result (λ homes. homes.items ≡ homes_in lines.now) }
{
    let mut homes = Vec::new(alloc);
    for line in lines {
        homes.push(line.setting.home())?;
    }
    Ok(homes)
}

/// Whether the record at a place is kept by a node, or the star.
fn is_kept_by(homes: &[Who], i: usize, who: Who) -> bool
    requires { i < length homes.now }
    ensures { (lines : List Line) (l : Line) → homes.now ≡ homes_in lines
        → result ≡ is_same (home (slice_index_or lines i l).setting) who }
{
    homes[i].is_same(who)
}

/// The places of the records that a node keeps, or the star, the latest first.
#[tactic(auto, using(crate::proofs::Latest::steps))]
pub(crate) fn places_at(
    alloc: Global,
    lines: &[Line],
    homes: &[Who],
    who: Who,
) -> Result<Vec<u16>, AllocError>
    requires few { length lines.now ≤ MAX_RECORDS }
    requires homes { homes.now ≡ homes_in lines.now }
    ensures { IfOk result (λ places. places.items ≡ latest (λ s. is_same (home s) who) 0 lines.now) }
{
    let mut items = Vec::new(alloc);
    for i in (0..lines.len()).rev() {
        if is_kept_by(homes, i, who) {
            items.push(i as u16)?;
        }
    }
    Ok(items)
}

/// The places of a part, among those that its node keeps.
#[tactic(auto, using(crate::proofs::Latest::choices))]
pub(crate) fn places_in(
    alloc: Global,
    lines: &[Line],
    places: &[u16],
    part: Part,
) -> Result<Vec<u16>, AllocError>
    requires { places.now ≡ latest (λ s. is_same (home s) (home_of part)) 0 lines.now }
    ensures { IfOk result (λ chosen. chosen.items ≡ latest (is_in part) 0 lines.now) }
{
    let mut items = Vec::new(alloc);
    for place in places {
        if is_in_at(lines, *place, part) {
            items.push(*place)?;
        }
    }
    Ok(items)
}
