use crate::run::Run;
use std::alloc::{AllocError, Global};

/// Lists of fewer runs are gone through without an index.
const SHORT: usize = 8;

/// Where in a list of runs that of a quantum is likely to be: for each of as many spans of quanta as there
/// are runs, all equally long, the place of the first run that reaches into it. Who asks looks at the runs
/// themselves, so that nothing hangs on it but time.
#[derive(Debug, Drop)]
pub(crate) struct Index {
    /// A span has `2 ^ shift` quanta.
    shift: u32,
    places: Vec<usize>,
    /// The place for quanta behind all spans.
    past: usize,
}

impl Index {
    /// Of some runs, in their order.
    pub(crate) fn of(alloc: Global, items: &[Run]) -> Result<Index, AllocError> {
        let shift = shift_of(items);
        let mut places = Vec::new(alloc);
        if items.len() < SHORT {
            return Ok(Index {
                shift,
                places,
                past: 0,
            });
        }
        let mut place = 0;
        for span in 0..items.len() {
            place = first_reaching(items, place, (span as u64).wrapping_shl(shift));
            places.push(place)?;
        }
        Ok(Index {
            shift,
            places,
            past: items.len(),
        })
    }

    /// The place for a quantum.
    pub(crate) fn guess(&self, t: u32) -> usize {
        match self.places.get(t.wrapping_shr(self.shift) as usize) {
            Some(place) => *place,
            None => self.past,
        }
    }
}

/// The place of the first run from one on that reaches quantum `t`.
fn first_reaching(items: &[Run], from: usize, t: u64) -> usize {
    let mut place = from;
    while place < items.len() && u64::from(items[place].until) < t {
        place += 1;
    }
    place
}

/// The least shift, but at most 31, at which there are no more spans than runs.
fn shift_of(items: &[Run]) -> u32 {
    let end = match items.last() {
        Some(run) => run.until,
        None => 0,
    };
    let mut shift = 0;
    while shift < 31 && end.wrapping_shr(shift) as usize >= items.len() {
        shift += 1;
    }
    shift
}
