ghost use Rattle.std.specs.Prelude.{◌≡◌, ◌↔◌, ◌<◌, length, filter, slice_get, Some, IsTrue, MatchOption};
ghost use Rattle.gs_board.specs.Entries.{is_of, ticked_in, told_from};
ghost use Rattle.gs_board.specs.Torn.{DifferBy};

use crate::faults::Torn;
use crate::told::Told;
use gs_core::{NodeEvent, Reply, Ticked};

/// The first difference between what a seat was told and its entries of a journal with these replies.
pub(crate) fn first_torn(
    whose: Option<u32>,
    told: &[Told],
    journal: &[NodeEvent],
    replies: &[Reply],
) -> Option<Torn>
    requires { length replies.now ≡ length journal.now }
    ensures { MatchOption result
        (told.now ≡ filter (λ k. is_of whose k.event) (told_from 0 journal.now replies.now))
        (DifferBy told.now (filter (λ k. is_of whose k.event) (told_from 0 journal.now replies.now))) }
{
    let mut index = 0;
    for place in 0..journal.len() {
        let kept = entry(journal, replies, place);
        if !is_of(whose, &kept.event) {
            continue;
        }
        let told = entry_told(told, index);
        if !is_told(told, kept) {
            return Some(Torn::Entry {
                index: index as u64,
                told,
                kept: Some(kept),
            });
        }
        index += 1;
    }
    let entry = entry_told(told, index)?;
    Some(Torn::Entry {
        index: index as u64,
        told: Some(entry),
        kept: None,
    })
}

/// The entry at a place of the journal.
fn entry(journal: &[NodeEvent], replies: &[Reply], place: usize) -> Told
    requires place { place < length journal.now }
    requires replies { length replies.now ≡ length journal.now }
    ensures { slice_get (told_from 0 journal.now replies.now) place ≡ Some result }
{
    Told {
        place: place as u64,
        event: journal[place],
        ticked: ticked(&replies[place]),
    }
}

/// What a seat was told as its entry of this index, if anything.
fn entry_told(told: &[Told], index: usize) -> Option<Told>
    ensures { result ≡ slice_get told.now index }
{
    told.get(index).copied()
}

/// Whether this is what a seat was told. It is compared field by field: the cases of all three fields are
/// too many for one search.
fn is_told(told: Option<Told>, kept: Told) -> bool
    ensures { IsTrue result ↔ (told ≡ Some kept) }
{
    match told {
        Some(entry) => {
            entry.place == kept.place && entry.event == kept.event && entry.ticked == kept.ticked
        }
        None => false,
    }
}

/// The whole reply of a tick, and none of a delivery.
fn ticked(reply: &Reply) -> Option<Ticked>
    ensures { result ≡ ticked_in reply.now }
{
    match reply {
        Reply::Ticked(ticked) => Some(*ticked),
        Reply::Heard(_) => None,
    }
}

/// Whether an event is one of this seat's.
fn is_of(whose: Option<u32>, event: &NodeEvent) -> bool
    ensures { result ≡ is_of whose event.now }
{
    match (whose, event) {
        (None, NodeEvent::Tick { .. }) => true,
        (Some(node), NodeEvent::Deliver { beacon, .. }) => beacon.sender == node,
        _ => false,
    }
}
