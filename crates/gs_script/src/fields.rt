ghost use Rattle.std.specs.Prelude.{◌≡◌, ◌<◌, [], get_or, length};
ghost use Rattle.std.specs.List.{list_all};
ghost use Rattle.std.specs.Str.{is_utf8};
ghost use Rattle.csv.specs.Records.{fields_of};
ghost use Rattle.gs_script.specs.Fields.{begins_with, count_in, node_at, number_at, require};
ghost use Rattle.gs_script.specs.Fields.{star_or_number, texts_in, word_at, word_of};

use crate::fault::ScriptFault;
use csv::ByteRecord;
use gs_text::read_u64;
use std::str;

/// The first field of a record.
#[derive(Clone, Copy, Debug, PartialEq, Eq)]
pub(crate) enum Word {
    Quanta,
    Drift,
    Tick,
    Delay,
    Loss,
}

/// A field for a node.
#[derive(Clone, Copy, Debug, PartialEq, Eq)]
pub(crate) enum NodeField {
    Star,
    Number(u64),
}

/// A fault where the test fails.
pub(crate) fn require(test: bool, fault: ScriptFault) -> Result<(), ScriptFault>
    ensures { result ≡ require test fault }
{
    if test { Ok(()) } else { Err(fault) }
}

#[tactic(auto, using(crate::proofs::Texts::tests))]
fn is_text_at(row: &ByteRecord, i: usize) -> bool
    requires { i < length (fields_of row.now) }
    ensures { result ≡ is_utf8 (get_or (fields_of row.now) i []) }
{
    match row.get(i) {
        Some(field) => str::from_utf8(field).is_ok(),
        None => true,
    }
}

/// Whether every field is UTF-8.
#[tactic(auto, using(crate::proofs::Texts::folds))]
fn are_texts(row: &ByteRecord) -> bool
    ensures { result ≡ list_all is_utf8 (fields_of row.now) }
{
    for i in 0..row.len() {
        if !is_text_at(row, i) {
            return false;
        }
    }
    true
}

/// Refuses record `k` where a field is not UTF-8.
pub(crate) fn texts_in(k: u32, row: &ByteRecord) -> Result<(), ScriptFault>
    ensures { result ≡ texts_in k (fields_of row.now) }
{
    require(are_texts(row), ScriptFault::Csv(k))
}

/// Refuses record `k` where it has not `n` fields.
pub(crate) fn count_in(n: usize, k: u32, row: &ByteRecord) -> Result<(), ScriptFault>
    ensures { result ≡ count_in n k (fields_of row.now) }
{
    require(row.len() == n, ScriptFault::Fields(k))
}

fn word_of(field: &[u8]) -> Option<Word>
    ensures { result ≡ word_of field.now }
{
    if field == b"quanta".as_slice() {
        Some(Word::Quanta)
    } else if field == b"drift".as_slice() {
        Some(Word::Drift)
    } else if field == b"tick".as_slice() {
        Some(Word::Tick)
    } else if field == b"delay".as_slice() {
        Some(Word::Delay)
    } else if field == b"loss".as_slice() {
        Some(Word::Loss)
    } else {
        None
    }
}

/// The word of record `k`.
#[tactic(auto, unfolding(crate::specs::Fields::word_at))]
pub(crate) fn word_at(k: u32, row: &ByteRecord) -> Result<Word, ScriptFault>
    ensures { result ≡ word_at k (fields_of row.now) }
{
    row.get(0).and_then(word_of).ok_or(ScriptFault::Word(k))
}

/// Whether the first field is this word.
pub(crate) fn begins_with(word: &[u8], row: &ByteRecord) -> bool
    ensures { result ≡ begins_with word.now (fields_of row.now) }
{
    row.get(0).is_some_and(|field| field == word)
}

/// The number in field `i` of record `k`.
#[tactic(auto, unfolding(crate::specs::Fields::number_at))]
pub(crate) fn number_at(k: u32, row: &ByteRecord, i: usize) -> Result<u64, ScriptFault>
    ensures { result ≡ number_at k (fields_of row.now) i }
{
    row.get(i)
        .and_then(|field| read_u64(field))
        .ok_or(ScriptFault::Number(k))
}

fn star_or_number(field: &[u8]) -> Option<NodeField>
    ensures { result ≡ star_or_number field.now }
{
    if field == b"*".as_slice() {
        return Some(NodeField::Star);
    }
    read_u64(field).map(NodeField::Number)
}

/// The node in field `i` of record `k`, or the star.
#[tactic(auto, unfolding(crate::specs::Fields::node_at))]
pub(crate) fn node_at(k: u32, row: &ByteRecord, i: usize) -> Result<NodeField, ScriptFault>
    ensures { result ≡ node_at k (fields_of row.now) i }
{
    row.get(i)
        .and_then(star_or_number)
        .ok_or(ScriptFault::Number(k))
}
