ghost use Rattle.std.specs.Prelude.{◌≡◌, ℕ, None, Some, IfNone, IfSome};
ghost use Rattle.gs_respond.specs.TimeRequests.{Tells, answer_bytes, asked_of, WasAsked};

use crate::time_format::{asked, told};
use gs_view::Reader;

/// Answers a time request with the clock of this node at a reading of its hardware clock, both in clock
/// units; None exactly where the bytes are no request. No memory, no lock, no waiting. The bytes are in
/// `docs/FORMATS.md`, "Time requests".
pub fn answer(reader: &mut Reader, node: u32, hw: u64, request: &[u8]) -> Option<[u8; 24]>
    ensures no_request { IfNone result (asked_of request.now ≡ None) }
    ensures unchanged { IfNone result (reader.new ≡ reader.old) }
    ensures answered { IfSome result (λ bytes.
        (id : ℕ) × (asked_of request.now ≡ Some id) × (bytes ≡ answer_bytes node id reader.new.answer)
        × Tells node id reader.new.answer bytes) }
    ensures asked { IfSome result (λ _. WasAsked reader.old hw reader.new) }
{
    let id = asked(request)?;
    let clock = reader.now(hw);
    Some(told(node, id, clock))
}
