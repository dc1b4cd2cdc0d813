ghost use Rattle.std.specs.Prelude.{◌≡◌, ◌≤◌, ◌++◌, length, drop};
ghost use Rattle.byteorder.specs.Endian.{big_bytes};
ghost use Rattle.gs_respond.specs.TimeRequests.{Tells, answer_bytes, asked_of};

use byteorder::{BigEndian, ByteOrder};
use gs_beacon::{u32_at, u64_at};

/// How many bytes spell a time request.
const REQUEST_LENGTH: usize = 16;

/// How many bytes spell an answer.
const ANSWER_LENGTH: usize = 24;

/// "GCSQ" as a big-endian number: the first 4 bytes of a request.
const REQUEST: u32 = 0x4743_5351;

/// "GCSA" as a big-endian number: the first 4 bytes of an answer.
const ANSWER: u32 = 0x4743_5341;

/// Where 4 bytes of a request stand that are 0.
const ZEROS: usize = 4;

/// Where an answer's node stands, of 4 bytes.
const NODE: usize = 4;

/// Where the asker's number stands, of 8 bytes, in a request and in its answer.
const ID: usize = 8;

/// Where an answer's clock stands, of 8 bytes.
const CLOCK: usize = 16;

/// The number that a time request asks with, where the bytes are one.
pub(crate) fn asked(bytes: &[u8]) -> Option<u64>
    ensures { result ≡ asked_of bytes.now }
{
    if bytes.len() != REQUEST_LENGTH {
        return None;
    }
    if u32_at(bytes, 0) != REQUEST {
        return None;
    }
    if u32_at(bytes, ZEROS) != 0 {
        return None;
    }
    Some(u64_at(bytes, ID))
}

/// The answer that tells these three.
pub(crate) fn told(node: u32, id: u64, clock: u64) -> [u8; ANSWER_LENGTH]
    ensures bytes { result ≡ answer_bytes node id clock }
    ensures tells { Tells node id clock result }
{
    spelled(node, id, clock)
}

/// The bytes of an answer.
#[tactic(auto, unfolding(crate::specs::TimeRequests::answer_bytes))]
fn spelled(node: u32, id: u64, clock: u64) -> [u8; ANSWER_LENGTH]
    ensures { result ≡ answer_bytes node id clock }
{
    let mut bytes = [0; ANSWER_LENGTH];
    write_answer(&mut bytes, node, id, clock);
    bytes
}

/// Writes an answer into the first 24 bytes.
fn write_answer(bytes: &mut [u8], node: u32, id: u64, clock: u64)
    requires { 24 ≤ length bytes.old }
    ensures { bytes.new ≡ (big_bytes 4 ANSWER ++ (big_bytes 4 node ++ (big_bytes 8 id ++ big_bytes 8 clock)))
        ++ drop 24 bytes.old }
{
    BigEndian::write_u32(bytes, ANSWER);
    BigEndian::write_u32(&mut bytes[NODE..], node);
    BigEndian::write_u64(&mut bytes[ID..], id);
    BigEndian::write_u64(&mut bytes[CLOCK..], clock);
}
