ghost use Rattle.std.specs.Prelude.{◌≡◌, ◌≢◌, ◌*◌, ◌+◌, ◌≤◌, IfErr, IfOk, None, Some, OnOk, length};
ghost use Rattle.std.specs.List.{list_any};
ghost use Rattle.gs_trace.specs.Numbers.{numbers_at};
ghost use Rattle.gs_trace.specs.Worlds.{head_fault, head_length, is_far, start_at};

use crate::fault::TraceFault;
use crate::start::{Readings, WorldStart};
use crate::world::TAG;
use gs_beacon::{u32_at, u64_at};
use std::alloc::{AllocError, Global};

/// The greatest clock and the greatest reading of a start, in clock units.
const FAR: u64 = 1 << 61;

/// Reads the head of the trace of a world of `nodes` nodes of a cluster.
pub(crate) fn read_head(
    alloc: Global,
    bytes: &[u8],
    cluster: u32,
    nodes: u32,
) -> Result<WorldStart, TraceFault>
    ensures ok { OnOk result (head_fault cluster nodes bytes.now ≡ None) }
    ensures start { IfOk result (λ start. start ≡ start_at nodes bytes.now) }
    ensures long { OnOk result (head_length nodes ≤ length bytes.now) }
    ensures err { IfErr result (λ fault. fault ≢ TraceFault.OutOfMemory
        → head_fault cluster nodes bytes.now ≡ Some fault) }
{
    if bytes.len() < 16 || u64_at(bytes, 0) != TAG {
        return Err(TraceFault::Header);
    }
    if u32_at(bytes, 8) != cluster || u32_at(bytes, 12) != nodes {
        return Err(TraceFault::Plan);
    }
    if bytes.len() < 24 + 8 * nodes as usize {
        return Err(TraceFault::Header);
    }
    let start = start_of(alloc, bytes, nodes)?;
    if is_far(start.l0) || any_far(start.hw.as_slice()) {
        return Err(TraceFault::Header);
    }
    Ok(start)
}

/// The start that a head tells.
fn start_of(alloc: Global, bytes: &[u8], nodes: u32) -> Result<WorldStart, AllocError>
    requires { head_length nodes ≤ length bytes.now }
    ensures { IfOk result (λ start. start ≡ start_at nodes bytes.now) }
{
    let hw = numbers(alloc, &bytes[24..], nodes as usize)?;
    Ok(WorldStart {
        l0: u64_at(bytes, 16),
        hw: Readings::from_vec(hw),
    })
}

/// Numbers of 8 bytes each that stand one behind the other.
#[tactic(auto, using(crate::proofs::Spelled::numbers_more))]
fn numbers(alloc: Global, bytes: &[u8], count: usize) -> Result<Vec<u64>, AllocError>
    requires { 8 * count ≤ length bytes.now }
    ensures { IfOk result (λ numbers. numbers.items ≡ numbers_at 8 count bytes.now) }
{
    let mut numbers = Vec::new(alloc);
    for i in 0..count {
        numbers.push(u64_at(bytes, 8 * i))?;
    }
    Ok(numbers)
}

/// Whether a clock or a reading is too far for a start.
fn is_far(x: u64) -> bool
    ensures { result ≡ is_far x }
{
    x > FAR
}

/// Whether one of some readings is.
fn any_far(readings: &[u64]) -> bool
    ensures { result ≡ list_any is_far readings.now }
{
    readings.iter().any(|x| *x > FAR)
}
