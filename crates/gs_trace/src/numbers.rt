ghost use Rattle.std.specs.Prelude.{◌≡◌, ◌*◌, ◌≤◌, ◌++◌, length, OnOk};
ghost use Rattle.byteorder.specs.Endian.{big_bytes};
ghost use Rattle.gs_trace.specs.Numbers.{numbers_at, spelled};

use byteorder::{BigEndian, ByteOrder};
use gs_beacon::u32_at;
use std::alloc::AllocError;

/// Adds a number of 4 bytes at the end.
pub(crate) fn push_u32(bytes: &mut Vec<u8>, n: u32) -> Result<(), AllocError>
    ensures { OnOk result (bytes.new.items ≡ bytes.old.items ++ big_bytes 4 n) }
{
    let mut spelled = [0; 4];
    BigEndian::write_u32(&mut spelled, n);
    bytes.extend_from_slice(&spelled)
}

/// Adds a number of 8 bytes at the end.
pub(crate) fn push_u64(bytes: &mut Vec<u8>, n: u64) -> Result<(), AllocError>
    ensures { OnOk result (bytes.new.items ≡ bytes.old.items ++ big_bytes 8 n) }
{
    let mut spelled = [0; 8];
    BigEndian::write_u64(&mut spelled, n);
    bytes.extend_from_slice(&spelled)
}

/// Adds numbers of 4 bytes each at the end.
pub(crate) fn push_all_u32(bytes: &mut Vec<u8>, numbers: &[u32]) -> Result<(), AllocError>
    ensures { OnOk result (bytes.new.items ≡ bytes.old.items ++ spelled 4 numbers.now) }
{
    for n in numbers {
        push_u32(bytes, *n)?;
    }
    Ok(())
}

/// Adds numbers of 8 bytes each at the end.
pub(crate) fn push_all_u64(bytes: &mut Vec<u8>, numbers: &[u64]) -> Result<(), AllocError>
    ensures { OnOk result (bytes.new.items ≡ bytes.old.items ++ spelled 8 numbers.now) }
{
    for n in numbers {
        push_u64(bytes, *n)?;
    }
    Ok(())
}

/// Reads numbers of 4 bytes each that stand one behind the other.
pub(crate) fn read_all_u32(bytes: &[u8], numbers: &mut [u32])
    requires { 4 * length numbers.old ≤ length bytes.now }
    ensures { numbers.new ≡ numbers_at 4 (length numbers.old) bytes.now }
{
    for i in 0..numbers.len() {
        numbers[i] = u32_at(bytes, 4 * i);
    }
}
