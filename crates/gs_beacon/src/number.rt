ghost use Rattle.std.specs.Prelude.{◌≡◌, ◌+◌, ◌≤◌, length};
ghost use Rattle.gs_beacon.specs.Numbers.{number_at};

use byteorder::{BigEndian, ByteOrder};

/// The number in the 4 bytes from a place, the highest byte first: so all formats of this project
/// write their numbers (`docs/FORMATS.md`).
#[tactic(auto, unfolding(crate::specs::Numbers::number_at))]
pub fn u32_at(bytes: &[u8], from: usize) -> u32
    requires { from + 4 ≤ length bytes.now }
    ensures { result ≡ number_at from 4 bytes.now }
{
    BigEndian::read_u32(&bytes[from..])
}

/// The number in the 8 bytes from a place, the highest byte first.
#[tactic(auto, unfolding(crate::specs::Numbers::number_at))]
pub fn u64_at(bytes: &[u8], from: usize) -> u64
    requires { from + 8 ≤ length bytes.now }
    ensures { result ≡ number_at from 8 bytes.now }
{
    BigEndian::read_u64(&bytes[from..])
}
