ghost use Rattle.std.specs.Prelude.{◌≡◌, ◌≤◌, ◌++◌, length, drop, IfOk, IfErr, Ok, Err, Some};
ghost use Rattle.byteorder.specs.Endian.{big_bytes};
ghost use Rattle.gs_beacon.specs.Beacons.{IsBeacon, Spells, bytes_of, fault_of};

use crate::layout::{CLOCK, CLUSTER, LENGTH, MAGIC, MAXIMUM, SENDER, SEQ, ZEROS};
use crate::number::{u32_at, u64_at};
use byteorder::{BigEndian, ByteOrder};
use gs_units::END;
use thiserror::Error;

/// What a node tells its neighbours at a tick.
#[derive(Clone, Copy, Debug, PartialEq, Eq)]
pub struct Beacon {
    /// The cluster that the sender is in.
    pub cluster: u32,
    /// The node that sends it.
    pub sender: u32,
    /// The place of this beacon among the sender's, from 1.
    pub seq: u64,
    /// The sender's logical clock at the tick, in clock units.
    pub l: u64,
    /// What the sender knows of the greatest clock at the tick, in clock units.
    pub m: u64,
}

/// The first thing that keeps bytes from spelling a beacon.
#[derive(Clone, Copy, Debug, PartialEq, Eq, Error)]
pub enum BeaconFault {
    /// There are not 40 bytes.
    #[error("a beacon has 40 bytes")]
    Length,
    /// The bytes 0 to 3 are not "GCS1".
    #[error("a beacon begins with GCS1")]
    Magic,
    /// The bytes 12 to 15 are not 0.
    #[error("bytes 12 to 15 of a beacon are 0")]
    Zero,
    /// The sequence is 0.
    #[error("the sequence of a beacon is at least 1")]
    Sequence,
    /// The maximum is below the clock.
    #[error("the maximum of a beacon is not below its clock")]
    Order,
    /// The maximum is not below 2^62.
    #[error("the maximum of a beacon is below 2^62")]
    Far,
}

/// The bytes that spell a beacon: `docs/FORMATS.md`, "Beacon".
pub fn encode(b: &Beacon) -> [u8; LENGTH]
    requires { IsBeacon b.now }
    ensures bytes { result ≡ bytes_of b.now }
    ensures spells { Spells b.now result }
{
    let Beacon {
        cluster,
        sender,
        seq,
        l,
        m,
    } = *b;
    let mut bytes = [0; LENGTH];
    write_head(&mut bytes, cluster, sender);
    write_numbers(&mut bytes[SEQ..], seq, l, m);
    bytes
}

/// Writes what tells a beacon and its sender: all before the sequence.
fn write_head(bytes: &mut [u8], cluster: u32, sender: u32)
    requires { 16 ≤ length bytes.old }
    ensures { bytes.new ≡ (big_bytes 4 MAGIC ++ (big_bytes 4 cluster ++ (big_bytes 4 sender ++ big_bytes 4 0)))
        ++ drop 16 bytes.old }
{
    BigEndian::write_u32(bytes, MAGIC);
    BigEndian::write_u32(&mut bytes[CLUSTER..], cluster);
    BigEndian::write_u32(&mut bytes[SENDER..], sender);
    BigEndian::write_u32(&mut bytes[ZEROS..], 0);
}

/// Writes the sequence, the clock and the maximum into the bytes from the sequence on.
fn write_numbers(bytes: &mut [u8], seq: u64, l: u64, m: u64)
    requires { 24 ≤ length bytes.old }
    ensures { bytes.new ≡ (big_bytes 8 seq ++ (big_bytes 8 l ++ big_bytes 8 m)) ++ drop 24 bytes.old }
{
    BigEndian::write_u64(bytes, seq);
    BigEndian::write_u64(&mut bytes[CLOCK - SEQ..], l);
    BigEndian::write_u64(&mut bytes[MAXIMUM - SEQ..], m);
}

/// The beacon that bytes spell, or the first fault in the order of `BeaconFault`.
pub fn decode(bytes: &[u8]) -> Result<Beacon, BeaconFault>
    ensures ok { IfOk result (λ b. Spells b bytes.now) }
    ensures valid { IfOk result IsBeacon }
    ensures err { IfErr result (λ f. fault_of bytes.now ≡ Some f) }

    // And no spelling is refused, nor any fault passed over.
    ensures every_spelling { (b : Beacon) → Spells b bytes.now → result ≡ Ok b }
    ensures every_fault { (f : BeaconFault) → fault_of bytes.now ≡ Some f → result ≡ Err f }
{
    if bytes.len() != LENGTH {
        return Err(BeaconFault::Length);
    }
    if u32_at(bytes, 0) != MAGIC {
        return Err(BeaconFault::Magic);
    }
    if u32_at(bytes, ZEROS) != 0 {
        return Err(BeaconFault::Zero);
    }
    let beacon = Beacon {
        cluster: u32_at(bytes, CLUSTER),
        sender: u32_at(bytes, SENDER),
        seq: u64_at(bytes, SEQ),
        l: u64_at(bytes, CLOCK),
        m: u64_at(bytes, MAXIMUM),
    };
    if beacon.seq == 0 {
        return Err(BeaconFault::Sequence);
    }
    if beacon.m < beacon.l {
        return Err(BeaconFault::Order);
    }
    if beacon.m >= END {
        return Err(BeaconFault::Far);
    }
    Ok(beacon)
}
