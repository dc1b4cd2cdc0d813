/// How many bytes spell a beacon.
pub const LENGTH: usize = 40;

/// "GCS1" as a big-endian number: the first 4 bytes.
pub(crate) const MAGIC: u32 = 0x4743_5331;

/// Where the cluster stands, of 4 bytes.
pub(crate) const CLUSTER: usize = 4;

/// Where the sender stands, of 4 bytes.
pub(crate) const SENDER: usize = 8;

/// Where 4 bytes stand that are 0.
pub(crate) const ZEROS: usize = 12;

/// Where the sequence stands, of 8 bytes, and behind it the two other numbers.
pub(crate) const SEQ: usize = 16;

/// Where the clock stands, of 8 bytes.
pub(crate) const CLOCK: usize = 24;

/// Where the maximum stands, of 8 bytes.
pub(crate) const MAXIMUM: usize = 32;
