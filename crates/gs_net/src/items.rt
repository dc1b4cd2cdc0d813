ghost use Rattle.std.specs.Prelude.{◌≡◌};

use std::alloc::AllocError;
use std::marker::Model;
use thiserror::Error;

/// The bytes of a datagram, of any number. Contracts see the list of them.
#[derive(Debug, Drop)]
pub struct Payload {
    bytes: Vec<u8>,
}

impl Model for Payload {
    ghost use Rattle.std.specs.Prelude.{List, ℕ};

    ghost Value = { List ℕ };

    ghost view = { λ payload. payload.bytes.items };
}

impl Payload {
    /// A datagram of these bytes.
    pub fn from_vec(bytes: Vec<u8>) -> Self
        ensures { result ≡ bytes.items }
    {
        Payload { bytes }
    }

    /// The bytes in order.
    pub fn as_slice(&self) -> &[u8]
        ensures { result.now ≡ self.now }
    {
        &self.bytes
    }
}

/// What comes to an inlet.
#[derive(Debug, Drop)]
pub enum Item {
    /// A datagram.
    Datagram(Payload),
    /// A quiet mark: a call that looks here finds no datagram ready.
    Quiet,
}

impl Clone for Item {
    ghost is_clone = { λ item copy. copy ≡ item };

    /// Memory for the copy comes from where the datagram has its own.
    fn clone(&self) -> Result<Item, AllocError> {
        match self {
            Item::Datagram(payload) => Ok(Item::Datagram(Payload::from_vec(
                payload.bytes.clone()?,
            ))),
            Item::Quiet => Ok(Item::Quiet),
        }
    }
}

/// What a call of an inlet got.
#[derive(Clone, Copy, Debug, PartialEq, Eq)]
pub enum Got {
    /// A datagram, of which this many bytes were put in front, at most 64. The rest is lost.
    Datagram(u32),
    /// None was ready.
    Quiet,
    /// None will come any more.
    Ended,
}

/// Why ports lent nothing.
#[derive(Clone, Copy, Debug, PartialEq, Eq, Error)]
pub enum LinkStop {
    /// The outside failed, and the ports have counted it.
    #[error("the link failed")]
    Failed,
    /// Memory was refused.
    #[error("out of memory")]
    OutOfMemory,
}
