use thiserror::Error;

/// The outside failed, and the object that was called has counted it.
#[derive(Clone, Copy, Debug, PartialEq, Eq, Error)]
#[error("the outside failed")]
pub struct Failed;
