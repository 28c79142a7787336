//! The fault that every outside has.

use thiserror::Error;

/// The outside failed: a read, a write or a put did not come about.
#[derive(Clone, Copy, Debug, PartialEq, Eq, Error)]
#[error("the outside failed")]
pub struct Failed;
