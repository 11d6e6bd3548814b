//! Why an argument isn't read.

use thiserror::Error;

/// The element isn't an argument of the operation.
#[derive(Clone, Copy, Debug, PartialEq, Eq, Error)]
#[error("mistyped argument")]
pub struct Mistyped;
