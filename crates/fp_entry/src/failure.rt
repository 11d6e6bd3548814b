//! Why a frame gives no message.

ghost use Rattle.std.specs.Prelude.{◌≡◌};
ghost use Rattle.fp_entry.specs.declared.failure.Failure.TheVariants.{Memory};

use crate::fault::Fault;
use std::alloc::{AllocError, AllocFailed};

/// Why a frame wasn't read completely.
#[derive(Clone, Copy)]
pub enum Failure {
    /// The frame is refused.
    Refused(Fault),
    /// An allocation failed.
    Memory,
}

impl From<AllocError> for Failure {
    ghost from_gives = { λ _ failure. failure ≡ Memory };

    fn from(_error: AllocError) -> Failure {
        Failure::Memory
    }
}

impl<T: Drop> From<AllocFailed<T>> for Failure {
    ghost from_gives = { λ _ failure. failure ≡ Memory };

    fn from(_error: AllocFailed<T>) -> Failure {
        Failure::Memory
    }
}
