//! Why an element isn't a message.

ghost use Rattle.std.specs.Prelude.{◌≡◌};
ghost use Rattle.fp_q773.specs.declared.fault.MessageFault.TheVariants.{Memory};

use std::alloc::{AllocError, AllocFailed};
use thiserror::Error;

/// Why an element was not read as a message.
#[derive(Clone, Copy, Debug, PartialEq, Eq, Error)]
pub enum MessageFault {
    /// The tag isn't a message's.
    #[error("a message with an unknown tag")]
    UnknownMessage,
    /// The tag is a message's, but the contents don't fit.
    #[error("a message with other contents than its own")]
    Badly,
    /// An allocation failed. The element may be right or wrong.
    #[error("out of memory")]
    Memory,
}

impl From<AllocError> for MessageFault {
    ghost from_gives = { λ _ fault. fault ≡ Memory };

    fn from(_error: AllocError) -> MessageFault {
        MessageFault::Memory
    }
}

impl<T: Drop> From<AllocFailed<T>> for MessageFault {
    ghost from_gives = { λ _ fault. fault ≡ Memory };

    fn from(_error: AllocFailed<T>) -> MessageFault {
        MessageFault::Memory
    }
}
