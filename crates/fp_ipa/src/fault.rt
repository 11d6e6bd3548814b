//! Why there is no next message.

ghost use Rattle.std.specs.Prelude.{◌≡◌};
ghost use Rattle.fp_ipa.specs.declared.fault.IpaFault.TheVariants.{Memory};

use std::alloc::AllocError;
use thiserror::Error;

/// Why a stream of octets has no next message.
#[derive(Clone, Copy, Debug, PartialEq, Eq, Error)]
pub enum IpaFault {
    /// The next message has more than 4,096 octets.
    #[error("message too long")]
    TooLong,
    /// An allocation failed.
    #[error("out of memory")]
    Memory,
}

impl From<AllocError> for IpaFault {
    ghost from_gives = { λ _ fault. fault ≡ Memory };

    fn from(_error: AllocError) -> IpaFault {
        IpaFault::Memory
    }
}
