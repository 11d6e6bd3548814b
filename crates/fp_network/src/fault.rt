//! Why a network ends before its link does.

ghost use Rattle.std.specs.Prelude.{◌≡◌};
ghost use Rattle.fp_network.specs.declared.fault.NetworkFault.TheVariants.{Memory};

use std::alloc::AllocError;
use thiserror::Error;

/// Why a network ended before its link did. The link goes down then.
#[derive(Clone, Copy, Debug, PartialEq, Eq, Error)]
pub enum NetworkFault {
    /// The system gave no socket for the link, or no readiness.
    #[error("network: cannot be served")]
    NoReadiness,
    /// The link sent octets that are no frames.
    #[error("network: no frames of the link")]
    BadFrames,
    /// An allocation failed.
    #[error("out of memory")]
    Memory,
}

impl From<AllocError> for NetworkFault {
    ghost from_gives = { λ _ fault. fault ≡ Memory };

    fn from(_error: AllocError) -> NetworkFault {
        NetworkFault::Memory
    }
}
