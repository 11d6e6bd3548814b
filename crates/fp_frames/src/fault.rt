//! Why there is no next frame.

ghost use Rattle.std.specs.Prelude.{◌≡◌};
ghost use Rattle.fp_frames.specs.declared.fault.FrameFault.TheVariants.{Memory};

use std::alloc::AllocError;
use thiserror::Error;

/// Why a stream of octets has no next frame.
#[derive(Clone, Copy, Debug, PartialEq, Eq, Error)]
pub enum FrameFault {
    /// The length of the next frame is 0 or above 4,096 octets.
    #[error("bad frame length")]
    BadFrameLength,
    /// An allocation failed.
    #[error("out of memory")]
    Memory,
}

impl From<AllocError> for FrameFault {
    ghost from_gives = { λ _ fault. fault ≡ Memory };

    fn from(_error: AllocError) -> FrameFault {
        FrameFault::Memory
    }
}
