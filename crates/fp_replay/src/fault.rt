//! The reasons why a text isn't a line.

ghost use Rattle.std.specs.Prelude.{◌≡◌};
ghost use Rattle.fp_replay.specs.declared.fault.LineFault.TheVariants.{Memory};

use std::alloc::AllocError;
use thiserror::Error;

/// Why a text isn't read as a line of a log.
#[derive(Clone, Copy, Debug, PartialEq, Eq, Error)]
pub enum LineFault {
    /// The text of no line.
    #[error("bad line")]
    BadLine,
    /// An allocation failed.
    #[error("out of memory")]
    Memory,
}

impl From<AllocError> for LineFault {
    ghost from_gives = { λ _ fault. fault ≡ Memory };

    fn from(_error: AllocError) -> LineFault {
        LineFault::Memory
    }
}
