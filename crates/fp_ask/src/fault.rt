//! Why lines aren't all answered.

ghost use Rattle.std.specs.Prelude.{◌≡◌};
ghost use Rattle.fp_ask.specs.declared.fault.AskFault.TheVariants.{Memory};

use std::alloc::AllocError;
use thiserror::Error;

/// Why the lines of an input aren't all answered.
#[derive(Clone, Copy, Debug, PartialEq, Eq, Error)]
pub enum AskFault {
    /// The line of this number, counted from 1, is no message and no wait, or waits past the last moment.
    #[error("line {0}: bad line")]
    BadLine(u128),
    /// The reader failed.
    #[error("input: cannot be read")]
    ReadFault,
    /// The writer failed.
    #[error("output: cannot be written")]
    WriteFault,
    /// The limit on reads was reached before the end of the input.
    #[error("turn limit")]
    TurnLimit,
    /// An allocation failed.
    #[error("out of memory")]
    Memory,
}

impl From<AllocError> for AskFault {
    ghost from_gives = { λ _ fault. fault ≡ Memory };

    fn from(_error: AllocError) -> AskFault {
        AskFault::Memory
    }
}
