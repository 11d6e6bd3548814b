//! The faults that end a run otherwise than by the end of its links.

ghost use Rattle.std.specs.Prelude.{◌≡◌};

use fp_linkstate::Why;
use std::alloc::AllocError;
use thiserror::Error;

/// The reason why a run ended otherwise than by the end of its links. All links went down.
#[derive(Clone, Copy, Debug, PartialEq, Eq, Error)]
pub enum ServeFault {
    /// The bound address is not known, or a connection could not be accepted.
    #[error("listen: cannot listen")]
    NoConnection,
    /// A thread could not be made.
    #[error("thread: cannot start")]
    NoThread,
    /// A link has lost a part of its counts, so that its totals aren't known.
    #[error("seats: not all came back")]
    LostSeat,
    /// The log could not be written.
    #[error("log: cannot be written")]
    UnwrittenLog,
    /// Standard output could not be written.
    #[error("output: cannot be written")]
    WriteFault,
    /// An allocation failed.
    #[error("out of memory")]
    Memory,
}

impl ServeFault {
    /// The reason for the links to go down after this fault of the run.
    pub(crate) fn why(self) -> Why {
        match self {
            ServeFault::UnwrittenLog => Why::LogFault,
            ServeFault::Memory => Why::Memory,
            ServeFault::NoConnection
            | ServeFault::NoThread
            | ServeFault::LostSeat
            | ServeFault::WriteFault => Why::RunFault,
        }
    }
}

impl From<AllocError> for ServeFault {
    ghost use Rattle.fp_serve.specs.declared.run.fault.ServeFault.TheVariants.{Memory};

    ghost from_gives = { λ _ fault. fault ≡ Memory };

    fn from(_error: AllocError) -> ServeFault {
        ServeFault::Memory
    }
}
