//! The reasons for status 1, and the line of each.

ghost use Rattle.std.specs.Prelude.{◌≡◌};

use fp_ask::AskFault;
use fp_network::NetworkFault;
use fp_records::RecordsFault;
use fp_replay::ReplayFault;
use fp_serve::ServeFault;
use std::alloc::{AllocError, AllocFailed};
use thiserror::Error;

/// Why a run ends with status 1.
#[derive(Clone, Copy, Debug, PartialEq, Eq, Error)]
pub enum RunFault {
    /// The moment of the command line isn't one.
    #[error("moment: not an instant from 1970 to 2099")]
    NoMoment,
    /// The application contexts of the command line aren't a list of names.
    #[error("contexts: not a list of names")]
    NoContexts,
    /// The file of the records could not be read.
    #[error("records: cannot be read")]
    UnreadableRecords,
    /// The text of the records is faulty.
    #[error("{0}")]
    Records(RecordsFault),
    /// A fault while the lines of the input were answered.
    #[error("{0}")]
    Ask(AskFault),
    /// The file of the log could not be opened.
    #[error("log: cannot be opened")]
    UnopenedLog,
    /// A fault while the log was replayed.
    #[error("{0}")]
    Replay(ReplayFault),
    /// The records were read again, but don't replace the earlier ones: the run takes no more tables, or memory ran
    /// out.
    #[error("reload: refused")]
    RefusedReload,
    /// A fault while the links were served.
    #[error("{0}")]
    Serve(ServeFault),
    /// No connections can be awaited at the address for the run's counters.
    #[error("metrics: cannot listen")]
    NoMetrics,
    /// The network of a node ended before its link did.
    #[error("{0}")]
    Network(NetworkFault),
}

impl From<NetworkFault> for RunFault {
    ghost use Rattle.scp.specs.declared.fault.RunFault.TheVariants.{Network};

    ghost from_gives = { λ cause fault. fault ≡ Network cause };

    fn from(cause: NetworkFault) -> RunFault {
        RunFault::Network(cause)
    }
}

impl From<RecordsFault> for RunFault {
    ghost use Rattle.scp.specs.declared.fault.RunFault.TheVariants.{Records};

    ghost from_gives = { λ cause fault. fault ≡ Records cause };

    fn from(cause: RecordsFault) -> RunFault {
        RunFault::Records(cause)
    }
}

impl From<AskFault> for RunFault {
    ghost use Rattle.scp.specs.declared.fault.RunFault.TheVariants.{Ask};

    ghost from_gives = { λ cause fault. fault ≡ Ask cause };

    fn from(cause: AskFault) -> RunFault {
        RunFault::Ask(cause)
    }
}

impl From<ReplayFault> for RunFault {
    ghost use Rattle.scp.specs.declared.fault.RunFault.TheVariants.{Replay};

    ghost from_gives = { λ cause fault. fault ≡ Replay cause };

    fn from(cause: ReplayFault) -> RunFault {
        RunFault::Replay(cause)
    }
}

impl From<ServeFault> for RunFault {
    ghost use Rattle.scp.specs.declared.fault.RunFault.TheVariants.{Serve};

    ghost from_gives = { λ cause fault. fault ≡ Serve cause };

    fn from(cause: ServeFault) -> RunFault {
        RunFault::Serve(cause)
    }
}

impl From<AllocError> for RunFault {
    ghost use Rattle.scp.specs.declared.fault.RunFault.TheVariants.{Ask};
    ghost use Rattle.fp_ask.specs.declared.fault.AskFault.TheVariants.{Memory};

    ghost from_gives = { λ _ fault. fault ≡ Ask Memory };

    fn from(_error: AllocError) -> RunFault {
        RunFault::Ask(AskFault::Memory)
    }
}

impl<T: Drop> From<AllocFailed<T>> for RunFault {
    ghost use Rattle.scp.specs.declared.fault.RunFault.TheVariants.{Ask};
    ghost use Rattle.fp_ask.specs.declared.fault.AskFault.TheVariants.{Memory};

    ghost from_gives = { λ _ fault. fault ≡ Ask Memory };

    fn from(_error: AllocFailed<T>) -> RunFault {
        RunFault::Ask(AskFault::Memory)
    }
}
