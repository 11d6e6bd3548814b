//! Why a log isn't replayed.

ghost use Rattle.std.specs.Prelude.{◌≡◌};
ghost use Rattle.fp_replay.specs.declared.replay_fault.Refusal.TheVariants as refusals;
ghost use Rattle.fp_replay.specs.declared.replay_fault.ReplayFault.TheVariants.{Memory};
ghost use Rattle.fp_replay.specs.proof_only.Making.{fault_at, fault_of};

use fp_streams::LinesFault;
use std::alloc::AllocError;
use thiserror::Error;

/// Why a log isn't replayed. Lines are counted from 1, including the head.
#[derive(Clone, Copy, Debug, PartialEq, Eq, Error)]
pub enum ReplayFault {
    /// Line N is missing (a log without a head), malformed, out of place, not ended by a line feed, or its message was
    /// read with a table that wasn't passed in or that has a place after the last one of the run.
    #[error("line {0}: bad line")]
    BadLine(u128),
    /// Line N says that lines were lost, or that memory ran out for a Clock.
    #[error("line {0}: gap")]
    Gap(u128),
    /// Line N differs from the line of its replayed step, or it gives or puts back a turn that isn't out.
    #[error("line {0}: disagrees")]
    Disagrees(u128),
    /// The reader failed.
    #[error("input: cannot be read")]
    ReadFault,
    /// The writer failed.
    #[error("output: cannot be written")]
    WriteFault,
    /// The limit on reads was reached before the end of the input.
    #[error("turn limit")]
    TurnLimit,
    /// An allocation failed.
    #[error("out of memory")]
    Memory,
}

impl From<AllocError> for ReplayFault {
    ghost from_gives = { λ _ fault. fault ≡ Memory };

    fn from(_error: AllocError) -> ReplayFault {
        ReplayFault::Memory
    }
}

/// Why a line isn't taken.
#[derive(Clone, Copy, Debug, PartialEq, Eq)]
pub(crate) enum Refusal {
    /// A line that is malformed or out of place, or whose message was read with a table that the run doesn't have.
    BadLine,
    /// A line that says that lines were lost, or that memory ran out for a Clock.
    Gap,
    /// A line that differs from the line of its replayed step, or that gives or puts back a turn that isn't out.
    Disagrees,
    /// An allocation failed.
    Memory,
}

impl From<AllocError> for Refusal {
    ghost from_gives = { λ _ refusal. refusal ≡ refusals.Memory };

    fn from(_error: AllocError) -> Refusal {
        Refusal::Memory
    }
}

impl Refusal {
    /// The fault of a log whose line of this number isn't taken.
    fn at(self, number: u128) -> ReplayFault
        ensures { result ≡ fault_at self number }
    {
        match self {
            Refusal::BadLine => ReplayFault::BadLine(number),
            Refusal::Gap => ReplayFault::Gap(number),
            Refusal::Disagrees => ReplayFault::Disagrees(number),
            Refusal::Memory => ReplayFault::Memory,
        }
    }
}

/// The fault of a log whose lines weren't all taken.
pub(crate) fn fault_of(fault: LinesFault<Refusal>) -> ReplayFault
    ensures { result ≡ fault_of fault }
{
    match fault {
        LinesFault::TooLong(number) => ReplayFault::BadLine(number),
        LinesFault::Refused(number, refusal) => refusal.at(number),
        LinesFault::ReadFault => ReplayFault::ReadFault,
        LinesFault::TurnLimit => ReplayFault::TurnLimit,
        LinesFault::Memory => ReplayFault::Memory,
    }
}
