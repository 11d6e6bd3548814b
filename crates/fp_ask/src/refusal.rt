//! Why no further line is answered.

ghost use Rattle.std.specs.Prelude.{◌≡◌};
ghost use Rattle.fp_ask.specs.proof_only.Answering.{asked_of, is_write_fault};
ghost use Rattle.fp_ask.specs.declared.refusal.Refusal.TheVariants.{Memory};

use crate::AskFault;
use fp_streams::LinesFault;
use std::alloc::AllocError;

/// Why no further line is answered.
#[derive(Clone, Copy, Debug)]
pub(crate) enum Refusal {
    /// A line that is no message and no wait, or waits past the last moment.
    BadLine,
    /// The writer failed.
    WriteFault,
    /// An allocation failed.
    Memory,
}

impl From<AllocError> for Refusal {
    ghost from_gives = { λ _ refusal. refusal ≡ Memory };

    fn from(_error: AllocError) -> Refusal {
        Refusal::Memory
    }
}

/// Whether this is the refusal of a line whose answers couldn't be written.
pub(crate) fn is_write_fault(answered: &Result<(), Refusal>) -> bool
    ensures { result ≡ is_write_fault answered.now }
{
    matches!(answered, Err(Refusal::WriteFault))
}

/// The result of `ask`, from the result of `follow_lines`.
pub(crate) fn asked(followed: Result<(), LinesFault<Refusal>>) -> Result<(), AskFault>
    ensures { result ≡ asked_of followed }
{
    match followed {
        Ok(()) => Ok(()),
        Err(LinesFault::TooLong(number)) => Err(AskFault::BadLine(number)),
        Err(LinesFault::Refused(number, Refusal::BadLine)) => Err(AskFault::BadLine(number)),
        Err(LinesFault::Refused(_, Refusal::WriteFault)) => Err(AskFault::WriteFault),
        Err(LinesFault::Refused(_, Refusal::Memory)) => Err(AskFault::Memory),
        Err(LinesFault::ReadFault) => Err(AskFault::ReadFault),
        Err(LinesFault::TurnLimit) => Err(AskFault::TurnLimit),
        Err(LinesFault::Memory) => Err(AskFault::Memory),
    }
}
