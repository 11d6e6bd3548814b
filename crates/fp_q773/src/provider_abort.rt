//! An Abort of the provider (Q.773, 4.2.1), spelled without memory.

ghost use Rattle.std.specs.Prelude.{◌≡◌, IfSome};
ghost use Rattle.fp_ber.specs.Canon.{canon};
ghost use Rattle.fp_q773.specs.Tid.{octets_of};
ghost use Rattle.fp_q773.specs.declared.provider_abort.AbortCause.{AbortCause};
ghost use Rattle.fp_q773.specs.ProviderAbort.{cause_code, provider_abort};

use crate::tid::Tid;
use fp_octets::Octets;

/// The tag of an Abort.
const ABORT: u8 = 0x67;
/// The tag of a destination transaction identifier.
const DESTINATION: u8 = 0x49;
/// The tag of a cause.
const CAUSE: u8 = 0x4A;

/// Why the provider cuts off a dialogue. The program never sends `IncorrectTransactionPortion`, but a log may name it.
#[derive(Clone, Copy, Debug, PartialEq, Eq)]
pub enum AbortCause {
    /// The tag isn't a message's.
    UnrecognizedMessageType,
    /// The transaction identifier names no dialogue.
    UnrecognizedTransactionIdentifier,
    /// The transaction portion is encoded wrongly.
    BadlyFormattedTransactionPortion,
    /// The transaction portion isn't the expected one.
    IncorrectTransactionPortion,
    /// There is no room for the dialogue.
    ResourceLimitation,
}

impl AbortCause {
    /// The cause with this value; `None` for a value above 4.
    pub fn from_code(code: u8) -> Option<AbortCause>
        ensures value { IfSome result (λ cause. cause_code cause ≡ code) }
        ensures only { (cause : AbortCause) → cause_code cause ≡ code → result ≡ Some cause }
    {
        match code {
            0 => Some(AbortCause::UnrecognizedMessageType),
            1 => Some(AbortCause::UnrecognizedTransactionIdentifier),
            2 => Some(AbortCause::BadlyFormattedTransactionPortion),
            3 => Some(AbortCause::IncorrectTransactionPortion),
            4 => Some(AbortCause::ResourceLimitation),
            _ => None,
        }
    }

    /// The value of the cause.
    pub fn code(self) -> u8
        ensures { result ≡ cause_code self }
    {
        match self {
            AbortCause::UnrecognizedMessageType => 0,
            AbortCause::UnrecognizedTransactionIdentifier => 1,
            AbortCause::BadlyFormattedTransactionPortion => 2,
            AbortCause::IncorrectTransactionPortion => 3,
            AbortCause::ResourceLimitation => 4,
        }
    }
}

/// The octets of an Abort of the provider: eight to eleven.
pub type AbortOctets = Octets<11>;

/// Writes an Abort of the provider (Q.773, 4.2.1), in the canonical spelling. Takes no memory. For example, `67 09 49
/// 04 00 00 00 07 4A 01 01` aborts the peer's dialogue 00 00 00 07: unrecognized transaction identifier.
pub fn write_abort(destination: Tid, cause: AbortCause) -> AbortOctets
    ensures { result ≡ canon (provider_abort (octets_of destination) (cause_code cause)) }
{
    let identifier = destination.as_slice();
    let size = identifier.len() as u8;
    let mut octets = Octets::new();
    octets.extend(&[ABORT, size + 5, DESTINATION, size]);
    octets.extend(identifier);
    octets.extend(&[CAUSE, 1, cause.code()]);
    octets
}
