//! The kinds of messages that are counted.

ghost use Rattle.std.specs.Prelude.{◌≡◌};
ghost use Rattle.fp_counters.specs.Steps.{cause_counter, kind_counter, kind_in};

use crate::Counter;
use fp_q773::{AbortCause, Kind};

/// The kind of a message, by its first octet (Q.773, 4.2.1).
pub(crate) fn kind_in(octets: &[u8]) -> Kind
    ensures { result ≡ kind_in octets.now }
{
    let [first, ..] = octets else {
        return Kind::Unknown;
    };
    match first {
        0x61 => Kind::Unidirectional,
        0x62 => Kind::Begin,
        0x64 => Kind::End,
        0x65 => Kind::Continue,
        0x67 => Kind::Abort,
        _ => Kind::Unknown,
    }
}

/// The counter of the messages of a kind.
pub(crate) fn kind_counter(kind: Kind) -> Counter
    ensures { result ≡ kind_counter kind }
{
    match kind {
        Kind::Unidirectional => Counter::Unidirectionals,
        Kind::Begin => Counter::Begins,
        Kind::End => Counter::Ends,
        Kind::Continue => Counter::Continues,
        Kind::Abort => Counter::Aborts,
        Kind::Unknown => Counter::UnknownMessages,
    }
}

/// The counter of the messages that are refused with this cause.
pub(crate) fn cause_counter(cause: AbortCause) -> Counter
    ensures { result ≡ cause_counter cause }
{
    match cause {
        AbortCause::UnrecognizedMessageType => Counter::RefusedUnknownMessage,
        AbortCause::UnrecognizedTransactionIdentifier => Counter::RefusedUnknownTransaction,
        AbortCause::BadlyFormattedTransactionPortion => Counter::RefusedBadTransaction,
        AbortCause::IncorrectTransactionPortion => Counter::RefusedIncorrectTransaction,
        AbortCause::ResourceLimitation => Counter::RefusedLimit,
    }
}
