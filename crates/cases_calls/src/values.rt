//! Values from text. A text that isn't valid is a fault of the answer.

ghost use Rattle.std.specs.Prelude.{◌<◌};

use bytes::Bytes;
use cases::{Answer, identifier_of, octets_of};
use fp_apdu::Name;
use fp_digits::{Cause, Digits, Moment, NatureOfAddress, Number};
use fp_frames::Frame;
use fp_q773::{AbortCause, Tid};
use std::alloc::Global;

/// 2024-05-06T12:00:00Z, a Monday, in milliseconds since 1970-01-01T00:00:00Z.
pub(crate) const NOON: u64 = 1_714_996_800_000;

/// The moment this number of milliseconds after noon.
pub(crate) fn after_noon(milliseconds: u32) -> Moment {
    Moment::new(NOON + u64::from(milliseconds)).unwrap()
}

/// The value that a call gave. `None`, and a fault of the answer, if it gave an error.
pub(crate) fn kept<T: Drop, E: Drop>(given: Result<T, E>, out: &mut Answer) -> Option<T> {
    match given {
        Ok(value) => Some(value),
        Err(_) => {
            out.fail("an error, or out of memory");
            None
        }
    }
}

/// The value in an option. `None`, and this fault of the answer, if there is none.
pub(crate) fn found<T: Drop>(value: Option<T>, fault: &str, out: &mut Answer) -> Option<T> {
    if value.is_none() {
        out.fail(fault);
    }
    value
}

/// The value of a hexadecimal digit in upper case; 0, and a fault, for another octet.
pub(crate) fn hexadecimal(octet: u8, out: &mut Answer) -> u8
    ensures { result < 16 }
{
    match octet {
        b'0'..=b'9' => octet - b'0',
        b'A'..=b'F' => octet - b'A' + 10,
        _ => {
            out.fail("no hexadecimal digit");
            0
        }
    }
}

/// The digits in a hexadecimal text; `empty` means none.
fn digits_of(text: &str, out: &mut Answer) -> Digits {
    let mut digits = Digits::new();
    if text == "empty" {
        return digits;
    }
    for octet in text.as_bytes() {
        let digit = hexadecimal(*octet, out);
        if digits.len() >= Digits::MOST {
            out.fail("too many digits");
            break;
        }
        digits.push(digit);
    }
    digits
}

/// The number of this nature of address and these digits.
pub(crate) fn number_with(nature: NatureOfAddress, text: &str, out: &mut Answer) -> Number {
    let digits = digits_of(text, out);
    Number { nature, digits }
}

/// The national number of these digits.
pub(crate) fn national_number_of(text: &str, out: &mut Answer) -> Number {
    number_with(NatureOfAddress::NATIONAL, text, out)
}

/// The application context name of these octets. `None`, and a fault, if they are none.
pub(crate) fn name_of(alloc: Global, text: &str, out: &mut Answer) -> Option<Name> {
    let octets = octets_of(alloc, text, out);
    found(
        Name::new(octets.as_slice()),
        "no application context name",
        out,
    )
}

/// The transaction identifier of these one to four octets. 0, and a fault, for other octets.
pub(crate) fn tid_of(alloc: Global, text: &str, out: &mut Answer) -> Tid {
    let octets = octets_of(alloc, text, out);
    match Tid::new(octets.as_slice()) {
        Some(tid) => tid,
        None => {
            out.fail("no transaction identifier");
            Tid::of_number(0)
        }
    }
}

/// The cause of this name; another one, and a fault, for another text.
pub(crate) fn cause_of(text: &str, out: &mut Answer) -> Cause {
    match text {
        "NoRouteToDestination" => Cause::NoRouteToDestination,
        "UserBusy" => Cause::UserBusy,
        "NoAnswerFromUser" => Cause::NoAnswerFromUser,
        "CallRejected" => Cause::CallRejected,
        _ => {
            out.fail("no cause");
            Cause::CallRejected
        }
    }
}

/// Why the provider aborts a dialogue, by its name; another cause, and a fault, for another text.
pub(crate) fn abort_cause_of(text: &str, out: &mut Answer) -> AbortCause {
    match text {
        "UnrecognizedMessageType" => AbortCause::UnrecognizedMessageType,
        "UnrecognizedTransactionIdentifier" => AbortCause::UnrecognizedTransactionIdentifier,
        "BadlyFormattedTransactionPortion" => AbortCause::BadlyFormattedTransactionPortion,
        "ResourceLimitation" => AbortCause::ResourceLimitation,
        _ => {
            out.fail("no cause of an Abort");
            AbortCause::ResourceLimitation
        }
    }
}

/// The frame of the message of these octets. `None`, and a fault, if a frame can't hold it.
pub(crate) fn frame_of(alloc: Global, text: &str, out: &mut Answer) -> Option<Frame> {
    let octets = octets_of(alloc, text, out);
    let message = kept(Bytes::copy_from_slice(alloc, octets.as_slice()), out)?;
    found(Frame::new(message), "no frame", out)
}

/// The local transaction identifier of these eight hexadecimal digits; 0, and a fault, for another text.
pub(crate) fn local_of(text: &str, out: &mut Answer) -> u32 {
    identifier_of(text, out)
}
