//! Values that may be absent, digits and octets as text.

use cases::Answer;
use fp_q773::Tid;
use std::fmt::Display;

/// Writes a value, or this word for `None`.
pub(crate) fn push_or<T: Display + Drop>(out: &mut Answer, value: Option<T>, none: &str) {
    match value {
        Some(value) => out.value(value),
        None => out.text(none),
    }
}

/// Writes octets, or `none`.
pub(crate) fn push_octets_or_none(out: &mut Answer, octets: Option<&[u8]>) {
    match octets {
        Some(octets) => out.octets(octets),
        None => out.text("none"),
    }
}

/// Writes a transaction identifier, or `none`.
pub(crate) fn push_tid(out: &mut Answer, tid: Option<Tid>) {
    match tid {
        Some(tid) => out.octets(tid.as_slice()),
        None => out.text("none"),
    }
}

/// The hexadecimal digit of this value, in upper case; `?` for 16 and more.
fn digit_of(value: u8) -> char {
    char::from(match value {
        0..=9 => b'0' + value,
        10..=15 => b'A' + (value - 10),
        _ => b'?',
    })
}

/// Writes digits, each 0 to F.
pub(crate) fn push_digits(out: &mut Answer, digits: &[u8]) {
    for digit in digits {
        out.character(digit_of(*digit));
    }
}

/// Writes octets in upper case, and nothing for none.
pub(crate) fn push_hexadecimal(out: &mut Answer, octets: &[u8]) {
    if !octets.is_empty() {
        out.octets(octets);
    }
}
