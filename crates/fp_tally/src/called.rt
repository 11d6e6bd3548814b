//! The number that a call is for.
//!
//! The called number of the first InitialDP of the Begin that can be read and isn't linked to another Invoke: the one
//! that the service answers.

use crate::plain_begin::called_octets;
use fp_digits::{Number, read_called};
use fp_inap::{Operation, initial_dp_in};
use fp_q773::{Code, Component, Invoke, Message, message_of};
use std::alloc::{AllocError, Global};

/// The most digits of a called number.
const MOST_DIGITS: u32 = 15;

/// The least key of a number with 15 digits: four bits for each.
const FULL: u64 = 1 << 56;

/// The key of a number with one more digit. `None` if the digit isn't decimal, or the number has 15 already.
fn with_digit(key: u64, digit: u8) -> Option<u64> {
    if digit > 9 || key >= FULL {
        return None;
    }
    Some((key << 4) | (u64::from(digit) + 1))
}

/// The key of a number of 1 to 15 decimal digits, each 0 to 9. No other number has the same key. `None` if these aren't
/// such digits. For example, the key of 800 is 0x911.
pub(crate) fn key_of(digits: &[u8]) -> Option<u64> {
    let mut key = 0;
    for digit in digits {
        key = with_digit(key, *digit)?;
    }
    if key == 0 { None } else { Some(key) }
}

/// A called number of 1 to 15 decimal digits, as an operator writes it. For example, `80012345`.
#[derive(Clone, Copy, Debug, PartialEq, Eq)]
pub struct CalledNumber {
    key: u64,
}

impl CalledNumber {
    /// The number in a text. `None` if the text isn't 1 to 15 decimal digits.
    pub fn from_text(text: &str) -> Option<CalledNumber> {
        let mut key = 0;
        for octet in text.as_bytes() {
            key = with_digit(key, octet.wrapping_sub(b'0'))?;
        }
        if key == 0 {
            return None;
        }
        Some(CalledNumber { key })
    }

    /// The key of the number.
    pub(crate) fn key(self) -> u64 {
        self.key
    }

    /// The digits of the number. If memory runs out, there is no text.
    pub fn text(self, alloc: Global) -> Result<String, AllocError> {
        let mut text = String::new(alloc);
        let mut rest = self.key;
        for _ in 0..MOST_DIGITS {
            if let Some(digit) = first_digit(rest) {
                text.push(digit)?;
            }
            rest <<= 4;
        }
        Ok(text)
    }
}

/// The digit in the first of 15 places of a key. `None`: that place is empty.
fn first_digit(key: u64) -> Option<char> {
    let digit = ((key >> 56) & 0xF).checked_sub(1)?;
    char::from_digit(u32::try_from(digit).unwrap_or_default(), 10)
}

/// The call in an Invoke, if it is an InitialDP.
#[derive(Clone, Copy)]
enum Asked {
    /// An Invoke that is no InitialDP, or is linked, or can't be read.
    Nothing,
    /// An InitialDP for this number, if it names one.
    Call(Option<Number>),
}

/// The call in an Invoke, if that is an InitialDP that can be read.
fn asked_by(invoke: &Invoke<'_>) -> Asked {
    let Code::Local(code) = invoke.code else {
        return Asked::Nothing;
    };
    if code != Operation::InitialDp.code() || invoke.linked.is_some() {
        return Asked::Nothing;
    }
    let Some(parameter) = invoke.parameter else {
        return Asked::Nothing;
    };
    match initial_dp_in(&parameter) {
        Ok(dp) => Asked::Call(dp.called),
        Err(_) => Asked::Nothing,
    }
}

/// The number of the first readable InitialDP. None is looked at after a faulty component.
fn called_in(components: &[Component<'_>]) -> Option<Number> {
    for component in components {
        match component {
            Component::Invoke(invoke) => {
                if let Asked::Call(called) = asked_by(invoke) {
                    return called;
                }
            }
            Component::Faulty { .. } => return None,
            _ => {}
        }
    }
    None
}

/// The number that a Begin calls, read as a whole.
fn number_in(alloc: Global, begin: &[u8]) -> Option<Number> {
    let element = fp_ber::read(alloc, begin).ok()?;
    match message_of(alloc, &element) {
        Ok(Message::Begin(begin)) => called_in(begin.components.as_slice()),
        Ok(_) | Err(_) => None,
    }
}

/// The number that a Begin with these octets calls. `None` too, if memory runs out.
pub(crate) fn called_number(alloc: Global, begin: &[u8]) -> Option<Number> {
    match called_octets(begin) {
        Some(octets) => read_called(octets).ok(),
        None => number_in(alloc, begin),
    }
}
