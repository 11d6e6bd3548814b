//! Numbers and causes (ITU-T Q.763, 3.9, 3.10 and 3.12; Q.850, 2.2), and moments.
//!
//! Octets and digits, each 0 to F, are hexadecimal, and `empty` if there are none.
//!
//! | Case | Result |
//! |---|---|
//! | `called HEX` | the number in the contents octets of a called party number, or `NoNumber` |
//! | `calling HEX` | the number in the contents octets of a calling party number, or `NoNumber` |
//! | `write-called DIGITS` | the contents octets of a called party number with these 1 to 15 decimal digits |
//! | `cause NAME` | the value of this cause, and its contents octets |
//! | `moment MILLISECONDS` | the moment this long after 1970-01-01T00:00:00Z, in milliseconds, or `none` |

ghost use Rattle.std.specs.Prelude.{◌≡◌, ◌≤◌, ◌<◌, All, length, true};

use crate::texts::{push_digits, push_or};
use crate::values::{cause_of, kept};
use cases::{Answer, number_of, octets_of};
use fp_digits::{
    Moment, NatureOfAddress, NoNumber, Number, cause, read_called, read_calling, write_called,
};
use std::alloc::Global;

/// The name of a nature of address.
fn nature_name(nature: NatureOfAddress) -> &'static str {
    if nature == NatureOfAddress::NATIONAL {
        "national"
    } else if nature == NatureOfAddress::INTERNATIONAL {
        "international"
    } else {
        "nature"
    }
}

/// Writes the nature of address of a number, by its name and its code, and its digits.
fn push_number(out: &mut Answer, number: &Number) {
    let digits = number.digits.as_slice();
    out.text(nature_name(number.nature));
    out.labeled(" ", number.nature.code());
    out.text(", digits ");
    if digits.is_empty() {
        out.text("empty");
    }
    push_digits(out, digits);
}

/// Writes a number that was read, or `NoNumber`.
fn push_read(out: &mut Answer, read: Result<Number, NoNumber>) {
    match read {
        Ok(number) => push_number(out, &number),
        Err(NoNumber) => out.text("NoNumber"),
    }
}

/// The number in the contents octets of a called party number.
fn called(alloc: Global, text: &str, out: &mut Answer) {
    let octets = octets_of(alloc, text, out);
    push_read(out, read_called(octets.as_slice()));
}

/// The number in the contents octets of a calling party number.
fn calling(alloc: Global, text: &str, out: &mut Answer) {
    let octets = octets_of(alloc, text, out);
    push_read(out, read_calling(octets.as_slice()));
}

/// The decimal digits of a text.
pub(crate) fn digits_of(alloc: Global, text: &str, out: &mut Answer) -> Vec<u8> {
    let mut digits = Vec::new(alloc);
    for octet in text.as_bytes() {
        if octet.is_ascii_digit() {
            out.push(&mut digits, *octet - b'0');
        } else {
            out.fail("no number");
        }
    }
    digits
}

/// Whether these are 1 to 15 decimal digits.
pub(crate) fn are_writable(digits: &[u8]) -> bool
    ensures some { result ≡ true → 1 ≤ length digits.now }
    ensures most { result ≡ true → length digits.now ≤ 15 }
    ensures decimal { result ≡ true → All (λ digit. digit < 10) digits.now }
{
    !digits.is_empty() && digits.len() <= 15 && digits.iter().all(|&digit| digit < 10)
}

/// The contents octets of a called party number with these digits.
fn write(alloc: Global, text: &str, out: &mut Answer) {
    let digits = digits_of(alloc, text, out);
    let digits = digits.as_slice();
    if are_writable(digits) {
        out.octets(write_called(digits).as_slice());
    } else {
        out.fail("not 1 to 15 decimal digits");
    }
}

/// The value and the contents octets of a cause.
fn coded_cause(text: &str, out: &mut Answer) {
    let value = cause_of(text, out).code();
    out.labeled("value ", value);
    out.text(", ");
    out.octets(&cause(value));
}

/// The moment this many milliseconds after 1970-01-01T00:00:00Z.
fn moment(text: &str, out: &mut Answer) {
    let moment = Moment::new(number_of(text, out));
    push_or(out, moment.map(|moment| moment.milliseconds()), "none");
}

/// Writes the result of a case of this kind. `false` if this module has no such cases.
pub(crate) fn answer(alloc: Global, kind: &str, rest: &str, out: &mut Answer) -> bool {
    match kind {
        "called" => called(alloc, rest, out),
        "calling" => calling(alloc, rest, out),
        "write-called" => write(alloc, rest, out),
        "cause" => coded_cause(rest, out),
        "moment" => moment(rest, out),
        _ => return false,
    }
    true
}
