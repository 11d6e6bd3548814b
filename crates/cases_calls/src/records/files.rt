//! Files of records, put together from the parts of a case.

use crate::texts::push_hexadecimal;
use crate::values::{hexadecimal, kept};
use cases::{Answer, number_of};
use std::alloc::Global;

/// The octets of a file.
pub(crate) fn file_of(alloc: Global, text: &str, out: &mut Answer) -> Vec<u8> {
    let mut file = Vec::new(alloc);
    for part in text.split(' ') {
        push_part(&mut file, part, out);
    }
    file
}

/// Adds a part of a file.
fn push_part(file: &mut Vec<u8>, part: &str, out: &mut Answer) {
    let Some((first, rest)) = part.split_once('*') else {
        return push_text(file, part, out);
    };
    match rest.split_once('*') {
        Some((count, text)) => push_numbered(file, first, number_of(count, out), text, out),
        None => push_often(file, number_of(first, out), rest, out),
    }
}

/// Adds a text this number of times.
fn push_often(file: &mut Vec<u8>, count: u32, text: &str, out: &mut Answer) {
    for _ in 0..count {
        push_text(file, text, out);
    }
}

/// Adds a text `count` times for each of these numbers, each time after the number.
fn push_numbered(file: &mut Vec<u8>, numbers: &str, count: u32, text: &str, out: &mut Answer) {
    let Some((first, last)) = numbers.split_once("..") else {
        return out.fail("no range");
    };
    let first: u32 = number_of(first, out);
    let last: u32 = number_of(last, out);
    for number in first..=last {
        push_with_number(file, number, count, text, out);
    }
}

/// Adds a text `count` times, each time after the number.
fn push_with_number(file: &mut Vec<u8>, number: u32, count: u32, text: &str, out: &mut Answer) {
    for _ in 0..count {
        push_decimal(file, number, out);
        push_text(file, text, out);
    }
}

/// Adds the decimal digits of a number.
fn push_decimal(file: &mut Vec<u8>, number: u32, out: &mut Answer) {
    let mut digits = Answer::new(*file.allocator());
    digits.value(number);
    out.note(file.extend_from_slice(digits.as_str().as_bytes()));
}

/// Adds a text.
fn push_text(file: &mut Vec<u8>, text: &str, out: &mut Answer) {
    for (place, piece) in text.split('\\').enumerate() {
        if place == 0 {
            out.note(file.extend_from_slice(piece.as_bytes()));
        } else {
            push_escaped(file, piece.as_bytes(), out);
        }
    }
}

/// Adds the octet of an escape, whose text follows a backslash, and the text after it.
fn push_escaped(file: &mut Vec<u8>, text: &[u8], out: &mut Answer) {
    match text {
        [b'n', rest @ ..] => push_octet(file, b'\n', rest, out),
        [b'r', rest @ ..] => push_octet(file, b'\r', rest, out),
        [b's', rest @ ..] => push_octet(file, b' ', rest, out),
        [b'x', high, low, rest @ ..] => {
            let octet = 16 * hexadecimal(*high, out) + hexadecimal(*low, out);
            push_octet(file, octet, rest, out);
        }
        _ => out.fail("no such escape"),
    }
}

/// Adds an octet and the text after it.
fn push_octet(file: &mut Vec<u8>, octet: u8, rest: &[u8], out: &mut Answer) {
    out.push(file, octet);
    out.note(file.extend_from_slice(rest));
}

/// Writes octets as the text of a part.
pub(crate) fn push_part_text(out: &mut Answer, octets: &[u8]) {
    for octet in octets {
        match *octet {
            b'\n' => out.text("\\n"),
            b'\r' => out.text("\\r"),
            b' ' => out.text("\\s"),
            b'\\' => out.text("\\x5C"),
            b'!'..=b'~' => out.character(char::from(*octet)),
            other => {
                out.text("\\x");
                push_hexadecimal(out, &[other]);
            }
        }
    }
}
