//! The answer to a case.

use std::alloc::Global;
use std::fmt::{Debug, Display};

/// The answer to a case, as far as it is written. No call fails: the first fault is kept, and nothing is written after
/// it.
#[derive(Drop)]
pub struct Answer {
    text: String,
    is_faulty: bool,
    // Empty if there is none, or if memory ran out.
    fault: String,
}

impl Answer {
    /// An empty answer.
    pub fn new(alloc: Global) -> Answer {
        Answer {
            text: String::new(alloc),
            is_faulty: false,
            fault: String::new(alloc),
        }
    }

    /// What is written.
    pub fn as_str(&self) -> &str {
        self.text.as_str()
    }

    /// Whether nothing is written.
    pub fn is_empty(&self) -> bool {
        self.text.is_empty()
    }

    /// The first fault; empty if there is none.
    pub fn fault(&self) -> &str {
        if self.is_faulty && self.fault.is_empty() {
            return "out of memory";
        }
        self.fault.as_str()
    }

    /// Whether there is a fault.
    pub fn is_faulty(&self) -> bool {
        self.is_faulty
    }

    /// Notes a fault, unless there is one already.
    pub fn fail(&mut self, fault: &str) {
        if !self.is_faulty {
            // (without memory the fault is that of memory)
            let _ = self.fault.push_str(fault);
            self.is_faulty = true;
        }
    }

    /// Notes that memory ran out, unless there is a fault already.
    pub fn run_out(&mut self) {
        self.is_faulty = true;
    }

    /// Appends a value to a list. If memory runs out, that is a fault.
    pub fn push<T: Drop>(&mut self, list: &mut Vec<T>, value: T) {
        if list.push(value).is_err() {
            self.run_out();
        }
    }

    /// Removes all that is written. A fault is kept.
    pub fn clear(&mut self) {
        self.text.clear();
    }

    /// Notes that memory ran out if a call failed, which fails for nothing else.
    pub fn note<E: Drop>(&mut self, done: Result<(), E>) {
        if done.is_err() {
            self.run_out();
        }
    }

    /// Writes a text.
    pub fn text(&mut self, text: &str) {
        if !self.is_faulty && self.text.push_str(text).is_err() {
            self.is_faulty = true;
        }
    }

    /// Writes one character.
    pub fn character(&mut self, character: char) {
        if !self.is_faulty && self.text.push(character).is_err() {
            self.is_faulty = true;
        }
    }

    /// Writes a value: what `write!` calls.
    pub fn write_fmt<D: Display + Drop>(&mut self, value: D) {
        if !self.is_faulty && self.text.write_fmt(value).is_err() {
            self.is_faulty = true;
        }
    }

    /// Writes a value as `{}` does, a number in decimal digits.
    pub fn value<D: Display + Drop>(&mut self, value: D) {
        self.write_fmt(value);
    }

    /// Writes a text, and a value after it.
    pub fn labeled<D: Display + Drop>(&mut self, label: &str, value: D) {
        self.text(label);
        self.write_fmt(value);
    }

    /// Writes a value as `{:?}` does.
    pub fn shown<D: Debug>(&mut self, value: &D) {
        write!(self, "{value:?}");
    }

    /// Writes an identifier of four octets, as eight hexadecimal digits in upper case.
    pub fn identifier(&mut self, identifier: u32) {
        write!(self, "{identifier:08X}");
    }

    /// Writes octets in hexadecimal, in upper case; `empty` if there are none.
    pub fn octets(&mut self, octets: &[u8]) {
        if octets.is_empty() {
            self.text("empty");
        }
        for octet in octets {
            self.character(digit_of(octet / 16));
            self.character(digit_of(octet % 16));
        }
    }

    /// Writes octets as text in ASCII.
    pub fn characters(&mut self, octets: &[u8]) {
        for octet in octets {
            self.character(char::from(*octet));
        }
    }

    /// Writes the first text if a condition holds, else the second.
    pub fn either(&mut self, is_first: bool, first: &str, second: &str) {
        self.text(if is_first { first } else { second });
    }

    /// Writes a separator, unless nothing is written before it.
    pub fn separator(&mut self, separator: &str) {
        if !self.text.is_empty() {
            self.text(separator);
        }
    }

    /// Writes what another answer has, and takes over its fault.
    pub fn append(&mut self, other: &Answer) {
        self.text(other.as_str());
        if other.is_faulty() {
            self.fail(other.fault());
        }
    }
}

/// A hexadecimal digit in upper case.
fn digit_of(value: u8) -> char {
    char::from(if value < 10 {
        b'0' + value
    } else {
        b'A' + value.min(15) - 10
    })
}
