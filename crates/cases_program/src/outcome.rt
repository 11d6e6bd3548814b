//! The outcome of a run, as text: `STATUS, OUTPUT, ERRORS`.
//!
//! OUTPUT and ERRORS are `-` if nothing was written. Else they are the lines, with ` | ` between them, and with ` CUT`
//! after a last line that has no line feed. If a run is compared with a file, the name of the file is written in place
//! of its octets.

use cases::Answer;

/// The outcome of a run.
#[derive(Drop)]
pub(crate) struct Outcome {
    /// The exit status.
    pub(crate) status: u8,
    /// The octets written to standard output.
    pub(crate) output: Vec<u8>,
    /// The octets written to standard error.
    pub(crate) errors: Vec<u8>,
}

impl Outcome {
    /// Adds the status, the output and the errors.
    pub(crate) fn write(&self, out: &mut Answer) {
        out.value(self.status);
        out.text(", ");
        push_lines(out, self.output.as_slice());
        out.text(", ");
        push_lines(out, self.errors.as_slice())
    }

    /// Adds the status, the output and the errors, with the name of a file in place of these octets of it.
    pub(crate) fn write_beside(&self, name: &str, octets: &[u8], out: &mut Answer) {
        out.value(self.status);
        out.text(", ");
        push_named(out, self.output.as_slice(), name, octets);
        out.text(", ");
        push_named(out, self.errors.as_slice(), name, octets)
    }

    /// Whether another run had the same outcome.
    pub(crate) fn is_like(&self, other: &Outcome) -> bool {
        self.status == other.status
            && self.output.as_slice() == other.output.as_slice()
            && self.errors.as_slice() == other.errors.as_slice()
    }

    /// Whether the run ended early: with status 1, a prefix of the output of a whole run, and this line about the
    /// fault.
    pub(crate) fn ended_early(&self, whole: &Outcome, fault: &str) -> bool {
        self.status == 1
            && whole.output.as_slice().starts_with(self.output.as_slice())
            && self.errors.as_slice() == fault.as_bytes()
    }
}

/// Adds the name of a file if these are its octets, else the lines.
fn push_named(out: &mut Answer, written: &[u8], name: &str, octets: &[u8]) {
    if written != octets {
        return push_lines(out, written);
    }
    out.text(name);
}

/// Adds the lines of an output, or `-` if it has no octets.
fn push_lines(out: &mut Answer, octets: &[u8]) {
    match std::str::from_utf8(octets) {
        Ok("") => out.text("-"),
        Ok(written) => push_text(out, written),
        Err(_) => out.fail("an output that is no text"),
    }
}

/// Adds the lines of a text.
fn push_text(out: &mut Answer, written: &str) {
    let (whole, end) = match written.strip_suffix('\n') {
        Some(whole) => (whole, ""),
        None => (written, " CUT"),
    };
    for (place, line) in whole.split('\n').enumerate() {
        if place > 0 {
            out.text(" | ");
        }
        out.text(line);
    }
    out.text(end);
}
