//! The text of a line, read and written again.
//!
//! | Case | What it gives |
//! |---|---|
//! | `text "TEXT"` | what the line of this text and a line feed says, or why there is none |
//! | `octets HEX` | the same of octets, to which no line feed is added |
//! | `message COUNT` | whether the line of a message of so many octets is read |
//!
//! A line that is read is written again; if that isn't what was read, what was written is given. `said` says in words
//! what lines say.

mod said;

use cases::{Answer, number_of, octets_of};
use fp_book::Line;
use fp_replay::{read_line, write_line};
use said::push_line;
use std::alloc::{AllocError, Global};

/// Writes what a line says that was read from a text.
fn push_read(alloc: Global, line: &Line, text: &[u8], out: &mut Answer) {
    let mut again = Vec::new(alloc);
    if write_line(line, &mut again).is_err() {
        out.run_out();
    }
    if again.as_slice() == text {
        push_line(out, line);
    } else {
        out.octets(again.as_slice());
    }
}

/// Writes what the line says that a text is, or why it is none.
fn push_said(alloc: Global, text: &[u8], out: &mut Answer) {
    match read_line(alloc, text) {
        Ok(line) => push_read(alloc, &line, text, out),
        Err(fault) => out.value(fault),
    }
}

/// A text, and a line feed.
pub(crate) fn ended_line(alloc: Global, text: &str) -> Result<Vec<u8>, AllocError> {
    let mut line = Vec::from_slice(alloc, text.as_bytes())?;
    line.push(b'\n')?;
    Ok(line)
}

/// What the line of a text between quotation marks says.
fn ended(alloc: Global, text: &str, out: &mut Answer) {
    match ended_line(alloc, text.trim_matches('"')) {
        Ok(line) => push_said(alloc, line.as_slice(), out),
        Err(_) => out.run_out(),
    }
}

/// What the line says that these octets are.
fn octets(alloc: Global, text: &str, out: &mut Answer) {
    let line = octets_of(alloc, text, out);
    push_said(alloc, line.as_slice(), out)
}

/// The line of a message of so many octets.
fn line_of(alloc: Global, count: usize) -> Result<Vec<u8>, AllocError> {
    let mut text = Vec::from_slice(alloc, b"0 P 0 0 ")?;
    for _ in 0..count {
        text.extend_from_slice(b"0A")?;
    }
    text.extend_from_slice(b" E\n")?;
    Ok(text)
}

/// Whether the line of a message of so many octets is read.
fn message(alloc: Global, count: &str, out: &mut Answer) {
    match line_of(alloc, number_of(count, out)) {
        Ok(text) => out.either(
            read_line(alloc, text.as_slice()).is_ok(),
            "read",
            "bad line",
        ),
        Err(_) => out.run_out(),
    }
}

/// Writes what a case of this module gives, and says whether it has one of this kind.
pub(crate) fn answer(alloc: Global, kind: &str, rest: &str, out: &mut Answer) -> bool {
    match kind {
        "text" => ended(alloc, rest, out),
        "octets" => octets(alloc, rest, out),
        "message" => message(alloc, rest, out),
        _ => return false,
    }
    true
}
