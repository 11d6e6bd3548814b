//! The lines of a log, as a log has them.

use super::texts::{push_given, push_posted};
use cases::{Answer, number_of};
use fp_book::{Book, Line, LoggedStep, Posted};
use fp_frames::Frame;
use std::alloc::Global;

/// Writes the message of a line, and what became of it.
fn push_message(out: &mut Answer, message: &Frame, answer: Posted) {
    out.octets(message.octets());
    out.character(' ');
    push_posted(out, answer)
}

/// The letter of a step.
fn letter_of(step: &LoggedStep) -> &'static str {
    match step {
        LoggedStep::Post { .. } => "P ",
        LoggedStep::Lost { .. } => "L ",
        LoggedStep::Tick { .. } => "K ",
        LoggedStep::Take { .. } => "T ",
        LoggedStep::Give { .. } => "G ",
        LoggedStep::PutBack { .. } => "B ",
        LoggedStep::Pick { .. } => "Q ",
        LoggedStep::Sent { .. } => "Y ",
        LoggedStep::Unsent { .. } => "U ",
        LoggedStep::Down => "N",
        LoggedStep::Gap { .. } => "Z ",
    }
}

/// Writes a step of a link.
fn push_step(out: &mut Answer, step: &LoggedStep) {
    out.text(letter_of(step));
    match step {
        LoggedStep::Post {
            table,
            moment,
            message,
            answer,
        } => {
            out.value(moment.milliseconds());
            out.labeled(" ", *table);
            out.text(" ");
            push_message(out, message, *answer);
        }
        LoggedStep::Lost {
            moment,
            message,
            answer,
        } => {
            out.value(moment.milliseconds());
            out.text(" ");
            push_message(out, message, *answer);
        }
        LoggedStep::Tick {
            moment,
            added,
            wanting,
        } => {
            out.value(moment.milliseconds());
            out.labeled(" ", *added);
            out.labeled(" ", *wanting);
        }
        LoggedStep::Take {
            birth,
            position,
            count,
        } => {
            out.value(*birth);
            out.labeled(" ", *position);
            out.labeled(" ", *count);
        }
        LoggedStep::PutBack { birth, position } => {
            out.value(*birth);
            out.labeled(" ", *position);
        }
        LoggedStep::Give {
            birth,
            position,
            served,
            given,
        } => {
            out.value(*birth);
            out.labeled(" ", *position);
            out.labeled(" ", *served);
            out.text(" ");
            push_given(out, *given);
        }
        LoggedStep::Pick { birth } | LoggedStep::Sent { birth } | LoggedStep::Unsent { birth } =>
            out.value(*birth),
        LoggedStep::Gap { lost } => out.value(*lost),
        LoggedStep::Down => {}
    }
}

/// Writes the head of a log.
fn push_head(out: &mut Answer, links: u8, tag: u16) {
    if tag == 0 {
        out.labeled("fplog 4 ", links);
    } else {
        out.labeled("fplog 5 ", links);
        out.labeled(" ", tag);
    }
}

/// Writes a line.
fn push_line(out: &mut Answer, line: &Line) {
    match line {
        Line::Head { links, tag } => push_head(out, *links, *tag),
        Line::Step { link, step } => {
            out.value(*link);
            out.text(" ");
            push_step(out, step)
        }
    }
}

/// Writes a line, or that there is none.
fn push_line_of(out: &mut Answer, line: Option<&Line>) {
    match line {
        Some(line) => push_line(out, line),
        None => {
            out.text("no line");
        }
    }
}

/// Writes lines.
fn push_lines(out: &mut Answer, lines: &[Line]) {
    push_line_of(out, lines.first());
    for line in lines.iter().skip(1) {
        out.text(" | ");
        push_line(out, line);
    }
}

/// The oldest lines of a book, at most `room`.
fn drained(alloc: Global, book: &mut Book, room: &str, out: &mut Answer) -> Vec<Line> {
    let room: usize = number_of(room, out);
    let Ok(mut lines) = Vec::with_capacity(alloc, room) else {
        out.run_out();
        return Vec::new(alloc);
    };
    book.drain(&mut lines);
    lines
}

/// Drains the oldest lines, and writes all of them.
pub(super) fn all(alloc: Global, book: &mut Book, room: &str, out: &mut Answer) {
    let lines = drained(alloc, book, room, out);
    push_lines(out, lines.as_slice());
}

/// Writes how many lines there are, the first and the last.
fn push_ends(out: &mut Answer, lines: &[Line]) {
    out.value(lines.len());
    out.text(" lines | ");
    push_line_of(out, lines.first());
    out.text(" | ");
    push_line_of(out, lines.last());
}

/// Drains the oldest lines, and writes how many there are, the first and the last.
pub(super) fn ends(alloc: Global, book: &mut Book, room: &str, out: &mut Answer) {
    let lines = drained(alloc, book, room, out);
    push_ends(out, lines.as_slice());
}
