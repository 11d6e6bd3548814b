//! The log of a link.
//!
//! The steps that are put into the log are turns that are taken; their places are 0, 1, 2 .. as the case goes on.
//!
//! | Step | What it answers |
//! |---|---|
//! | `add COUNT` | COUNT steps are put into the log: how many there are then |
//! | `len` | how many there are |
//! | `exchange` | the log is exchanged for an empty one: the same of all steps, and how many there are then |
//! | `drain LINK ROOM` | the oldest ones, at most ROOM, as lines of this link: how many, the first, the last |
//!
//! A line is `take PLACE` or `gap LOST`. If one is of another link, or its place isn't above those before it, the case
//! is wrong.

use cases::{Answer, Steps, first_word, number_of, play};
use fp_book::{Line, Log, LoggedStep};
use std::alloc::Global;

/// A log, and how many steps were put into it.
#[derive(Drop)]
struct Turns {
    alloc: Global,
    log: Log,
    added: u32,
}

/// Writes a line.
fn push_line(out: &mut Answer, line: Option<&Line>) {
    let Some(Line::Step { link: _, step }) = line else {
        return out.fail("no step");
    };
    match step {
        LoggedStep::Take { position, .. } => out.labeled("take ", *position),
        LoggedStep::Gap { lost } => out.labeled("gap ", *lost),
        _ => out.fail("another step"),
    }
}

/// Whether a line is of this link.
fn is_of(line: &Line, wanted: u8) -> bool {
    match line {
        Line::Step { link, step: _ } => *link == wanted,
        Line::Head { links: _, tag: _ } => false,
    }
}

/// The place of a line's turn, if it is about one.
fn place_of(line: &Line) -> Option<u64> {
    match line {
        Line::Step {
            link: _,
            step: LoggedStep::Take { position, .. },
        } => Some(*position),
        _ => None,
    }
}

/// Whether each place is above those before it.
fn are_in_order(lines: &[Line]) -> bool {
    let mut least = 0;
    for line in lines {
        if let Some(place) = place_of(line) {
            if place < least {
                return false;
            }
            least = place.saturating_add(1);
        }
    }
    true
}

/// Whether all lines are of this link.
fn are_of(lines: &[Line], link: u8) -> bool {
    for line in lines {
        if !is_of(line, link) {
            return false;
        }
    }
    true
}

/// Writes what was drained.
fn push_lines(out: &mut Answer, link: u8, lines: &[Line]) {
    if !are_of(lines, link) || !are_in_order(lines) {
        return out.fail("lines of another link, or out of order");
    }
    out.value(lines.len());
    out.text(" lines");
    if !lines.is_empty() {
        out.text(", ");
        push_line(out, lines.first());
        out.text(" to ");
        push_line(out, lines.last());
    }
}

/// Drains the oldest steps of a log, at most `room`, and writes them as lines of a link.
fn push_drained(alloc: Global, log: &mut Log, link: u8, room: usize, out: &mut Answer) {
    let Ok(mut lines) = Vec::with_capacity(alloc, room) else {
        return out.run_out();
    };
    log.drain(link, &mut lines);
    push_lines(out, link, lines.as_slice());
}

impl Turns {
    /// Writes how many steps the log has.
    fn push_length(&self, out: &mut Answer) {
        out.value(self.log.len());
    }

    /// Puts steps into the log.
    fn add(&mut self, count: &str, out: &mut Answer) {
        let count: u16 = number_of(count, out);
        for _ in 0..count {
            self.log.add(LoggedStep::Take {
                birth: 1,
                position: u64::from(self.added),
                count: 1,
            });
            self.added = self.added.saturating_add(1);
        }
        self.push_length(out)
    }

    /// Exchanges the log for an empty one.
    fn exchange(&mut self, out: &mut Answer) {
        let Ok(mut log) = Log::new(self.alloc) else {
            return out.run_out();
        };
        self.log.exchange(&mut log);
        let room = log.len();
        push_drained(self.alloc, &mut log, 0, room, out);
        out.labeled(", ", self.log.len());
        out.text(" left");
    }

    /// Drains the oldest steps.
    fn drain(&mut self, text: &str, out: &mut Answer) {
        let (link, room) = first_word(text);
        let link: u8 = number_of(link, out);
        let room: usize = number_of(room, out);
        push_drained(self.alloc, &mut self.log, link, room, out);
    }
}

impl Steps for Turns {
    fn step(&mut self, step: &str, out: &mut Answer) {
        let (verb, rest) = first_word(step);
        match verb {
            "drain" => self.drain(rest, out),
            "add" => self.add(rest, out),
            "len" => self.push_length(out),
            "exchange" => self.exchange(out),
            _ => out.fail("no such step"),
        }
    }
}

/// Writes what the steps of a case answer.
pub(crate) fn answer(alloc: Global, script: &str, out: &mut Answer) {
    let Ok(log) = Log::new(alloc) else {
        return out.run_out();
    };
    let mut turns = Turns {
        alloc,
        log,
        added: 0,
    };
    play(&mut turns, script, out);
}
