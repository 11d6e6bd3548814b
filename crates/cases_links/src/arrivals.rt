//! The frames of a link on their way to its book.
//!
//! | Step | What happens, and what it answers |
//! |---|---|
//! | `feed HEX` | a frame of this message comes: `feed` |
//! | `prepare` | frames are prepared at noon: the messages that are prepared then |
//! | `post COUNT` | this number of messages is posted: these |
//! | `back` | the others come back: `back` |
//! | `quit` | the command `quit` comes: `quit` |

use crate::messages::frame_of;
use crate::texts::moment_after;
use cases::{Answer, Steps, first_word, number_of, play};
use fp_entry::{Lookup, Prepared};
use fp_linkstate::{ArrivalQueue, Reading};
use fp_records::Table;
use std::alloc::Global;
use std::collections::VecDeque;

/// The frames of a case.
#[derive(Drop)]
struct Coming<'x> {
    alloc: Global,
    table: &'x Table,
    queue: ArrivalQueue,
    messages: VecDeque<Prepared>,
}

/// Writes the octets of a message, after a comma if others came before.
fn push_message(out: &mut Answer, message: &Prepared, is_first: bool) {
    if !is_first {
        out.text(", ");
    }
    out.octets(message.arrival().frame.octets())
}

impl Coming<'_> {
    /// Prepares frames, and writes the messages.
    fn prepare(&mut self, out: &mut Answer) {
        let mut reading = Reading {
            alloc: self.alloc,
            lookup: Some(Lookup::new(self.alloc, self.table)),
            contexts: &[],
            moment: moment_after(0),
        };
        out.note(self.queue.prepare(&mut reading, &mut self.messages));
        let mut is_first = true;
        for message in self.messages.iter() {
            push_message(out, message, is_first);
            is_first = false;
        }
        if is_first {
            out.text("none");
        }
    }

    /// A frame comes.
    fn feed(&mut self, message: &str, out: &mut Answer) {
        if let Some(frame) = frame_of(self.alloc, message, out) {
            out.note(self.queue.feed(frame));
        }
    }

    /// Posts messages, and writes them.
    fn post(&mut self, count: u32, out: &mut Answer) {
        for index in 0..count {
            let Some(message) = self.messages.pop_front() else {
                return out.fail("no message");
            };
            push_message(out, &message, index == 0);
        }
    }
}

impl Steps for Coming<'_> {
    fn step(&mut self, step: &str, out: &mut Answer) {
        let (verb, rest) = first_word(step);
        match verb {
            "prepare" => return self.prepare(out),
            "post" => return self.post(number_of(rest, out), out),
            "feed" => self.feed(rest, out),
            "back" => out.note(self.queue.take_back(&mut self.messages)),
            "quit" => self.queue.quit(),
            _ => out.fail("no such step"),
        }
        out.text(verb);
    }
}

/// Writes what the steps of a case answer.
pub(crate) fn answer(alloc: Global, table: &Table, script: &str, out: &mut Answer) {
    let Ok(queue) = ArrivalQueue::new(alloc) else {
        return out.run_out();
    };
    let messages = VecDeque::new(alloc);
    let mut coming = Coming {
        alloc,
        table,
        queue,
        messages,
    };
    play(&mut coming, script, out)
}
