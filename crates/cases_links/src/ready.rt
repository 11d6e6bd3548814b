//! The order in which dialogues are served.
//!
//! | Step | What it answers |
//! |---|---|
//! | `join LOCAL` | this identifier is put last: how many there are then, or `full` |
//! | `fill COUNT` | COUNT identifiers are put last, from 20000001 on: how many there are then, or `full` |
//! | `first` | the identifier that is served next, or `none` |
//! | `next` | the same, and it is taken off |
//! | `leave LOCAL` | this identifier is taken out: how many there are then |
//! | `len` | how many there are |
//! | `clear` | all are taken out: how many there are then |

use crate::texts::push_local;
use cases::{Answer, Steps, first_word, identifier_of, number_of, play};
use fp_book::ReadyQueue;
use std::alloc::Global;

/// The first identifier of `fill`.
const FIRST: u32 = 0x2000_0001;

/// The dialogues of a case.
#[derive(Drop)]
struct Order {
    queue: ReadyQueue,
}

impl Order {
    /// Puts an identifier last, and says whether there was a place.
    fn join(&mut self, local: u32) -> bool {
        if self.queue.len() >= ReadyQueue::MOST {
            return false;
        }
        self.queue.join(local);
        true
    }

    /// Puts rising identifiers last, and says whether there was a place for each.
    fn fill(&mut self, count: u16) -> bool {
        let mut fits = true;
        for index in 0..count {
            fits = self.join(FIRST + u32::from(index));
        }
        fits
    }

    /// A step that may put identifiers, or take them out: whether there was a place.
    fn change(&mut self, verb: &str, rest: &str, out: &mut Answer) -> bool {
        match verb {
            "join" => return self.join(identifier_of(rest, out)),
            "fill" => return self.fill(number_of(rest, out)),
            "leave" => self.queue.leave(identifier_of(rest, out)),
            "clear" => self.queue.clear(),
            "len" => {}
            _ => out.fail("no such step"),
        }
        true
    }

    /// A step that may put identifiers, or take them out: how many there are then, or `full`.
    fn push_change(&mut self, verb: &str, rest: &str, out: &mut Answer) {
        if self.change(verb, rest, out) {
            out.value(self.queue.len());
        } else {
            out.text("full");
        }
    }
}

impl Steps for Order {
    fn step(&mut self, step: &str, out: &mut Answer) {
        let (verb, rest) = first_word(step);
        match verb {
            "first" => push_local(out, self.queue.first()),
            "next" => push_local(out, self.queue.next()),
            _ => self.push_change(verb, rest, out),
        }
    }
}

/// Writes what the steps of a case answer.
pub(crate) fn answer(alloc: Global, script: &str, out: &mut Answer) {
    match ReadyQueue::new(alloc) {
        Ok(queue) => play(&mut Order { queue }, script, out),
        Err(_) => out.run_out(),
    }
}
