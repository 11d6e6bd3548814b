//! The steps of a case, from its text.

use crate::messages::frame_of;
use crate::numbering::Numbering;
use crate::texts::moment_after;
use cases::{Answer, first_word, identifier_of, number_of};
use fp_steps::Step;
use std::alloc::Global;

/// How many serials a link has.
const SERIALS: u32 = 131_072;

/// How many steps a call of `calls` has.
pub(super) const STEPS_OF_A_CALL: usize = 5;

/// What a part of a script must answer.
#[derive(Clone, Copy)]
pub(super) enum Asked {
    /// A moment, in milliseconds after noon.
    Moment(u32),
    /// What the outputs before it come to.
    Totals,
    /// The number of outputs, the first and the last.
    Ends,
    /// The last outputs, of this number.
    Last(usize),
}

/// A part of a script: what it must answer, and how many steps the script has up to its end.
#[derive(Clone, Copy)]
pub(super) struct Part {
    pub(super) asked: Asked,
    pub(super) end: usize,
}

/// The steps and the parts of a script so far.
#[derive(Drop)]
pub(super) struct Making {
    pub(super) steps: Vec<Step>,
    pub(super) parts: Vec<Part>,
    alloc: Global,
    // The time, in milliseconds after noon.
    now: u32,
    // The number that serials are added to.
    base: u32,
}

/// The serial this number of places after another one, where 1 comes after the last.
pub(super) fn serial_after(serial: u32, places: u32) -> u32 {
    let before = serial.saturating_sub(1).saturating_add(places);
    (before % SERIALS).saturating_add(1)
}

/// A step without a message or a moment. `None` if there is none of this name, which is a fault of the answer.
fn plain_step(verb: &str, rest: &str, out: &mut Answer) -> Option<Step> {
    match verb {
        "take" => Some(Step::Take),
        "give" => Some(Step::Give(identifier_of(rest, out))),
        "put-back" => Some(Step::PutBack(identifier_of(rest, out))),
        "pick" => Some(Step::Pick),
        "sent" => Some(Step::Sent),
        "unsent" => Some(Step::Unsent),
        "down" => Some(Step::Down),
        _ => {
            out.fail("no such step");
            None
        }
    }
}

impl Making {
    /// A script without steps, of a run that is numbered so.
    pub(super) fn new(alloc: Global, numbering: Numbering) -> Making {
        Making {
            steps: Vec::new(alloc),
            parts: Vec::new(alloc),
            alloc,
            now: 0,
            base: numbering.base(),
        }
    }

    /// One step more.
    fn add(&mut self, step: Step, out: &mut Answer) {
        out.push(&mut self.steps, step);
    }

    /// A message that comes now, and is read by the records of this place.
    fn post(&mut self, table: usize, text: &str, out: &mut Answer) {
        let moment = moment_after(self.now);
        if let Some(frame) = frame_of(self.alloc, text, out) {
            self.add(
                Step::Post {
                    table,
                    frame,
                    moment,
                },
                out,
            );
        }
    }

    /// A message that comes now, after the place of the records by which it is read.
    fn post_by(&mut self, text: &str, out: &mut Answer) {
        let (table, message) = first_word(text);
        let table: usize = number_of(table, out);
        self.post(table, message, out);
    }

    /// A message that comes now, and can't be read since memory runs out.
    fn lose(&mut self, text: &str, out: &mut Answer) {
        let moment = moment_after(self.now);
        if let Some(frame) = frame_of(self.alloc, text, out) {
            self.add(Step::Lost(frame, moment), out);
        }
    }

    /// A step without a message or a moment.
    fn plain(&mut self, verb: &str, rest: &str, out: &mut Answer) {
        if let Some(step) = plain_step(verb, rest, out) {
            self.add(step, out);
        }
    }

    /// It is this number of milliseconds after noon from now on.
    fn wait(&mut self, milliseconds: &str, out: &mut Answer) -> Asked {
        self.now = number_of(milliseconds, out);
        Asked::Moment(self.now)
    }

    /// The same message COUNT times.
    fn posts(&mut self, text: &str, out: &mut Answer) -> Asked {
        let (count, message) = first_word(text);
        let count: u32 = number_of(count, out);
        for _ in 0..count {
            self.post(0, message, out);
        }
        Asked::Ends
    }

    /// Turns of a dialogue.
    fn turns(&mut self, count: u32, local: u32, out: &mut Answer) {
        for _ in 0..count {
            self.add(Step::Take, out);
            self.add(Step::Give(local), out);
        }
    }

    /// COUNT times a message and turns of a dialogue.
    fn rounds(&mut self, text: &str, out: &mut Answer) -> Asked {
        let (count, rest) = first_word(text);
        let (turns, rest) = first_word(rest);
        let (local, message) = first_word(rest);
        let count: u32 = number_of(count, out);
        let turns: u32 = number_of(turns, out);
        let local = identifier_of(local, out);
        for _ in 0..count {
            self.post(0, message, out);
            self.turns(turns, local, out);
        }
        Asked::Last(1)
    }

    /// A Begin, its turn and its frame.
    fn call(&mut self, local: u32, message: &str, out: &mut Answer) {
        self.post(0, message, out);
        self.turns(1, local, out);
        self.add(Step::Pick, out);
        self.add(Step::Sent, out);
    }

    /// COUNT times a Begin, its turn and its frame.
    fn calls(&mut self, text: &str, out: &mut Answer) -> Asked {
        let (count, rest) = first_word(text);
        let (serial, message) = first_word(rest);
        let count: u32 = number_of(count, out);
        let serial: u32 = number_of(serial, out);
        for index in 0..count {
            let serial = serial_after(serial, index);
            self.call(self.base.saturating_add(serial), message, out);
        }
        Asked::Last(STEPS_OF_A_CALL)
    }

    /// Adds one step, and says what it must answer.
    fn add_one(&mut self, verb: &str, rest: &str, out: &mut Answer) -> Asked {
        match verb {
            "post" => self.post(0, rest, out),
            "post-by" => self.post_by(rest, out),
            "lost" => self.lose(rest, out),
            "tick" => self.add(Step::Tick(moment_after(self.now)), out),
            _ => self.plain(verb, rest, out),
        }
        Asked::Last(1)
    }

    /// Adds what a part of a script asks for, and says what it must answer.
    fn add_part(&mut self, text: &str, out: &mut Answer) -> Asked {
        let (verb, rest) = first_word(text);
        match verb {
            "at" => self.wait(rest, out),
            "totals" => Asked::Totals,
            "posts" => self.posts(rest, out),
            "rounds" => self.rounds(rest, out),
            "calls" => self.calls(rest, out),
            _ => self.add_one(verb, rest, out),
        }
    }

    /// Adds what a script asks for.
    pub(super) fn add_script(&mut self, script: &str, out: &mut Answer) {
        for part in script.split(';') {
            let asked = self.add_part(part.trim_start(), out);
            let end = self.steps.len();
            out.push(&mut self.parts, Part { asked, end });
        }
    }
}
