//! How many steps and outputs of each kind there were.

use super::octets::is_test;
use cases::Answer;
use fp_book::{Given, Posted};
use fp_steps::{Output, Step};

/// The kinds of steps, by their numbers from 0.
const STEPS: &str = "post, lost, tick, take, give, put-back, pick, sent, unsent, down";

/// The kinds of outputs, by their numbers from 0.
const OUTPUTS: &str = "opened, accepted, aborted, ended, discarded, silent, queued, dropped, \
    ticked none, ticked some, took, no room, back, picked an Abort, picked a test, picked a frame, \
    busy, sent, unsent, down, nothing";

/// How many of each kind there were.
#[derive(Clone, Copy)]
pub(super) struct Tally {
    steps: [u32; 10],
    outputs: [u32; 21],
    compared: u32,
}

/// The kind of a step.
fn step_kind(step: &Step) -> usize {
    match step {
        Step::Post { .. } => 0,
        Step::Lost(..) => 1,
        Step::Tick(_) => 2,
        Step::Take => 3,
        Step::Give(_) => 4,
        Step::PutBack(_) => 5,
        Step::Pick => 6,
        Step::Sent => 7,
        Step::Unsent => 8,
        Step::Down => 9,
    }
}

/// The kind of what became of a message.
fn posted_kind(posted: Posted) -> usize {
    match posted {
        Posted::Opened(_) => 0,
        Posted::Accepted(_) => 1,
        Posted::Aborted(_) => 2,
        Posted::Ended => 3,
        Posted::Discarded => 4,
    }
}

/// The kind of what became of a request.
fn given_kind(given: Given) -> usize {
    match given {
        Given::Silent => 5,
        Given::Queued(_) => 6,
        Given::Dropped(_) => 7,
    }
}

/// The kind of a frame of a dialogue that was picked: whether it is an ActivityTest.
fn frame_kind(frame: &[u8]) -> usize {
    if is_test(frame) { 14 } else { 15 }
}

/// The kind of an output.
fn output_kind(output: &Output) -> usize {
    match output {
        Output::Posted { answer, .. } => posted_kind(*answer),
        Output::Gave { given, .. } => given_kind(*given),
        Output::Ticked { added: 0, .. } => 8,
        Output::Ticked { .. } => 9,
        Output::Took { .. } => 10,
        Output::NoRoom => 11,
        Output::WentBack => 12,
        Output::Picked { local: 0, .. } => 13,
        Output::Picked { frame, .. } => frame_kind(frame.as_slice()),
        Output::Busy => 16,
        Output::Sent => 17,
        Output::Unsent => 18,
        Output::Down => 19,
        Output::Nothing => 20,
    }
}

/// One more of a kind.
fn count_one(counts: &mut [u32], kind: usize) {
    if let Some(count) = counts.get_mut(kind) {
        *count = count.saturating_add(1);
    }
}

/// Writes how many of each kind there were.
fn push_counts(out: &mut Answer, names: &str, counts: &[u32]) {
    let mut is_first = true;
    for (name, count) in names.split(", ").zip(counts) {
        if !is_first {
            out.text(", ");
        }
        out.value(name);
        out.labeled(" ", count);
        is_first = false;
    }
}

impl Tally {
    /// No steps and no outputs.
    pub(super) fn new() -> Tally {
        Tally {
            steps: [0; 10],
            outputs: [0; 21],
            compared: 0,
        }
    }

    /// One more step, and its output.
    pub(super) fn add(&mut self, step: &Step, output: &Output) {
        count_one(&mut self.steps, step_kind(step));
        count_one(&mut self.outputs, output_kind(output));
    }

    /// More frames were compared with an earlier one of their dialogue.
    pub(super) fn add_compared(&mut self, compared: u32) {
        self.compared = self.compared.saturating_add(compared);
    }

    /// Writes how many of each kind there were.
    pub(super) fn push_to(&self, out: &mut Answer) {
        push_counts(out, STEPS, &self.steps);
        out.text("; ");
        push_counts(out, OUTPUTS, &self.outputs);
        out.labeled("; compared ", self.compared);
    }
}
