//! What the log of a run must have of its outputs: its lines name each dialogue by its birth.
//!
//! * The first dialogue that is opened has birth 1, and each one after it the next birth.
//! * The line of a turn or of a parcel has the birth of the last dialogue that was opened with the local identifier that
//!   its output has, and that of an Abort of the provider has 0. The line of a report has that of the parcel that was
//!   out.
//! * Each output has its line, except those that a log has none for, and there are no others.

use cases::Answer;
use fp_book::{Line, LoggedStep, Posted};
use fp_steps::{Output, Step};
use std::alloc::Global;
use std::collections::BTreeMap;

/// What the lines of a run are compared with.
#[derive(Drop)]
struct Births {
    // By local identifier: the birth of the dialogue that was opened with it last; of 0, 0.
    births: BTreeMap<u32, u64>,
    opened: u64,
    // The local identifier of the parcel that is out.
    parcel: u32,
}

/// Whether a log has a line for an output.
fn is_logged(output: &Output) -> bool {
    !matches!(
        output,
        Output::Nothing
            | Output::Busy
            | Output::NoRoom
            | Output::Ticked {
                added: 0,
                wanting: 0
            }
    )
}

/// The birth that a line names, if it names one.
fn birth_in(line: &Line) -> Option<u64> {
    let Line::Step { link: _, step } = line else {
        return None;
    };
    match step {
        LoggedStep::Take { birth, .. }
        | LoggedStep::Give { birth, .. }
        | LoggedStep::PutBack { birth, .. }
        | LoggedStep::Pick { birth }
        | LoggedStep::Sent { birth }
        | LoggedStep::Unsent { birth } => Some(*birth),
        _ => None,
    }
}

impl Births {
    /// A dialogue is opened.
    fn open(&mut self, local: u32, out: &mut Answer) {
        self.opened = self.opened.saturating_add(1);
        if self.births.insert(local, self.opened).is_err() {
            out.run_out();
        }
    }

    /// The local identifier that an output is about, if it is about a dialogue or a parcel.
    fn local_of(&self, step: &Step, output: &Output) -> Option<u32> {
        match output {
            Output::Took { local, .. }
            | Output::Gave { local, .. }
            | Output::Picked { local, .. } => { Some(*local) }
            Output::WentBack => match step {
                Step::PutBack(local) => Some(*local),
                _ => None,
            },
            Output::Sent | Output::Unsent => Some(self.parcel),
            _ => None,
        }
    }

    /// Follows an output.
    fn follow(&mut self, output: &Output, out: &mut Answer) {
        match output {
            Output::Posted {
                answer: Posted::Opened(local),
                ..
            } => self.open(*local, out),
            Output::Picked { local, .. } => self.parcel = *local,
            _ => {}
        }
    }

    /// Whether a line has the birth that its output tells.
    fn is_right(&self, step: &Step, output: &Output, line: &Line) -> bool {
        let wanted = match self.local_of(step, output) {
            Some(local) => self.births.get(&local).copied(),
            None => None,
        };
        birth_in(line) == wanted
    }

    /// Checks the lines of a run, after their head, against its outputs, and returns how many lines these have.
    fn check(
        &mut self,
        steps: &[Step],
        outputs: &[Output],
        lines: &[Line],
        out: &mut Answer,
    ) -> usize {
        let mut place = 1;
        for (step, output) in steps.iter().zip(outputs) {
            if is_logged(output) {
                match lines.get(place) {
                    Some(line) if self.is_right(step, output, line) => {}
                    _ => out.fail("a line of another birth, or too few lines"),
                }
                place = place.saturating_add(1);
            }
            self.follow(output, out);
        }
        place
    }
}

/// Fails unless the lines of a run, after their head, have the births of the dialogues of its outputs.
pub(super) fn check_births(
    alloc: Global,
    steps: &[Step],
    outputs: &[Output],
    lines: &[Line],
    out: &mut Answer,
) {
    let mut births = Births {
        births: BTreeMap::new(alloc),
        opened: 0,
        parcel: 0,
    };
    if births.births.insert(0, 0).is_err() {
        out.run_out();
    }
    if births.check(steps, outputs, lines, out) != lines.len() {
        out.fail("too many lines");
    }
}
