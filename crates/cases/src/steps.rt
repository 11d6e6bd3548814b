//! The steps of a case, with `; ` between them.

use crate::Answer;

/// Where the steps of a case are made.
pub trait Steps {
    /// Makes a step, and writes its answer. An invalid step is a fault of the answer.
    fn step(&mut self, step: &str, out: &mut Answer);
}

/// Makes the steps of a case in their order, up to the first fault, and writes their answers, with `; ` between them.
pub fn play<S: Steps>(steps: &mut S, script: &str, out: &mut Answer) {
    for step in script.split(';') {
        out.separator("; ");
        steps.step(step.trim_start(), out);
        if out.is_faulty() {
            return;
        }
    }
}
