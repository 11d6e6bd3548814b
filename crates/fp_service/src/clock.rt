//! A Clock: the entry for the passing of time.

ghost use Rattle.std.specs.Prelude.{◌≡◌};
ghost use Rattle.fp_service.specs.Clock.{on_clock, on_silence};

use crate::{Core, Instruction, Request, Stage};
use fp_digits::Moment;

impl Core {
    /// Handles a Clock: the invocations that are due end. The dialogue is aborted if a test wasn't answered in time, or
    /// if the peer has been silent for too long; otherwise its call may be tested.
    #[tactic(auto, unfolding(crate::specs::Clock::on_clock))]
    pub(crate) fn on_clock(&mut self, stage: Stage, moment: Moment) -> Option<Request>
        ensures { (self.new, result) ≡ on_clock stage self.old moment }
    {
        let is_unanswered = self.invocations.is_test_due(moment);
        let _ = self.invocations.due(moment);
        if is_unanswered {
            return self.user_abort();
        }
        if moment.milliseconds() >= self.quiet_until() {
            return self.user_abort();
        }
        self.on_silence(stage, moment)
    }

    /// Tests a waiting call, if no test is active and its peer has been silent for long enough.
    #[tactic(auto, unfolding(crate::specs::Clock::on_silence))]
    fn on_silence(&mut self, stage: Stage, moment: Moment) -> Option<Request>
        ensures { (self.new, result) ≡ on_silence stage self.old moment }
    {
        match stage {
            Stage::Fresh => None,
            Stage::Waiting { .. } => {
                if self.invocations.testing() {
                    return None;
                }
                if moment.milliseconds() >= self.test_moment() {
                    return self.instruct(moment, Instruction::ActivityTest);
                }
                None
            }
        }
    }
}
