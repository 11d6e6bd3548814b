//! The destinations of a call, one after another.

ghost use Rattle.std.specs.Prelude.{◌≡◌};
ghost use Rattle.fp_service.specs.Attempt.{on_failure, try_next};

use crate::{Core, Instruction, Request, Stage, State};
use fp_digits::{Cause, Moment};
use fp_records::Destinations;

impl Core {
    /// Tries the next destination. If none is left, releases the call for this cause.
    #[tactic(auto, unfolding(crate::specs::Attempt::try_next))]
    pub(crate) fn try_next(
        &mut self,
        moment: Moment,
        left: Option<Destinations>,
        cause: Cause,
    ) -> Option<Request>
        ensures { (self.new, result) ≡ try_next self.old moment left cause }
    {
        let Some(left) = left else {
            return self.conclude(Instruction::ReleaseCall(cause));
        };
        let split = left.split_first();
        self.state = State::Live(Stage::Waiting { left: split.left });
        self.instruct_both(
            moment,
            Instruction::RequestReportBcsmEvent,
            Instruction::Connect(split.first),
        )
    }

    /// Handles a failed operation: the current destination has failed, too.
    #[tactic(auto, unfolding(crate::specs::Attempt::on_failure))]
    pub(crate) fn on_failure(&mut self, stage: Stage, moment: Moment) -> Option<Request>
        ensures { (self.new, result) ≡ on_failure stage self.old moment }
    {
        match stage {
            Stage::Waiting { left } => self.try_next(moment, left, Cause::NoRouteToDestination),
            Stage::Fresh => None,
        }
    }
}
