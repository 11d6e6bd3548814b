//! A ReturnResult, a ReturnError or a Reject.

ghost use Rattle.std.specs.Prelude.{◌≡◌};
ghost use Rattle.fp_ism.specs.Invocation.{class_of};
ghost use Rattle.fp_ism.specs.Outcome.{outcome_of_error, outcome_of_result};
ghost use Rattle.fp_service.specs.Outcome.{by_outcome, is_of_test, on_outcome, on_reject};

use crate::{Core, Request, Stage};
use fp_digits::Moment;
use fp_ism::Outcome;
use fp_q773::OperationClass;

/// Whether an invocation of this class tests its dialogue.
fn is_of_test(class: Option<OperationClass>) -> bool
    ensures { result ≡ is_of_test class }
{
    match class {
        Some(OperationClass::Class3) => true,
        Some(OperationClass::Class1 | OperationClass::Class2 | OperationClass::Class4) | None => {
            false
        }
    }
}

impl Core {
    /// Handles a ReturnResult, the last or not.
    #[tactic(auto, unfolding(crate::specs::Outcome::on_outcome))]
    pub(crate) fn on_result(
        &mut self,
        stage: Stage,
        moment: Moment,
        identifier: i8,
        last: bool,
    ) -> Option<Request>
        ensures { (self.new, result) ≡ on_outcome stage self.old moment identifier
            (outcome_of_result last (class_of identifier self.old.invocations.active)) }
    {
        let outcome = self.invocations.result(identifier, last);
        self.by_outcome(stage, moment, identifier, outcome)
    }

    /// Handles a ReturnError.
    #[tactic(auto, unfolding(crate::specs::Outcome::on_outcome))]
    pub(crate) fn on_error(
        &mut self,
        stage: Stage,
        moment: Moment,
        identifier: i8,
    ) -> Option<Request>
        ensures { (self.new, result) ≡ on_outcome stage self.old moment identifier
            (outcome_of_error (class_of identifier self.old.invocations.active)) }
    {
        let outcome = self.invocations.error(identifier);
        self.by_outcome(stage, moment, identifier, outcome)
    }

    /// Handles a Reject. A Reject of a test ends the test and has no other effect.
    #[tactic(auto, unfolding(crate::specs::Outcome::on_reject, crate::specs::Outcome::on_outcome))]
    pub(crate) fn on_reject(
        &mut self,
        stage: Stage,
        moment: Moment,
        identifier: i8,
    ) -> Option<Request>
        ensures { (self.new, result) ≡ on_reject stage self.old moment identifier
            (class_of identifier self.old.invocations.active) }
    {
        let class = self.invocations.class_of(identifier);
        let outcome = self.invocations.reject(identifier);
        if is_of_test(class) {
            return None;
        }
        self.by_outcome(stage, moment, identifier, outcome)
    }

    /// The request after an outcome.
    fn by_outcome(
        &mut self,
        stage: Stage,
        moment: Moment,
        identifier: i8,
        outcome: Outcome,
    ) -> Option<Request>
        ensures { (self.new, result) ≡ by_outcome stage self.old moment identifier outcome }
    {
        match outcome {
            Outcome::Problem(problem) => self.reject(Some(identifier), problem),
            Outcome::Failure => self.on_failure(stage, moment),
            Outcome::Success | Outcome::Stays | Outcome::Ignored => None,
        }
    }
}
