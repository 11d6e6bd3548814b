//! An InitialDP.

ghost use Rattle.std.specs.Prelude.{◌≡◌, ◌∷◌, []};
ghost use Rattle.fp_records.specs.Action.{rest_of};
ghost use Rattle.fp_records.specs.Choice.{choice};
ghost use Rattle.fp_service.specs.declared.component.Component.TheVariants.{ReturnError};
ghost use Rattle.fp_service.specs.Answer.{end_with};
ghost use Rattle.fp_service.specs.InitialDp.{by_action, by_destinations, by_rule, calling_digits, on_call, on_initial_dp};

use crate::{Component, Components, Core, Instruction, Request, Stage};
use fp_digits::{Cause, Moment, Number};
use fp_entry::Found;
use fp_inap::OperationError;
use fp_records::{Action, Destinations, Record};

impl Core {
    /// Handles an InitialDP with this calling number, and the table's answer to its called number.
    #[tactic(auto, unfolding(crate::specs::InitialDp::on_initial_dp))]
    pub(crate) fn on_initial_dp(
        &mut self,
        stage: Stage,
        moment: Moment,
        identifier: i8,
        calling: Option<Number>,
        found: &Found,
    ) -> Option<Request>
        ensures { (self.new, result) ≡ on_initial_dp stage self.old moment identifier (calling_digits calling) found.now }
    {
        match stage {
            Stage::Fresh => self.on_call(moment, identifier, calling, found),
            Stage::Waiting { .. } => {
                let error = OperationError::UnexpectedComponentSequence;
                let error = Component::ReturnError { identifier, error };
                self.continue_with(Components::one(error))
            }
        }
    }

    /// Handles the InitialDP that begins a call.
    #[tactic(auto, unfolding(crate::specs::InitialDp::on_call))]
    fn on_call(
        &mut self,
        moment: Moment,
        identifier: i8,
        calling: Option<Number>,
        found: &Found,
    ) -> Option<Request>
        ensures { (self.new, result) ≡ on_call self.old moment identifier (calling_digits calling) found.now }
    {
        match found {
            Found::Missing => self.end_with_error(identifier, OperationError::MissingParameter),
            Found::WrongKey => self.end_with_error(identifier, OperationError::UnexpectedDataValue),
            Found::NoRecord => {
                self.end_with_error(identifier, OperationError::MissingCustomerRecord)
            }
            Found::Record(shared) => self.by_record(moment, calling, shared.record()),
        }
    }

    /// An End with a ReturnError.
    fn end_with_error(&mut self, identifier: i8, error: OperationError) -> Option<Request>
        ensures { (self.new, result) ≡ end_with self.old (ReturnError identifier error ∷ []) }
    {
        let error = Component::ReturnError { identifier, error };
        self.end_with(Components::one(error))
    }

    /// Performs the action of the rule that the record chooses.
    #[tactic(auto, unfolding(crate::specs::InitialDp::by_rule))]
    fn by_record(
        &mut self,
        moment: Moment,
        calling: Option<Number>,
        rules: &Record,
    ) -> Option<Request>
        ensures { (self.new, result) ≡ by_rule self.old moment (choice rules.now (calling_digits calling) moment self.old.birth) }
    {
        let Some(rule) = rules.choose(calling.as_ref(), moment, self.birth) else {
            return self.conclude(Instruction::ReleaseCall(Cause::NoRouteToDestination));
        };
        self.by_action(moment, rule.action)
    }

    /// Performs the action of a rule.
    #[tactic(auto, unfolding(crate::specs::InitialDp::by_action))]
    fn by_action(&mut self, moment: Moment, action: Action) -> Option<Request>
        ensures { (self.new, result) ≡ by_action self.old moment action }
    {
        match action {
            Action::Refuse => self.conclude(Instruction::ReleaseCall(Cause::CallRejected)),
            Action::Pass => self.conclude(Instruction::Continue),
            Action::Route(destinations) => self.by_destinations(moment, &destinations),
        }
    }

    /// Connects the only destination, or tries the first of several.
    fn by_destinations(&mut self, moment: Moment, destinations: &Destinations) -> Option<Request>
        ensures { (self.new, result) ≡ by_destinations self.old moment destinations.now (rest_of destinations.now) }
    {
        let split = (*destinations).split_first();
        if split.left.is_none() {
            return self.conclude(Instruction::Connect(split.first));
        }
        self.try_next(moment, Some(*destinations), Cause::NoRouteToDestination)
    }
}
