//! An EventReportBCSM.

ghost use Rattle.std.specs.Prelude.{◌≡◌};
ghost use Rattle.fp_service.specs.Event.{goes_on, on_event, on_report};

use crate::{Components, Core, Instruction, Request, Stage};
use fp_digits::{Cause, Moment};
use fp_inap::Event;
use fp_records::Destinations;

impl Core {
    /// Handles an event, a notification or a request.
    #[tactic(auto, unfolding(crate::specs::Event::on_event))]
    pub(crate) fn on_event(
        &mut self,
        stage: Stage,
        moment: Moment,
        event: Event,
        notification: bool,
    ) -> Option<Request>
        ensures { (self.new, result) ≡ on_event stage self.old moment event notification }
    {
        match stage {
            Stage::Waiting { left } => self.on_report(moment, left, event, notification),
            Stage::Fresh => None,
        }
    }

    /// Handles an event of a call with these destinations left.
    #[tactic(auto, unfolding(crate::specs::Event::on_report))]
    fn on_report(
        &mut self,
        moment: Moment,
        left: Option<Destinations>,
        event: Event,
        notification: bool,
    ) -> Option<Request>
        ensures { (self.new, result) ≡ on_report self.old moment left event notification }
    {
        match event {
            Event::RouteSelectFailure => self.try_next(moment, left, Cause::NoRouteToDestination),
            Event::OCalledPartyBusy => self.try_next(moment, left, Cause::UserBusy),
            Event::ONoAnswer => self.try_next(moment, left, Cause::NoAnswerFromUser),
            Event::OAnswer | Event::OAbandon => self.end_with(Components::none()),
            Event::ODisconnect | Event::Other(_) => self.goes_on(moment, notification),
        }
    }

    /// The call goes on. If the switch waits, it gets Continue.
    fn goes_on(&mut self, moment: Moment, notification: bool) -> Option<Request>
        ensures { (self.new, result) ≡ goes_on self.old moment notification }
    {
        if notification {
            None
        } else {
            self.instruct(moment, Instruction::Continue)
        }
    }
}
