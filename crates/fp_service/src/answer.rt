//! Requests, and the core after them.

ghost use Rattle.std.specs.Prelude.{◌≡◌, ◌∷◌, [], Some};
ghost use Rattle.fp_service.specs.Answer.{abort_portion, abort_with, acceptance, answered, conclude, continue_with, end_with, invoke, reject, user_abort};

use crate::{AbortPortion, Component, Components, Core, Instruction, Request};
use fp_apdu::{Name, Opening};
use fp_q773::Problem;

impl Core {
    /// The application context name in the AARE of a Continue or End.
    fn acceptance(&self) -> Option<Name>
        ensures { result ≡ acceptance self.now }
    {
        if self.accepted {
            return None;
        }
        match self.opening {
            Opening::Known(name) => Some(name),
            Opening::None | Opening::Unknown(_) | Opening::BadVersion(_) => None,
        }
    }

    /// Records that a Continue or End was requested. The first one carries the AARE of a dialogue with an application
    /// context.
    fn answer(&mut self)
        ensures { self.new ≡ answered self.old }
    {
        if let Opening::Known(_) = self.opening {
            self.accepted = true;
        }
    }

    /// The dialogue portion of a user Abort.
    fn abort_portion(&self) -> AbortPortion
        ensures { result ≡ abort_portion self.now.opening }
    {
        match self.opening {
            Opening::Known(_) => AbortPortion::Abrt,
            Opening::None | Opening::Unknown(_) | Opening::BadVersion(_) => AbortPortion::Absent,
        }
    }

    /// A Continue message with these components.
    #[tactic(auto, unfolding(crate::specs::Answer::continue_with))]
    pub(crate) fn continue_with(&mut self, components: Components) -> Option<Request>
        ensures { (self.new, result) ≡ continue_with self.old components }
    {
        let acceptance = self.acceptance();
        let request = Request::Continue {
            acceptance,
            components,
        };
        self.answer();
        Some(request)
    }

    /// An End with these components.
    #[tactic(auto, unfolding(crate::specs::Answer::end_with))]
    pub(crate) fn end_with(&mut self, components: Components) -> Option<Request>
        ensures { (self.new, result) ≡ end_with self.old components }
    {
        let acceptance = self.acceptance();
        let request = Request::End {
            acceptance,
            components,
        };
        self.answer();
        self.end();
        Some(request)
    }

    /// An Abort with this dialogue portion.
    #[tactic(auto, unfolding(crate::specs::Answer::abort_with))]
    pub(crate) fn abort_with(&mut self, portion: AbortPortion) -> Option<Request>
        ensures { (self.new, result) ≡ abort_with self.old portion }
    {
        self.end();
        Some(Request::Abort(portion))
    }

    /// A user Abort.
    #[tactic(auto, unfolding(crate::specs::Answer::user_abort))]
    pub(crate) fn user_abort(&mut self) -> Option<Request>
        ensures { (self.new, result) ≡ user_abort self.old }
    {
        let portion = self.abort_portion();
        self.abort_with(portion)
    }

    /// A Continue message that rejects a component.
    #[tactic(auto, unfolding(crate::specs::Answer::reject))]
    pub(crate) fn reject(&mut self, identifier: Option<i8>, problem: Problem) -> Option<Request>
        ensures { (self.new, result) ≡ reject self.old identifier problem }
    {
        self.continue_with(Components::one(Component::Reject {
            identifier,
            problem,
        }))
    }

    /// An End that invokes an operation.
    #[tactic(auto, unfolding(crate::specs::Answer::conclude))]
    pub(crate) fn conclude(&mut self, instruction: Instruction) -> Option<Request>
        ensures { (self.new, result) ≡ conclude self.old instruction }
    {
        let identifier = self.invocations.next();
        self.end_with(Components::one(Component::Invoke {
            identifier,
            instruction,
        }))
    }
}
