//! Continue messages that invoke operations.

ghost use Rattle.std.specs.Prelude.{◌≡◌, ◌<◌, ◌↔◌, ◌∷◌, [], false, IfOk, IsOk, OnOk, length};
ghost use Rattle.fp_service.specs.Answer.{instruct, invoke, with_invocation};
ghost use Rattle.fp_service.specs.Components.{is_request_report};

use crate::{Component, Components, Core, Instruction, Request};
use fp_digits::Moment;
use fp_ism::{Full, Invocations};

/// Starts an invocation of an instruction at this moment, and returns its Invoke.
fn start(
    invocations: &mut Invocations,
    instruction: Instruction,
    moment: Moment,
) -> Result<Component, Full>
    ensures room { IsOk result ↔ (length invocations.old.active < 8) }
    ensures invoke { IfOk result (λ component. component ≡ invoke invocations.old instruction) }
    ensures started { OnOk result (invocations.new ≡ with_invocation moment invocations.old instruction) }
{
    let class = instruction.operation().class();
    let identifier = invocations.start(class, moment)?;
    Ok(Component::Invoke {
        identifier,
        instruction,
    })
}

impl Core {
    /// A Continue message that invokes an operation; a user Abort if there is no place for it.
    #[tactic(auto, unfolding(crate::specs::Answer::instruct))]
    pub(crate) fn instruct(&mut self, moment: Moment, instruction: Instruction) -> Option<Request>
        ensures { (self.new, result) ≡ instruct self.old moment (instruction ∷ []) }
    {
        let mut invocations = self.invocations;
        let Ok(invoke) = start(&mut invocations, instruction, moment) else {
            return self.user_abort();
        };
        self.invocations = invocations;
        self.continue_with(Components::one(invoke))
    }

    /// A Continue message that invokes two operations; a user Abort if there aren't places for both. The second must
    /// not be RequestReportBCSMEvent.
    #[tactic(auto, unfolding(crate::specs::Answer::instruct))]
    pub(crate) fn instruct_both(
        &mut self,
        moment: Moment,
        first: Instruction,
        second: Instruction,
    ) -> Option<Request>
        requires { is_request_report second ≡ false }
        ensures { (self.new, result) ≡ instruct self.old moment (first ∷ second ∷ []) }
    {
        let mut invocations = self.invocations;
        let Ok(first) = start(&mut invocations, first, moment) else {
            return self.user_abort();
        };
        match start(&mut invocations, second, moment) {
            Ok(second) => {
                self.invocations = invocations;
                self.continue_with(Components::two(first, second))
            }
            // Then the first operation isn't started either.
            Err(Full) => self.user_abort(),
        }
    }
}
