//! Instructions for a switch.

ghost use Rattle.std.specs.Prelude.{◌≡◌};
ghost use Rattle.fp_service.specs.Answer.{operation_of};

use fp_digits::Cause;
use fp_inap::Operation;
use fp_records::Destination;

/// An operation for a switch to perform, with the contents of its argument.
#[derive(Clone, Copy, Debug)]
pub enum Instruction {
    /// Connect: the switch routes the call to this destination.
    Connect(Destination),
    /// ReleaseCall: the switch ends the call for this cause.
    ReleaseCall(Cause),
    /// RequestReportBCSMEvent: the switch reports how the call goes on.
    RequestReportBcsmEvent,
    /// Continue: the switch goes on with the call as it is.
    Continue,
    /// ActivityTest: the switch confirms that the dialogue still exists.
    ActivityTest,
}

impl Instruction {
    /// The operation.
    pub fn operation(&self) -> Operation
        ensures { result ≡ operation_of self.now }
    {
        match self {
            Instruction::Connect(_) => Operation::Connect,
            Instruction::ReleaseCall(_) => Operation::ReleaseCall,
            Instruction::RequestReportBcsmEvent => Operation::RequestReportBcsmEvent,
            Instruction::Continue => Operation::Continue,
            Instruction::ActivityTest => Operation::ActivityTest,
        }
    }
}
