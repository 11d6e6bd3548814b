//! Operations, their codes and their classes.

ghost use Rattle.std.specs.Prelude.{◌≡◌, IfSome, Some};
ghost use Rattle.fp_inap.specs.declared.operation.Operation.{Operation};
ghost use Rattle.fp_inap.specs.Operation.{class_of, code_of};

use fp_q773::OperationClass;

/// An operation, by its name in INAP CS-1 (after ITU-T Q.1218) and its operation code.
#[derive(Clone, Copy, Debug, PartialEq, Eq)]
pub enum Operation {
    /// initialDP: the switch reports a call at a detection point and asks for instructions.
    InitialDp = 0,
    /// connect: the switch routes the call to a destination.
    Connect = 20,
    /// releaseCall: the switch ends the call.
    ReleaseCall = 22,
    /// requestReportBCSMEvent: the switch watches the call for events.
    RequestReportBcsmEvent = 23,
    /// eventReportBCSM: the switch reports one of these events.
    EventReportBcsm = 24,
    /// continue: the switch goes on with the call.
    Continue = 31,
    /// activityTest: the switch confirms that the dialogue still exists.
    ActivityTest = 55,
}

impl Operation {
    /// The operation code, a local value.
    pub fn code(self) -> i32
        ensures { result ≡ code_of self }
    {
        self as i32
    }

    /// The operation with this code, and `None` if there is none.
    pub fn from_code(code: i32) -> Option<Operation>
        ensures some { IfSome result (λ operation. code_of operation ≡ code) }
        ensures only { (operation : Operation) → code_of operation ≡ code → result ≡ Some operation }
    {
        match code {
            0 => Some(Operation::InitialDp),
            20 => Some(Operation::Connect),
            22 => Some(Operation::ReleaseCall),
            23 => Some(Operation::RequestReportBcsmEvent),
            24 => Some(Operation::EventReportBcsm),
            31 => Some(Operation::Continue),
            55 => Some(Operation::ActivityTest),
            _ => None,
        }
    }

    /// The class of the operation (Q.771, 3.1.2.2): whether its performer reports success and
    /// failure.
    pub fn class(self) -> OperationClass
        ensures { result ≡ class_of self }
    {
        match self {
            Operation::InitialDp | Operation::Connect | Operation::RequestReportBcsmEvent => {
                OperationClass::Class2
            }
            Operation::ActivityTest => OperationClass::Class3,
            Operation::ReleaseCall | Operation::EventReportBcsm | Operation::Continue => {
                OperationClass::Class4
            }
        }
    }
}
