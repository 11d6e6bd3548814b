//! The effect of a component on the invocation that it names.

ghost use Rattle.std.specs.Prelude.{◌≡◌};
ghost use Rattle.fp_ism.specs.Outcome.{outcome_of_result, outcome_of_error, outcome_of_reject};

use fp_q773::{OperationClass, Problem, ReturnErrorProblem, ReturnResultProblem};

/// The effect of a component on the invocation that it names (ITU-T Q.774, 3.2).
#[derive(Clone, Copy, Debug, PartialEq, Eq)]
pub enum Outcome {
    /// The operation succeeded.
    Success,
    /// The operation failed.
    Failure,
    /// More results follow, and the invocation stays active.
    Stays,
    /// The component has no effect.
    Ignored,
    /// The component must be rejected with this problem.
    Problem(Problem),
}

const UNRECOGNIZED_RESULT: Outcome = Outcome::Problem(Problem::ReturnResult(
    ReturnResultProblem::UnrecognizedInvokeIdentifier,
));

const UNEXPECTED_RESULT: Outcome = Outcome::Problem(Problem::ReturnResult(
    ReturnResultProblem::ReturnResultUnexpected,
));

const UNRECOGNIZED_ERROR: Outcome = Outcome::Problem(Problem::ReturnError(
    ReturnErrorProblem::UnrecognizedInvokeIdentifier,
));

const UNEXPECTED_ERROR: Outcome = Outcome::Problem(Problem::ReturnError(
    ReturnErrorProblem::ReturnErrorUnexpected,
));

/// The outcome of a ReturnResult for an invocation of this class, or for no invocation.
pub(crate) fn of_result(class: Option<OperationClass>, last: bool) -> Outcome
    ensures { result ≡ outcome_of_result last class }
{
    match class {
        None => UNRECOGNIZED_RESULT,
        Some(OperationClass::Class1 | OperationClass::Class3) => {
            if last {
                Outcome::Success
            } else {
                Outcome::Stays
            }
        }
        Some(OperationClass::Class2 | OperationClass::Class4) => UNEXPECTED_RESULT,
    }
}

/// The outcome of a ReturnError for an invocation of this class, or for no invocation.
pub(crate) fn of_error(class: Option<OperationClass>) -> Outcome
    ensures { result ≡ outcome_of_error class }
{
    match class {
        None => UNRECOGNIZED_ERROR,
        Some(OperationClass::Class1 | OperationClass::Class2) => Outcome::Failure,
        Some(OperationClass::Class3 | OperationClass::Class4) => UNEXPECTED_ERROR,
    }
}

/// The outcome of a Reject for an invocation of this class, or for no invocation.
pub(crate) fn of_reject(class: Option<OperationClass>) -> Outcome
    ensures { result ≡ outcome_of_reject class }
{
    match class {
        None => Outcome::Ignored,
        Some(_) => Outcome::Failure,
    }
}
