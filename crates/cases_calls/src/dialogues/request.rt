//! Requests as words, as in the results of the cases of the service step.
//!
//! | Request | Meaning |
//! |---|---|
//! | `continue`, `end` | a Continue, an End |
//! | `continue aare accepted NAME`, `end aare accepted NAME` | the same with an AARE that accepts the dialogue of this application context name |
//! | `abort` | an Abort without dialogue portion |
//! | `abort abrt` | an Abort with an ABRT |
//! | `abort aare name-not-supported NAME`, `abort aare no-common-version NAME` | an Abort with an AARE that refuses the dialogue |
//!
//! A Continue or an End is followed by up to two components, each after a comma. The second one isn't an Invoke of
//! RequestReportBCSMEvent.
//!
//! | Component | Meaning |
//! |---|---|
//! | `invoke ID Connect DIGITS`, `invoke ID ReleaseCall CAUSE`, `invoke ID RequestReportBCSMEvent`, `invoke ID Continue`, `invoke ID ActivityTest` | an Invoke |
//! | `error ID ERROR` | a ReturnError |
//! | `reject ID PROBLEM`, `reject ? PROBLEM` | a Reject |

ghost use Rattle.std.specs.Prelude.{◌≡◌};
ghost use Rattle.fp_service.specs.Components.{requests_report};

use crate::kinds::identifier_of;
use crate::records::{only_rule, routed_to};
use crate::values::{cause_of, name_of};
use cases::{Answer, first_word, number_of};
use fp_apdu::Name;
use fp_inap::OperationError;
use fp_q773::{GeneralProblem, InvokeProblem, Problem, ReturnErrorProblem, ReturnResultProblem};
use fp_records::{Action, Table};
use fp_service::{AbortPortion, Component, Components, Instruction, Request};
use std::alloc::Global;

/// The request that a text spells. `None`, and a fault, if it spells none.
pub(crate) fn request_of(alloc: Global, text: &str, out: &mut Answer) -> Option<Request> {
    let (head, components) = text.split_once(", ").unwrap_or((text, ""));
    let (word, portion) = first_word(head);
    match word {
        "continue" => Some(continue_of(alloc, portion, components, out)),
        "end" => Some(end_of(alloc, portion, components, out)),
        "abort" => abort_of(alloc, portion, out),
        _ => {
            out.fail("no request");
            None
        }
    }
}

/// A Continue.
fn continue_of(alloc: Global, portion: &str, components: &str, out: &mut Answer) -> Request {
    let acceptance = acceptance_of(alloc, portion, out);
    let components = components_of(alloc, components, out);
    Request::Continue {
        acceptance,
        components,
    }
}

/// An End.
fn end_of(alloc: Global, portion: &str, components: &str, out: &mut Answer) -> Request {
    let acceptance = acceptance_of(alloc, portion, out);
    let components = components_of(alloc, components, out);
    Request::End {
        acceptance,
        components,
    }
}

/// The application context name that an AARE accepts, if there is one.
fn acceptance_of(alloc: Global, text: &str, out: &mut Answer) -> Option<Name> {
    if text.is_empty() {
        return None;
    }
    match text.strip_prefix("aare accepted ") {
        Some(name) => name_of(alloc, name, out),
        None => {
            out.fail("no AARE that accepts");
            None
        }
    }
}

/// An Abort.
fn abort_of(alloc: Global, text: &str, out: &mut Answer) -> Option<Request> {
    match text {
        "" => Some(Request::Abort(AbortPortion::Absent)),
        "abrt" => Some(Request::Abort(AbortPortion::Abrt)),
        _ => Some(Request::Abort(refusal_of(alloc, text, out)?)),
    }
}

/// An AARE that refuses the dialogue.
fn refusal_of(alloc: Global, text: &str, out: &mut Answer) -> Option<AbortPortion> {
    let (aare, name) = text.rsplit_once(' ').unwrap_or((text, ""));
    let name = name_of(alloc, name, out)?;
    match aare {
        "aare name-not-supported" => Some(AbortPortion::NoName(name)),
        "aare no-common-version" => Some(AbortPortion::NoVersion(name)),
        _ => {
            out.fail("no AARE that refuses");
            None
        }
    }
}

/// The components that a text spells.
fn components_of(alloc: Global, text: &str, out: &mut Answer) -> Components {
    let mut first = None;
    let mut second = None;
    for part in text.split(", ") {
        if part.is_empty() {
            break;
        }
        if first.is_some() {
            read_component(alloc, part, &mut second, out);
        } else {
            read_component(alloc, part, &mut first, out);
        }
    }
    built(&first, &second, out)
}

/// Reads the component of a text into `place`.
fn read_component(alloc: Global, text: &str, place: &mut Option<Component>, out: &mut Answer) {
    if place.is_some() {
        out.fail("more than two components");
    }
    *place = component_of(alloc, text, out);
}

/// The components that were read.
fn built(first: &Option<Component>, second: &Option<Component>, out: &mut Answer) -> Components {
    match (first, second) {
        (Some(first), Some(second)) => both(first, second, out),
        (Some(only), None) => Components::one(*only),
        _ => Components::none(),
    }
}

/// Two components.
fn both(first: &Component, second: &Component, out: &mut Answer) -> Components {
    if requests_report(second) {
        out.fail("RequestReportBCSMEvent comes second");
        return Components::none();
    }
    Components::two(*first, *second)
}

/// Whether a component is an Invoke of RequestReportBCSMEvent.
fn requests_report(component: &Component) -> bool
    ensures { result ≡ requests_report component.now }
{
    match component {
        Component::Invoke { instruction, .. } => {
            matches!(instruction, Instruction::RequestReportBcsmEvent)
        }
        Component::ReturnError { .. } | Component::Reject { .. } => false,
    }
}

/// The component that a text spells. `None`, and a fault, if it spells none.
fn component_of(alloc: Global, text: &str, out: &mut Answer) -> Option<Component> {
    let (word, rest) = first_word(text);
    match word {
        "invoke" => invoke_of(alloc, rest, out),
        "error" => return_error_of(rest, out),
        "reject" => reject_of(rest, out),
        _ => {
            out.fail("no component");
            None
        }
    }
}

/// An Invoke.
fn invoke_of(alloc: Global, text: &str, out: &mut Answer) -> Option<Component> {
    let (identifier, rest) = first_word(text);
    let identifier: i8 = number_of(identifier, out);
    let instruction = instruction_of(alloc, rest, out)?;
    Some(Component::Invoke {
        identifier,
        instruction,
    })
}

/// A ReturnError.
fn return_error_of(text: &str, out: &mut Answer) -> Option<Component> {
    let (identifier, error) = first_word(text);
    let identifier: i8 = number_of(identifier, out);
    let error = error_of(error, out)?;
    Some(Component::ReturnError { identifier, error })
}

/// A Reject.
fn reject_of(text: &str, out: &mut Answer) -> Option<Component> {
    let (identifier, problem) = first_word(text);
    let identifier = identifier_of(identifier, out);
    let problem = problem_of(problem, out)?;
    Some(Component::Reject {
        identifier,
        problem,
    })
}

/// The instruction that a text spells. `None`, and a fault, if it spells none.
fn instruction_of(alloc: Global, text: &str, out: &mut Answer) -> Option<Instruction> {
    let (word, rest) = first_word(text);
    match word {
        "Connect" => connect_of(alloc, rest, out),
        "ReleaseCall" => Some(Instruction::ReleaseCall(cause_of(rest, out))),
        "RequestReportBCSMEvent" => Some(Instruction::RequestReportBcsmEvent),
        "Continue" => Some(Instruction::Continue),
        "ActivityTest" => Some(Instruction::ActivityTest),
        _ => {
            out.fail("no instruction");
            None
        }
    }
}

/// A Connect to these digits.
fn connect_of(alloc: Global, digits: &str, out: &mut Answer) -> Option<Instruction> {
    match routed_to(alloc, digits, out) {
        Some(table) => connect_in(&table, out),
        None => None,
    }
}

/// A Connect to the only destination of a table's only rule.
fn connect_in(table: &Table, out: &mut Answer) -> Option<Instruction> {
    if let Action::Route(destinations) = only_rule(table, "5", out)?.action {
        if let [only] = destinations.as_slice() {
            return Some(Instruction::Connect(*only));
        }
    }
    out.fail("no route, or more than one destination");
    None
}

/// The error of this name.
fn error_of(text: &str, out: &mut Answer) -> Option<OperationError> {
    match text {
        "MissingCustomerRecord" => Some(OperationError::MissingCustomerRecord),
        "MissingParameter" => Some(OperationError::MissingParameter),
        "UnexpectedComponentSequence" => Some(OperationError::UnexpectedComponentSequence),
        "UnexpectedDataValue" => Some(OperationError::UnexpectedDataValue),
        _ => {
            out.fail("no error");
            None
        }
    }
}

/// The problem of an Invoke with this name.
fn invoke_problem_of(text: &str, out: &mut Answer) -> Option<InvokeProblem> {
    match text {
        "Invoke(UnrecognizedOperation)" => Some(InvokeProblem::UnrecognizedOperation),
        "Invoke(MistypedParameter)" => Some(InvokeProblem::MistypedParameter),
        "Invoke(UnrecognizedLinkedIdentifier)" => Some(InvokeProblem::UnrecognizedLinkedIdentifier),
        "Invoke(LinkedResponseUnexpected)" => Some(InvokeProblem::LinkedResponseUnexpected),
        _ => {
            out.fail("no problem");
            None
        }
    }
}

/// The problem of this name.
fn problem_of(text: &str, out: &mut Answer) -> Option<Problem> {
    Some(match text {
        "General(UnrecognizedComponent)" => Problem::General(GeneralProblem::UnrecognizedComponent),
        "General(MistypedComponent)" => Problem::General(GeneralProblem::MistypedComponent),
        "ReturnResult(UnrecognizedInvokeIdentifier)" => {
            Problem::ReturnResult(ReturnResultProblem::UnrecognizedInvokeIdentifier)
        }
        "ReturnResult(ReturnResultUnexpected)" => {
            Problem::ReturnResult(ReturnResultProblem::ReturnResultUnexpected)
        }
        "ReturnError(UnrecognizedInvokeIdentifier)" => {
            Problem::ReturnError(ReturnErrorProblem::UnrecognizedInvokeIdentifier)
        }
        "ReturnError(ReturnErrorUnexpected)" => {
            Problem::ReturnError(ReturnErrorProblem::ReturnErrorUnexpected)
        }
        _ => Problem::Invoke(invoke_problem_of(text, out)?),
    })
}
