//! The counter of a component that this end wrote (Q.773, 4.2.2), by the octets of its operation, its cause, its error
//! or its problem.

ghost use Rattle.std.specs.Prelude.{◌≡◌, ◌<◌, ◌+◌, ◌++◌, ℕ, ℤ, List, [], None, Option, Some, length, unsigned_abs};
ghost use Rattle.fp_ber.specs.Canon.{canon, canon_of_all};
ghost use Rattle.fp_ber.specs.Tree.{more};
ghost use Rattle.fp_digits.specs.Cause.{cause_value};
ghost use Rattle.fp_digits.specs.declared.cause_value.Cause.{Cause};
ghost use Rattle.fp_inap.specs.declared.operation_error.OperationError.{OperationError};
ghost use Rattle.fp_inap.specs.Operation.{code_of};
ghost use Rattle.fp_inap.specs.OperationError as errors;
ghost use Rattle.fp_q773.specs.declared.problem.Problem.{Problem};
ghost use Rattle.fp_q773.specs.Problem.{problem_of};
ghost use Rattle.fp_q773.specs.Value.{local, tag_of, value_of};
ghost use Rattle.fp_q773.specs.Written.{asked_trees, component_tree, identifier_tree, reject_trees};
ghost use Rattle.fp_reply.specs.Reply.{argument_of, component_value};
ghost use Rattle.fp_service.specs.Answer.{operation_of};
ghost use Rattle.fp_service.specs.declared.component.Component.{Component};
ghost use Rattle.fp_service.specs.declared.instruction.Instruction.{Instruction};
ghost use Rattle.fp_counters.specs.Frames as spec;

use crate::Counter;
use crate::octets::{after_element, contents_of, octet_at};

/// The tag of an Invoke.
pub const INVOKE: u8 = 0xA1;
/// The tag of a ReturnError.
const RETURN_ERROR: u8 = 0xA3;
/// The tag of a Reject.
const REJECT: u8 = 0xA4;

/// The place of the code of an operation or an error in a component's contents, after its invoke identifier.
const CODE: usize = 5;
/// The place of the cause value in the contents of an Invoke of ReleaseCall, in the second octet of its argument.
const CAUSE: usize = 9;
/// The place of a problem's value, after its tag and its length.
const PROBLEM: usize = 2;

/// The counter of the ReleaseCalls with the cause of this octet (Q.850): a cause value, and the bit that ends an octet
/// group.
fn release_counter(octet: u8) -> Option<Counter>
    ensures { (cause : Cause) → octet ≡ 0x80 + cause_value cause → result ≡ Some (spec.release_counter cause) }
{
    match octet {
        0x83 => Some(Counter::ReleaseNoRoute),
        0x91 => Some(Counter::ReleaseBusy),
        0x93 => Some(Counter::ReleaseNoAnswer),
        0x95 => Some(Counter::ReleaseRejected),
        _ => None,
    }
}

/// The counter of an Invoke with these contents (Q.1218), by its operation code.
pub fn invoke_counter(contents: &[u8]) -> Option<Counter>
    ensures { (identifier : ℤ) (instruction : Instruction) (rest : List ℕ)
        → contents.now ≡ canon_of_all (more (identifier_tree identifier)
        (asked_trees None (local (code_of (operation_of instruction))) (argument_of instruction))) ++ rest
        → result ≡ Some (spec.instruction_counter instruction) }
{
    match octet_at(contents, CODE) {
        20 => Some(Counter::Connect),
        22 => {
            let cause = octet_at(contents, CAUSE);
            release_counter(cause)
        }
        23 => Some(Counter::RequestReport),
        31 => Some(Counter::ContinueOperation),
        55 => Some(Counter::ActivityTest),
        _ => None,
    }
}

/// The counter of the ReturnErrors with this error code (Q.1218).
fn error_counter(code: u8) -> Option<Counter>
    ensures { (error : OperationError) → code ≡ unsigned_abs (errors.code_of error)
        → result ≡ Some (spec.error_counter error) }
{
    match code {
        6 => Some(Counter::MissingCustomerRecord),
        7 => Some(Counter::MissingParameter),
        14 => Some(Counter::UnexpectedComponentSequence),
        15 => Some(Counter::UnexpectedDataValue),
        _ => None,
    }
}

/// The counter of the Rejects with a General problem of this value.
fn general_counter(value: u8) -> Counter
    ensures { result ≡ spec.general_counter value }
{
    match value {
        0 => Counter::RejectUnrecognizedComponent,
        1 => Counter::RejectMistypedComponent,
        _ => Counter::RejectOther,
    }
}

/// The counter of the Rejects with an Invoke problem of this value.
fn invoke_problem_counter(value: u8) -> Counter
    ensures { result ≡ spec.invoke_problem_counter value }
{
    match value {
        1 => Counter::RejectUnrecognizedOperation,
        2 => Counter::RejectMistypedParameter,
        5 => Counter::RejectUnrecognizedLinkedIdentifier,
        6 => Counter::RejectLinkedResponseUnexpected,
        _ => Counter::RejectOther,
    }
}

/// The counter of the Rejects with a ReturnResult problem of this value.
fn result_problem_counter(value: u8) -> Counter
    ensures { result ≡ spec.result_problem_counter value }
{
    match value {
        0 => Counter::RejectUnrecognizedResult,
        1 => Counter::RejectResultUnexpected,
        _ => Counter::RejectOther,
    }
}

/// The counter of the Rejects with a ReturnError problem of this value.
fn error_problem_counter(value: u8) -> Counter
    ensures { result ≡ spec.error_problem_counter value }
{
    match value {
        0 => Counter::RejectUnrecognizedError,
        1 => Counter::RejectErrorUnexpected,
        _ => Counter::RejectOther,
    }
}

/// The counter of the Rejects with a problem of this tag and this value.
fn problem_counter(tag: u8, value: u8) -> Counter
    ensures { (problem : Problem) → tag ≡ 0x80 + tag_of (problem_of problem) → value ≡ value_of (problem_of problem)
        → result ≡ spec.problem_counter problem }
{
    match tag {
        0x80 => general_counter(value),
        0x81 => invoke_problem_counter(value),
        0x82 => result_problem_counter(value),
        0x83 => error_problem_counter(value),
        _ => Counter::RejectOther,
    }
}

/// The counter of a Reject with these contents: an invoke identifier or a null, and the problem.
fn reject_counter(contents: &[u8]) -> Counter
    ensures { (identifier : Option ℤ) (problem : Problem) (rest : List ℕ) → length contents.now < 65536
        → contents.now ≡ canon_of_all (reject_trees identifier (problem_of problem)) ++ rest
        → result ≡ spec.problem_counter problem }
{
    let problem = after_element(contents);
    problem_counter(octet_at(problem, 0), octet_at(problem, PROBLEM))
}

/// The counter of the component at the front of the octets; `None` if there is none.
pub fn component_counter(octets: &[u8]) -> Option<Counter>
    ensures some { (component : Component) (rest : List ℕ) → length octets.now < 65536
        → octets.now ≡ canon (component_tree (component_value component)) ++ rest
        → result ≡ Some (spec.component_counter component) }
    ensures none { octets.now ≡ [] → result ≡ None }
{
    let contents = contents_of(octets);
    match octet_at(octets, 0) {
        INVOKE => invoke_counter(contents),
        RETURN_ERROR => {
            let code = octet_at(contents, CODE);
            error_counter(code)
        }
        REJECT => Some(reject_counter(contents)),
        _ => None,
    }
}
