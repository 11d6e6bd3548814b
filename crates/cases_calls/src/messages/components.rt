//! Components as text.

use crate::messages::elements::push_optional;
use crate::messages::problems::push_problem;
use crate::texts::{push_hexadecimal, push_or};
use cases::Answer;
use fp_ber::ElementRef;
use fp_q773::{Code, Coded, Component, Problem};

/// Writes the code of an operation or of an error.
fn push_code(out: &mut Answer, code: &Code<'_>) {
    match code {
        Code::Local(code) => out.labeled(", code local ", *code),
        Code::Global(octets) => {
            out.text(", code global [");
            push_hexadecimal(out, octets);
            out.text("]");
        }
    }
}

/// Writes a code and a parameter.
fn push_coded(out: &mut Answer, code: &Code<'_>, parameter: Option<ElementRef<'_>>) {
    push_code(out, code);
    out.text(", parameter ");
    push_optional(out, parameter)
}

/// Writes the result in a ReturnResult: its code and parameter.
fn push_result(out: &mut Answer, returned: Option<&Coded<'_>>) {
    match returned {
        Some(coded) => push_coded(out, &coded.code, coded.parameter),
        None => out.text(", no result"),
    }
}

/// Writes why a component is refused.
fn push_refusal(out: &mut Answer, identifier: Option<i8>, problem: Problem) {
    push_or(out, identifier, "none");
    out.text(", ");
    push_problem(out, problem)
}

/// Writes a component, with each of its fields.
pub(crate) fn push_component(out: &mut Answer, component: &Component<'_>) {
    match component {
        Component::Invoke(invoke) => {
            out.labeled("Invoke ", invoke.identifier);
            out.text(", linked ");
            push_or(out, invoke.linked, "none");
            push_coded(out, &invoke.code, invoke.parameter)
        }
        Component::ReturnResultLast(last) => {
            out.labeled("ReturnResultLast ", last.identifier);
            push_result(out, last.result.as_ref())
        }
        Component::ReturnResultNotLast(not_last) => {
            out.labeled("ReturnResultNotLast ", not_last.identifier);
            push_result(out, not_last.result.as_ref())
        }
        Component::ReturnError(error) => {
            out.labeled("ReturnError ", error.identifier);
            push_coded(out, &error.code, error.parameter)
        }
        Component::Reject(reject) => {
            out.text("Reject ");
            push_refusal(out, reject.identifier, reject.problem)
        }
        Component::Faulty {
            identifier,
            problem,
        } => {
            out.text("Faulty ");
            push_refusal(out, *identifier, Problem::General(*problem))
        }
    }
}

/// Writes how many components there are, and each of them.
pub(crate) fn push_components(out: &mut Answer, components: &[Component<'_>]) {
    out.labeled(", components ", components.len());
    for component in components {
        out.text("; ");
        push_component(out, component);
    }
}
