//! Cores and requests as text.
//!
//! A core is written as its state, the identifiers of the active invocations, the next identifier, and the earliest
//! moment at which the clock has an effect, in milliseconds after noon: `waiting 32, active 1 2, next 3, due 10000`.
//! `waiting` is followed by the remaining destinations. Without an active invocation it is `active none`.
//!
//! | Request | Meaning |
//! |---|---|
//! | `none` | nothing |
//! | `continue, COMPONENT, COMPONENT` | a Continue with these components; `end` is written alike |
//! | `continue aare accepted NAME, ..` | the same with an AARE that accepts the dialogue of this application context name |
//! | `abort` | an Abort without dialogue portion |
//! | `abort abrt` | an Abort with an ABRT |
//! | `abort aare name-not-supported NAME`, `abort aare no-common-version NAME` | an Abort with an AARE that refuses the dialogue |
//!
//! | Component | Meaning |
//! |---|---|
//! | `invoke ID Connect DIGITS`, `invoke ID ReleaseCall CAUSE`, `invoke ID RequestReportBCSMEvent`, `invoke ID Continue`, `invoke ID ActivityTest` | an Invoke |
//! | `error ID ERROR` | a ReturnError |
//! | `reject ID PROBLEM`, `reject ? PROBLEM` | a Reject |

use crate::entries::push_named;
use crate::invocations::push_active;
use crate::records::push_destinations;
use crate::texts::push_digits;
use crate::values::NOON;
use cases::Answer;
use fp_apdu::Name;
use fp_digits::Cause;
use fp_inap::OperationError;
use fp_ism::Invocations;
use fp_q773::Problem;
use fp_records::{Destination, Destinations};
use fp_service::{AbortPortion, Component, Core, Instruction, Request, Stage, State};

/// Writes a core.
pub(crate) fn push_core(core: &Core, out: &mut Answer) {
    let state = core.state();
    if core.is_over() != state.is_over() {
        out.fail("a core that is over in part");
    }
    push_state(&state, out);
    push_ors(&core.invocations(), out);
    out.labeled(", due ", core.next_due().saturating_sub(NOON));
}

/// Writes a state.
fn push_state(state: &State, out: &mut Answer) {
    match state {
        State::Live(Stage::Fresh) => out.text("fresh"),
        State::Live(Stage::Waiting { left }) => push_waiting(left, out),
        State::Over => out.text("over"),
    }
}

/// Writes the invocations of a core.
fn push_ors(invocations: &Invocations, out: &mut Answer) {
    out.text(", active");
    push_active(invocations, out);
    out.labeled(", next ", invocations.next());
}

/// Writes `waiting` and the remaining destinations, if there are any.
fn push_waiting(left: &Option<Destinations>, out: &mut Answer) {
    out.text("waiting");
    if let Some(left) = left {
        out.character(' ');
        push_destinations(out, left);
    }
}

/// Writes the core after an entry, and the request.
pub(crate) fn push_served(core: &Core, request: &Option<Request>, out: &mut Answer) {
    push_core(core, out);
    out.text(": ");
    match request {
        Some(request) => push_request(request, out),
        None => out.text("none"),
    }
}

/// Writes a request.
fn push_request(request: &Request, out: &mut Answer) {
    match request {
        Request::Continue {
            acceptance,
            components,
        } => push_answer("continue", acceptance, components.as_slice(), out),
        Request::End {
            acceptance,
            components,
        } => push_answer("end", acceptance, components.as_slice(), out),
        Request::Abort(portion) => push_abort(portion, out),
    }
}

/// Writes a Continue or an End.
fn push_answer(word: &str, acceptance: &Option<Name>, components: &[Component], out: &mut Answer) {
    out.text(word);
    push_acceptance(acceptance, out);
    for component in components {
        out.text(", ");
        push_component(component, out);
    }
}

/// Writes the AARE in a Continue or an End, if there is one.
fn push_acceptance(acceptance: &Option<Name>, out: &mut Answer) {
    if let Some(name) = acceptance {
        push_named(" aare accepted ", name, out);
    }
}

/// Writes the dialogue portion of an Abort.
fn push_abort(portion: &AbortPortion, out: &mut Answer) {
    match portion {
        AbortPortion::Absent => out.text("abort"),
        AbortPortion::Abrt => out.text("abort abrt"),
        AbortPortion::NoName(name) => push_named("abort aare name-not-supported ", name, out),
        AbortPortion::NoVersion(name) => push_named("abort aare no-common-version ", name, out),
    }
}

/// Writes a component.
fn push_component(component: &Component, out: &mut Answer) {
    match component {
        Component::Invoke {
            identifier,
            instruction,
        } => push_invoke(*identifier, instruction, out),
        Component::ReturnError { identifier, error } => push_error(*identifier, *error, out),
        Component::Reject {
            identifier,
            problem,
        } => push_reject(*identifier, *problem, out),
    }
}

/// Writes an Invoke.
fn push_invoke(identifier: i8, instruction: &Instruction, out: &mut Answer) {
    out.labeled("invoke ", identifier);
    out.text(" ");
    match instruction {
        Instruction::Connect(destination) => push_connect(destination, out),
        Instruction::ReleaseCall(cause) => push_release(*cause, out),
        Instruction::RequestReportBcsmEvent => out.text("RequestReportBCSMEvent"),
        Instruction::Continue => out.text("Continue"),
        Instruction::ActivityTest => out.text("ActivityTest"),
    }
}

/// Writes a Connect.
fn push_connect(destination: &Destination, out: &mut Answer) {
    out.text("Connect ");
    let digits = destination.digits();
    push_digits(out, digits.as_slice())
}

/// Writes a ReleaseCall.
fn push_release(cause: Cause, out: &mut Answer) {
    out.text("ReleaseCall ");
    out.shown(&cause);
}

/// Writes a ReturnError.
fn push_error(identifier: i8, error: OperationError, out: &mut Answer) {
    out.labeled("error ", identifier);
    out.text(" ");
    out.shown(&error);
}

/// Writes a Reject.
fn push_reject(identifier: Option<i8>, problem: Problem, out: &mut Answer) {
    out.text("reject ");
    match identifier {
        Some(identifier) => out.value(identifier),
        None => out.text("?"),
    }
    out.text(" ");
    out.shown(&problem);
}
