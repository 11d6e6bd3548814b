//! Cases of the operations of INAP and their arguments (after ITU-T Q.1218).
//!
//! | Case | Result |
//! |---|---|
//! | `initial-dp HEX` | the element of these octets, read as the argument of InitialDP: `key KEY, called NUMBER, calling NUMBER, category OCTET, event EVENT`; or `mistyped` |
//! | `event-report HEX` | the same, read as the argument of EventReportBCSM: `event EVENT, leg LEG, request` or `.. notification`; or `mistyped` |
//! | `connect DIGITS` | the octets of the argument of Connect to this destination |
//! | `release CAUSE` | the octets of the argument of ReleaseCall with this cause, for example `user-busy` |
//! | `request-report` | the octets of the argument of RequestReportBCSMEvent |
//! | `continue IDENTIFIER` | the octets of the Invoke of Continue |
//! | `activity-test IDENTIFIER` | the octets of the Invoke of ActivityTest |
//! | `operation CODE` | the operation of this code, with its code and class; or `-` |
//! | `event CODE` | the event of this code, and that event's code |
//! | `error NAME` | the code of this error, for example `missingParameter` |
//!
//! A number is its nature of address, a colon and its digits, for example `3:800123456`. A leg is its side and its
//! octet, for example `receiving 2`. An absent part is `-`.

use crate::elements::{element_of, new_writer, push_written};
use crate::numbers::{are_writable, digits_of};
use crate::texts::{push_digits, push_or};
use crate::values::kept;
use cases::{Answer, number_of};
use fp_digits::{Cause, Number};
use fp_inap::{
    Event, EventReport, InitialDp, Leg, Operation, OperationError, read_event_report,
    read_initial_dp, write_activity_test, write_connect, write_continue, write_release,
    write_request_report,
};
use std::alloc::Global;

/// Writes a number: its nature of address, a colon and its digits.
fn push_number(out: &mut Answer, number: Option<Number>) {
    let Some(number) = number else {
        return out.text("-");
    };
    out.value(number.nature.code());
    out.text(":");
    push_digits(out, number.digits.as_slice())
}

/// Writes the contents of the argument of an InitialDP.
fn push_initial_dp(out: &mut Answer, read: &InitialDp) {
    out.text("key ");
    push_or(out, read.key.map(u64::from), "-");
    out.text(", called ");
    push_number(out, read.called);
    out.text(", calling ");
    push_number(out, read.calling);
    out.text(", category ");
    push_or(out, read.category.map(u64::from), "-");
    out.text(", event ");
    match read.event {
        Some(event) => out.shown(&event),
        None => out.text("-"),
    }
}

/// Writes the contents of the argument of an InitialDP, or `mistyped`.
fn initial_dp(alloc: Global, text: &str, out: &mut Answer) {
    let Some(element) = element_of(alloc, text, out) else {
        return;
    };
    match read_initial_dp(&element) {
        Ok(read) => push_initial_dp(out, &read),
        Err(_) => out.text("mistyped"),
    }
}

/// Writes a leg: its side and its octet.
fn push_leg(out: &mut Answer, leg: Option<Leg>) {
    match leg {
        Some(Leg::Sending(leg)) => {
            out.labeled("sending ", leg);
        }
        Some(Leg::Receiving(leg)) => {
            out.labeled("receiving ", leg);
        }
        None => out.text("-"),
    }
}

/// Writes the contents of the argument of an EventReportBCSM.
fn push_event_report(out: &mut Answer, read: &EventReport) {
    out.text("event ");
    out.shown(&read.event);
    out.text(", leg ");
    push_leg(out, read.leg);
    out.either(read.notification, ", notification", ", request");
}

/// Writes the contents of the argument of an EventReportBCSM, or `mistyped`.
fn event_report(alloc: Global, text: &str, out: &mut Answer) {
    let Some(element) = element_of(alloc, text, out) else {
        return;
    };
    match read_event_report(&element) {
        Ok(read) => push_event_report(out, &read),
        Err(_) => out.text("mistyped"),
    }
}

/// The octets of the argument of a Connect.
fn connect(alloc: Global, text: &str, out: &mut Answer) {
    let digits = digits_of(alloc, text, out);
    push_connect(alloc, digits.as_slice(), out);
}

/// Writes the octets of the argument of a Connect to these digits.
fn push_connect(alloc: Global, digits: &[u8], out: &mut Answer) {
    if !are_writable(digits) {
        return out.fail("not 1 to 15 decimal digits");
    }
    if let Some(mut argument) = new_writer(alloc, out) {
        out.note(write_connect(digits, &mut argument));
        push_written(out, argument);
    }
}

/// The cause of this name; another cause, and a fault, for another text.
fn cause_of(name: &str, out: &mut Answer) -> Cause {
    match name {
        "no-route-to-destination" => Cause::NoRouteToDestination,
        "user-busy" => Cause::UserBusy,
        "no-answer-from-user" => Cause::NoAnswerFromUser,
        "call-rejected" => Cause::CallRejected,
        _ => {
            out.fail("no cause");
            Cause::CallRejected
        }
    }
}

/// The octets of the argument of a ReleaseCall.
fn release(alloc: Global, name: &str, out: &mut Answer) {
    let cause = cause_of(name, out);
    if let Some(mut argument) = new_writer(alloc, out) {
        out.note(write_release(cause, &mut argument));
        push_written(out, argument);
    }
}

/// The octets of the argument of a RequestReportBCSMEvent.
fn request_report(alloc: Global, out: &mut Answer) {
    if let Some(mut argument) = new_writer(alloc, out) {
        out.note(write_request_report(&mut argument));
        push_written(out, argument);
    }
}

/// The octets of the Invoke of Continue.
fn continuing(alloc: Global, text: &str, out: &mut Answer) {
    let identifier: i8 = number_of(text, out);
    if let Some(mut invoke) = new_writer(alloc, out) {
        out.note(write_continue(identifier, &mut invoke));
        push_written(out, invoke);
    }
}

/// The octets of the Invoke of ActivityTest.
fn activity_test(alloc: Global, text: &str, out: &mut Answer) {
    let identifier: i8 = number_of(text, out);
    if let Some(mut invoke) = new_writer(alloc, out) {
        out.note(write_activity_test(identifier, &mut invoke));
        push_written(out, invoke);
    }
}

/// The operation of a code, with its code and its class.
fn operation(text: &str, out: &mut Answer) {
    let Some(operation) = Operation::from_code(number_of(text, out)) else {
        return out.text("-");
    };
    out.shown(&operation);
    out.labeled(", code ", operation.code());
    out.text(", ");
    out.shown(&operation.class());
}

/// The event of a code, and that event's code.
fn event(text: &str, out: &mut Answer) {
    let event = Event::from_code(number_of(text, out));
    out.shown(&event);
    out.labeled(", code ", event.code());
}

/// The error of this name; another error, and a fault, for another text.
fn error_of(name: &str, out: &mut Answer) -> OperationError {
    match name {
        "missingCustomerRecord" => OperationError::MissingCustomerRecord,
        "missingParameter" => OperationError::MissingParameter,
        "unexpectedComponentSequence" => OperationError::UnexpectedComponentSequence,
        "unexpectedDataValue" => OperationError::UnexpectedDataValue,
        _ => {
            out.fail("no error");
            OperationError::MissingParameter
        }
    }
}

/// The code of the error of this name.
fn error(name: &str, out: &mut Answer) {
    let error = error_of(name, out);
    out.labeled("code ", error.code());
}

/// Writes the result of a case of this kind. `false` if this module has no such cases.
pub(crate) fn answer(alloc: Global, kind: &str, rest: &str, out: &mut Answer) -> bool {
    match kind {
        "initial-dp" => initial_dp(alloc, rest, out),
        "event-report" => event_report(alloc, rest, out),
        "connect" => connect(alloc, rest, out),
        "release" => release(alloc, rest, out),
        "request-report" => request_report(alloc, out),
        "continue" => continuing(alloc, rest, out),
        "activity-test" => activity_test(alloc, rest, out),
        "operation" => operation(rest, out),
        "event" => event(rest, out),
        "error" => error(rest, out),
        _ => return false,
    }
    true
}
