//! Kinds of entries, from words.
//!
//! | Entry | Meaning |
//! |---|---|
//! | `opened none`, `opened known NAME`, `opened unknown NAME`, `opened bad-version NAME` | a Begin, and the application context name of its AARQ |
//! | `initial-dp ID FOUND ..` | an Invoke of InitialDP. FOUND is a called number that has a record, also as `record NUMBER`, or `missing` (no key or no number), `wrong-key`, `no-record` |
//! | `event ID EVENT request ..`, `event ID EVENT notification ..` | an Invoke of EventReportBCSM. EVENT is a name, or `code CODE`, or a code |
//! | `invoke ID PROBLEM ..`, `unknown-invoke ID PROBLEM ..` | another Invoke. PROBLEM is `unrecognized-operation`, `mistyped-parameter` or `problem CODE` |
//! | `result ID last`, `result ID not-last` | a ReturnResultLast, a ReturnResultNotLast |
//! | `error ID` | a ReturnError |
//! | `reject ID` | a Reject |
//! | `faulty ID PROBLEM` | a faulty component. PROBLEM is `unrecognized-component`, `mistyped-component` or `problem CODE` |
//! | `peer-end`, `peer-abort` | an End, an Abort |
//! | `clock` | the clock |
//!
//! After an Invoke there may be, in any order, `linked ID`, and a calling number: `from DIGITS`, a national one, or
//! `calling NATURE:DIGITS`. `none` means no identifier or no calling number, and `?` no identifier.

use crate::values::{kept, name_of, national_number_of, number_with};
use cases::{Answer, first_word, number_of};
use fp_apdu::Opening;
use fp_digits::{NatureOfAddress, Number};
use fp_entry::{EntryKind, Found, SharedRecord};
use fp_inap::Event;
use fp_q773::{GeneralProblem, InvokeProblem};
use fp_records::Table;
use std::alloc::Global;

/// The kind of entry that a text spells. `None`, and a fault, if it spells none.
pub(crate) fn kind_of(
    alloc: Global,
    table: &Table,
    text: &str,
    out: &mut Answer,
) -> Option<EntryKind> {
    let (word, rest) = first_word(text);
    match word {
        "opened" => opened_of(alloc, rest, out),
        "initial-dp" => initial_dp_of(table, rest, out),
        "event" => Some(event_of(rest, out)),
        "invoke" | "unknown-invoke" => Some(unknown_invoke_of(rest, out)),
        "result" => Some(result_of(rest, out)),
        "error" => Some(error_of(rest, out)),
        "reject" => Some(reject_of(rest, out)),
        "faulty" => Some(faulty_of(rest, out)),
        "peer-end" => Some(EntryKind::PeerEnd),
        "peer-abort" => Some(EntryKind::PeerAbort),
        "clock" => Some(EntryKind::Clock),
        _ => {
            out.fail("no entry");
            None
        }
    }
}

/// A Begin.
fn opened_of(alloc: Global, text: &str, out: &mut Answer) -> Option<EntryKind> {
    let (word, name) = first_word(text);
    if word == "none" {
        return Some(EntryKind::Opened(Opening::None));
    }
    let name = name_of(alloc, name, out)?;
    match word {
        "known" => Some(EntryKind::Opened(Opening::Known(name))),
        "unknown" => Some(EntryKind::Opened(Opening::Unknown(name))),
        "bad-version" => Some(EntryKind::Opened(Opening::BadVersion(name))),
        _ => {
            out.fail("no opening");
            None
        }
    }
}

/// The word after a key in a text; `None` if the text doesn't have the key.
fn word_after<'a>(text: &'a str, key: &str) -> Option<&'a str> {
    match text.split_once(key) {
        Some((_, rest)) => Some(first_word(rest).0),
        None => None,
    }
}

/// The word after a key in a text, or the second word if the text doesn't have the key.
fn name_in<'a>(text: &'a str, key: &str) -> &'a str {
    match word_after(text, key) {
        Some(word) => word,
        None => first_word(first_word(text).1).0,
    }
}

/// An identifier, or `None` for `none` and `?`.
pub(crate) fn identifier_of(text: &str, out: &mut Answer) -> Option<i8> {
    if text == "none" || text == "?" {
        return None;
    }
    Some(number_of(text, out))
}

/// The linked identifier of an Invoke.
fn linked_in(text: &str, out: &mut Answer) -> Option<i8> {
    match word_after(text, " linked ") {
        Some(word) => identifier_of(word, out),
        None => None,
    }
}

/// The calling number of an InitialDP.
fn calling_in(text: &str, out: &mut Answer) -> Option<Number> {
    if let Some(digits) = word_after(text, " from ") {
        return Some(national_number_of(digits, out));
    }
    match word_after(text, " calling ") {
        Some(number) => calling_of(number, out),
        None => None,
    }
}

/// A nature of address, a colon and digits, or `none`.
fn calling_of(text: &str, out: &mut Answer) -> Option<Number> {
    let Some((nature, digits)) = text.split_once(':') else {
        return None;
    };
    let nature: u8 = number_of(nature, out);
    if nature < 128 {
        return Some(number_with(NatureOfAddress::new(nature), digits, out));
    }
    out.fail("no nature of address");
    None
}

/// The identifier of an Invoke, which is the first word of its text.
fn invoke_identifier_in(text: &str, out: &mut Answer) -> i8 {
    number_of(first_word(text).0, out)
}

/// An InitialDP.
fn initial_dp_of(table: &Table, text: &str, out: &mut Answer) -> Option<EntryKind> {
    let identifier = invoke_identifier_in(text, out);
    let linked = linked_in(text, out);
    let calling = calling_in(text, out);
    let found = found_in(table, text, out)?;
    Some(EntryKind::InitialDp {
        identifier,
        linked,
        calling,
        found,
    })
}

/// The table's answer to the called number of an InitialDP.
fn found_in(table: &Table, text: &str, out: &mut Answer) -> Option<Found> {
    if text.contains(" missing") {
        return Some(Found::Missing);
    }
    if text.contains(" wrong-key") {
        return Some(Found::WrongKey);
    }
    if text.contains(" no-record") {
        return Some(Found::NoRecord);
    }
    record_of(table, name_in(text, " record "), out)
}

/// The record of a called number.
fn record_of(table: &Table, called: &str, out: &mut Answer) -> Option<Found> {
    let called = national_number_of(called, out);
    match table.find(&called) {
        Some(record) => Some(Found::Record(kept(SharedRecord::new(record), out)?)),
        None => {
            out.fail("no record");
            None
        }
    }
}

/// An event.
fn event_of(text: &str, out: &mut Answer) -> EntryKind {
    let identifier = invoke_identifier_in(text, out);
    let linked = linked_in(text, out);
    let notification = text.contains(" notification");
    if notification == text.contains(" request") {
        out.fail("neither notification nor request");
    }
    EntryKind::Event {
        identifier,
        linked,
        event: Event::from_code(code_of(name_in(text, " code "), out)),
        notification,
    }
}

/// Another Invoke.
fn unknown_invoke_of(text: &str, out: &mut Answer) -> EntryKind {
    let identifier = invoke_identifier_in(text, out);
    let linked = linked_in(text, out);
    let code = code_of(name_in(text, " problem "), out);
    EntryKind::UnknownInvoke {
        identifier,
        linked,
        problem: InvokeProblem::from_code(code),
    }
}

/// The code of an event or a problem, by its name or its digits.
fn code_of(name: &str, out: &mut Answer) -> u8 {
    match name {
        "unrecognized-component" => 0,
        "mistyped-component" | "unrecognized-operation" => 1,
        "mistyped-parameter" => 2,
        "routeSelectFailure" => 4,
        "oCalledPartyBusy" => 5,
        "oNoAnswer" => 6,
        "oAnswer" => 7,
        "oDisconnect" => 9,
        "oAbandon" => 10,
        _ => number_of(name, out),
    }
}

/// A ReturnResult.
fn result_of(text: &str, out: &mut Answer) -> EntryKind {
    let (identifier, last) = first_word(text);
    let identifier: i8 = number_of(identifier, out);
    let last = is_last(last, out);
    EntryKind::Result { identifier, last }
}

/// Whether a result is the last one.
pub(crate) fn is_last(word: &str, out: &mut Answer) -> bool {
    match word {
        "last" => true,
        "not-last" => false,
        _ => {
            out.fail("neither last nor not-last");
            false
        }
    }
}

/// A ReturnError.
fn error_of(text: &str, out: &mut Answer) -> EntryKind {
    let identifier: i8 = number_of(text, out);
    EntryKind::Error { identifier }
}

/// A Reject.
fn reject_of(text: &str, out: &mut Answer) -> EntryKind {
    let identifier = identifier_of(text, out);
    EntryKind::Reject { identifier }
}

/// A faulty component.
fn faulty_of(text: &str, out: &mut Answer) -> EntryKind {
    let identifier = identifier_of(first_word(text).0, out);
    let code = code_of(name_in(text, " problem "), out);
    EntryKind::Faulty {
        identifier,
        problem: GeneralProblem::from_code(code),
    }
}
