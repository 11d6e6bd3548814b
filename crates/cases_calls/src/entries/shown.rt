//! Prepared messages as text.
//!
//! | Kind | As text |
//! |---|---|
//! | Opened | `opened none`, or `opened known`, `unknown` or `bad-version` and a name |
//! | InitialDP | `initial-dp ID linked ID calling NUMBER FOUND` |
//! | event | `event ID linked ID EVENT` and `request` or `notification` |
//! | other Invoke | `unknown-invoke ID linked ID PROBLEM` |
//! | result | `result ID` and `last` or `not-last` |
//! | error, Reject | `error ID`, `reject ID` |
//! | faulty component | `faulty ID PROBLEM` |
//! | without parts | `peer-end`, `peer-abort`, `clock` |
//!
//! An ID or a NUMBER is `none` if it is absent. A NUMBER is its nature of address, a colon and its digits. FOUND is
//! `missing`, `wrong-key`, `no-record`, or `record` and the digits of the called numbers that have it.

use crate::texts::{push_digits, push_or, push_tid};
use crate::values::{NOON, kept};
use cases::Answer;
use fp_apdu::{Name, Opening};
use fp_digits::{Moment, Number, read_called};
use fp_entry::{Arrival, Entry, EntryKind, Fault, Found, Incoming, Prepared};
use fp_inap::Event;
use fp_q773::{GeneralProblem, InvokeProblem};
use fp_records::{Record, Table};

/// The last octets of the called numbers that have a record, 800123456 to 800123459.
const LAST_OCTETS: [u8; 4] = [0x06, 0x07, 0x08, 0x09];

/// Writes how many entries are from components, the frame, and the prepared message.
pub(crate) fn push_prepared(table: &Table, prepared: &Prepared, out: &mut Answer) {
    out.labeled("components ", prepared.components());
    out.text(", ");
    push_arrival(prepared.arrival(), out);
    match prepared {
        Prepared::Message { incoming, .. } => push_incoming(table, incoming, out),
        Prepared::Refused { fault, .. } => push_refused(*fault, out),
        Prepared::Lost { arrival } => push_lost(arrival, out),
    }
}

/// Writes the entries of a message.
fn push_incoming(table: &Table, incoming: &Incoming, out: &mut Answer) {
    out.labeled(", elements ", incoming.elements);
    out.text(": ");
    push_entries(table, incoming.entries.as_slice(), out)
}

/// Writes why a message is refused.
fn push_refused(fault: Fault, out: &mut Answer) {
    out.labeled(", refused: ", fault);
}

/// Writes the octets of a lost frame.
fn push_lost(arrival: &Arrival, out: &mut Answer) {
    out.text(", lost: ");
    out.octets(arrival.frame.octets())
}

/// Writes the identifiers of a received frame, how many octets it has, and its moment.
fn push_arrival(arrival: &Arrival, out: &mut Answer) {
    out.shown(&arrival.ids.kind);
    out.text(" from ");
    push_tid(out, arrival.ids.orig);
    out.text(" to ");
    push_tid(out, arrival.ids.dest);
    out.labeled(", ", arrival.frame.octets().len());
    out.text(" octets");
    push_moment(arrival.moment, out)
}

/// Writes a moment, in milliseconds after noon.
fn push_moment(moment: Moment, out: &mut Answer) {
    match moment.milliseconds().checked_sub(NOON) {
        Some(milliseconds) => {
            out.labeled(" @", milliseconds);
        }
        None => out.text(" before noon"),
    }
}

/// Writes entries in their order.
pub(crate) fn push_entries(table: &Table, entries: &[Entry], out: &mut Answer) {
    if entries.is_empty() {
        out.text("no entry");
    }
    for (place, entry) in entries.iter().enumerate() {
        if place > 0 {
            out.text("; ");
        }
        push_entry(table, entry, out);
    }
}

/// Writes an entry: its kind and its moment.
fn push_entry(table: &Table, entry: &Entry, out: &mut Answer) {
    push_kind(table, &entry.kind, out);
    push_moment(entry.moment, out)
}

/// Writes the kind of an entry.
fn push_kind(table: &Table, kind: &EntryKind, out: &mut Answer) {
    match kind {
        EntryKind::Opened(opening) => push_opening(opening, out),
        EntryKind::InitialDp {
            identifier,
            linked,
            calling,
            found,
        } => push_initial_dp(table, *identifier, *linked, *calling, found, out),
        EntryKind::Event {
            identifier,
            linked,
            event,
            notification,
        } => push_event(*identifier, *linked, *event, *notification, out),
        EntryKind::UnknownInvoke {
            identifier,
            linked,
            problem,
        } => push_unknown_invoke(*identifier, *linked, *problem, out),
        _ => push_answer(kind, out),
    }
}

/// Writes the kind of an entry that isn't of a Begin or an Invoke.
fn push_answer(kind: &EntryKind, out: &mut Answer) {
    match kind {
        EntryKind::Result { identifier, last } => push_result(*identifier, *last, out),
        EntryKind::Error { identifier } => push_identifier("error ", Some(*identifier), out),
        EntryKind::Reject { identifier } => push_identifier("reject ", *identifier, out),
        EntryKind::Faulty {
            identifier,
            problem,
        } => push_faulty(*identifier, *problem, out),
        EntryKind::PeerEnd => out.text("peer-end"),
        EntryKind::PeerAbort => out.text("peer-abort"),
        EntryKind::Clock => out.text("clock"),
        _ => out.text("a Begin or an Invoke"),
    }
}

/// Writes the opening of a Begin.
fn push_opening(opening: &Opening, out: &mut Answer) {
    match opening {
        Opening::None => out.text("opened none"),
        Opening::Known(name) => push_named("opened known ", name, out),
        Opening::Unknown(name) => push_named("opened unknown ", name, out),
        Opening::BadVersion(name) => push_named("opened bad-version ", name, out),
    }
}

/// Writes a text and an application context name.
pub(crate) fn push_named(text: &str, name: &Name, out: &mut Answer) {
    out.text(text);
    out.octets(name.as_slice())
}

/// Writes the identifiers of an Invoke.
fn push_invoke(word: &str, identifier: i8, linked: Option<i8>, out: &mut Answer) {
    out.text(word);
    out.labeled(" ", identifier);
    push_identifier(" linked ", linked, out)
}

/// Writes a text and an identifier, or `none` for an absent one.
fn push_identifier(text: &str, identifier: Option<i8>, out: &mut Answer) {
    out.text(text);
    push_or(out, identifier, "none");
}

/// Writes an InitialDP.
fn push_initial_dp(
    table: &Table,
    identifier: i8,
    linked: Option<i8>,
    calling: Option<Number>,
    found: &Found,
    out: &mut Answer,
) {
    push_invoke("initial-dp", identifier, linked, out);
    push_calling(calling, out);
    push_found(table, found, out)
}

/// Writes a calling number, if there is one: its nature of address and its digits.
fn push_calling(number: Option<Number>, out: &mut Answer) {
    let Some(number) = number else {
        return out.text(" calling none");
    };
    out.labeled(" calling ", number.nature.code());
    out.text(":");
    push_digits(out, number.digits.as_slice())
}

/// Writes an event.
fn push_event(
    identifier: i8,
    linked: Option<i8>,
    event: Event,
    notification: bool,
    out: &mut Answer,
) {
    push_invoke("event", identifier, linked, out);
    out.text(" ");
    out.shown(&event);
    out.either(notification, " notification", " request");
}

/// Writes another Invoke.
fn push_unknown_invoke(
    identifier: i8,
    linked: Option<i8>,
    problem: InvokeProblem,
    out: &mut Answer,
) {
    push_invoke("unknown-invoke", identifier, linked, out);
    out.text(" ");
    out.shown(&problem);
}

/// Writes a ReturnResult.
fn push_result(identifier: i8, last: bool, out: &mut Answer) {
    push_identifier("result ", Some(identifier), out);
    out.either(last, " last", " not-last");
}

/// Writes a faulty component.
fn push_faulty(identifier: Option<i8>, problem: GeneralProblem, out: &mut Answer) {
    push_identifier("faulty ", identifier, out);
    out.text(" ");
    out.shown(&problem);
}

/// Writes the table's answer to a called number.
fn push_found(table: &Table, found: &Found, out: &mut Answer) {
    match found {
        Found::Missing => out.text(" missing"),
        Found::WrongKey => out.text(" wrong-key"),
        Found::NoRecord => out.text(" no-record"),
        Found::Record(shared) => push_record(table, shared.record(), out),
    }
}

/// Writes what the calls of a prepared message find.
pub(crate) fn push_called(table: &Table, prepared: &Prepared, out: &mut Answer) {
    let Prepared::Message { incoming, .. } = prepared else {
        return out.text(" no message");
    };
    for entry in incoming.entries.as_slice() {
        if let EntryKind::InitialDp { found, .. } = &entry.kind {
            push_found(table, found, out);
        }
    }
}

/// Writes the called numbers that have a record.
fn push_record(table: &Table, record: &Record, out: &mut Answer) {
    out.text(" record");
    for last in LAST_OCTETS {
        let called = read_called(&[0x83, 0x10, 0x08, 0x10, 0x32, 0x54, last]);
        if let Some(called) = kept(called, out) {
            push_holder(table, &called, record, out);
        }
    }
}

/// Writes a called number after a blank, if it has this record.
fn push_holder(table: &Table, called: &Number, record: &Record, out: &mut Answer) {
    if has_record(table, called, record) {
        out.text(" ");
        push_digits(out, called.digits.as_slice());
    }
}

/// Whether a called number has this record.
fn has_record(table: &Table, called: &Number, record: &Record) -> bool {
    match table.find(called) {
        Some(found) => is_same(found, record),
        None => false,
    }
}

/// Whether two records are the same.
fn is_same(one: &Record, other: &Record) -> bool {
    one == other
}
