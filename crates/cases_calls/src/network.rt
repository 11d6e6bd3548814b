//! Links to a signalling network: their adaptor's results for messages of SCCP and for messages of the link.
//!
//! | Case | Result |
//! |---|---|
//! | `adaptor OWN EXCHANGE UNITS EVENT ..` | the result of each event on a link between these addresses, whose connections may name UNITS units, and the counts that aren't 0 |
//!
//! | Event | Meaning |
//! |---|---|
//! | `came:K:UNIT` | connection K opens for a unit |
//! | `ended:K` | connection K ends |
//! | `received:K:HEX` | a message of SCCP is received on connection K |
//! | `send:HEX` | the link sends a message |

use crate::values::{found, frame_of, kept};
use cases::{Answer, first_word, number_of, octets_of};
use fp_adaptor::{Adaptor, Counted, HandedOn, Outcome, Sending, Setting};
use fp_sccp::Address;
use std::alloc::Global;

/// Writes messages for the link.
fn push_handed_on(out: &mut Answer, handed_on: &HandedOn) {
    if let Some(abort) = &handed_on.abort {
        out.text("hands on ");
        out.octets(abort.octets());
        out.text(", ");
    }
    out.text("hands on ");
    out.octets(handed_on.message.octets())
}

/// Writes the result of a message from the network.
fn push_outcome(out: &mut Answer, outcome: &Outcome) {
    match outcome {
        Outcome::HandedOn(handed_on) => push_handed_on(out, handed_on),
        Outcome::Answered(octets) => {
            out.text("answers ");
            out.octets(octets.as_slice())
        }
        Outcome::Nothing => out.text("nothing"),
    }
}

/// Writes the result of a message from the link.
fn push_sending(out: &mut Answer, sending: &Sending) {
    match sending {
        Sending::By(message) => {
            out.labeled("by ", message.connection);
            out.text(" ");
            out.octets(message.octets.as_slice())
        }
        Sending::NoConnection => out.text("no connection"),
        Sending::TooLong => out.text("too long"),
    }
}

/// The two parts of a text at its first colon.
pub(crate) fn parts(text: &str) -> (&str, &str) {
    match text.split_once(':') {
        Some((first, rest)) => (first, rest),
        None => (text, ""),
    }
}

/// A connection comes, under the name of a unit.
fn come(adaptor: &mut Adaptor, connection: &str, unit: &str, out: &mut Answer) {
    let connection = number_of(connection, out);
    match adaptor.came(connection, number_of(unit, out)) {
        Some(closed) => out.labeled("closes ", closed),
        None => out.text("nothing"),
    }
}

/// Octets come from a connection.
fn receive(alloc: Global, adaptor: &mut Adaptor, connection: &str, text: &str, out: &mut Answer) {
    let octets = octets_of(alloc, text, out);
    let connection = number_of(connection, out);
    match adaptor.received(connection, octets.as_slice()) {
        Ok(outcome) => push_outcome(out, &outcome),
        Err(_) => out.run_out(),
    }
}

/// A message is sent.
fn send(alloc: Global, adaptor: &mut Adaptor, text: &str, out: &mut Answer) {
    let Some(frame) = frame_of(alloc, text, out) else {
        return;
    };
    match adaptor.send(&frame) {
        Ok(sending) => push_sending(out, &sending),
        Err(_) => out.run_out(),
    }
}

/// Handles an event, and writes its result.
fn push_event(alloc: Global, out: &mut Answer, adaptor: &mut Adaptor, event: &str) {
    let (kind, rest) = parts(event);
    let (first, second) = parts(rest);
    match kind {
        "came" => come(adaptor, first, second, out),
        "ended" => {
            adaptor.ended(number_of(first, out));
            out.text("nothing");
        }
        "received" => receive(alloc, adaptor, first, second, out),
        "send" => send(alloc, adaptor, first, out),
        _ => out.fail("no such event"),
    }
}

/// Writes a count that isn't 0.
fn push_count(out: &mut Answer, name: &str, count: u64) {
    if count > 0 {
        out.text("; ");
        out.text(name);
        out.labeled(" ", count);
    }
}

/// Writes the counts that aren't 0.
fn push_counts(out: &mut Answer, adaptor: &Adaptor) {
    push_count(out, "handed on", adaptor.count(Counted::HandedOn));
    push_count(out, "segments", adaptor.count(Counted::Segment));
    push_count(
        out,
        "other subsystems",
        adaptor.count(Counted::OtherSubsystem),
    );
    push_count(out, "other senders", adaptor.count(Counted::OtherSender));
    push_count(out, "management", adaptor.count(Counted::Management));
    push_count(out, "returned", adaptor.count(Counted::Returned));
    push_count(out, "unreadable", adaptor.count(Counted::Unreadable));
    push_count(out, "sent", adaptor.count(Counted::Sent));
    push_count(out, "dropped", adaptor.count(Counted::Dropped));
    push_count(out, "too long", adaptor.count(Counted::TooLong))
}

/// The address of these octets. `None`, and a fault, if they are none.
pub(crate) fn address_of(alloc: Global, text: &str, out: &mut Answer) -> Option<Address> {
    let octets = octets_of(alloc, text, out);
    found(Address::new(octets.as_slice()), "no address", out)
}

/// The results of the events of a link.
fn link(alloc: Global, text: &str, out: &mut Answer) {
    let (own, rest) = first_word(text);
    let (exchange, rest) = first_word(rest);
    let (units, events) = first_word(rest);
    let own = address_of(alloc, own, out);
    let exchange = address_of(alloc, exchange, out);
    let (Some(own), Some(exchange)) = (own, exchange) else {
        return;
    };
    let units = number_of(units, out);
    let setting = Setting {
        own,
        exchange,
        units,
    };
    if let Some(mut adaptor) = kept(Adaptor::new(alloc, setting), out) {
        push_all(alloc, &mut adaptor, events, out);
    }
}

/// Handles events, and writes their results, and the counts after them.
fn push_all(alloc: Global, adaptor: &mut Adaptor, events: &str, out: &mut Answer) {
    for event in events.split(' ') {
        out.separator("; ");
        push_event(alloc, out, adaptor, event);
    }
    push_counts(out, adaptor);
}

/// Writes the result of a case of this kind. `false` if this module has no such cases.
pub(crate) fn answer(alloc: Global, kind: &str, rest: &str, out: &mut Answer) -> bool {
    if kind != "adaptor" {
        return false;
    }
    link(alloc, rest, out);
    true
}
