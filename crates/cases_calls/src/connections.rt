//! Messages of IPA, and the management of a connection that carries them.
//!
//! | Case | Result |
//! |---|---|
//! | `ipa PIECE ..` | the messages of a stream that arrives in these pieces, each as its stream and its octets, with `; ` between the pieces; or why there is no next message; and whether octets remain |
//! | `ipa-by-octet HEX` | the messages of a stream that arrives octet by octet |
//! | `ipa-of COUNT` | how many octets a message of COUNT octets 5A has, or why it isn't taken |
//! | `ipa-head CODE COUNT` | the octets before a message of this stream |
//! | `connection NAMES PIECE ..` | the action for each message of these pieces on a connection, and the state after it; the peer may name one of NAMES |
//! | `connection-by-octet NAMES HEX` | the same, if the octets arrive one by one |

use cases::{Answer, first_word, number_of, octets_of};
use fp_ipa::{
    ASKS, Action, IpaMessage, IpaReader, State, Step, StreamIdentifier, UnitName, message_head,
    received_of,
};
use std::alloc::Global;

/// Writes a message: its stream and its octets.
fn push_message(out: &mut Answer, message: &IpaMessage) {
    out.octets(&[message.stream.code()]);
    out.text(" ");
    out.octets(message.octets.as_slice());
}

/// Writes a comma, unless this is the first part of a list.
fn push_comma(out: &mut Answer, is_first: &mut bool) {
    if !*is_first {
        out.text(", ");
    }
    *is_first = false;
}

/// Writes the complete messages, and the fault if there is one.
fn push_messages(out: &mut Answer, reader: &mut IpaReader, is_first: &mut bool) {
    for _ in 0..u32::MAX {
        match reader.next() {
            Ok(Some(message)) => {
                push_comma(out, is_first);
                push_message(out, &message);
            }
            Ok(None) => return,
            Err(fault) => {
                push_comma(out, is_first);
                return out.value(fault);
            }
        }
    }
    out.fail("no end");
}

/// Writes whether octets remain.
fn push_rest(out: &mut Answer, reader: &IpaReader) {
    if !reader.is_empty() {
        out.text("; octets remain");
    }
}

/// Feeds a piece, and writes the messages that it completes.
fn push_piece(alloc: Global, out: &mut Answer, reader: &mut IpaReader, piece: &str) {
    out.separator("; ");
    let octets = octets_of(alloc, piece, out);
    out.note(reader.feed(octets.as_slice()));
    let mut is_first = true;
    push_messages(out, reader, &mut is_first);
    if is_first {
        out.text("none");
    }
}

/// The messages of a stream that arrives in pieces.
fn stream(alloc: Global, pieces: &str, out: &mut Answer) {
    let mut reader = IpaReader::new(alloc);
    for piece in pieces.split(' ') {
        push_piece(alloc, out, &mut reader, piece);
    }
    push_rest(out, &reader)
}

/// Feeds octets one by one, and writes the messages.
fn push_octet_by_octet(out: &mut Answer, reader: &mut IpaReader, octets: &[u8]) {
    let mut is_first = true;
    for octet in octets {
        out.note(reader.feed(&[*octet]));
        push_messages(out, reader, &mut is_first);
    }
    push_rest(out, reader)
}

/// The messages of a stream that arrives octet by octet.
fn stream_by_octet(alloc: Global, text: &str, out: &mut Answer) {
    let octets = octets_of(alloc, text, out);
    let mut reader = IpaReader::new(alloc);
    push_octet_by_octet(out, &mut reader, octets.as_slice())
}

/// Feeds the head and the octets of a message, and writes how many octets it has.
fn push_length(out: &mut Answer, reader: &mut IpaReader, count: u16) {
    out.note(reader.feed(&message_head(StreamIdentifier::Sccp, count)));
    for _ in 0..count {
        out.note(reader.feed(&[0x5A]));
    }
    match reader.next() {
        Ok(Some(message)) => out.value(message.octets.len()),
        Ok(None) => out.text("none"),
        Err(fault) => out.value(fault),
    }
}

/// How many octets are read for a message with this number of octets, or why it is refused.
fn length(alloc: Global, text: &str, out: &mut Answer) {
    let count: u16 = number_of(text, out);
    let mut reader = IpaReader::new(alloc);
    push_length(out, &mut reader, count)
}

/// The octets before a message.
fn head(alloc: Global, text: &str, out: &mut Answer) {
    let (code, count) = first_word(text);
    let count: u16 = number_of(count, out);
    match octets_of(alloc, code, out).as_slice() {
        [code] => out.octets(&message_head(StreamIdentifier::from_code(*code), count)),
        _ => out.fail("no stream"),
    }
}

/// The names of units, with commas between them.
pub(crate) fn names_of(alloc: Global, text: &str, out: &mut Answer) -> Vec<UnitName> {
    let mut names = Vec::new(alloc);
    for name in text.split(',') {
        match UnitName::new(name.as_bytes()) {
            Some(name) => out.push(&mut names, name),
            None => out.fail("no name"),
        }
    }
    names
}

/// Writes a state.
fn push_state(out: &mut Answer, state: State) {
    match state {
        State::Asked => out.text("asked"),
        State::Named(unit) => out.labeled("named ", unit),
        State::Active(unit) => out.labeled("active ", unit),
        State::Closed => out.text("closed"),
    }
}

/// Writes the action for a message.
fn push_action(out: &mut Answer, action: Action, message: &IpaMessage) {
    match action {
        Action::Skip => out.text("skips"),
        Action::Pong | Action::Acknowledge => {
            out.text("sends ");
            out.octets(action.octets());
        }
        Action::Activate => out.text("activates"),
        Action::Deliver => {
            out.text("delivers ");
            out.octets(message.octets.as_slice());
        }
        Action::Close => out.text("closes"),
    }
    out.text(", ")
}

/// A connection in a case.
#[derive(Drop)]
struct Connection<'a> {
    names: &'a [UnitName],
    state: State,
}

impl Connection<'_> {
    /// Takes a message, and writes the action and the state after it.
    fn take(&mut self, out: &mut Answer, message: &IpaMessage) {
        out.text("; ");
        let received = received_of(self.names, message.stream, message.octets.as_slice());
        let Step { state, action } = self.state.step(received);
        push_action(out, action, message);
        self.state = state;
        push_state(out, state)
    }

    /// Takes the complete messages.
    fn take_all(&mut self, out: &mut Answer, reader: &mut IpaReader) {
        for _ in 0..u32::MAX {
            match reader.next() {
                Ok(Some(message)) => self.take(out, &message),
                Ok(None) => return,
                Err(fault) => {
                    out.fail("a message that can't be read");
                    return drop(fault);
                }
            }
        }
        out.fail("no end");
    }
}

/// Takes pieces of a connection, after the octets that are sent first.
fn push_pieces(alloc: Global, out: &mut Answer, names: &[UnitName], pieces: &str) {
    out.octets(&ASKS);
    let mut reader = IpaReader::new(alloc);
    let mut connection = Connection {
        names,
        state: State::Asked,
    };
    for piece in pieces.split(' ') {
        let octets = octets_of(alloc, piece, out);
        out.note(reader.feed(octets.as_slice()));
        connection.take_all(out, &mut reader);
    }
}

/// The actions on a connection whose octets arrive in pieces.
fn connection_by_pieces(alloc: Global, text: &str, out: &mut Answer) {
    let (names, pieces) = first_word(text);
    let names = names_of(alloc, names, out);
    push_pieces(alloc, out, names.as_slice(), pieces)
}

/// Takes the octets of a connection one by one.
fn push_octets_one_by_one(alloc: Global, out: &mut Answer, names: &[UnitName], octets: &[u8]) {
    out.octets(&ASKS);
    let mut reader = IpaReader::new(alloc);
    let mut connection = Connection {
        names,
        state: State::Asked,
    };
    for octet in octets {
        out.note(reader.feed(&[*octet]));
        connection.take_all(out, &mut reader);
    }
}

/// The actions on a connection whose octets arrive one by one.
fn connection_by_octet(alloc: Global, text: &str, out: &mut Answer) {
    let (names, octets) = first_word(text);
    let names = names_of(alloc, names, out);
    let octets = octets_of(alloc, octets, out);
    push_octets_one_by_one(alloc, out, names.as_slice(), octets.as_slice())
}

/// Writes the result of a case of this kind. `false` if this module has no such cases.
pub(crate) fn answer(alloc: Global, kind: &str, rest: &str, out: &mut Answer) -> bool {
    match kind {
        "ipa" => stream(alloc, rest, out),
        "ipa-by-octet" => stream_by_octet(alloc, rest, out),
        "ipa-of" => length(alloc, rest, out),
        "ipa-head" => head(alloc, rest, out),
        "connection" => connection_by_pieces(alloc, rest, out),
        "connection-by-octet" => connection_by_octet(alloc, rest, out),
        _ => return false,
    }
    true
}
