//! Reading messages.

use crate::ber::push_other;
use crate::elements::element_of;
use crate::messages::components::{push_component, push_components};
use crate::messages::elements::push_optional;
use crate::values::kept;
use cases::{Answer, octets_of};
use fp_ber::{Element, ElementRef, Node, read_nodes};
use fp_q773::{Abort, AbortReason, Component, Message, MessageFault, Tid, message_in, message_of};
use std::alloc::Global;

/// Writes a transaction identifier after a text.
fn push_tid(out: &mut Answer, before: &str, tid: &Tid) {
    out.text(before);
    out.octets(tid.as_slice())
}

/// Writes a dialogue portion and components.
fn push_portions(out: &mut Answer, dialogue: Option<ElementRef<'_>>, components: &[Component<'_>]) {
    out.text(", dialogue ");
    push_optional(out, dialogue);
    push_components(out, components)
}

/// Writes an Abort.
fn push_abort(out: &mut Answer, abort: &Abort<'_>) {
    push_tid(out, "Abort, destination ", &abort.destination);
    match &abort.reason {
        Some(AbortReason::Provider(cause)) => out.labeled(", cause ", *cause),
        Some(AbortReason::User(dialogue)) => {
            out.text(", dialogue ");
            push_optional(out, Some(*dialogue))
        }
        None => out.text(", no reason"),
    }
}

/// Writes a message, with each of its fields.
fn push_message(out: &mut Answer, message: &Message<'_>) {
    match message {
        Message::Unidirectional => out.text("Unidirectional"),
        Message::Begin(begin) => {
            push_tid(out, "Begin, originating ", &begin.originating);
            push_portions(out, begin.dialogue, begin.components.as_slice())
        }
        Message::End(end) => {
            push_tid(out, "End, destination ", &end.destination);
            push_portions(out, end.dialogue, end.components.as_slice())
        }
        Message::Continue(continuing) => {
            push_tid(out, "Continue, originating ", &continuing.originating);
            push_tid(out, ", destination ", &continuing.destination);
            push_portions(out, continuing.dialogue, continuing.components.as_slice())
        }
        Message::Abort(abort) => push_abort(out, abort),
    }
}

/// The part of a message that a case is about.
#[derive(Clone, Copy)]
enum Part {
    Message,
    /// The one component of a Begin.
    Component,
}

/// Writes a message that was read, or its fault.
fn push_read(out: &mut Answer, read: &Result<Message<'_>, MessageFault>) {
    match read {
        Ok(message) => push_message(out, message),
        Err(fault) => {
            out.text("fault ");
            out.shown(fault);
        }
    }
}

/// Writes the one component of a Begin.
fn push_only_component(out: &mut Answer, message: &Message<'_>) {
    let Message::Begin(begin) = message else {
        return out.fail("no Begin");
    };
    match begin.components.as_slice() {
        [component] => push_component(out, component),
        _ => out.fail("not one component"),
    }
}

/// Writes a part of a message that was read.
fn push_part(out: &mut Answer, part: Part, read: &Result<Message<'_>, MessageFault>) {
    match part {
        Part::Message => push_read(out, read),
        Part::Component => match read {
            Ok(message) => push_only_component(out, message),
            Err(_) => out.fail("no message"),
        },
    }
}

/// Writes a part of the message in an element.
fn push_of(alloc: Global, element: &Element, part: Part, out: &mut Answer) {
    push_part(out, part, &message_of(alloc, element));
}

/// Writes a part of the message of these octets, which are read into these places.
fn push_in<'a>(
    alloc: Global,
    places: &mut [Node<'a>],
    octets: &'a [u8],
    part: Part,
    out: &mut Answer,
) {
    match read_nodes(octets, places) {
        Ok(used) => {
            let nodes = ElementRef::of_nodes(&places[..used]);
            push_part(out, part, &message_in(alloc, &nodes));
        }
        Err(_) => out.fail("no nodes"),
    }
}

/// Writes a part of the message of these octets, read as nodes.
fn push_lent(alloc: Global, octets: &[u8], part: Part, out: &mut Answer) {
    let places = vec![in alloc; Node::BLANK; octets.len() / 2 + 1];
    if let Some(mut places) = kept(places, out) {
        push_in(alloc, places.as_mut_slice(), octets, part, out);
    }
}

/// Writes a part of the message of these octets. If reading them as nodes gives another result, writes that too.
fn push_both(alloc: Global, text: &str, part: Part, out: &mut Answer) {
    if let Some(element) = element_of(alloc, text, out) {
        push_of(alloc, &element, part, out);
    }
    let octets = octets_of(alloc, text, out);
    let mut lent = Answer::new(alloc);
    push_lent(alloc, octets.as_slice(), part, &mut lent);
    push_other(&lent, out);
}

/// The message of these octets.
pub(crate) fn message(alloc: Global, text: &str, out: &mut Answer) {
    push_both(alloc, text, Part::Message, out);
}

/// The component of these octets, in a Begin whose lengths are indefinite.
pub(crate) fn component(alloc: Global, text: &str, out: &mut Answer) {
    let mut begin = Answer::new(alloc);
    begin.text("628048012A6C80");
    begin.text(text);
    begin.text("00000000");
    push_both(alloc, begin.as_str(), Part::Component, out);
}

/// Writes the identifier of a component, if it is an Invoke.
fn push_invoke(out: &mut Answer, component: &Component<'_>) {
    match component.as_invoke() {
        Some(invoke) => out.labeled("Invoke ", invoke.identifier),
        None => out.text("no Invoke"),
    }
}

/// Writes the identifiers of the Invokes among the components of a Begin.
fn push_invokes(out: &mut Answer, read: &Result<Message<'_>, MessageFault>) {
    let Ok(Message::Begin(begin)) = read else {
        return out.fail("no Begin");
    };
    for component in begin.components.as_slice() {
        out.separator("; ");
        push_invoke(out, component);
    }
}

/// The identifiers of the Invokes among the components of the Begin of these octets.
pub(crate) fn invokes(alloc: Global, text: &str, out: &mut Answer) {
    if let Some(element) = element_of(alloc, text, out) {
        push_invokes(out, &message_of(alloc, &element));
    }
}
