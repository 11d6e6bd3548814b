//! Writing messages.
//!
//! | Message | Octets of |
//! |---|---|
//! | `unidirectional` | a Unidirectional |
//! | `begin TID DIALOGUE COMPONENT..` | a Begin with up to three components |
//! | `end TID DIALOGUE COMPONENT..` | an End |
//! | `continue TID TID DIALOGUE COMPONENT..` | a Continue: originating and destination identifier |
//! | `abort TID` | an Abort without a reason |
//! | `abort TID cause NUMBER` | an Abort of the provider |
//! | `abort TID dialogue HEX` | an Abort of the user, with this dialogue portion |
//!
//! `DIALOGUE` is the element of a dialogue portion in hexadecimal, or `none`. A component is one word, with colons
//! between its parts: a `CODE` is a number, or `oid` and the octets of an object identifier; an `ELEMENT` is in
//! hexadecimal, or `none`.
//!
//! | Component | Octets of |
//! |---|---|
//! | `invoke:ID:CODE:ELEMENT` | an Invoke |
//! | `linked:ID:LINKED:CODE:ELEMENT` | an Invoke with a linked identifier |
//! | `last:ID`, `last:ID:CODE:ELEMENT` | a ReturnResultLast |
//! | `not-last:ID`, `not-last:ID:CODE:ELEMENT` | a ReturnResultNotLast |
//! | `error:ID:CODE:ELEMENT` | a ReturnError |
//! | `reject:ID:TAG:VALUE` | a Reject, whose `ID` may be `null` |

mod components;
mod portions;

ghost use Rattle.std.specs.Prelude.{◌<◌, ◌≤◌, ◌^◌, map, option_map};
ghost use Rattle.fp_q773.specs.Copied.{ComponentsHaveTags, CopiesHaveTags, CopyHasTags, ReasonHasTags};
ghost use Rattle.fp_q773.specs.Room.{components_room, message_room, reason_room, tree_room};
ghost use Rattle.fp_q773.specs.View.{component_of, message_value, reason_of, tree_in};
ghost use Rattle.fp_q773.specs.Writable.{AllWritable, IsWritableDialogue, IsWritableMessage, IsWritableReason};

use crate::elements::{new_writer, push_written};
use crate::messages::written::components::{components_in, held_of};
use crate::messages::written::portions::{dialogue_of, lent};
use crate::values::tid_of;
use cases::{Answer, first_word, number_of};
use fp_ber::ElementRef;
use fp_q773::{Abort, AbortReason, Begin, Component, Continue, End, Message, Tid, write_message};
use std::alloc::Global;

/// A message around its portions: its transaction identifiers.
#[derive(Clone, Copy)]
enum Frame {
    Begin(Tid),
    End(Tid),
    Continue(Tid, Tid),
}

/// Writes the octets of a message that is written.
fn push_message(alloc: Global, message: &Message<'_>, out: &mut Answer)
    requires writable { IsWritableMessage (message_value message.now) }
    requires tags { CopiesHaveTags (message_value message.now) }
    requires room { message_room (message_value message.now) < 2 ^ 32 }
{
    if let Some(mut writer) = new_writer(alloc, out) {
        out.note(write_message(message, &mut writer));
        push_written(out, writer);
    }
}

/// Writes the octets of a message with these portions.
fn push_portions(
    alloc: Global,
    frame: Frame,
    dialogue: Option<ElementRef<'_>>,
    components: Vec<Component<'_>>,
    out: &mut Answer,
)
    requires its_dialogue { IsWritableDialogue (tree_in dialogue) }
    requires dialogue_tags { CopyHasTags (tree_in dialogue) }
    requires dialogue_room { tree_room (tree_in dialogue) ≤ 1000 }
    requires its_components { AllWritable (map component_of components.items) }
    requires component_tags { ComponentsHaveTags (map component_of components.items) }
    requires room { components_room (map component_of components.items) ≤ 9000 }
{
    let message = match frame {
        Frame::Begin(originating) => Message::Begin(Begin {
            originating,
            dialogue,
            components,
        }),
        Frame::End(destination) => Message::End(End {
            destination,
            dialogue,
            components,
        }),
        Frame::Continue(originating, destination) => Message::Continue(Continue {
            originating,
            destination,
            dialogue,
            components,
        }),
    };
    push_message(alloc, &message, out)
}

/// Writes the octets of a message with this dialogue portion, and the components of these words.
fn push_words(
    alloc: Global,
    frame: Frame,
    dialogue: Option<ElementRef<'_>>,
    words: &str,
    out: &mut Answer,
)
    requires its_dialogue { IsWritableDialogue (tree_in dialogue) }
    requires dialogue_tags { CopyHasTags (tree_in dialogue) }
    requires dialogue_room { tree_room (tree_in dialogue) ≤ 1000 }
{
    let held = held_of(alloc, words, out);
    match components_in(alloc, held.as_slice(), out) {
        Some(components) => push_portions(alloc, frame, dialogue, components, out),
        None => out.run_out(),
    }
}

/// The octets of a message with a dialogue portion and components.
fn with_portions(alloc: Global, frame: Frame, text: &str, out: &mut Answer) {
    let (dialogue, words) = first_word(text);
    let dialogue = dialogue_of(alloc, dialogue, out);
    push_words(alloc, frame, lent(dialogue.as_ref()), words, out)
}

/// The octets of a Begin.
fn begin(alloc: Global, text: &str, out: &mut Answer) {
    let (originating, text) = first_word(text);
    let frame = Frame::Begin(tid_of(alloc, originating, out));
    with_portions(alloc, frame, text, out)
}

/// The octets of an End.
fn end(alloc: Global, text: &str, out: &mut Answer) {
    let (destination, text) = first_word(text);
    let frame = Frame::End(tid_of(alloc, destination, out));
    with_portions(alloc, frame, text, out)
}

/// The octets of a Continue.
fn continuing(alloc: Global, text: &str, out: &mut Answer) {
    let (originating, text) = first_word(text);
    let (destination, text) = first_word(text);
    let originating = tid_of(alloc, originating, out);
    let destination = tid_of(alloc, destination, out);
    with_portions(alloc, Frame::Continue(originating, destination), text, out)
}

/// Writes the octets of an Abort with this reason.
fn push_abort(alloc: Global, destination: Tid, reason: Option<AbortReason<'_>>, out: &mut Answer)
    requires writable { IsWritableReason (option_map reason_of reason) }
    requires tags { ReasonHasTags (option_map reason_of reason) }
    requires room { reason_room (option_map reason_of reason) ≤ 1000 }
{
    let message = Message::Abort(Abort {
        destination,
        reason,
    });
    push_message(alloc, &message, out)
}

/// The octets of an Abort of the provider, with this cause.
fn provider_abort(alloc: Global, destination: Tid, cause: &str, out: &mut Answer) {
    let cause: u8 = number_of(cause, out);
    push_abort(alloc, destination, Some(AbortReason::Provider(cause)), out)
}

/// The octets of an Abort of the user, with this dialogue portion.
fn user_abort(alloc: Global, destination: Tid, dialogue: &str, out: &mut Answer) {
    let dialogue = dialogue_of(alloc, dialogue, out);
    match dialogue.as_ref() {
        Some(dialogue) => push_abort(
            alloc,
            destination,
            Some(AbortReason::User(ElementRef::Owned(dialogue))),
            out,
        ),
        None => out.fail("no dialogue portion"),
    }
}

/// The octets of an Abort.
fn abort(alloc: Global, text: &str, out: &mut Answer) {
    let (destination, text) = first_word(text);
    let destination = tid_of(alloc, destination, out);
    let (kind, reason) = first_word(text);
    match kind {
        "" => push_abort(alloc, destination, None, out),
        "cause" => provider_abort(alloc, destination, reason, out),
        "dialogue" => user_abort(alloc, destination, reason, out),
        _ => out.fail("no such reason"),
    }
}

/// The octets of a message.
pub(crate) fn write(alloc: Global, text: &str, out: &mut Answer) {
    let (kind, rest) = first_word(text);
    match kind {
        "unidirectional" => push_message(alloc, &Message::Unidirectional, out),
        "begin" => begin(alloc, rest, out),
        "end" => end(alloc, rest, out),
        "continue" => continuing(alloc, rest, out),
        "abort" => abort(alloc, rest, out),
        _ => out.fail("no such message"),
    }
}
