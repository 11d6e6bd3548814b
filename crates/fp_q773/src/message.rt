//! Messages (Q.773, 4.2.1) between the two ends of a dialogue.

ghost use Rattle.std.specs.Prelude.{◌≡◌, ◌≢◌, ◌<◌, ◌^◌, ◌++◌, IfOk, IfErr, OnOk, OnErr};
ghost use Rattle.fp_ber.specs.declared.element.Class.TheVariants as classes;
ghost use Rattle.fp_ber.specs.Tree as tree;
ghost use Rattle.fp_ber.specs.Canon.{canon};
ghost use Rattle.fp_ber.specs.Putting.{EndsWith};
ghost use Rattle.fp_ber.specs.Lent.{lent_tree, lent_trees};
ghost use Rattle.fp_ber.specs.View.{tree_of};
ghost use Rattle.fp_q773.specs.declared.fault.MessageFault.{MessageFault};
ghost use Rattle.fp_q773.specs.declared.fault.MessageFault.TheVariants as faults;
ghost use Rattle.fp_q773.specs.Grammar.{IsMessage};
ghost use Rattle.fp_q773.specs.Copied.{CopiesHaveTags};
ghost use Rattle.fp_q773.specs.Fault.{IsFault, Reads, Refuses};
ghost use Rattle.fp_q773.specs.Named.{HasNamedProblems};
ghost use Rattle.fp_q773.specs.Room.{message_room};
ghost use Rattle.fp_q773.specs.Value.{MessageValue};
ghost use Rattle.fp_q773.specs.View.{message_value};
ghost use Rattle.fp_q773.specs.Writable.{IsWritableMessage};
ghost use Rattle.fp_q773.specs.Written.{written};

use crate::abort::{ABORT, Abort};
use crate::begin::{BEGIN, Begin};
use crate::continuing::{CONTINUE, Continue};
use crate::end::{END, End};
use crate::fault::MessageFault;
use fp_ber::{Class, Element, ElementRef, Elements, Writer};
use std::alloc::{AllocError, Global};

/// The number of the application tag of a Unidirectional.
const UNIDIRECTIONAL: u16 = 1;

/// A message.
#[derive(Debug, Drop)]
pub enum Message<'a> {
    /// Components outside a dialogue. They aren't read.
    Unidirectional,
    /// The first message of a dialogue.
    Begin(Begin<'a>),
    /// The last message of a dialogue.
    End(End<'a>),
    /// A message between the first and the last.
    Continue(Continue<'a>),
    /// A message that cuts off a dialogue.
    Abort(Abort<'a>),
}

/// Reads the contents of a Begin.
#[inline(always)]
fn begin_in<'a>(alloc: Global, members: &Elements<'a>) -> Result<Message<'a>, MessageFault>
    ensures found { IfOk result (λ message.
        IsMessage (tree.constructed classes.Application 2 (lent_trees members.now)) (message_value message)) }
    ensures named { IfOk result HasNamedProblems }
    ensures fault { IfErr result (λ fault. fault ≢ faults.Memory
        → IsFault (tree.constructed classes.Application 2 (lent_trees members.now)) fault) }
{
    let begin = Begin::read(alloc, members)?;
    Ok(Message::Begin(begin))
}

/// Reads the contents of an End.
fn end_in<'a>(alloc: Global, members: &Elements<'a>) -> Result<Message<'a>, MessageFault>
    ensures found { IfOk result (λ message.
        IsMessage (tree.constructed classes.Application 4 (lent_trees members.now)) (message_value message)) }
    ensures named { IfOk result HasNamedProblems }
    ensures fault { IfErr result (λ fault. fault ≢ faults.Memory
        → IsFault (tree.constructed classes.Application 4 (lent_trees members.now)) fault) }
{
    let end = End::read(alloc, members)?;
    Ok(Message::End(end))
}

/// Reads the contents of a Continue.
fn continue_in<'a>(alloc: Global, members: &Elements<'a>) -> Result<Message<'a>, MessageFault>
    ensures found { IfOk result (λ message.
        IsMessage (tree.constructed classes.Application 5 (lent_trees members.now)) (message_value message)) }
    ensures named { IfOk result HasNamedProblems }
    ensures fault { IfErr result (λ fault. fault ≢ faults.Memory
        → IsFault (tree.constructed classes.Application 5 (lent_trees members.now)) fault) }
{
    let continuing = Continue::read(alloc, members)?;
    Ok(Message::Continue(continuing))
}

/// Reads the contents of an Abort.
fn abort_in<'a>(members: &Elements<'a>) -> Result<Message<'a>, MessageFault>
    ensures found { IfOk result (λ message.
        IsMessage (tree.constructed classes.Application 7 (lent_trees members.now)) (message_value message)) }
    ensures named { IfOk result HasNamedProblems }
    ensures fault { IfErr result (λ fault. fault ≢ faults.Memory
        → IsFault (tree.constructed classes.Application 7 (lent_trees members.now)) fault) }
{
    let Some(abort) = Abort::read(members) else {
        return Err(MessageFault::Badly);
    };
    Ok(Message::Abort(abort))
}

/// Reads the message in an element.
#[inline(always)]
fn read_message<'a>(alloc: Global, element: &ElementRef<'a>) -> Result<Message<'a>, MessageFault>
    ensures found { IfOk result (λ message. IsMessage (lent_tree element.now) (message_value message)) }
    ensures named { IfOk result HasNamedProblems }
    ensures fault { IfErr result (λ fault. fault ≢ faults.Memory → IsFault (lent_tree element.now) fault) }
{
    if let Some(members) = element.children_with_tag(Class::Application, BEGIN) {
        return begin_in(alloc, &members);
    }
    if let Some(members) = element.children_with_tag(Class::Application, CONTINUE) {
        return continue_in(alloc, &members);
    }
    if let Some(members) = element.children_with_tag(Class::Application, END) {
        return end_in(alloc, &members);
    }
    if let Some(members) = element.children_with_tag(Class::Application, ABORT) {
        return abort_in(&members);
    }
    let Some(_) = element.children_with_tag(Class::Application, UNIDIRECTIONAL) else {
        return Err(MessageFault::UnknownMessage);
    };
    Ok(Message::Unidirectional)
}

/// Reads a message (Q.773, 4.2.1), which borrows its parameters and its dialogue portion from the element.
///
/// [`MessageFault::UnknownMessage`]: the tag isn't a message's. [`MessageFault::Badly`]: the tag is a message's, but
/// the contents don't fit. A component with wrong contents isn't a fault of the message: it is read as a faulty
/// component. The contents of a Unidirectional aren't read.
#[inline(always)]
pub fn message_in<'a>(alloc: Global, element: &ElementRef<'a>) -> Result<Message<'a>, MessageFault>
    // The element is the message that is read.
    ensures found { IfOk result (λ message. IsMessage (lent_tree element.now) (message_value message)) }

    // A problem with a name is read by its name.
    ensures named { IfOk result HasNamedProblems }

    // A message is read, unless memory runs out.
    ensures only { (value : MessageValue) → IsMessage (lent_tree element.now) value → Reads result value }

    // The fault is the element's.
    ensures fault { IfErr result (λ fault. fault ≢ faults.Memory → IsFault (lent_tree element.now) fault) }

    // The element's fault is reported, unless memory runs out before it.
    ensures first { (fault : MessageFault) → IsFault (lent_tree element.now) fault → Refuses result fault }
{
    read_message(alloc, element)
}

/// Reads a message from an element in memory of its own, as [`message_in`] does.
pub fn message_of(alloc: Global, element: &Element) -> Result<Message<'_>, MessageFault>
    // The element is the message that is read.
    ensures found { IfOk result (λ message. IsMessage (tree_of element.now) (message_value message)) }

    // A problem with a name is read by its name.
    ensures named { IfOk result HasNamedProblems }

    // A message is read, unless memory runs out.
    ensures only { (value : MessageValue) → IsMessage (tree_of element.now) value → Reads result value }

    // The fault is the element's.
    ensures fault { IfErr result (λ fault. fault ≢ faults.Memory → IsFault (tree_of element.now) fault) }

    // The element's fault is reported, unless memory runs out before it.
    ensures first { (fault : MessageFault) → IsFault (tree_of element.now) fault → Refuses result fault }
{
    message_in(alloc, &ElementRef::Owned(element))
}

/// Writes a message as [`write_message`] does. If memory runs out, part of it may be written.
fn write_parts(message: &Message<'_>, out: &mut Writer) -> Result<(), AllocError>
    requires writable { IsWritableMessage (message_value message.now) }
    requires tags { CopiesHaveTags (message_value message.now) }
    requires room { message_room (message_value message.now) < 2 ^ 32 }
    ensures exact { OnOk result (out.new ≡ canon (written (message_value message.now)) ++ out.old) }
    ensures stays { EndsWith out.new out.old }
    ensures found { OnOk result (IsMessage (written (message_value message.now)) (message_value message.now)) }
{
    match message {
        Message::Unidirectional => {
            let behind = out.len();
            out.put_constructed(Class::Application, UNIDIRECTIONAL, behind)
        }
        Message::Begin(begin) => begin.write(out),
        Message::End(end) => end.write(out),
        Message::Continue(continuing) => continuing.write(out),
        Message::Abort(abort) => abort.write(out),
    }
}

/// Writes a message (Q.773, 4.2.1) before the octets in the writer.
///
/// You must pass no faulty component, and a dialogue portion must have the tag 6B. The elements that the message
/// borrows, its parameters and its dialogue portion, must have tags in range, and lengths that fit into four octets. A
/// Unidirectional is written without components. If memory runs out, the octets are unchanged.
pub fn write_message(message: &Message<'_>, out: &mut Writer) -> Result<(), AllocError>
    requires writable { IsWritableMessage (message_value message.now) }
    requires tags { CopiesHaveTags (message_value message.now) }
    requires room { message_room (message_value message.now) < 2 ^ 32 }

    // The message determines the octets: of several spellings always the same one is written.
    ensures exact { OnOk result (out.new ≡ canon (written (message_value message.now)) ++ out.old) }
    ensures err { OnErr result (out.new ≡ out.old) }

    // The written octets are read as the message.
    ensures found { OnOk result (IsMessage (written (message_value message.now)) (message_value message.now)) }
{
    let start = out.len();
    if write_parts(message, out).is_err() {
        out.keep_last(start);
        return Err(AllocError);
    }
    Ok(())
}
