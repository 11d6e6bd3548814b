//! Abort (Q.773, 4.2.1): the provider or the user cuts off a dialogue.

ghost use Rattle.std.specs.Prelude.{◌≡◌, ◌<◌, ◌≤◌, ◌^◌, ◌++◌, ℕ, [], ◌∷◌, List, Option, Some, None, IfSome, IfNone, OnOk, OnErr, length, option_map};
ghost use Rattle.fp_ber.specs.Canon.{canon, canon_of_all};
ghost use Rattle.fp_ber.specs.Putting.{EndsWith};
ghost use Rattle.fp_ber.specs.declared.element.Class.TheVariants as classes;
ghost use Rattle.fp_ber.specs.Tree as tree;
ghost use Rattle.fp_ber.specs.Lent.{lent_tree, lent_trees};
ghost use Rattle.fp_q773.specs.Copied.{CopiesHaveTags, ReasonHasTags};
ghost use Rattle.fp_q773.specs.Room.{message_room, reason_room};
ghost use Rattle.fp_q773.specs.Value as value;
ghost use Rattle.fp_q773.specs.View.{reason_of, abort_of};
ghost use Rattle.fp_q773.specs.Tid.{octets_of};
ghost use Rattle.fp_q773.specs.Grammar.{IsReason, IsAbort, IsMessage};
ghost use Rattle.fp_q773.specs.Writable.{IsWritableMessage, IsWritableReason};
ghost use Rattle.fp_q773.specs.Written.{reason_trees, written};

use crate::portions::DIALOGUE_PORTION;
use crate::tid::Tid;
use crate::transaction::{DESTINATION, transaction_at, write_transaction};
use fp_ber::{Class, ElementRef, Elements, Writer};
use std::alloc::AllocError;

/// The number of the application tag of an Abort.
pub const ABORT: u16 = 7;
/// The number of the application tag of a provider's cause.
const CAUSE: u16 = 10;

/// Why a dialogue is cut off.
#[derive(Clone, Copy, Debug)]
pub enum AbortReason<'a> {
    /// The provider's cause.
    Provider(u8),
    /// The user's dialogue portion, an element with the tag 6B.
    User(ElementRef<'a>),
}

/// An Abort: the dialogue is cut off.
#[derive(Clone, Copy, Debug)]
pub struct Abort<'a> {
    /// The receiver's identifier of the dialogue.
    pub destination: Tid,
    /// The reason, if the Abort gives one.
    pub reason: Option<AbortReason<'a>>,
}

/// Reads a provider's cause.
fn cause_of(element: &ElementRef<'_>) -> Option<u8>
    ensures some { IfSome result (λ cause. lent_tree element.now ≡ tree.primitive classes.Application 10 (cause ∷ [])) }
    ensures none { IfNone result ((cause : ℕ) → lent_tree element.now ≡ tree.primitive classes.Application 10 (cause ∷ []) → ⊥) }
{
    let Some(octets) = element.octets_with_tag(Class::Application, CAUSE) else {
        return None;
    };
    let [cause] = octets else {
        return None;
    };
    Some(*cause)
}

impl<'a> AbortReason<'a> {
    /// Reads a reason: a provider's cause or a user's dialogue portion.
    fn read(element: &ElementRef<'a>) -> Option<AbortReason<'a>>
        ensures some { IfSome result (λ r. IsReason (tree.more (lent_tree element.now) tree.none) (Some (reason_of r))) }
        ensures none { IfNone result ((r : value.ReasonValue)
            → IsReason (tree.more (lent_tree element.now) tree.none) (Some r) → ⊥) }
    {
        if let Some(cause) = cause_of(element) {
            return Some(AbortReason::Provider(cause));
        }
        if element
            .children_with_tag(Class::Application, DIALOGUE_PORTION)
            .is_none()
        {
            return None;
        }
        Some(AbortReason::User(*element))
    }

    /// Writes a reason.
    fn write(&self, out: &mut Writer) -> Result<(), AllocError>
        requires tags { ReasonHasTags (Some (reason_of self.now)) }
        requires room { reason_room (Some (reason_of self.now)) < 2 ^ 32 }
        ensures exact { OnOk result (out.new ≡ canon_of_all (reason_trees (Some (reason_of self.now))) ++ out.old) }
        ensures stays { EndsWith out.new out.old }
    {
        match self {
            AbortReason::Provider(cause) => {
                out.put_primitive(Class::Application, CAUSE, &[*cause])
            }
            AbortReason::User(dialogue) => out.put_lent(dialogue),
        }
    }
}

impl<'a> Abort<'a> {
    /// Reads an Abort from its contents.
    pub(crate) fn read(members: &Elements<'a>) -> Option<Abort<'a>>
        ensures some { IfSome result (λ a. IsAbort (lent_trees members.now) (octets_of a.destination)
            (option_map reason_of a.reason)) }
        ensures none { IfNone result ((destination : List ℕ) (r : Option value.ReasonValue)
            → IsAbort (lent_trees members.now) destination r → ⊥) }
    {
        let Some(destination) = transaction_at(members, DESTINATION) else {
            return None;
        };
        let Some(last) = destination.rest.split_first() else {
            return Some(Abort {
                destination: destination.identifier,
                reason: None,
            });
        };
        if !last.rest.is_empty() {
            return None;
        }
        let Some(reason) = AbortReason::read(&last.first) else {
            return None;
        };
        Some(Abort {
            destination: destination.identifier,
            reason: Some(reason),
        })
    }

    /// Writes the reason, if there is one.
    fn write_reason(&self, out: &mut Writer) -> Result<(), AllocError>
        requires tags { ReasonHasTags (option_map reason_of self.now.reason) }
        requires room { reason_room (option_map reason_of self.now.reason) < 2 ^ 32 }
        ensures exact { OnOk result (out.new ≡ canon_of_all (reason_trees (option_map reason_of self.now.reason)) ++ out.old) }
        ensures stays { EndsWith out.new out.old }
    {
        let Some(reason) = self.reason else {
            return Ok(());
        };
        reason.write(out)
    }

    /// Writes an Abort.
    pub(crate) fn write(&self, out: &mut Writer) -> Result<(), AllocError>
        requires writable { IsWritableMessage (abort_of self.now) }
        requires tags { CopiesHaveTags (abort_of self.now) }
        requires room { message_room (abort_of self.now) < 2 ^ 32 }
        ensures exact { OnOk result (out.new ≡ canon (written (abort_of self.now)) ++ out.old) }
        ensures stays { EndsWith out.new out.old }
        ensures found { OnOk result (IsMessage (written (abort_of self.now)) (abort_of self.now)) }
    {
        let behind = out.len();
        self.write_reason(out)?;
        write_abort_message(self.destination, behind, out)
    }
}

/// Completes an Abort. You must first put the spelling of its reason, if it has one; the last `behind` octets, which
/// were there before, lie after the Abort. If memory runs out, the octets are unchanged.
pub fn write_abort_message(
    destination: Tid,
    behind: usize,
    out: &mut Writer,
) -> Result<(), AllocError>
    requires behind { behind ≤ length out.old }

    // The Abort lies before the last octets.
    ensures exact { (reason : Option value.ReasonValue) (rest : List ℕ)
        → out.old ≡ canon_of_all (reason_trees reason) ++ rest → length rest ≡ behind
        → OnOk result (out.new ≡ canon (written (value.abort (octets_of destination) reason)) ++ rest) }
    ensures err { OnErr result (out.new ≡ out.old) }
    ensures stays { EndsWith out.new out.old }

    // The written octets are read as that Abort.
    ensures found { OnOk result ((reason : Option value.ReasonValue) → IsWritableReason reason
        → IsMessage (written (value.abort (octets_of destination) reason)) (value.abort (octets_of destination) reason)) }
{
    let start = out.len();
    if write_transaction(destination, DESTINATION, out).is_err()
        || out
            .put_constructed(Class::Application, ABORT, behind)
            .is_err()
    {
        out.keep_last(start);
        return Err(AllocError);
    }
    Ok(())
}
