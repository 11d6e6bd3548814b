//! Continue (Q.773, 4.2.1): a dialogue goes on.

ghost use Rattle.std.specs.Prelude.{◌≡◌, ◌<◌, ◌≤◌, ◌^◌, ◌++◌, All, ℕ, List, Option, IfOk, IfErr, OnOk, OnErr, length, map};
ghost use Rattle.fp_ber.specs.Canon.{canon, canon_of_all};
ghost use Rattle.fp_ber.specs.Putting.{EndsWith};
ghost use Rattle.fp_ber.specs.Tree.{Tree};
ghost use Rattle.fp_ber.specs.Lent.{lent_trees};
ghost use Rattle.fp_q773.specs.Value as value;
ghost use Rattle.fp_q773.specs.View.{component_of, tree_in, continue_of};
ghost use Rattle.fp_q773.specs.Tid.{octets_of};
ghost use Rattle.fp_q773.specs.Copied.{CopiesHaveTags};
ghost use Rattle.fp_q773.specs.Fault.{Refused};
ghost use Rattle.fp_q773.specs.Grammar.{IsContinue, IsMessage};
ghost use Rattle.fp_q773.specs.Named.{HasNamedProblem};
ghost use Rattle.fp_q773.specs.Room.{message_room};
ghost use Rattle.fp_q773.specs.Writable.{IsWritableDialogue, IsWritableMessage};
ghost use Rattle.fp_q773.specs.Written.{written, portions_trees, IsReadBack};

use crate::component::Component;
use crate::fault::MessageFault;
use crate::portions::{Portions, write_portions};
use crate::tid::Tid;
use crate::transaction::{DESTINATION, ORIGINATING, transaction_at, write_transaction};
use fp_ber::{Class, ElementRef, Elements, Writer};
use std::alloc::{AllocError, Global};

/// The number of the application tag of a Continue.
pub const CONTINUE: u16 = 5;

/// A message between the first and the last of a dialogue.
#[derive(Debug, Drop)]
pub struct Continue<'a> {
    /// The sender's identifier of the dialogue.
    pub originating: Tid,
    /// The receiver's identifier of the dialogue.
    pub destination: Tid,
    /// The dialogue portion, an element with the tag 6B.
    pub dialogue: Option<ElementRef<'a>>,
    /// The components, in their order.
    pub components: Vec<Component<'a>>,
}

impl<'a> Continue<'a> {
    /// Reads a Continue from its contents.
    pub(crate) fn read(alloc: Global, members: &Elements<'a>) -> Result<Continue<'a>, MessageFault>
        ensures found { IfOk result (λ c. IsContinue (lent_trees members.now) (octets_of c.originating) (octets_of c.destination)
            (tree_in c.dialogue)
            (map component_of c.components.items)) }
        ensures named { IfOk result (λ c. All HasNamedProblem c.components.items) }
        ensures fault { IfErr result (λ fault. Refused fault ((originating destination : List ℕ) (dialogue : Option Tree)
            (components : List value.ComponentValue) → IsContinue (lent_trees members.now) originating destination dialogue components → ⊥)) }
    {
        let Some(originating) = transaction_at(members, ORIGINATING) else {
            return Err(MessageFault::Badly);
        };
        let Some(destination) = transaction_at(&originating.rest, DESTINATION) else {
            return Err(MessageFault::Badly);
        };
        let portions = Portions::read(alloc, &destination.rest)?;
        Ok(Continue {
            originating: originating.identifier,
            destination: destination.identifier,
            dialogue: portions.dialogue,
            components: portions.components,
        })
    }

    /// Writes a Continue.
    pub(crate) fn write(&self, out: &mut Writer) -> Result<(), AllocError>
        requires writable { IsWritableMessage (continue_of self.now) }
        requires tags { CopiesHaveTags (continue_of self.now) }
        requires room { message_room (continue_of self.now) < 2 ^ 32 }
        ensures exact { OnOk result (out.new ≡ canon (written (continue_of self.now)) ++ out.old) }
        ensures stays { EndsWith out.new out.old }
        ensures found { OnOk result (IsMessage (written (continue_of self.now)) (continue_of self.now)) }
    {
        let behind = out.len();
        write_portions(self.dialogue, self.components.as_slice(), out)?;
        write_continue_message(self.originating, self.destination, behind, out)
    }
}

/// Completes a Continue. You must first put the spelling of its portions, if it has any; the last `behind` octets,
/// which were there before, lie after the Continue. If memory runs out, the octets are unchanged.
pub fn write_continue_message(
    originating: Tid,
    destination: Tid,
    behind: usize,
    out: &mut Writer,
) -> Result<(), AllocError>
    requires behind { behind ≤ length out.old }

    // The Continue lies before the last octets.
    ensures exact { (dialogue : Option Tree) (components : List value.ComponentValue) (rest : List ℕ)
        → out.old ≡ canon_of_all (portions_trees dialogue components) ++ rest → length rest ≡ behind
        → OnOk result (out.new ≡ canon (written (value.continuing (octets_of originating) (octets_of destination) dialogue components)) ++ rest) }
    ensures err { OnErr result (out.new ≡ out.old) }
    ensures stays { EndsWith out.new out.old }

    // The written octets are read as that Continue.
    ensures found { OnOk result ((dialogue : Option Tree) (components : List value.ComponentValue)
        → IsWritableDialogue dialogue → All IsReadBack components
        → IsMessage (written (value.continuing (octets_of originating) (octets_of destination) dialogue components))
        (value.continuing (octets_of originating) (octets_of destination) dialogue components)) }
{
    let start = out.len();
    if write_transaction(destination, DESTINATION, out).is_err()
        || write_transaction(originating, ORIGINATING, out).is_err()
        || out
            .put_constructed(Class::Application, CONTINUE, behind)
            .is_err()
    {
        out.keep_last(start);
        return Err(AllocError);
    }
    Ok(())
}
