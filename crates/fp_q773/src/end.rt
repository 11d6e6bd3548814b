//! End (Q.773, 4.2.1): a dialogue ends.

ghost use Rattle.std.specs.Prelude.{◌≡◌, ◌<◌, ◌≤◌, ◌^◌, ◌++◌, All, ℕ, List, Option, IfOk, IfErr, OnOk, OnErr, length, map};
ghost use Rattle.fp_ber.specs.Canon.{canon, canon_of_all};
ghost use Rattle.fp_ber.specs.Putting.{EndsWith};
ghost use Rattle.fp_ber.specs.Tree.{Tree};
ghost use Rattle.fp_ber.specs.Lent.{lent_trees};
ghost use Rattle.fp_q773.specs.Value as value;
ghost use Rattle.fp_q773.specs.View.{component_of, tree_in, end_of};
ghost use Rattle.fp_q773.specs.Tid.{octets_of};
ghost use Rattle.fp_q773.specs.Copied.{CopiesHaveTags};
ghost use Rattle.fp_q773.specs.Fault.{Refused};
ghost use Rattle.fp_q773.specs.Grammar.{IsEnd, IsMessage};
ghost use Rattle.fp_q773.specs.Named.{HasNamedProblem};
ghost use Rattle.fp_q773.specs.Room.{message_room};
ghost use Rattle.fp_q773.specs.Writable.{IsWritableDialogue, IsWritableMessage};
ghost use Rattle.fp_q773.specs.Written.{written, portions_trees, IsReadBack};

use crate::component::Component;
use crate::fault::MessageFault;
use crate::portions::{Portions, write_portions};
use crate::tid::Tid;
use crate::transaction::{DESTINATION, transaction_at, write_transaction};
use fp_ber::{Class, ElementRef, Elements, Writer};
use std::alloc::{AllocError, Global};

/// The number of the application tag of an End.
pub const END: u16 = 4;

/// The last message of a dialogue.
#[derive(Debug, Drop)]
pub struct End<'a> {
    /// The receiver's identifier of the dialogue.
    pub destination: Tid,
    /// The dialogue portion, an element with the tag 6B.
    pub dialogue: Option<ElementRef<'a>>,
    /// The components, in their order.
    pub components: Vec<Component<'a>>,
}

impl<'a> End<'a> {
    /// Reads an End from its contents.
    pub(crate) fn read(alloc: Global, members: &Elements<'a>) -> Result<End<'a>, MessageFault>
        ensures found { IfOk result (λ b. IsEnd (lent_trees members.now) (octets_of b.destination) (tree_in b.dialogue)
            (map component_of b.components.items)) }
        ensures named { IfOk result (λ b. All HasNamedProblem b.components.items) }
        ensures fault { IfErr result (λ fault. Refused fault ((destination : List ℕ) (dialogue : Option Tree)
            (components : List value.ComponentValue) → IsEnd (lent_trees members.now) destination dialogue components → ⊥)) }
    {
        let Some(destination) = transaction_at(members, DESTINATION) else {
            return Err(MessageFault::Badly);
        };
        let portions = Portions::read(alloc, &destination.rest)?;
        Ok(End {
            destination: destination.identifier,
            dialogue: portions.dialogue,
            components: portions.components,
        })
    }

    /// Writes an End.
    pub(crate) fn write(&self, out: &mut Writer) -> Result<(), AllocError>
        requires writable { IsWritableMessage (end_of self.now) }
        requires tags { CopiesHaveTags (end_of self.now) }
        requires room { message_room (end_of self.now) < 2 ^ 32 }
        ensures exact { OnOk result (out.new ≡ canon (written (end_of self.now)) ++ out.old) }
        ensures stays { EndsWith out.new out.old }
        ensures found { OnOk result (IsMessage (written (end_of self.now)) (end_of self.now)) }
    {
        let behind = out.len();
        write_portions(self.dialogue, self.components.as_slice(), out)?;
        write_end_message(self.destination, behind, out)
    }
}

/// Completes an End. You must first put the spelling of its portions, if it has any; the last `behind` octets, which
/// were there before, lie after the End. If memory runs out, the octets are unchanged.
pub fn write_end_message(
    destination: Tid,
    behind: usize,
    out: &mut Writer,
) -> Result<(), AllocError>
    requires behind { behind ≤ length out.old }

    // The End lies before the last octets.
    ensures exact { (dialogue : Option Tree) (components : List value.ComponentValue) (rest : List ℕ)
        → out.old ≡ canon_of_all (portions_trees dialogue components) ++ rest → length rest ≡ behind
        → OnOk result (out.new ≡ canon (written (value.end (octets_of destination) dialogue components)) ++ rest) }
    ensures err { OnErr result (out.new ≡ out.old) }
    ensures stays { EndsWith out.new out.old }

    // The written octets are read as that End.
    ensures found { OnOk result ((dialogue : Option Tree) (components : List value.ComponentValue)
        → IsWritableDialogue dialogue → All IsReadBack components
        → IsMessage (written (value.end (octets_of destination) dialogue components))
        (value.end (octets_of destination) dialogue components)) }
{
    let start = out.len();
    if write_transaction(destination, DESTINATION, out).is_err()
        || out
            .put_constructed(Class::Application, END, behind)
            .is_err()
    {
        out.keep_last(start);
        return Err(AllocError);
    }
    Ok(())
}
