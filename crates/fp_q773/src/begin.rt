//! Begin (Q.773, 4.2.1): a dialogue begins.

ghost use Rattle.std.specs.Prelude.{◌≡◌, ◌<◌, ◌^◌, ◌++◌, All, ℕ, List, Option, IfOk, IfErr, OnOk, map};
ghost use Rattle.fp_ber.specs.Canon.{canon};
ghost use Rattle.fp_ber.specs.Putting.{EndsWith};
ghost use Rattle.fp_ber.specs.Tree.{Tree};
ghost use Rattle.fp_ber.specs.Lent.{lent_trees};
ghost use Rattle.fp_q773.specs.Value as value;
ghost use Rattle.fp_q773.specs.View.{component_of, tree_in, begin_of};
ghost use Rattle.fp_q773.specs.Tid.{octets_of};
ghost use Rattle.fp_q773.specs.Copied.{CopiesHaveTags};
ghost use Rattle.fp_q773.specs.Fault.{Refused};
ghost use Rattle.fp_q773.specs.Grammar.{IsBegin, IsMessage};
ghost use Rattle.fp_q773.specs.Named.{HasNamedProblem};
ghost use Rattle.fp_q773.specs.Room.{message_room};
ghost use Rattle.fp_q773.specs.Writable.{IsWritableMessage};
ghost use Rattle.fp_q773.specs.Written.{written};

use crate::component::Component;
use crate::fault::MessageFault;
use crate::portions::{Portions, write_portions};
use crate::tid::Tid;
use crate::transaction::{ORIGINATING, transaction_at, write_transaction};
use fp_ber::{Class, ElementRef, Elements, Writer};
use std::alloc::{AllocError, Global};

/// The number of the application tag of a Begin.
pub const BEGIN: u16 = 2;

/// The first message of a dialogue.
#[derive(Debug, Drop)]
pub struct Begin<'a> {
    /// The sender's identifier of the dialogue.
    pub originating: Tid,
    /// The dialogue portion, an element with the tag 6B.
    pub dialogue: Option<ElementRef<'a>>,
    /// The components, in their order.
    pub components: Vec<Component<'a>>,
}

impl<'a> Begin<'a> {
    /// Reads a Begin from its contents.
    pub(crate) fn read(alloc: Global, members: &Elements<'a>) -> Result<Begin<'a>, MessageFault>
        ensures found { IfOk result (λ b. IsBegin (lent_trees members.now) (octets_of b.originating) (tree_in b.dialogue)
            (map component_of b.components.items)) }
        ensures named { IfOk result (λ b. All HasNamedProblem b.components.items) }
        ensures fault { IfErr result (λ fault. Refused fault ((originating : List ℕ) (dialogue : Option Tree)
            (components : List value.ComponentValue) → IsBegin (lent_trees members.now) originating dialogue components → ⊥)) }
    {
        let Some(originating) = transaction_at(members, ORIGINATING) else {
            return Err(MessageFault::Badly);
        };
        let portions = Portions::read(alloc, &originating.rest)?;
        Ok(Begin {
            originating: originating.identifier,
            dialogue: portions.dialogue,
            components: portions.components,
        })
    }

    /// Writes a Begin.
    pub(crate) fn write(&self, out: &mut Writer) -> Result<(), AllocError>
        requires writable { IsWritableMessage (begin_of self.now) }
        requires tags { CopiesHaveTags (begin_of self.now) }
        requires room { message_room (begin_of self.now) < 2 ^ 32 }
        ensures exact { OnOk result (out.new ≡ canon (written (begin_of self.now)) ++ out.old) }
        ensures stays { EndsWith out.new out.old }
        ensures found { OnOk result (IsMessage (written (begin_of self.now)) (begin_of self.now)) }
    {
        let behind = out.len();
        write_portions(self.dialogue, self.components.as_slice(), out)?;
        write_transaction(self.originating, ORIGINATING, out)?;
        out.put_constructed(Class::Application, BEGIN, behind)
    }
}
