//! Invoke (Q.773, 4.2.2): a request for an operation.

ghost use Rattle.std.specs.Prelude.{◌≡◌, ◌<◌, ◌≤◌, ◌^◌, ◌++◌, ℕ, ℤ, List, Option, None, IfSome, IfNone, OnOk, OnErr, length};
ghost use Rattle.fp_ber.specs.Canon.{canon, canon_of_all};
ghost use Rattle.fp_ber.specs.Putting.{EndsWith};
ghost use Rattle.fp_ber.specs.Tree as tree;
ghost use Rattle.fp_ber.specs.Tree.{Tree};
ghost use Rattle.fp_ber.specs.Lent.{lent_trees};
ghost use Rattle.fp_q773.specs.Copied.{ComponentHasTags};
ghost use Rattle.fp_q773.specs.Room.{component_room};
ghost use Rattle.fp_q773.specs.Value as value;
ghost use Rattle.fp_q773.specs.Value.{CodeValue};
ghost use Rattle.fp_q773.specs.View.{code_of, tree_in, invoke_of};
ghost use Rattle.fp_q773.specs.Grammar.{IsLinked, IsAsked, IsInvoke};
ghost use Rattle.fp_q773.specs.Writable.{only};
ghost use Rattle.fp_q773.specs.Written.{asked_trees, component_tree, IsReadBack};

use crate::coded::{Code, Coded};
use crate::identifier::{identifier_of, linked_of, write_identifier, write_linked};
use crate::members::write_optional;
use fp_ber::{Class, ElementRef, Elements, Writer};
use std::alloc::AllocError;

/// The number of the context tag of an Invoke.
pub const INVOKE: u16 = 1;

/// An Invoke.
#[derive(Clone, Copy, Debug)]
pub struct Invoke<'a> {
    /// The invoke identifier. Results and errors refer to it.
    pub identifier: i8,
    /// The linked identifier: the invoke identifier of the operation that this one is part of.
    pub linked: Option<i8>,
    /// The operation.
    pub code: Code<'a>,
    /// The parameter of the operation.
    pub parameter: Option<ElementRef<'a>>,
}

/// A linked identifier, if there is one, and the elements after it.
#[derive(Clone, Copy)]
struct Linked<'a> {
    identifier: Option<i8>,
    rest: Elements<'a>,
}

/// Reads a linked identifier, if the first element is one.
fn linked_at<'a>(members: &Elements<'a>) -> Linked<'a>
    ensures some { IfSome result.identifier (λ identifier. (first : Tree)
        × (lent_trees members.now ≡ tree.more first (lent_trees result.rest)) × IsLinked first identifier) }
    ensures none { IfNone result.identifier ((lent_trees result.rest ≡ lent_trees members.now)
        × ((first : Tree) (rest : tree.Trees) (identifier : ℤ)
        → lent_trees members.now ≡ tree.more first rest → IsLinked first identifier → ⊥)) }
{
    let Some(split) = members.split_first() else {
        return Linked {
            identifier: None,
            rest: *members,
        };
    };
    let Some(identifier) = linked_of(&split.first) else {
        return Linked {
            identifier: None,
            rest: *members,
        };
    };
    Linked {
        identifier: Some(identifier),
        rest: split.rest,
    }
}

impl<'a> Invoke<'a> {
    /// Reads an Invoke from its contents.
    pub(crate) fn read(members: &Elements<'a>) -> Option<Invoke<'a>>
        ensures some { IfSome result (λ i. IsInvoke (lent_trees members.now) i.identifier i.linked
            (code_of i.code) (tree_in i.parameter)) }
        ensures none { IfNone result ((identifier : ℤ) (linked : Option ℤ) (code : CodeValue) (parameter : Option Tree)
            → IsInvoke (lent_trees members.now) identifier linked code parameter → ⊥) }
    {
        let Some(members) = members.split_first() else {
            return None;
        };
        let Some(identifier) = identifier_of(&members.first) else {
            return None;
        };
        let linked = linked_at(&members.rest);
        let Some(operation) = Coded::read(&linked.rest) else {
            return None;
        };
        Some(Invoke {
            identifier,
            linked: linked.identifier,
            code: operation.code,
            parameter: operation.parameter,
        })
    }

    /// Writes an Invoke.
    pub(crate) fn write(&self, out: &mut Writer) -> Result<(), AllocError>
        requires tags { ComponentHasTags (invoke_of self.now) }
        requires room { component_room (invoke_of self.now) < 2 ^ 32 }
        ensures exact { OnOk result (out.new ≡ canon (component_tree (invoke_of self.now)) ++ out.old) }
        ensures stays { EndsWith out.new out.old }
        ensures found { OnOk result (IsReadBack (invoke_of self.now)) }
    {
        let behind = out.len();
        write_optional(self.parameter, out)?;
        write_invoke(self.identifier, self.linked, self.code, behind, out)
    }
}

/// Writes a linked identifier, if there is one, and a code.
fn write_asked(linked: Option<i8>, code: Code<'_>, out: &mut Writer) -> Result<(), AllocError>
    ensures exact { OnOk result (out.new ≡ canon_of_all (asked_trees linked (code_of code.entry) None) ++ out.old) }
    ensures stays { EndsWith out.new out.old }
    ensures found { OnOk result ((parameter : Option Tree)
        → IsAsked (asked_trees linked (code_of code.entry) parameter) linked (code_of code.entry) parameter) }
{
    code.write(out)?;
    let Some(linked) = linked else {
        return Ok(());
    };
    write_linked(linked, out)
}

/// Completes an Invoke. You must first put the spelling of its parameter, if it has one; the last `behind` octets,
/// which were there before, lie after the Invoke. If memory runs out, the octets are unchanged.
pub fn write_invoke(
    identifier: i8,
    linked: Option<i8>,
    code: Code<'_>,
    behind: usize,
    out: &mut Writer,
) -> Result<(), AllocError>
    requires behind { behind ≤ length out.old }

    // The Invoke takes the place of its parameter, before the last `behind` octets.
    ensures exact { (parameter : Option Tree) (rest : List ℕ) → out.old ≡ canon_of_all (only parameter) ++ rest → length rest ≡ behind
        → OnOk result (out.new ≡ canon (component_tree (value.invoke identifier linked (code_of code.entry) parameter)) ++ rest) }
    ensures err { OnErr result (out.new ≡ out.old) }
    ensures stays { EndsWith out.new out.old }

    // The written octets are read as that Invoke.
    ensures found { OnOk result ((parameter : Option Tree) → IsReadBack (value.invoke identifier linked (code_of code.entry) parameter)) }
{
    let start = out.len();
    if write_asked(linked, code, out).is_err()
        || write_identifier(identifier, out).is_err()
        || out.put_constructed(Class::Context, INVOKE, behind).is_err()
    {
        out.keep_last(start);
        return Err(AllocError);
    }
    Ok(())
}
