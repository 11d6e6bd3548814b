//! ReturnResultLast and ReturnResultNotLast (Q.773, 4.2.2): the result of an operation, or a part of it.

ghost use Rattle.std.specs.Prelude.{◌≡◌, ◌<◌, ◌^◌, ◌++◌, ℤ, Option, Some, IfSome, IfNone, OnOk, option_map};
ghost use Rattle.fp_ber.specs.Canon.{canon_of_all};
ghost use Rattle.fp_ber.specs.Putting.{EndsWith};
ghost use Rattle.fp_ber.specs.declared.element.Class.TheVariants as classes;
ghost use Rattle.fp_ber.specs.Tree as tree;
ghost use Rattle.fp_ber.specs.Lent.{lent_tree, lent_trees};
ghost use Rattle.fp_q773.specs.Copied.{ResultHasTags};
ghost use Rattle.fp_q773.specs.Room.{result_room};
ghost use Rattle.fp_q773.specs.Value.{ResultValue};
ghost use Rattle.fp_q773.specs.View.{result_of};
ghost use Rattle.fp_q773.specs.Grammar.{IsReturned, IsReturnResult};
ghost use Rattle.fp_q773.specs.Written.{returned_trees, return_result_trees};

use crate::coded::Coded;
use crate::identifier::{identifier_of, write_identifier};
use fp_ber::universal::SEQUENCE;
use fp_ber::{Class, ElementRef, Elements, Writer};
use std::alloc::AllocError;

/// A ReturnResult.
#[derive(Clone, Copy, Debug)]
pub struct ReturnResult<'a> {
    /// The invoke identifier of the operation.
    pub identifier: i8,
    /// The operation and its result.
    pub result: Option<Coded<'a>>,
}

/// Reads a sequence of an operation and its result, if there is one.
fn returned_in<'a>(sequence: &ElementRef<'a>) -> Option<Coded<'a>>
    ensures some { IfSome result (λ c. (members : tree.Trees)
        × (lent_tree sequence.now ≡ tree.constructed classes.Universal 16 members)
        × IsReturned (tree.more (lent_tree sequence.now) tree.none) (Some (result_of c))) }
    ensures none { IfNone result ((value : ResultValue)
        → IsReturned (tree.more (lent_tree sequence.now) tree.none) (Some value) → ⊥) }
{
    let Some(members) = sequence.children_with_tag(Class::Universal, SEQUENCE) else {
        return None;
    };
    Coded::read(&members)
}

impl<'a> ReturnResult<'a> {
    /// Reads a ReturnResult from its contents.
    pub(crate) fn read(members: &Elements<'a>) -> Option<ReturnResult<'a>>
        ensures some { IfSome result (λ r. IsReturnResult (lent_trees members.now) r.identifier (option_map result_of r.result)) }
        ensures none { IfNone result ((identifier : ℤ) (value : Option ResultValue)
            → IsReturnResult (lent_trees members.now) identifier value → ⊥) }
    {
        let Some(members) = members.split_first() else {
            return None;
        };
        let Some(identifier) = identifier_of(&members.first) else {
            return None;
        };
        let Some(last) = members.rest.split_first() else {
            return Some(ReturnResult {
                identifier,
                result: None,
            });
        };
        if !last.rest.is_empty() {
            return None;
        }
        let Some(returned) = returned_in(&last.first) else {
            return None;
        };
        Some(ReturnResult {
            identifier,
            result: Some(returned),
        })
    }

    /// Writes the operation and its result, if there are any.
    fn write_returned(&self, out: &mut Writer) -> Result<(), AllocError>
        requires tags { ResultHasTags (option_map result_of self.now.result) }
        requires room { result_room (option_map result_of self.now.result) < 2 ^ 32 }
        ensures exact { OnOk result (out.new
            ≡ canon_of_all (returned_trees (option_map result_of self.now.result)) ++ out.old) }
        ensures stays { EndsWith out.new out.old }
        ensures found { OnOk result (IsReturned (returned_trees (option_map result_of self.now.result))
            (option_map result_of self.now.result)) }
    {
        let Some(returned) = self.result else {
            return Ok(());
        };
        let behind = out.len();
        returned.write(out)?;
        out.put_constructed(Class::Universal, SEQUENCE, behind)
    }

    /// Writes the contents of a ReturnResult.
    pub(crate) fn write(&self, out: &mut Writer) -> Result<(), AllocError>
        requires tags { ResultHasTags (option_map result_of self.now.result) }
        requires room { result_room (option_map result_of self.now.result) < 2 ^ 32 }
        ensures exact { OnOk result (out.new
            ≡ canon_of_all (return_result_trees self.now.identifier (option_map result_of self.now.result)) ++ out.old) }
        ensures stays { EndsWith out.new out.old }
        ensures found { OnOk result (IsReturnResult
            (return_result_trees self.now.identifier (option_map result_of self.now.result))
            self.now.identifier (option_map result_of self.now.result)) }
    {
        self.write_returned(out)?;
        write_identifier(self.identifier, out)
    }
}
