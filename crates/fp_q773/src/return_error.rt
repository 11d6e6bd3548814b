//! ReturnError (Q.773, 4.2.2): the failure of an operation.

ghost use Rattle.std.specs.Prelude.{◌≡◌, ◌<◌, ◌≤◌, ◌^◌, ◌++◌, ℕ, ℤ, List, Option, IfSome, IfNone, OnOk, OnErr, length};
ghost use Rattle.fp_ber.specs.Canon.{canon, canon_of_all};
ghost use Rattle.fp_ber.specs.Putting.{EndsWith};
ghost use Rattle.fp_ber.specs.Tree.{Tree};
ghost use Rattle.fp_ber.specs.Lent.{lent_trees};
ghost use Rattle.fp_q773.specs.Copied.{ComponentHasTags};
ghost use Rattle.fp_q773.specs.Room.{component_room};
ghost use Rattle.fp_q773.specs.Value as value;
ghost use Rattle.fp_q773.specs.Value.{CodeValue};
ghost use Rattle.fp_q773.specs.View.{code_of, return_error_of, tree_in};
ghost use Rattle.fp_q773.specs.Grammar.{IsReturnError};
ghost use Rattle.fp_q773.specs.Writable.{only};
ghost use Rattle.fp_q773.specs.Written.{component_tree, IsReadBack};

use crate::coded::{Code, Coded};
use crate::identifier::{identifier_of, write_identifier};
use crate::members::write_optional;
use fp_ber::{Class, ElementRef, Elements, Writer};
use std::alloc::AllocError;

/// The number of the context tag of a ReturnError.
pub const RETURN_ERROR: u16 = 3;

/// A ReturnError.
#[derive(Clone, Copy, Debug)]
pub struct ReturnError<'a> {
    /// The invoke identifier of the operation.
    pub identifier: i8,
    /// The error.
    pub code: Code<'a>,
    /// The parameter of the error.
    pub parameter: Option<ElementRef<'a>>,
}

impl<'a> ReturnError<'a> {
    /// Reads a ReturnError from its contents.
    pub(crate) fn read(members: &Elements<'a>) -> Option<ReturnError<'a>>
        ensures some { IfSome result (λ e. IsReturnError (lent_trees members.now) e.identifier
            (code_of e.code) (tree_in e.parameter)) }
        ensures none { IfNone result ((identifier : ℤ) (code : CodeValue) (parameter : Option Tree)
            → IsReturnError (lent_trees members.now) identifier code parameter → ⊥) }
    {
        let Some(members) = members.split_first() else {
            return None;
        };
        let Some(identifier) = identifier_of(&members.first) else {
            return None;
        };
        let Some(error) = Coded::read(&members.rest) else {
            return None;
        };
        Some(ReturnError {
            identifier,
            code: error.code,
            parameter: error.parameter,
        })
    }

    /// Writes a ReturnError.
    pub(crate) fn write(&self, out: &mut Writer) -> Result<(), AllocError>
        requires tags { ComponentHasTags (return_error_of self.now) }
        requires room { component_room (return_error_of self.now) < 2 ^ 32 }
        ensures exact { OnOk result (out.new ≡ canon (component_tree (return_error_of self.now)) ++ out.old) }
        ensures stays { EndsWith out.new out.old }
        ensures found { OnOk result (IsReadBack (return_error_of self.now)) }
    {
        let behind = out.len();
        write_optional(self.parameter, out)?;
        write_return_error(self.identifier, self.code, behind, out)
    }
}

/// Completes a ReturnError. You must first put the spelling of its parameter, if it has one; the last `behind` octets,
/// which were there before, lie after the ReturnError. If memory runs out, the octets are unchanged.
pub fn write_return_error(
    identifier: i8,
    code: Code<'_>,
    behind: usize,
    out: &mut Writer,
) -> Result<(), AllocError>
    requires behind { behind ≤ length out.old }

    // The ReturnError lies before the last octets.
    ensures exact { (parameter : Option Tree) (rest : List ℕ) → out.old ≡ canon_of_all (only parameter) ++ rest → length rest ≡ behind
        → OnOk result (out.new ≡ canon (component_tree (value.return_error identifier (code_of code.entry) parameter)) ++ rest) }
    ensures err { OnErr result (out.new ≡ out.old) }
    ensures stays { EndsWith out.new out.old }

    // The written octets are read as that ReturnError.
    ensures found { OnOk result ((parameter : Option Tree) → IsReadBack (value.return_error identifier (code_of code.entry) parameter)) }
{
    let start = out.len();
    if code.write(out).is_err()
        || write_identifier(identifier, out).is_err()
        || out
            .put_constructed(Class::Context, RETURN_ERROR, behind)
            .is_err()
    {
        out.keep_last(start);
        return Err(AllocError);
    }
    Ok(())
}
