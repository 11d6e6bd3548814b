//! Transaction identifiers in a message (Q.773, 4.2.1.3).

ghost use Rattle.std.specs.Prelude.{◌≡◌, ◌++◌, ℕ, List, IfSome, IfNone, OnOk, OnErr};
ghost use Rattle.fp_ber.specs.Canon.{canon};
ghost use Rattle.fp_ber.specs.Putting.{EndsWith};
ghost use Rattle.fp_ber.specs.declared.element.Class.TheVariants as classes;
ghost use Rattle.fp_ber.specs.Tree as tree;
ghost use Rattle.fp_ber.specs.Tree.{IsTagNumber};
ghost use Rattle.fp_ber.specs.Lent.{lent_trees};
ghost use Rattle.fp_q773.specs.Tid.{octets_of, IsTid};
ghost use Rattle.fp_q773.specs.Grammar.{IsTransaction};

use crate::tid::Tid;
use fp_ber::{Class, Elements, Writer};
use std::alloc::AllocError;

/// The number of the application tag of an originating transaction identifier.
pub const ORIGINATING: u16 = 8;
/// The number of the application tag of a destination transaction identifier.
pub const DESTINATION: u16 = 9;

/// A transaction identifier, and the elements after it.
#[derive(Clone, Copy)]
pub struct Transaction<'a> {
    pub identifier: Tid,
    pub rest: Elements<'a>,
}

/// Reads the transaction identifier with this tag number, which must be the first element.
pub fn transaction_at<'a>(members: &Elements<'a>, number: u16) -> Option<Transaction<'a>>
    ensures some { IfSome result (λ t. IsTransaction (lent_trees members.now) number (octets_of t.identifier) (lent_trees t.rest)) }
    ensures none { IfNone result ((octets : List ℕ) (rest : tree.Trees)
        → IsTransaction (lent_trees members.now) number octets rest → ⊥) }
{
    let Some(split) = members.split_first() else {
        return None;
    };
    let Some(octets) = split.first.octets_with_tag(Class::Application, number) else {
        return None;
    };
    let Some(identifier) = Tid::new(octets) else {
        return None;
    };
    Some(Transaction {
        identifier,
        rest: split.rest,
    })
}

/// Writes a transaction identifier with this tag number, which must be in range. If memory runs out, the octets are
/// unchanged.
#[inline(always)]
pub fn write_transaction(identifier: Tid, number: u16, out: &mut Writer) -> Result<(), AllocError>
    requires { IsTagNumber classes.Application number }
    ensures exact { OnOk result (out.new ≡ canon (tree.primitive classes.Application number (octets_of identifier)) ++ out.old) }
    ensures err { OnErr result (out.new ≡ out.old) }
    ensures stays { EndsWith out.new out.old }
    ensures size { IsTid (octets_of identifier) }
{
    out.put_primitive(Class::Application, number, identifier.as_slice())
}
