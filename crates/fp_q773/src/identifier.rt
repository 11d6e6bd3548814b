//! Invoke identifiers (Q.773, 4.2.2): integers of one octet.

ghost use Rattle.std.specs.Prelude.{◌≡◌, ◌++◌, ℤ, MatchOption, OnOk, OnErr};
ghost use Rattle.fp_ber.specs.Canon.{canon};
ghost use Rattle.fp_ber.specs.Putting.{EndsWith};
ghost use Rattle.fp_ber.specs.Lent.{lent_tree};
ghost use Rattle.fp_q773.specs.Grammar.{IsIdentifier, IsLinked};
ghost use Rattle.fp_q773.specs.Written.{identifier_tree, linked_tree};

use fp_ber::universal::INTEGER;
use fp_ber::{Class, ElementRef, Writer, octet_of, signed_of};
use std::alloc::AllocError;

/// The number of the context tag of a linked identifier.
const LINKED: u16 = 0;

/// Reads an invoke identifier, -128 to 127.
pub fn identifier_of(element: &ElementRef<'_>) -> Option<i8>
    ensures { MatchOption result ((identifier : ℤ) → IsIdentifier (lent_tree element.now) identifier → ⊥)
        (IsIdentifier (lent_tree element.now)) }
{
    let Some(octets) = element.octets_with_tag(Class::Universal, INTEGER) else {
        return None;
    };
    let [octet] = octets else {
        return None;
    };
    Some(signed_of(*octet))
}

/// Writes an invoke identifier. If memory runs out, the octets are unchanged.
#[inline(always)]
pub fn write_identifier(identifier: i8, out: &mut Writer) -> Result<(), AllocError>
    ensures exact { OnOk result (out.new ≡ canon (identifier_tree identifier) ++ out.old) }
    ensures err { OnErr result (out.new ≡ out.old) }
    ensures stays { EndsWith out.new out.old }
    ensures found { IsIdentifier (identifier_tree identifier) identifier }
{
    out.put_primitive(Class::Universal, INTEGER, &[octet_of(identifier)])
}

/// Reads a linked identifier, -128 to 127.
pub fn linked_of(element: &ElementRef<'_>) -> Option<i8>
    ensures { MatchOption result ((identifier : ℤ) → IsLinked (lent_tree element.now) identifier → ⊥)
        (IsLinked (lent_tree element.now)) }
{
    let Some(octets) = element.octets_with_tag(Class::Context, LINKED) else {
        return None;
    };
    let [octet] = octets else {
        return None;
    };
    Some(signed_of(*octet))
}

/// Writes a linked identifier. If memory runs out, the octets are unchanged.
pub fn write_linked(identifier: i8, out: &mut Writer) -> Result<(), AllocError>
    ensures exact { OnOk result (out.new ≡ canon (linked_tree identifier) ++ out.old) }
    ensures err { OnErr result (out.new ≡ out.old) }
    ensures stays { EndsWith out.new out.old }
    ensures found { IsLinked (linked_tree identifier) identifier }
{
    out.put_primitive(Class::Context, LINKED, &[octet_of(identifier)])
}
