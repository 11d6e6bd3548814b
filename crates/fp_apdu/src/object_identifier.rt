//! Object identifiers (X.690, 8.19). Their octets aren't checked.

ghost use Rattle.std.specs.Prelude.{◌≡◌, ◌++◌, List, ℕ, MatchOption, OnOk};
ghost use Rattle.fp_ber.specs.Canon.{canon};
ghost use Rattle.fp_ber.specs.Putting.{EndsWith};
ghost use Rattle.fp_ber.specs.Lent.{lent_tree};
ghost use Rattle.fp_apdu.specs.ObjectIdentifier.{object_identifier};

use fp_ber::universal::OBJECT_IDENTIFIER;
use fp_ber::{Class, ElementRef, Writer};
use std::alloc::AllocError;

/// Reads the octets of an object identifier.
pub(crate) fn read<'a>(element: &ElementRef<'a>) -> Option<&'a [u8]>
    ensures { MatchOption result ((octets : List ℕ) → lent_tree element.now ≡ object_identifier octets → ⊥)
        (λ octets. lent_tree element.now ≡ object_identifier octets.now) }
{
    element.octets_with_tag(Class::Universal, OBJECT_IDENTIFIER)
}

/// Puts the object identifier with these octets before the others.
pub(crate) fn write(octets: &[u8], out: &mut Writer) -> Result<(), AllocError>
    ensures ok { OnOk result (out.new ≡ canon (object_identifier octets.now) ++ out.old) }
    ensures stays { EndsWith out.new out.old }
{
    out.put_primitive(Class::Universal, OBJECT_IDENTIFIER, octets)
}
