//! The application context name within AARQ and AARE (Q.773, 4.2.3).

ghost use Rattle.std.specs.Prelude.{◌≡◌, ◌++◌, ℕ, List, MatchOption, OnOk};
ghost use Rattle.fp_ber.specs.Canon.{canon};
ghost use Rattle.fp_ber.specs.Putting.{EndsWith};
ghost use Rattle.fp_ber.specs.Lent.{lent_tree};
ghost use Rattle.fp_apdu.specs.Name.{IsName, application_context_name};

use crate::members::only_in;
use crate::{Name, object_identifier};
use fp_ber::{Class, ElementRef, Writer};
use std::alloc::AllocError;

/// The number of the context tag of an application context name.
const APPLICATION_CONTEXT_NAME: u16 = 1;

/// Reads an application context name.
pub(crate) fn read(element: &ElementRef<'_>) -> Option<Name>
    ensures { MatchOption result ((name : List ℕ) → IsName name → lent_tree element.now ≡ application_context_name name → ⊥)
        (λ name. (lent_tree element.now ≡ application_context_name name) × IsName name) }
{
    let identifier = only_in(element, Class::Context, APPLICATION_CONTEXT_NAME)?;
    let octets = object_identifier::read(&identifier)?;
    Name::new(octets)
}

/// Puts the application context name with these octets before the others.
pub(crate) fn write(name: &[u8], out: &mut Writer) -> Result<(), AllocError>
    ensures ok { OnOk result (out.new ≡ canon (application_context_name name.now) ++ out.old) }
    ensures stays { EndsWith out.new out.old }
{
    let behind = out.len();
    object_identifier::write(name, out)?;
    out.put_constructed(Class::Context, APPLICATION_CONTEXT_NAME, behind)
}
