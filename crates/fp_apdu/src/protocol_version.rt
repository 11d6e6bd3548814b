//! The protocol version within AARQ and AARE (Q.773, 4.2.3).

ghost use Rattle.std.specs.Prelude.{◌≡◌, ◌++◌, ℕ, List, MatchOption, OnOk};
ghost use Rattle.fp_ber.specs.Canon.{canon};
ghost use Rattle.fp_ber.specs.Putting.{EndsWith};
ghost use Rattle.fp_ber.specs.Lent.{lent_tree};
ghost use Rattle.fp_apdu.specs.ProtocolVersion.{protocol_version, version_1};

use fp_ber::{Class, ElementRef, Writer};
use std::alloc::AllocError;

/// The number of the context tag of a protocol version.
const PROTOCOL_VERSION: u16 = 0;

/// The bit string of version 1 alone: seven unused bits, and one bit.
const VERSION_1: [u8; 2] = [7, 0x80];

/// Reads the contents octets of a protocol version.
pub(crate) fn read<'a>(element: &ElementRef<'a>) -> Option<&'a [u8]>
    ensures { MatchOption result ((octets : List ℕ) → lent_tree element.now ≡ protocol_version octets → ⊥)
        (λ octets. lent_tree element.now ≡ protocol_version octets.now) }
{
    element.octets_with_tag(Class::Context, PROTOCOL_VERSION)
}

/// Puts the protocol version of version 1 alone before the octets in the writer.
pub(crate) fn write(out: &mut Writer) -> Result<(), AllocError>
    ensures ok { OnOk result (out.new ≡ canon (protocol_version version_1) ++ out.old) }
    ensures stays { EndsWith out.new out.old }
{
    out.put_primitive(Class::Context, PROTOCOL_VERSION, &VERSION_1)
}
