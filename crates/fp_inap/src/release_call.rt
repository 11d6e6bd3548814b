//! ReleaseCall: writing its argument.

ghost use Rattle.std.specs.Prelude.{◌≡◌, ◌++◌, length, OnOk, OnErr};
ghost use Rattle.fp_ber.specs.Canon.{canon, HasLengths};
ghost use Rattle.fp_ber.specs.Tree.{HasTags};
ghost use Rattle.fp_inap.specs.ReleaseCall.{release_call};

use fp_ber::universal::OCTET_STRING;
use fp_ber::{Class, Writer};
use fp_digits::{Cause, cause};
use std::alloc::AllocError;

/// Puts the argument of ReleaseCall (after ITU-T Q.1218) with this cause before the octets in the writer: an octet
/// string with the octets of Q.763, 3.12. For example, user busy is `04 02 82 91`. If memory runs out, the octets are
/// unchanged.
pub fn write_release(value: Cause, out: &mut Writer) -> Result<(), AllocError>
    ensures ok { OnOk result (out.new ≡ canon (release_call value) ++ out.old) }
    ensures err { OnErr result (out.new ≡ out.old) }

    // The tags and lengths of the argument are in range, and it has four octets.
    ensures tags { HasTags (release_call value) }
    ensures lengths { HasLengths (release_call value) }
    ensures size { length (canon (release_call value)) ≡ 4 }
{
    out.put_primitive(Class::Universal, OCTET_STRING, &cause(value.code()))
}
