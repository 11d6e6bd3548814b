//! Connect: writing its argument.

ghost use Rattle.std.specs.Prelude.{◌≡◌, ◌++◌, ◌<◌, ◌≤◌, length, Some, OnOk, OnErr};
ghost use Rattle.std.specs.List.{All};
ghost use Rattle.fp_ber.specs.Canon.{canon, HasLengths};
ghost use Rattle.fp_ber.specs.Tree.{HasTags};
ghost use Rattle.fp_digits.specs.Called.{called_octets};
ghost use Rattle.fp_digits.specs.NatureOfAddress.{national};
ghost use Rattle.fp_digits.specs.Number.{number_of};
ghost use Rattle.fp_inap.specs.Connect.{connect};

use fp_ber::universal::{OCTET_STRING, SEQUENCE};
use fp_ber::{Class, Writer};
use fp_digits::write_called;
use std::alloc::AllocError;

/// The number of the context tag of destinationRoutingAddress.
const DESTINATION_ROUTING_ADDRESS: u16 = 0;

/// Puts the argument of Connect (after ITU-T Q.1218) before the octets in the writer. You must pass a destination of 1
/// to 15 digits, each 0 to 9.
///
/// The argument is a sequence with only destinationRoutingAddress, tag 0, and in it one called party number, as
/// [`write_called`] writes it. For example, 80012 gives `30 09 A0 07 04 05 83 10 08 10 02`. If memory runs out, the
/// octets are unchanged.
pub fn write_connect(destination: &[u8], out: &mut Writer) -> Result<(), AllocError>
    requires some { 1 ≤ length destination.now }
    requires most { length destination.now ≤ 15 }
    requires decimal { All (λ digit. digit < 10) destination.now }
    ensures ok { OnOk result (out.new ≡ canon (connect destination.now) ++ out.old) }
    ensures err { OnErr result (out.new ≡ out.old) }

    // The tags and lengths of the argument are in range, and it has at most 16 octets.
    ensures tags { HasTags (connect destination.now) }
    ensures lengths { HasLengths (connect destination.now) }
    ensures size { length (canon (connect destination.now)) ≤ 16 }

    // The number in the argument is read back as a national one with the same digits.
    ensures read_back { number_of (called_octets destination.now)
        ≡ Some (record { nature = national; digits = destination.now }) }
{
    let number = write_called(destination);
    let start = out.len();
    if out
        .put_primitive(Class::Universal, OCTET_STRING, number.as_slice())
        .is_err()
        || out
            .put_constructed(Class::Context, DESTINATION_ROUTING_ADDRESS, start)
            .is_err()
        || out
            .put_constructed(Class::Universal, SEQUENCE, start)
            .is_err()
    {
        out.keep_last(start);
        return Err(AllocError);
    }
    Ok(())
}
