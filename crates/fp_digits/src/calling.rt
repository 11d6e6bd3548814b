//! Calling party numbers (ITU-T Q.763, 3.10).

ghost use Rattle.std.specs.Prelude.{◌≡◌};
ghost use Rattle.std.specs.Result.{result_ok};
ghost use Rattle.fp_digits.specs.Number.{number_of};

use crate::number::read;
use crate::{NoNumber, Number};

/// The number in the contents octets of a calling party number (ITU-T Q.763, 3.10).
///
/// The second octet (numbering plan, presentation and screening) isn't checked. The error is [`NoNumber`].
#[inline(always)]
pub fn read_calling(octets: &[u8]) -> Result<Number, NoNumber>
    ensures { result_ok result ≡ number_of octets.now }
{
    read(octets)
}
