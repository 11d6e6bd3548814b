//! Called party numbers (ITU-T Q.763, 3.9).

ghost use Rattle.std.specs.Prelude.{◌≡◌, ℕ, ◌+◌, ◌/◌, ◌<◌, ◌≤◌, length, Some};
ghost use Rattle.std.specs.List.{All};
ghost use Rattle.std.specs.Result.{result_ok};
ghost use Rattle.fp_digits.specs.Called.{called_octets};
ghost use Rattle.fp_digits.specs.NatureOfAddress.{national};
ghost use Rattle.fp_digits.specs.Number.{number_of};

use crate::number::read;
use crate::{CalledOctets, NatureOfAddress, NoNumber, Number};

/// The number in the contents octets of a called party number (ITU-T Q.763, 3.9). For example, `83 10 08 10 02` is the
/// national number 80012.
///
/// The second octet (internal network number indicator and numbering plan) isn't checked. The error is [`NoNumber`].
#[inline(always)]
pub fn read_called(octets: &[u8]) -> Result<Number, NoNumber>
    ensures { result_ok result ≡ number_of octets.now }
{
    read(octets)
}

/// Routing to an internal network number is allowed, and the numbering plan is E.164.
const PLAN: u8 = 0x10;

/// The contents octets of a called party number (ITU-T Q.763, 3.9) with these digits. You must pass 1 to 15 digits,
/// each 0 to 9.
///
/// The nature of address is national, the numbering plan is E.164, routing to an internal network number is allowed,
/// and the filler after an odd number of digits is 0. [`read_called`] gives the same digits.
#[tactic(auto, using(crate::proofs::ReadBack::reads_back), unfolding(crate::specs::Called::called_octets))]
pub fn write_called(digits: &[u8]) -> CalledOctets
    requires some { 1 ≤ length digits.now }
    requires most { length digits.now ≤ 15 }
    requires decimal { All (λ digit. digit < 10) digits.now }
    ensures octets { result ≡ called_octets digits.now }
    ensures read_back { number_of result ≡ Some (record { nature = national; digits = digits.now }) }
    ensures count { length result ≡ 2 + (length digits.now + 1) / 2 }
{
    let odd_indicator = 0x80 * (digits.len() % 2) as u8;
    let mut octets = CalledOctets::new();
    octets.push(odd_indicator + NatureOfAddress::NATIONAL.code());
    octets.push(PLAN);
    octets.push_digits(digits);
    octets
}
