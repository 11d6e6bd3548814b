//! Numbers, as called and calling party numbers have them.

ghost use Rattle.std.specs.Prelude.{◌≡◌, ℕ, ◌*◌, ◌%◌, List, ◌≤◌, length};
ghost use Rattle.std.specs.List.{flat_map};
ghost use Rattle.std.specs.Result.{result_ok};
ghost use Rattle.fp_digits.specs.Number.{halves, number_of};

use crate::{Digits, NatureOfAddress};
use thiserror::Error;

/// The number of a subscriber in a called or a calling party number (ITU-T Q.763, 3.9 and 3.10).
#[derive(Clone, Copy, Debug, PartialEq, Eq)]
pub struct Number {
    /// The nature of address, which says how to understand the digits.
    pub nature: NatureOfAddress,
    /// The address signals, the first one first.
    pub digits: Digits,
}

/// The octets hold no number. They are fewer than 2 or more than 18, or the first one marks an odd number of digits and
/// no digits follow.
#[derive(Clone, Copy, Debug, PartialEq, Eq, Error)]
#[error("no number")]
pub struct NoNumber;

/// The nature of address and the numbering plan, and two digits in each of 16 octets.
const MOST_OCTETS: usize = 18;

/// The number in a called or a calling party number; only the second octet differs between the two.
#[inline(always)]
#[tactic(auto, unfolding(crate::specs::Number::number_of))]
pub(crate) fn read(octets: &[u8]) -> Result<Number, NoNumber>
    ensures { result_ok result ≡ number_of octets.now }
{
    if octets.len() < 2 || octets.len() > MOST_OCTETS {
        return Err(NoNumber);
    }
    let is_odd = octets[0] >> 7 == 1;
    if is_odd && octets.len() == 2 {
        return Err(NoNumber);
    }
    let mut digits = digits_in(&octets[2..]);
    if is_odd {
        digits.drop_last();
    }
    Ok(Number {
        nature: nature_in(octets[0]),
        digits,
    })
}

/// The nature of address in the first octet, below the odd/even indicator.
fn nature_in(octet: u8) -> NatureOfAddress
    ensures { result ≡ octet % 128 }
{
    NatureOfAddress::new(octet & 0x7f)
}

/// The digits of these octets, two in each.
#[inline(always)]
fn digits_in(octets: &[u8]) -> Digits
    requires { length octets.now ≤ 16 }
    ensures digits { result ≡ flat_map halves octets.now }
    ensures count { length result ≡ 2 * length octets.now }
{
    let mut digits = Digits::new();
    for octet in octets {
        digits.push(octet & 0x0f);
        digits.push(octet >> 4);
    }
    digits
}
