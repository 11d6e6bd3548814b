//! The digits of numbers, as keys.

ghost use Rattle.std.specs.Prelude.{◌≡◌, ◌<◌, ◌≤◌, length, nat_eq, refl};
ghost use Rattle.std.specs.Cmp.{partial_equiv_from_equiv, partial_order_from_agreeing_total};
ghost use Rattle.std.specs.Cmp.Lexicographic.{pointwise, nat_list_cmp_total, nat_list_eq_equiv, slice_cmp, texts_ties};
ghost use Rattle.std.specs.List.{All};
ghost use Rattle.std.specs.Ordering.{as_partial_cmp, nat_cmp};
ghost use Rattle.fp_records.specs.Code.{AreDigits, code_of};

use crate::decimal_digits::DecimalDigits;
use std::cmp::Ordering;
use std::marker::Model;

/// The value of the highest place of a code.
const FIRST_PLACE: u64 = 1 << 56;

/// The value of the lowest bit of the higher half of a code.
const HALF: u64 = 1 << 32;

/// At most 15 decimal digits in eight octets, which compare as one machine word each. Contracts see them as a list.
/// They are ordered as [`DecimalDigits`] are.
#[derive(Clone, Copy, Debug)]
pub struct NumberKey {
    // Four bits for each of 15 places: the digit plus one, the first digit in the highest place, and 0 after the last
    // one. For example, 12 is 2 and 3 in the two highest places. There are two halves, so that a rule with destinations
    // has no padding.
    low: u32,
    high: u32,
}

impl Model for NumberKey {
    ghost use Rattle.std.specs.Prelude.{ℕ, List, ◌/◌, ◌%◌};
    ghost use Rattle.fp_records.specs.Code.{IsHalved, code_of, digits_of_code, high-again, low-again, whole};

    ghost Value = { List ℕ };

    ghost view = { λ key. digits_of_code 15 (whole key.high key.low) };

    ghost invariant = { λ key. IsHalved key.high key.low };

    ghost inverse = { λ digits. record { low = code_of 15 digits % 4294967296; high = code_of 15 digits / 4294967296 } };

    ghost inverse_ok = { λ key is i. record { low = low-again key.high key.low is i; high = high-again key.high key.low is i } };
}

/// Two keys are equal exactly if they have the same digits.
impl PartialEq for NumberKey {
    ghost eq = { λ a b. pointwise nat_eq a b };

    ghost laws = { partial_equiv_from_equiv nat_list_eq_equiv };

    fn eq(&self, other: &Self) -> bool {
        self.cmp(other).is_eq()
    }
}

impl Eq for NumberKey {
    ghost laws = { nat_list_eq_equiv };
}

impl PartialOrd for NumberKey {
    ghost partial_cmp = { as_partial_cmp (slice_cmp nat_cmp) };

    ghost laws = { partial_order_from_agreeing_total (slice_cmp nat_cmp) nat_list_cmp_total (λ x y. refl) texts_ties };

    fn partial_cmp(&self, other: &Self) -> Option<Ordering> {
        Some(self.cmp(other))
    }
}

/// The first digits that differ decide. If one list of digits begins the other, the shorter is the less.
impl Ord for NumberKey {
    ghost cmp = { slice_cmp nat_cmp };

    ghost total = { nat_list_cmp_total };

    ghost matches_partial_cmp = { λ x y. refl };

    ghost matches_eq = { texts_ties };

    fn cmp(&self, other: &Self) -> Ordering {
        order_of(self.code(), other.code())
    }
}

/// The order of two numbers. "Greater" is tested first, since a search through the keys of a map mostly asks only for
/// that.
#[inline(always)]
fn order_of(one: u64, other: u64) -> Ordering
    ensures { result ≡ nat_cmp one other }
{
    if one > other {
        Ordering::Greater
    } else if one == other {
        Ordering::Equal
    } else {
        Ordering::Less
    }
}

/// The code of these digits.
fn code_in(digits: &[u8]) -> u64
    requires few { length digits.now ≤ 15 }
    requires decimal { All (λ digit. digit < 10) digits.now }
    ensures { result ≡ code_of 15 digits.now }
{
    let mut place: u64 = 1 << 60;
    let mut code = 0;
    for digit in digits {
        place /= 16;
        code += (u64::from(*digit) + 1) * place;
    }
    code
}

impl NumberKey {
    /// The key of these digits.
    pub(crate) fn new(number: &DecimalDigits) -> NumberKey
        ensures { result ≡ number.now }
    {
        let code = code_in(number.as_slice());
        NumberKey {
            low: (code % HALF) as u32,
            high: (code / HALF) as u32,
        }
    }

    /// The code of the digits.
    fn code(self) -> u64
        ensures value { result ≡ code_of 15 self }
        ensures digits { AreDigits 15 self }
    {
        HALF * u64::from(self.high) + u64::from(self.low)
    }

    /// The digits, each in an octet of its own.
    pub(crate) fn digits(self) -> DecimalDigits
        ensures { result ≡ self }
    {
        let mut digits = DecimalDigits::none();
        let mut rest = self.code();
        while rest / FIRST_PLACE != 0 {
            digits.push((rest / FIRST_PLACE - 1) as u8);
            rest = 16 * (rest % FIRST_PLACE);
        }
        digits
    }
}
