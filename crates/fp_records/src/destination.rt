//! The digits of a destination.

ghost use Rattle.std.specs.Prelude.{◌≡◌, ◌≤◌, length};
ghost use Rattle.fp_records.specs.Digits.{some_digits_of};

use crate::decimal_digits::DecimalDigits;
use crate::number_key::NumberKey;
use std::marker::Model;

/// The 1 to 15 decimal digits of a destination, in eight octets. Contracts see them as a list.
#[derive(Clone, Copy, Debug, PartialEq, Eq)]
pub struct Destination {
    key: NumberKey,
}

impl Model for Destination {
    ghost use Rattle.std.specs.Prelude.{ℕ, ◌<◌, List, length};

    ghost Value = { List ℕ };

    ghost view = { λ destination. destination.key };

    ghost invariant = { λ destination. 0 < length destination.key };

    ghost inverse = { λ list. record { key = list } };
}

impl Destination {
    /// The digits, at least one.
    pub fn digits(self) -> DecimalDigits
        ensures value { result ≡ self }
        ensures some { 1 ≤ length self }
    {
        self.key.digits()
    }

    /// The destination in a text of 1 to 15 decimal digits; `None` for other texts.
    pub(crate) fn from_text(text: &[u8]) -> Option<Destination>
        ensures { result ≡ some_digits_of text.now }
    {
        let Some(digits) = DecimalDigits::some_from_text(text) else {
            return None;
        };
        Some(Destination {
            key: NumberKey::new(&digits),
        })
    }
}
