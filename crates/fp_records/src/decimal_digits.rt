//! Decimal digits, for example of a number or a prefix.

ghost use Rattle.std.specs.Prelude.{◌≡◌, ◌<◌, ◌≤◌, ◌↔◌, IsTrue, [], ◌∷◌, ◌++◌, length};
ghost use Rattle.std.specs.List.{All};
ghost use Rattle.fp_records.specs.Digits.{decimal_of, digits_of, some_digits_of};

use fp_octets::Octets;
use std::marker::Model;

/// At most 15 decimal digits, each a value from 0 to 9, the first one first. Contracts see them as a list. Two lists
/// are equal exactly if they have the same digits. In their order the first digits that differ decide; if one list
/// begins the other, the shorter is the less.
#[derive(Clone, Copy, Debug, PartialEq, Eq, PartialOrd, Ord)]
pub struct DecimalDigits {
    digits: Octets<15>,
}

impl Model for DecimalDigits {
    ghost use Rattle.std.specs.Prelude.{ℕ, ◌<◌, List};
    ghost use Rattle.std.specs.List.{All};

    ghost Value = { List ℕ };

    ghost view = { λ decimal. decimal.digits };

    ghost invariant = { λ decimal. All (λ digit. digit < 10) decimal.digits };

    ghost inverse = { λ list. record { digits = list } };

    ghost inverse_ok = { λ decimal all i. record { digits = decimal.digits } };
}

impl DecimalDigits {
    /// The most digits.
    pub const MOST: usize = 15;

    /// The number of digits.
    pub fn len(&self) -> usize
        ensures value { result ≡ length self.now }
        ensures most { result ≤ Self.MOST }
    {
        self.digits.len()
    }

    /// Whether there are no digits.
    pub fn is_empty(&self) -> bool
        ensures { IsTrue result ↔ (self.now ≡ []) }
    {
        self.digits.is_empty()
    }

    /// The digits, each 0 to 9, at most [`DecimalDigits::MOST`] of them.
    pub fn as_slice(&self) -> &[u8]
        ensures value { result.now ≡ self.now }
        ensures most { length self.now ≤ Self.MOST }
        ensures decimal { All (λ digit. digit < 10) self.now }
    {
        self.digits.as_slice()
    }

    /// No digits.
    pub(crate) fn none() -> DecimalDigits
        ensures { result ≡ [] }
    {
        DecimalDigits {
            digits: Octets::new(),
        }
    }

    /// The digits in a text of at most 15 decimal digits; `None` for other texts.
    pub(crate) fn from_text(text: &[u8]) -> Option<DecimalDigits>
        ensures { result ≡ digits_of text.now }
    {
        if text.len() > Self::MOST {
            return None;
        }
        let mut digits = DecimalDigits::none();
        for octet in text {
            if !octet.is_ascii_digit() {
                return None;
            }
            digits.push(*octet - b'0');
        }
        Some(digits)
    }

    /// The digits of this list, if they are at most 15 and each is 0 to 9.
    pub(crate) fn from_digits(digits: &[u8]) -> Option<DecimalDigits>
        ensures { result ≡ decimal_of digits.now }
    {
        if digits.len() > Self::MOST {
            return None;
        }
        let mut decimal = DecimalDigits::none();
        for digit in digits {
            if *digit >= 10 {
                return None;
            }
            decimal.push(*digit);
        }
        Some(decimal)
    }

    /// Appends a digit. You must leave room for it.
    pub(crate) fn push(&mut self, digit: u8)
        requires room { length self.old < Self.MOST }
        requires digit { digit < 10 }
        ensures { self.new ≡ self.old ++ digit ∷ [] }
    {
        self.digits.push(digit);
    }

    /// The digits in a text of 1 to 15 decimal digits; `None` for other texts.
    pub(crate) fn some_from_text(text: &[u8]) -> Option<DecimalDigits>
        ensures { result ≡ some_digits_of text.now }
    {
        if text.is_empty() {
            None
        } else {
            DecimalDigits::from_text(text)
        }
    }
}
