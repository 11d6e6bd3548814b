//! Digits.

ghost use Rattle.std.specs.Prelude.{◌≡◌, ◌-◌, ◌<◌, ◌≤◌, ◌↔◌, IsTrue, [], ◌∷◌, ◌++◌, length, take};
ghost use Rattle.std.specs.List.{All};

use fp_octets::Octets;
use std::marker::Model;

/// At most 32 digits, each 0 to 15, in the order of dialling (ITU-T Q.763, 3.9 e: 0 to 9 are the decimal digits, 11 and
/// 12 the codes 11 and 12, 15 the end of the number). Contracts see them as a list, and two are equal exactly if they
/// have the same digits.
#[derive(Clone, Copy, Debug, PartialEq, Eq)]
pub struct Digits {
    octets: Octets<32>,
}

impl Model for Digits {
    ghost use Rattle.std.specs.Prelude.{ℕ, ◌<◌, List};
    ghost use Rattle.std.specs.List.{All};

    ghost Value = { List ℕ };

    ghost view = { λ digits. digits.octets };

    ghost invariant = { λ digits. All (λ digit. digit < 16) digits.octets };

    ghost inverse = { λ list. record { octets = list } };

    ghost inverse_ok = { λ digits all i. record { octets = digits.octets } };
}

impl Digits {
    /// The most digits: two in each of the 16 octets of the longest number.
    pub const MOST: usize = 32;

    /// No digits.
    pub fn new() -> Digits
        ensures { result ≡ [] }
    {
        Digits {
            octets: Octets::new(),
        }
    }

    /// The number of digits.
    pub fn len(&self) -> usize
        ensures { result ≡ length self.now }
    {
        self.octets.len()
    }

    /// Whether there are no digits.
    pub fn is_empty(&self) -> bool
        ensures { IsTrue result ↔ (self.now ≡ []) }
    {
        self.octets.is_empty()
    }

    /// The digits, each 0 to 15, at most [`Digits::MOST`] of them.
    pub fn as_slice(&self) -> &[u8]
        ensures value { result.now ≡ self.now }
        ensures most { length self.now ≤ Self.MOST }
        ensures digits { All (λ digit. digit < 16) self.now }
    {
        self.octets.as_slice()
    }

    /// Appends a digit, 0 to 15. You must leave room for it.
    pub fn push(&mut self, digit: u8)
        requires room { length self.old < Self.MOST }
        requires digit { digit < 16 }
        ensures { self.new ≡ self.old ++ digit ∷ [] }
    {
        self.octets.push(digit);
    }

    /// Removes the last digit. There must be one.
    pub fn drop_last(&mut self)
        requires { 0 < length self.old }
        ensures { self.new ≡ take (length self.old - 1) self.old }
    {
        self.octets.drop_last();
    }
}
