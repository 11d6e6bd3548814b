//! The octets of a called party number.

ghost use Rattle.std.specs.Prelude.{◌≡◌, ◌+◌, ◌/◌, ◌<◌, ◌≤◌, [], ◌∷◌, ◌++◌, length};
ghost use Rattle.std.specs.List.{All};
ghost use Rattle.fp_digits.specs.Called.{octets_of_digits};

use fp_octets::Octets;
use std::marker::Model;

/// The contents octets of a called party number (ITU-T Q.763, 3.9), at most 10 of them. Contracts see them as a list,
/// and two are equal exactly if they have the same octets.
#[derive(Clone, Copy, Debug, PartialEq, Eq)]
pub struct CalledOctets {
    octets: Octets<10>,
}

impl Model for CalledOctets {
    ghost use Rattle.std.specs.Prelude.{ℕ, List};

    ghost Value = { List ℕ };

    ghost view = { λ called. called.octets };

    ghost inverse = { λ list. record { octets = list } };

    ghost inverse_ok = { λ called any i. record { octets = called.octets } };
}

impl CalledOctets {
    /// The most octets: two, and eight for 15 digits.
    pub const MOST: usize = 10;

    /// The octets, at most [`CalledOctets::MOST`] of them.
    pub fn as_slice(&self) -> &[u8]
        ensures value { result.now ≡ self.now }
        ensures most { length self.now ≤ Self.MOST }
    {
        self.octets.as_slice()
    }

    pub(crate) fn new() -> CalledOctets
        ensures { result ≡ [] }
    {
        CalledOctets {
            octets: Octets::new(),
        }
    }

    pub(crate) fn push(&mut self, octet: u8)
        requires { length self.old < Self.MOST }
        ensures { self.new ≡ self.old ++ octet ∷ [] }
    {
        self.octets.push(octet);
    }

    /// Appends digits, two in an octet, and 0 after the last one of an odd number.
    pub(crate) fn push_digits(&mut self, digits: &[u8])
        requires room { length self.old + (length digits.now + 1) / 2 ≤ Self.MOST }
        requires digits { All (λ digit. digit < 10) digits.now }
        ensures { self.new ≡ self.old ++ octets_of_digits digits.now }
    {
        let mut rest = digits;
        while let [first, second, others @ ..] = rest {
            self.push(first + 16 * second);
            rest = others;
        }
        if let [last] = rest {
            self.push(*last);
        }
    }
}
