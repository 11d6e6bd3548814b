//! Transaction identifiers (Q.773, 4.2.1.3).

ghost use Rattle.std.specs.Prelude.{◌≡◌, ◌↔◌, length, IsSome, IfSome, MatchOption};
ghost use Rattle.fp_q773.specs.Tid.{octets_of, octets_of_number, IsTid};

use fp_octets::Octets;
use std::marker::Model;

/// A transaction identifier: one to four octets, kept as received. Contracts see it as their list, and two are equal
/// exactly if they have the same octets. For example, 07 and 00 07 are different identifiers.
#[derive(Clone, Copy, Debug, PartialEq, Eq)]
pub struct Tid {
    octets: Octets<4>,
}

impl Model for Tid {
    ghost use Rattle.std.specs.Prelude.{ℕ, ◌≤◌, List, length};

    ghost Value = { List ℕ };

    ghost view = { λ tid. tid.octets };

    ghost invariant = { λ tid. 1 ≤ length tid.octets };

    ghost inverse = { λ list. record { octets = list } };

    ghost inverse_ok = { λ tid some i. record { octets = tid.octets } };
}

impl Tid {
    /// The identifier of these octets; `None` if there are none or more than four.
    pub fn new(octets: &[u8]) -> Option<Tid>
        ensures { MatchOption result (¬ IsTid octets.now) (λ tid. octets_of tid ≡ octets.now) }
    {
        if octets.is_empty() {
            return None;
        }
        let Some(octets) = Octets::from_slice(octets) else {
            return None;
        };
        Some(Tid { octets })
    }

    /// The identifier of a number: four octets, the most significant one first.
    pub fn of_number(number: u32) -> Tid
        ensures { octets_of result ≡ octets_of_number number }
    {
        let mut octets = Octets::new();
        octets.extend(&number.to_be_bytes());
        Tid { octets }
    }

    /// The number of this identifier; `None` for fewer than four octets.
    pub fn number(&self) -> Option<u32>
        ensures value { IfSome result (λ number. octets_of self.now ≡ octets_of_number number) }
        ensures four { IsSome result ↔ (length (octets_of self.now) ≡ 4) }
    {
        let [a, b, c, d] = self.as_slice() else {
            return None;
        };
        Some(u32::from_be_bytes([*a, *b, *c, *d]))
    }

    /// The octets, one to four.
    pub fn as_slice(&self) -> &[u8]
        ensures value { result.now ≡ octets_of self.now }
        ensures size { IsTid (octets_of self.now) }
    {
        self.octets.as_slice()
    }
}
