//! Application context names.

ghost use Rattle.std.specs.Prelude.{◌≡◌, MatchOption};
ghost use Rattle.fp_apdu.specs.Name.{IsName};

use fp_octets::Octets;
use std::marker::Model;

/// An application context name (Q.773, 4.2.3): 1 to 64 octets, the contents of an object identifier, kept as received.
/// They needn't follow X.690, 8.19. Contracts see it as their list, and two are equal exactly if they have the same
/// octets.
#[derive(Clone, Copy, Debug, PartialEq, Eq)]
pub struct Name {
    octets: Octets<64>,
}

impl Model for Name {
    ghost use Rattle.std.specs.Prelude.{ℕ, ◌≤◌, List, length};

    ghost Value = { List ℕ };

    ghost view = { λ name. name.octets };

    ghost invariant = { λ name. 1 ≤ length name.octets };

    ghost inverse = { λ list. record { octets = list } };

    ghost inverse_ok = { λ name some i. record { octets = name.octets } };
}

impl Name {
    /// The most octets of a name.
    pub const MOST: usize = 64;

    /// The name of these octets; `None` if there are none or more than [`Name::MOST`].
    pub fn new(octets: &[u8]) -> Option<Name>
        ensures { MatchOption result (¬ IsName octets.now) (λ name. name ≡ octets.now) }
    {
        if octets.is_empty() {
            return None;
        }
        let Some(octets) = Octets::from_slice(octets) else {
            return None;
        };
        Some(Name { octets })
    }

    /// The octets, 1 to 64 of them.
    pub fn as_slice(&self) -> &[u8]
        ensures value { result.now ≡ self.now }
        ensures size { IsName self.now }
    {
        self.octets.as_slice()
    }
}
