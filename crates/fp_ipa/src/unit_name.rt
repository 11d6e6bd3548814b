//! Unit names.

ghost use Rattle.std.specs.Prelude.{◌≡◌, ◌≤◌, MatchOption, length};
ghost use Rattle.fp_ipa.specs.Identity.{IsUnitName};

use fp_octets::Octets;
use std::marker::Model;

/// The name of the unit that a peer wants to reach: 1 to 64 octets. Contracts see it as the list of its octets.
#[derive(Clone, Copy, Debug, PartialEq, Eq)]
pub struct UnitName {
    octets: Octets<64>,
}

impl Model for UnitName {
    ghost use Rattle.std.specs.Prelude.{ℕ, ◌≤◌, List, length};

    ghost Value = { List ℕ };

    ghost view = { λ name. name.octets };

    ghost invariant = { λ name. 1 ≤ length name.octets };

    ghost inverse = { λ list. record { octets = list } };

    ghost inverse_ok = { λ name some i. record { octets = name.octets } };
}

impl UnitName {
    /// The most octets of a name.
    pub const MOST: usize = 64;

    /// The name of these octets; `None` exactly if there are none or more than [`UnitName::MOST`].
    pub fn new(octets: &[u8]) -> Option<UnitName>
        ensures { MatchOption result (¬ IsUnitName octets.now) (λ name. name ≡ octets.now) }
    {
        if octets.is_empty() {
            return None;
        }
        let Some(octets) = Octets::from_slice(octets) else {
            return None;
        };
        Some(UnitName { octets })
    }

    /// The octets, 1 to [`UnitName::MOST`] of them.
    pub fn as_slice(&self) -> &[u8]
        ensures value { result.now ≡ self.now }
        ensures size { IsUnitName self.now }
    {
        self.octets.as_slice()
    }
}
