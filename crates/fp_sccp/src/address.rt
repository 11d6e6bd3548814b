//! Addresses of parties.

ghost use Rattle.std.specs.Prelude.{◌≡◌, ◌≤◌, length, MatchOption};
ghost use Rattle.std.specs.Option.{SomeIff};
ghost use Rattle.fp_sccp.specs.Address.{HasPointCode, HasSubsystem, IsAddress, address_of, point_code, subsystem};

use crate::PointCode;
use fp_octets::Octets;
use std::marker::Model;

/// The subsystem number of SCCP management (Q.713, 3.4.2.2).
pub const MANAGEMENT: u8 = 1;

/// The indicator of an address that is routed on its subsystem number and has a point code and no global title.
const POINT_CODE_AND_SUBSYSTEM: u8 = 0x43;

/// An address that the program sends from or to (Q.713, 3.4): 1 to 18 octets, kept as received. Contracts see it as the
/// list of its octets, and two are equal exactly if they have the same octets. For example, subsystem 146 at point code
/// 1,000 is `43 E8 03 92`.
#[derive(Clone, Copy, Debug, PartialEq, Eq)]
pub struct Address {
    octets: Octets<18>,
}

impl Model for Address {
    ghost use Rattle.std.specs.Prelude.{ℕ, ◌≤◌, List, length};

    ghost Value = { List ℕ };

    ghost view = { λ address. address.octets };

    ghost invariant = { λ address. 1 ≤ length address.octets };

    ghost inverse = { λ list. record { octets = list } };

    ghost inverse_ok = { λ address some i. record { octets = address.octets } };
}

impl Address {
    /// The most octets of an address: an indicator, a point code, a subsystem number, and a global title of 14 octets.
    pub const MOST: usize = 18;

    /// The address of these octets; `None` exactly if there are none or more than [`Address::MOST`].
    pub fn new(octets: &[u8]) -> Option<Address>
        ensures { MatchOption result (¬ IsAddress octets.now) (λ address. address ≡ octets.now) }
    {
        if octets.is_empty() {
            return None;
        }
        let Some(octets) = Octets::from_slice(octets) else {
            return None;
        };
        Some(Address { octets })
    }

    /// The address of a subsystem at a point code, without global title, routed on the subsystem number.
    pub fn of_point_code(point_code: PointCode, subsystem: u8) -> Address
        ensures { result ≡ address_of point_code subsystem }
    {
        let code = point_code.code();
        let mut octets = Octets::new();
        octets.extend(&[
            POINT_CODE_AND_SUBSYSTEM,
            (code % 256) as u8,
            (code / 256) as u8,
            subsystem,
        ]);
        Address { octets }
    }

    /// The octets, 1 to [`Address::MOST`] of them.
    pub fn as_slice(&self) -> &[u8]
        ensures value { result.now ≡ self.now }
        ensures size { IsAddress self.now }
    {
        self.octets.as_slice()
    }
}

/// The point code of an address (Q.713, 3.4.2.1); `None` exactly if the address has none. If the octets end before it,
/// the address has none, whatever its indicator says.
pub fn point_code_of(address: &[u8]) -> Option<PointCode>
    ensures { SomeIff result (HasPointCode address.now) (point_code address.now) }
{
    if address.len() < 3 || address[0] % 2 == 0 {
        return None;
    }
    PointCode::new((u16::from(address[1]) + 256 * u16::from(address[2])) % PointCode::END)
}

/// The subsystem number of an address (Q.713, 3.4.2.2); `None` exactly if the address has none. If the octets end
/// before it, the address has none, whatever its indicator says.
pub fn subsystem_of(address: &[u8]) -> Option<u8>
    ensures { SomeIff result (HasSubsystem address.now) (subsystem address.now) }
{
    if address.is_empty() || address[0] / 2 % 2 == 0 {
        return None;
    }
    let place = 1 + 2 * usize::from(address[0] % 2);
    if address.len() <= place {
        return None;
    }
    Some(address[place])
}
