//! The addresses and the units of a node, from the words of the command line.

ghost use Rattle.std.specs.Prelude.{◌≡◌};

use fp_ipa::UnitName;
use fp_sccp::{Address, PointCode, subsystem_of};
use fp_serve::PeerName;
use std::alloc::{AllocError, Global};

/// The most units that may be named.
const MOST_UNITS: usize = 8;

/// The words for a node on a signalling network, each of them valid.
#[derive(Clone, Copy, Debug)]
pub struct NetworkWords<'a> {
    /// The node's own address.
    pub own: &'a str,
    /// The address of the exchange.
    pub exchange: &'a str,
    /// The names of the units, the common one first.
    pub units: &'a str,
}

/// A node on a signalling network.
#[derive(Drop)]
pub(crate) struct NetworkAsked {
    /// The node's own address.
    pub(crate) own: Address,
    /// The address of the exchange.
    pub(crate) exchange: Address,
    /// The text of that address.
    pub(crate) peer: PeerName,
    /// The names of the units, 1 to 8, the common one first.
    pub(crate) units: Vec<UnitName>,
}

impl NetworkWords<'_> {
    /// The node for these words. `None` if one of them isn't valid.
    pub(crate) fn node(self, alloc: Global) -> Result<Option<NetworkAsked>, AllocError> {
        let Some(own) = address_in(self.own) else {
            return Ok(None);
        };
        let Some(exchange) = address_in(self.exchange) else {
            return Ok(None);
        };
        let Some(units) = units_in(alloc, self.units)? else {
            return Ok(None);
        };
        Ok(Some(NetworkAsked {
            own,
            exchange,
            // The text of an address fits into a name.
            peer: PeerName::from(self.exchange).unwrap_or_default(),
            units,
        }))
    }
}

/// The longest text of an address, in octets.
const MOST_TEXT: usize = 40;

/// The address of a point code and a subsystem number, as `100:12`.
fn point_code_address(text: &str) -> Option<Address> {
    let (code, subsystem) = text.split_once(':')?;
    let point_code = PointCode::new(code.parse().ok()?)?;
    Some(Address::of_point_code(point_code, subsystem.parse().ok()?))
}

/// The address of a text of at most 40 octets: `PC:SSN`, or all its octets in hexadecimal digits. `None` if it is
/// neither.
pub(crate) fn address_in(text: &str) -> Option<Address> {
    if text.len() > MOST_TEXT {
        return None;
    }
    if text.contains(':') {
        return point_code_address(text);
    }
    let mut octets = [0u8; Address::MOST];
    let count = text.len() / 2;
    let room = octets.get_mut(..count)?;
    hex::decode_to_slice(text, room).ok()?;
    Address::new(octets.get(..count)?)
}

/// Whether an address has a subsystem number.
pub(crate) fn has_subsystem(address: &Address) -> bool {
    subsystem_of(address.as_slice()).is_some()
}

/// The names of units in a text, with commas between them, 1 to 8, no two of them the same. `Ok(None)` if the text
/// isn't such a list.
pub(crate) fn units_in(alloc: Global, text: &str) -> Result<Option<Vec<UnitName>>, AllocError> {
    let mut names = Vec::new(alloc);
    for piece in text.split(',') {
        let Some(name) = UnitName::new(piece.as_bytes()) else {
            return Ok(None);
        };
        if names.len() >= MOST_UNITS || names.contains(&name) {
            return Ok(None);
        }
        names.push(name)?;
    }
    Ok(Some(names))
}
