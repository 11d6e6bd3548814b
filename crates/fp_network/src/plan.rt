//! The addresses and the units of a node.

ghost use Rattle.std.specs.Prelude.{◌≡◌, IfOk};
ghost use Rattle.fp_network.specs.Units.{own_first};

use fp_ipa::UnitName;
use fp_sccp::Address;
use std::alloc::{AllocError, Global};

/// The addresses at both ends of the link, and the units that a transfer point may name.
#[derive(Clone, Copy)]
pub struct Plan<'x> {
    /// The node's own address. Messages are sent from it, and those to its subsystem are taken.
    pub own: Address,
    /// The address of the exchange.
    pub exchange: Address,
    /// The names of the units. The first is the one that several nodes have in common.
    pub units: &'x [UnitName],
}

/// The names in the order of preference for sending: the common one last.
pub(crate) fn own_first(alloc: Global, units: &[UnitName]) -> Result<Vec<UnitName>, AllocError>
    ensures { IfOk result (λ names. names.items ≡ own_first units.now) }
{
    let mut names = Vec::new(alloc);
    let Some((common, others)) = units.split_first() else {
        return Ok(names);
    };
    names.extend_from_slice(others)?;
    names.push(*common)?;
    Ok(names)
}
