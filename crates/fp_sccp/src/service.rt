//! UDTS and XUDTS: they return unit data to their sender (Q.713, 4.11 and 4.19).

ghost use Rattle.std.specs.Prelude.{◌≡◌, ◌≤◌, IfErr, IfOk, IfSome, length, slice_index};
ghost use Rattle.std.specs.Option.{option_map};
ghost use Rattle.fp_sccp.specs.Fault.{ServiceFault};
ghost use Rattle.fp_sccp.specs.Message.{IsService};
ghost use Rattle.fp_sccp.specs.ReturnCause.{cause_code};
ghost use Rattle.fp_sccp.specs.View.{service_value, unit_data_value};
ghost use Rattle.fp_sccp.specs.Written.{FitAddresses, Returns, extended_octets};

use crate::parts::read_parts;
use crate::unit_data::{FIRST, HEAD, MOST_ADDRESSES, message};
use crate::{Kind, ReturnCause, SccpFault, UnitData};
use std::alloc::{AllocError, Global};

/// The type of a UDTS.
pub(crate) const SERVICE: u8 = 0x0A;
/// The type of an XUDTS.
const EXTENDED_SERVICE: u8 = 0x12;
/// The most octets of a UDTS or XUDTS: seven before its parameters, 251 for two addresses, 255 for the data, and three
/// lengths.
pub const MOST_RETURNED: usize = 516;
/// The greatest hop counter (Q.713, 3.18).
const MOST_HOPS: u8 = 15;

/// Returned unit data, as a UDTS.
#[derive(Clone, Copy, Debug)]
pub struct Service<'a> {
    /// The return cause; `None` for a code that Q.713 doesn't name.
    pub cause: Option<ReturnCause>,
    /// The called party address: the sender of the data.
    pub called: &'a [u8],
    /// The calling party address.
    pub calling: &'a [u8],
    /// The data that were sent.
    pub user_data: &'a [u8],
}

/// Reads a UDTS. The first octet must be its type.
pub(crate) fn read_service(octets: &[u8]) -> Result<Service<'_>, SccpFault>
    requires { slice_index octets.now 0 ≡ SERVICE }
    ensures found { IfOk result (λ message. IsService octets.now (service_value message)) }
    ensures fault { IfErr result (ServiceFault octets.now) }
{
    if octets.len() < HEAD {
        return Err(SccpFault::Cut);
    }
    let parts = read_parts(octets, HEAD, FIRST)?;
    Ok(Service {
        cause: ReturnCause::from_code(octets[1]),
        called: parts.called,
        calling: parts.calling,
        user_data: parts.user_data,
    })
}

/// The octets of an XUDTS.
fn extended(
    alloc: Global,
    cause: ReturnCause,
    called: &[u8],
    calling: &[u8],
    user_data: &[u8],
) -> Result<Vec<u8>, AllocError>
    requires addresses { FitAddresses called.now calling.now }
    requires user_data { length user_data.now ≤ 255 }
    ensures { IfOk result (λ octets.
        octets.items ≡ extended_octets EXTENDED_SERVICE (cause_code cause) called.now calling.now user_data.now) }
{
    let (first, other) = (called.len() as u8, calling.len() as u8);
    let size = HEAD + 5 + called.len() + calling.len() + user_data.len();
    let mut octets = Vec::with_capacity(alloc, size)?;
    octets.extend_from_slice(&[EXTENDED_SERVICE, cause.code(), MOST_HOPS, 4, 4 + first])?;
    octets.extend_from_slice(&[4 + first + other, 0, first])?;
    octets.extend_from_slice(called)?;
    octets.extend_from_slice(&[other])?;
    octets.extend_from_slice(calling)?;
    octets.extend_from_slice(&[user_data.len() as u8])?;
    octets.extend_from_slice(user_data)?;
    Ok(octets)
}

/// The message that returns unit data for this cause (Q.714, 4.2): a UDTS for a UDT, an XUDTS for an XUDT, with the
/// addresses exchanged, at most [`MOST_RETURNED`] octets. `None` exactly if the sender didn't ask for the return, or if
/// an XUDTS is too small for it. `Err`: out of memory.
pub fn write_service(
    alloc: Global,
    refused: &UnitData<'_>,
    cause: ReturnCause,
) -> Result<Option<Vec<u8>>, AllocError>
    ensures returned { IfOk result (λ returned. Returns (unit_data_value refused.now) cause
        (option_map (λ octets. octets.items) returned)) }
    ensures size { IfOk result (λ returned. IfSome returned (λ octets. length octets.items ≤ MOST_RETURNED)) }
{
    if !refused.returns_on_error
        || refused.called.len() + refused.calling.len() > MOST_ADDRESSES
        || refused.user_data.len() > 255
    {
        return Ok(None);
    }
    let octets = match refused.kind {
        Kind::UnitData => message(
            alloc,
            SERVICE,
            cause.code(),
            refused.calling,
            refused.called,
            refused.user_data,
        )?,
        Kind::ExtendedUnitData => extended(
            alloc,
            cause,
            refused.calling,
            refused.called,
            refused.user_data,
        )?,
    };
    Ok(Some(octets))
}
