//! XUDT: unit data that may be a segment of a message (Q.713, 4.18).

ghost use Rattle.std.specs.Prelude.{◌≡◌, IfErr, IfOk, slice_index};
ghost use Rattle.fp_sccp.specs.Fault.{ExtendedFault};
ghost use Rattle.fp_sccp.specs.Message.{HasSizes, IsExtended};
ghost use Rattle.fp_sccp.specs.View.{unit_data_value};

use crate::optional_part::is_whole;
use crate::parts::read_parts;
use crate::unit_data::asks_for_return;
use crate::{Kind, ProtocolClass, SccpFault, UnitData};

/// The type of an XUDT.
pub(crate) const EXTENDED_UNIT_DATA: u8 = 0x11;
/// The octets of an XUDT before its parameters: the type, the class, the hop counter and four pointers.
const HEAD: usize = 7;
/// The position of the first pointer.
const FIRST: usize = 3;

/// An XUDT, and whether it is a whole message.
#[derive(Clone, Copy, Debug)]
pub(crate) struct Extended<'a> {
    pub(crate) unit_data: UnitData<'a>,
    pub(crate) is_whole: bool,
}

/// Reads an XUDT. The first octet must be its type.
pub(crate) fn read_extended(octets: &[u8]) -> Result<Extended<'_>, SccpFault>
    requires { slice_index octets.now 0 ≡ EXTENDED_UNIT_DATA }
    ensures found { IfOk result (λ message.
        IsExtended octets.now (unit_data_value message.unit_data) message.is_whole) }
    ensures sizes { IfOk result (λ message. HasSizes (unit_data_value message.unit_data)) }
    ensures fault { IfErr result (ExtendedFault octets.now) }
{
    if octets.len() < HEAD {
        return Err(SccpFault::Cut);
    }
    let Some(class) = ProtocolClass::from_code(octets[1] % 16) else {
        return Err(SccpFault::ProtocolClass);
    };
    let parts = read_parts(octets, HEAD, FIRST)?;
    let Some(is_whole) = is_whole(octets) else {
        return Err(SccpFault::OptionalPart);
    };
    Ok(Extended {
        unit_data: UnitData {
            kind: Kind::ExtendedUnitData,
            class,
            returns_on_error: asks_for_return(octets[1]),
            called: parts.called,
            calling: parts.calling,
            user_data: parts.user_data,
        },
        is_whole,
    })
}
