//! Reading a message of any type.

ghost use Rattle.std.specs.Prelude.{IfErr, IfOk};
ghost use Rattle.fp_sccp.specs.Fault.{IsFault};
ghost use Rattle.fp_sccp.specs.Message.{IsMessage, MessageHasSizes};
ghost use Rattle.fp_sccp.specs.Value.{MessageValue};
ghost use Rattle.fp_sccp.specs.View.{message_value};

use crate::extended::{EXTENDED_UNIT_DATA, read_extended};
use crate::service::{SERVICE, read_service};
use crate::unit_data::{UNIT_DATA, read_unit_data};
use crate::{SccpFault, Service, UnitData};

/// A message of SCCP.
#[derive(Clone, Copy, Debug)]
pub enum SccpMessage<'a> {
    /// A whole message: a UDT, or an XUDT whose optional part names no further segment.
    UnitData(UnitData<'a>),
    /// A segment: an XUDT that is one of several segments of a message.
    Segment(UnitData<'a>),
    /// A UDTS: data of this node were returned.
    Service(Service<'a>),
}

/// Reads a message, or gives the first reason why the octets aren't one.
fn message_in(octets: &[u8]) -> Result<SccpMessage<'_>, SccpFault>
    ensures found { IfOk result (λ message. IsMessage octets.now (message_value message)) }
    ensures sizes { IfOk result (λ message. MessageHasSizes (message_value message)) }
    ensures fault { IfErr result (IsFault octets.now) }
{
    if octets.is_empty() {
        return Err(SccpFault::UnknownType);
    }
    if octets[0] == UNIT_DATA {
        return Ok(SccpMessage::UnitData(read_unit_data(octets)?));
    }
    if octets[0] == SERVICE {
        return Ok(SccpMessage::Service(read_service(octets)?));
    }
    if octets[0] != EXTENDED_UNIT_DATA {
        return Err(SccpFault::UnknownType);
    }
    let extended = read_extended(octets)?;
    if extended.is_whole {
        Ok(SccpMessage::UnitData(extended.unit_data))
    } else {
        Ok(SccpMessage::Segment(extended.unit_data))
    }
}

/// Reads a message (Q.713, 4.10, 4.11 and 4.18). There is an error exactly if the octets are no message: the first
/// [`SccpFault`] that applies.
pub fn read(octets: &[u8]) -> Result<SccpMessage<'_>, SccpFault>
    ensures found { IfOk result (λ message. IsMessage octets.now (message_value message)) }
    ensures sizes { IfOk result (λ message. MessageHasSizes (message_value message)) }
    ensures fault { IfErr result (IsFault octets.now) }
    ensures none { IfErr result (λ _. (value : MessageValue) → ¬ IsMessage octets.now value) }
{
    message_in(octets)
}
