//! The subsystem test of SCCP management, and its answer.

ghost use Rattle.std.specs.Prelude.{◌≤◌, IfOk, IfSome, length};
ghost use Rattle.std.specs.Option.{option_map};
ghost use Rattle.fp_sccp.specs.Management.{Allows};
ghost use Rattle.fp_sccp.specs.View.{unit_data_value};

use crate::address::{MANAGEMENT, subsystem_of};
use crate::unit_data::{MOST_ADDRESSES, MOST_OCTETS, UNIT_DATA, message};
use crate::{ProtocolClass, UnitData};
use std::alloc::{AllocError, Global};

/// The format of a subsystem test (Q.713, 5.2.1).
const SUBSYSTEM_TEST: u8 = 3;
/// The format of subsystem allowed.
const SUBSYSTEM_ALLOWED: u8 = 1;

/// The answer to a subsystem test (SST) for this subsystem, which must be in service: a UDT of class 0 with subsystem
/// allowed (SSA), from the called to the calling address of the test (Q.714, 5.3.4). `None` exactly if the message
/// isn't a test for this subsystem, or if the answer doesn't fit into a message. `Err`: out of memory.
pub fn write_allowed(
    alloc: Global,
    test: &UnitData<'_>,
    subsystem: u8,
) -> Result<Option<Vec<u8>>, AllocError>
    ensures answer { IfOk result (λ answer. Allows (unit_data_value test.now) subsystem
        (option_map (λ octets. octets.items) answer)) }
    ensures size { IfOk result (λ answer. IfSome answer (λ octets. length octets.items ≤ MOST_OCTETS)) }
{
    let [format, tested, code_low, code_high, multiplicity] = test.user_data else {
        return Ok(None);
    };
    if subsystem_of(test.called) != Some(MANAGEMENT)
        || *format != SUBSYSTEM_TEST
        || *tested != subsystem
    {
        return Ok(None);
    }
    if test.called.len() + test.calling.len() > MOST_ADDRESSES {
        return Ok(None);
    }
    let data = [
        SUBSYSTEM_ALLOWED,
        *tested,
        *code_low,
        *code_high,
        *multiplicity,
    ];
    let octets = message(
        alloc,
        UNIT_DATA,
        ProtocolClass::Basic.code(),
        test.calling,
        test.called,
        &data,
    )?;
    Ok(Some(octets))
}
