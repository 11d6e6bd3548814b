//! UDT: the message that carries data without a connection (Q.713, 4.10).

ghost use Rattle.std.specs.Prelude.{◌≡◌, ◌≤◌, IfErr, IfOk, length, slice_index};
ghost use Rattle.fp_sccp.specs.Fault.{UnitDataFault};
ghost use Rattle.fp_sccp.specs.Message.{HasSizes, IsUnitData};
ghost use Rattle.fp_sccp.specs.ProtocolClass.{class_code, is_returned};
ghost use Rattle.fp_sccp.specs.View.{unit_data_value};
ghost use Rattle.fp_sccp.specs.Written.{FitAddresses, message_octets, unit_data_octets};

use crate::parts::read_parts;
use crate::{Address, Kind, ProtocolClass, SccpFault};
use std::alloc::{AllocError, Global};

/// The type of a UDT.
pub(crate) const UNIT_DATA: u8 = 0x09;
/// The octets of a UDT before its parameters: the type, the class and three pointers.
pub(crate) const HEAD: usize = 5;
/// The position of the first pointer.
pub(crate) const FIRST: usize = 2;
/// The most octets of two addresses that pointers of one octet can lead past, also in an XUDTS.
pub(crate) const MOST_ADDRESSES: usize = 251;
/// The code of "return message on error", in the upper half of the octet with the protocol class (Q.713, 3.6).
const RETURN_ON_ERROR: u8 = 8;

/// The most octets of a UDT to send: the room for SCCP in a message of the message transfer part, 272 octets less four
/// of the routing label.
pub const MOST_OCTETS: usize = 268;
/// The most octets of data to send: with two addresses of [`Address::MOST`] octets the UDT has [`MOST_OCTETS`].
pub const MOST_DATA: usize = 224;

/// Unit data: a UDT or an XUDT. Each of its parameters has 1 to 255 octets.
#[derive(Clone, Copy, Debug)]
pub struct UnitData<'a> {
    /// The kind of message.
    pub kind: Kind,
    /// The protocol class.
    pub class: ProtocolClass,
    /// Whether the sender asks for a return of undeliverable data.
    pub returns_on_error: bool,
    /// The called party address.
    pub called: &'a [u8],
    /// The calling party address.
    pub calling: &'a [u8],
    /// The data, a message of TCAP.
    pub user_data: &'a [u8],
}

/// Whether this octet with the protocol class asks for the return of undeliverable data.
pub(crate) fn asks_for_return(octet: u8) -> bool
    ensures { result ≡ is_returned octet }
{
    octet / 16 == RETURN_ON_ERROR
}

/// Reads a UDT. The first octet must be its type.
pub(crate) fn read_unit_data(octets: &[u8]) -> Result<UnitData<'_>, SccpFault>
    requires { slice_index octets.now 0 ≡ UNIT_DATA }
    ensures found { IfOk result (λ message. IsUnitData octets.now (unit_data_value message)) }
    ensures sizes { IfOk result (λ message. HasSizes (unit_data_value message)) }
    ensures fault { IfErr result (UnitDataFault octets.now) }
{
    if octets.len() < HEAD {
        return Err(SccpFault::Cut);
    }
    let Some(class) = ProtocolClass::from_code(octets[1] % 16) else {
        return Err(SccpFault::ProtocolClass);
    };
    let parts = read_parts(octets, HEAD, FIRST)?;
    Ok(UnitData {
        kind: Kind::UnitData,
        class,
        returns_on_error: asks_for_return(octets[1]),
        called: parts.called,
        calling: parts.calling,
        user_data: parts.user_data,
    })
}

/// The octets of a message of this type. Its second octet is a class or a cause.
pub(crate) fn message(
    alloc: Global,
    code: u8,
    second: u8,
    called: &[u8],
    calling: &[u8],
    user_data: &[u8],
) -> Result<Vec<u8>, AllocError>
    requires addresses { FitAddresses called.now calling.now }
    requires user_data { length user_data.now ≤ 255 }
    ensures { IfOk result (λ octets.
        octets.items ≡ message_octets code second called.now calling.now user_data.now) }
{
    let (first, other) = (called.len() as u8, calling.len() as u8);
    let size = HEAD + 3 + called.len() + calling.len() + user_data.len();
    let mut octets = Vec::with_capacity(alloc, size)?;
    octets.extend_from_slice(&[code, second, 3, 3 + first, 3 + first + other, first])?;
    octets.extend_from_slice(called)?;
    octets.extend_from_slice(&[other])?;
    octets.extend_from_slice(calling)?;
    octets.extend_from_slice(&[user_data.len() as u8])?;
    octets.extend_from_slice(user_data)?;
    Ok(octets)
}

/// The octets of a UDT of this class that doesn't ask for a return (Q.713, 4.10). You must pass 1 to [`MOST_DATA`]
/// octets of data. `Err`: out of memory.
pub fn write_unit_data(
    alloc: Global,
    class: ProtocolClass,
    called: &Address,
    calling: &Address,
    user_data: &[u8],
) -> Result<Vec<u8>, AllocError>
    requires some { 1 ≤ length user_data.now }
    requires most { length user_data.now ≤ MOST_DATA }
    ensures octets { IfOk result (λ octets.
        octets.items ≡ unit_data_octets (class_code class) called.now calling.now user_data.now) }
    ensures size { IfOk result (λ octets. length octets.items ≤ MOST_OCTETS) }
{
    let (called, calling) = (called.as_slice(), calling.as_slice());
    message(alloc, UNIT_DATA, class.code(), called, calling, user_data)
}
