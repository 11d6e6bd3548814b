//! The kinds of messages for the management of a connection.

ghost use Rattle.fp_ipa.specs.Received.{ManagementSays, Says};

use crate::identity::named_unit;
use crate::{StreamIdentifier, UnitName};

/// The type of a PING.
const PING: u8 = 0x00;
/// The type of an ID_RESP.
const IDENTITY_RESPONSE: u8 = 0x05;
/// The type of an ID_ACK.
const IDENTITY_ACKNOWLEDGE: u8 = 0x06;

/// A message, as the management of its connection sees it.
#[derive(Clone, Copy, Debug, PartialEq, Eq)]
pub enum Received {
    /// A PING.
    Ping,
    /// An ID_RESP that names this unit.
    Named(usize),
    /// An ID_RESP that names none of the units.
    Misnamed,
    /// An ID_ACK.
    Acknowledged,
    /// A message of SCCP.
    UnitData,
    /// A message of another stream, or another one of connection management, for example a PONG or an ID_GET.
    Unknown,
}

/// The kind of a message of connection management.
fn management_of(names: &[UnitName], octets: &[u8]) -> Received
    ensures { ManagementSays names.now octets.now result }
{
    let [code, contents @ ..] = octets else {
        return Received::Unknown;
    };
    match *code {
        PING => Received::Ping,
        IDENTITY_RESPONSE => match named_unit(names, contents) {
            Some(unit) => Received::Named(unit),
            None => Received::Misnamed,
        },
        IDENTITY_ACKNOWLEDGE => Received::Acknowledged,
        _ => Received::Unknown,
    }
}

/// The kind of a message with this stream and these octets. The names are the units that the peer may name.
pub fn received_of(names: &[UnitName], stream: StreamIdentifier, octets: &[u8]) -> Received
    ensures { Says names.now stream octets.now result }
{
    match stream {
        StreamIdentifier::ConnectionManagement => management_of(names, octets),
        StreamIdentifier::Sccp => Received::UnitData,
        StreamIdentifier::Other(_) => Received::Unknown,
    }
}
