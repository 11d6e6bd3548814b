//! Why octets aren't a message.

use thiserror::Error;

/// Why octets aren't read. Of several reasons the first in this order applies.
#[derive(Clone, Copy, Debug, PartialEq, Eq, Error)]
pub enum SccpFault {
    /// The first octet isn't the type of a UDT, an XUDT or a UDTS, or there is none.
    #[error("unknown message type")]
    UnknownType,
    /// The octets end before the pointers do.
    #[error("cut message")]
    Cut,
    /// The protocol class is neither 0 nor 1.
    #[error("bad protocol class")]
    ProtocolClass,
    /// The pointer to the called party address doesn't lead to its octets.
    #[error("no called party address")]
    CalledAddress,
    /// The pointer to the calling party address doesn't lead to its octets.
    #[error("no calling party address")]
    CallingAddress,
    /// The pointer to the data doesn't lead to their octets.
    #[error("no data")]
    UserData,
    /// The optional part doesn't end, or one of its parameters doesn't lie within the message.
    #[error("bad optional part")]
    OptionalPart,
}
