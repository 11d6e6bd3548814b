//! Messages, and the head of one.

ghost use Rattle.std.specs.Prelude.{◌≡◌, ◌^◌, ◌<◌};
ghost use Rattle.fp_ipa.specs.Message.{head_of};
ghost use Rattle.fp_ipa.specs.StreamIdentifier.{stream_code};

use crate::StreamIdentifier;
use bytes::Bytes;

/// A message: its stream, and its octets, at most [`IpaMessage::MOST`].
#[derive(Debug, Drop)]
pub struct IpaMessage {
    /// The stream.
    pub stream: StreamIdentifier,
    /// The octets, perhaps none.
    pub octets: Bytes,
}

impl IpaMessage {
    /// The most octets of a message, the same as of a frame. Real messages are shorter: connection management, a UDT,
    /// an XUDT and a UDTS have a few hundred octets at most.
    pub const MOST: usize = 4_096;
}

/// The three octets before a message: its length, the most significant octet first, and the stream. For example, a
/// message of 51 octets of SCCP has the head `00 33 FD`.
pub fn message_head(stream: StreamIdentifier, length: u16) -> [u8; 3]
    ensures { result ≡ head_of (stream_code stream) length }
{
    let [most, least] = length.to_be_bytes();
    [most, least, stream.code()]
}
