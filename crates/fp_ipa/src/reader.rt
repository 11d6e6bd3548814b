//! The messages of a stream.

ghost use Rattle.std.specs.Prelude.{◌≡◌, ◌==◌, [], ◌++◌, length, IfErr, IfOk, IfSome, MatchOption, OnErr, OnOk};
ghost use Rattle.std.specs.Option.{option_map};
ghost use Rattle.fp_ipa.specs.Stream.{FaultSays, HandsOut, IsBad, IsFirst, IsIncomplete};
ghost use Rattle.fp_ipa.specs.StreamIdentifier.{IsByName, stream_code};
ghost use Rattle.fp_ipa.specs.declared.fault.IpaFault.TheVariants.{TooLong};
ghost use Rattle.fp_ipa.specs.View.{message_value};

use crate::{IpaFault, IpaMessage, StreamIdentifier};
use bytes::{Buf, BytesMut};
use std::alloc::{AllocError, Global};
use std::marker::Model;

/// The number of octets of a head.
const HEAD: usize = 3;

/// The messages of a stream of octets, however the reads divide it. Contracts see the octets that were fed and not yet
/// handed out.
///
/// [`IpaReader::feed`] copies the octets. A message that was handed out shares this memory, and keeps the memory of its
/// neighbours alive as long as it lives. After a message of more than [`IpaMessage::MOST`] octets the rest of the
/// stream can't be read: each further call of [`IpaReader::next`] reports it again. After [`IpaReader::next`] returned
/// `None`, the reader holds fewer octets than a head and [`IpaMessage::MOST`] together.
#[derive(Drop)]
pub struct IpaReader {
    octets: BytesMut,
}

impl Model for IpaReader {
    ghost use Rattle.std.specs.Prelude.{ℕ, List};

    ghost Value = { List ℕ };

    ghost view = { λ reader. reader.octets.items };
}

impl IpaReader {
    /// A stream before its first octet. Takes no memory.
    pub fn new(alloc: Global) -> IpaReader
        ensures { result ≡ [] }
    {
        IpaReader {
            octets: BytesMut::new(alloc),
        }
    }

    /// Takes the next piece of the stream, of any length. `Err`: out of memory, and nothing was taken.
    pub fn feed(&mut self, piece: &[u8]) -> Result<(), AllocError>
        ensures ok { OnOk result (self.new ≡ self.old ++ piece.now) }
        ensures err { OnErr result (self.new ≡ self.old) }
    {
        self.octets.extend_from_slice(piece)
    }

    /// Whether no octet that was fed is left: all were handed out.
    pub fn is_empty(&self) -> bool
        ensures { result ≡ (length self.now == 0) }
    {
        self.octets.is_empty()
    }

    /// The next message, or `None` if it isn't complete yet. Its length is checked as soon as its head is there.
    ///
    /// [`IpaFault::TooLong`] means that the next message has more than [`IpaMessage::MOST`] octets; all further calls
    /// report it, too. [`IpaFault::Memory`] is only reported for a complete message. After a fault the reader is
    /// unchanged.
    pub fn next(&mut self) -> Result<Option<IpaMessage>, IpaFault>
        ensures next { IfOk result (λ message. HandsOut self.old self.new (option_map message_value message)) }
        ensures named { IfOk result (λ message. IfSome message (λ message. IsByName message.stream)) }
        ensures fault { IfErr result (FaultSays self.old) }
        ensures kept { OnErr result (self.new ≡ self.old) }
    {
        let Some(first) = first_message(self.octets.as_slice())? else {
            return Ok(None);
        };
        let mut octets = self.octets.freeze_to(HEAD + first.length)?;
        octets.advance(HEAD);
        Ok(Some(IpaMessage {
            stream: first.stream,
            octets,
        }))
    }
}

/// The head of a complete message.
#[derive(Clone, Copy, Debug)]
struct First {
    stream: StreamIdentifier,
    length: usize,
}

/// The head of the first message in these octets, or `None` if the message isn't complete yet. [`IpaFault::TooLong`]:
/// it has more than [`IpaMessage::MOST`] octets.
fn first_message(octets: &[u8]) -> Result<Option<First>, IpaFault>
    ensures first { IfOk result (λ first. MatchOption first (IsIncomplete octets.now)
        (λ first. IsFirst octets.now (stream_code first.stream) first.length)) }
    ensures named { IfOk result (λ first. IfSome first (λ first. IsByName first.stream)) }
    ensures fault { IfErr result (λ fault. (fault ≡ TooLong) × IsBad octets.now) }
{
    let [most, least, stream, behind @ ..] = octets else {
        return Ok(None);
    };
    let length = usize::from(*most) * 256 + usize::from(*least);
    if length > IpaMessage::MOST {
        return Err(IpaFault::TooLong);
    }
    if behind.len() < length {
        return Ok(None);
    }
    Ok(Some(First {
        stream: StreamIdentifier::from_code(*stream),
        length,
    }))
}
