//! The frames of a stream.

ghost use Rattle.std.specs.Prelude.{◌≡◌, ◌==◌, [], ◌++◌, length, IfErr, IfOk, OnErr, OnOk};
ghost use Rattle.fp_frames.specs.Stream.{FirstLengthSays, FrameFaultSays, HandsOut, IsBad};
ghost use Rattle.fp_frames.specs.declared.fault.FrameFault.TheVariants.{BadFrameLength};

use crate::{Frame, FrameFault};
use bytes::{Buf, BytesMut};
use std::alloc::{AllocError, Global};
use std::marker::Model;

/// The number of octets of a head.
const HEAD: usize = 4;

/// The least room to make at once, in octets. For example, it holds about 300 frames of 51 octets.
const LEAST_ROOM: usize = 16_384;

/// The frames of a stream of octets, however it is cut into pieces. Contracts see the octets that were fed and not yet
/// handed out.
///
/// [`FrameReader::feed`] copies the octets. It copies a begun frame once more if there is no room after it, and makes
/// room for at least 16,384 octets then. A frame that was handed out shares this memory, and keeps the memory of its
/// neighbours alive as long as it lives. After a bad length the rest of the stream can't be read: each further call of
/// [`FrameReader::next`] reports it again.
#[derive(Drop)]
pub struct FrameReader {
    octets: BytesMut,
}

impl Model for FrameReader {
    ghost use Rattle.std.specs.Prelude.{ℕ, List};

    ghost Value = { List ℕ };

    ghost view = { λ reader. reader.octets.items };
}

impl FrameReader {
    /// A stream before its first octet. Takes no memory.
    pub fn new(alloc: Global) -> FrameReader
        ensures { result ≡ [] }
    {
        FrameReader {
            octets: BytesMut::new(alloc),
        }
    }

    /// Takes the next piece of the stream, of any length. `Err`: out of memory, and nothing was taken.
    pub fn feed(&mut self, piece: &[u8]) -> Result<(), AllocError>
        ensures ok { OnOk result (self.new ≡ self.old ++ piece.now) }
        ensures err { OnErr result (self.new ≡ self.old) }
    {
        if self.octets.capacity() - self.octets.len() < piece.len() {
            self.octets.reserve(piece.len().max(LEAST_ROOM))?;
        }
        self.octets.extend_from_slice(piece)
    }

    /// Whether no octet that was fed is left: all were handed out.
    pub fn is_empty(&self) -> bool
        ensures { result ≡ (length self.now == 0) }
    {
        self.octets.is_empty()
    }

    /// The next frame, or `None` if it isn't complete yet. A length is checked as soon as its four octets are there.
    ///
    /// [`FrameFault::BadFrameLength`] means that the next length is 0 or above [`Frame::MOST`]; all further calls
    /// report it, too. [`FrameFault::Memory`] is only reported for a complete frame. After a fault the reader is
    /// unchanged.
    #[inline(always)]
    pub fn next(&mut self) -> Result<Option<Frame>, FrameFault>
        ensures next { IfOk result (λ frame. HandsOut self.old self.new frame) }
        ensures fault { IfErr result (FrameFaultSays self.old) }
        ensures kept { OnErr result (self.new ≡ self.old) }
    {
        let Some(length) = first_length(self.octets.as_slice())? else {
            return Ok(None);
        };
        let mut message = self.octets.freeze_to(HEAD + length)?;
        message.advance(HEAD);
        Ok(Frame::new(message))
    }
}

/// The length of the message in the first frame of these octets, or `None` if the frame isn't complete yet.
/// [`FrameFault::BadFrameLength`]: the length is 0 or above [`Frame::MOST`].
fn first_length(octets: &[u8]) -> Result<Option<usize>, FrameFault>
    ensures length { IfOk result (FirstLengthSays octets.now) }
    ensures fault { IfErr result (λ fault. (fault ≡ BadFrameLength) × IsBad octets.now) }
{
    let [first, second, third, fourth, behind @ ..] = octets else {
        return Ok(None);
    };
    let told = u32::from_be_bytes([*first, *second, *third, *fourth]) as usize;
    if told == 0 || told > Frame::MOST {
        return Err(FrameFault::BadFrameLength);
    }
    if behind.len() < told {
        return Ok(None);
    }
    Ok(Some(told))
}
