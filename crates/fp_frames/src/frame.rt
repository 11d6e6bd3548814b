//! The message of a frame.

ghost use Rattle.std.specs.Prelude.{◌≡◌, length, SomeIff, IfOk};
ghost use Rattle.fp_frames.specs.Frame.{IsMessageLength};

use bytes::Bytes;
use std::alloc::AllocError;
use std::marker::Model;

/// The message of a frame: 1 to 4,096 octets. Contracts see it as the list of the octets.
#[derive(Debug, Drop)]
pub struct Frame {
    message: Bytes,
}

impl Model for Frame {
    ghost use Rattle.std.specs.Prelude.{ℕ, List, length};
    ghost use Rattle.fp_frames.specs.Frame.{IsMessageLength};

    ghost Value = { List ℕ };

    ghost view = { λ frame. frame.message };

    ghost invariant = { λ frame. IsMessageLength (length frame.message) };
}

impl Frame {
    /// The length of the longest message, in octets.
    pub const MOST: usize = 4_096;

    /// The frame of this message; `None` exactly if it has no octets or more than [`Frame::MOST`].
    pub fn new(message: Bytes) -> Option<Frame>
        ensures { SomeIff result (IsMessageLength (length message)) message }
    {
        if message.is_empty() || message.len() > Self::MOST {
            None
        } else {
            Some(Frame { message })
        }
    }

    /// The octets of the message, 1 to [`Frame::MOST`] of them.
    pub fn octets(&self) -> &[u8]
        ensures value { result.now ≡ self.now }
        ensures size { IsMessageLength (length self.now) }
    {
        self.message.as_slice()
    }

    /// A frame of the same message, which shares the octets and copies none. The error is from [`Bytes::clone`]: the
    /// count of shares is at its limit.
    pub fn try_clone(&self) -> Result<Frame, AllocError>
        ensures { IfOk result (λ copy. copy ≡ self.now) }
    {
        let message = self.message.clone()?;
        Ok(Frame { message })
    }
}
