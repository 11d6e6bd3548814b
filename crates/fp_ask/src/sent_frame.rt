//! Frames that were sent.

ghost use Rattle.std.specs.Prelude.{◌≡◌, IfOk, drop};

use std::alloc::{AllocError, Global};
use std::marker::Model;

/// A frame that was sent: its octets, the head first. Contracts see their list.
#[derive(Debug, Drop)]
pub struct SentFrame {
    octets: Vec<u8>,
}

impl Model for SentFrame {
    ghost use Rattle.std.specs.Prelude.{ℕ, List};

    ghost Value = { List ℕ };

    ghost view = { λ frame. frame.octets.items };
}

impl SentFrame {
    /// A copy of these octets.
    pub(crate) fn copied(alloc: Global, octets: &[u8]) -> Result<SentFrame, AllocError>
        ensures { IfOk result (λ frame. frame ≡ octets.now) }
    {
        let mut copy = Vec::new(alloc);
        copy.extend_from_slice(octets)?;
        Ok(SentFrame { octets: copy })
    }

    /// The message: the octets after the head.
    pub fn message(&self) -> &[u8]
        ensures { result.now ≡ drop 4 self.now }
    {
        let octets = self.octets.as_slice();
        &octets[octets.len().min(4)..]
    }

    /// The octets, the head first.
    pub fn octets(&self) -> &[u8]
        ensures { result.now ≡ self.now }
    {
        self.octets.as_slice()
    }
}
