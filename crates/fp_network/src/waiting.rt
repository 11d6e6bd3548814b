//! Octets that wait to be written.

ghost use Rattle.std.specs.Prelude.{◌≡◌, ◌≤◌, ◌==◌, [], ◌++◌, drop, length, OnErr, OnOk};

use bytes::{Buf, BytesMut};
use std::alloc::{AllocError, Global};
use std::marker::Model;

/// Octets that wait to be written to a stream, in their order. Contracts see them as their list.
#[derive(Drop)]
pub(crate) struct Waiting {
    octets: BytesMut,
}

impl Model for Waiting {
    ghost use Rattle.std.specs.Prelude.{ℕ, List};

    ghost Value = { List ℕ };

    ghost view = { λ waiting. waiting.octets.items };
}

impl Waiting {
    /// No octets wait. Takes no memory.
    pub(crate) fn new(alloc: Global) -> Waiting
        ensures { result ≡ [] }
    {
        Waiting {
            octets: BytesMut::new(alloc),
        }
    }

    /// Adds octets after those that wait. `Err`: memory ran out, and nothing changes.
    pub(crate) fn push(&mut self, octets: &[u8]) -> Result<(), AllocError>
        ensures ok { OnOk result (self.new ≡ self.old ++ octets.now) }
        ensures err { OnErr result (self.new ≡ self.old) }
    {
        self.octets.extend_from_slice(octets)
    }

    /// The octets that wait.
    pub(crate) fn octets(&self) -> &[u8]
        ensures { result.now ≡ self.now }
    {
        self.octets.as_slice()
    }

    /// The number of octets that wait.
    pub(crate) fn count(&self) -> usize
        ensures { result ≡ length self.now }
    {
        self.octets.len()
    }

    /// Removes this number of octets from the front, once they were written; all, if fewer wait.
    pub(crate) fn take(&mut self, count: usize)
        ensures { self.new ≡ drop count self.old }
    {
        let most = self.octets.len();
        if count < most {
            self.octets.advance(count);
        } else {
            self.octets.clear();
        }
    }
}
