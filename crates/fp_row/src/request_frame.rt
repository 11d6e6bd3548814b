//! Frames of requests.

ghost use Rattle.std.specs.Prelude.{◌≡◌, ◌≤◌, length};

use fp_reply::MOST_OCTETS;
use std::marker::Model;

/// The octets of a requested frame, its head included: at most [`MOST_OCTETS`]. Contracts see their list.
#[derive(Debug, Drop)]
pub struct RequestFrame {
    octets: Vec<u8>,
}

impl Model for RequestFrame {
    ghost use Rattle.std.specs.Prelude.{ℕ, ◌≤◌, List, length};
    ghost use Rattle.fp_reply.specs.declared.frame.TheConstants.{MOST_OCTETS};

    ghost Value = { List ℕ };

    ghost view = { λ frame. frame.octets.items };

    ghost invariant = { λ frame. length frame.octets.items ≤ MOST_OCTETS };
}

impl RequestFrame {
    /// The frame of these octets, at most [`MOST_OCTETS`] of them. Takes no memory.
    pub(crate) fn new(octets: Vec<u8>) -> RequestFrame
        requires { length octets.items ≤ MOST_OCTETS }
        ensures { result ≡ octets.items }
    {
        RequestFrame { octets }
    }

    /// The octets, the head first, at most [`MOST_OCTETS`] of them.
    pub fn octets(&self) -> &[u8]
        ensures value { result.now ≡ self.now }
        ensures most { length self.now ≤ MOST_OCTETS }
    {
        self.octets.as_slice()
    }
}
