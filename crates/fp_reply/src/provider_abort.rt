//! The frame of an Abort of the provider (Q.773, 4.2.1), spelled without memory.

ghost use Rattle.std.specs.Prelude.{◌≡◌};
ghost use Rattle.fp_ber.specs.Canon.{canon};
ghost use Rattle.fp_frames.specs.Frame.{framed};
ghost use Rattle.fp_q773.specs.ProviderAbort.{cause_code, provider_abort};
ghost use Rattle.fp_q773.specs.Tid.{octets_of};
ghost use Rattle.fp_reply.specs.ProviderAbort.{frame_octets};

use fp_frames::frame_head;
use fp_octets::Octets;
use fp_q773::{AbortCause, Tid, write_abort};
use std::marker::Model;

/// A frame with an Abort of the provider: twelve to fifteen octets with its head. Contracts see it as a list of octets.
#[derive(Clone, Copy, Debug, PartialEq, Eq)]
pub struct AbortFrame {
    octets: Octets<15>,
}

impl Model for AbortFrame {
    ghost use Rattle.std.specs.Prelude.{ℕ, List, ⊤};

    ghost Value = { List ℕ };

    ghost view = { λ frame. frame.octets };

    ghost inverse = { λ list. record { octets = list } };

    ghost inverse_ok = { λ frame some i. record { octets = frame.octets } };
}

impl AbortFrame {
    /// The octets.
    pub fn as_slice(&self) -> &[u8]
        ensures { result.now ≡ frame_octets self.now }
    {
        self.octets.as_slice()
    }
}

/// The frame of an Abort of the provider, for this cause, to this identifier of the peer: a head and the Abort in
/// canonical spelling (Q.773, 4.2.1; X.690, 10.1). Takes no memory.
pub fn abort_frame(destination: Tid, cause: AbortCause) -> AbortFrame
    ensures { frame_octets result ≡ framed (canon (provider_abort (octets_of destination) (cause_code cause))) }
{
    let message = write_abort(destination, cause);
    let mut octets = Octets::new();
    octets.extend(&frame_head(message.len() as u16));
    octets.extend(message.as_slice());
    AbortFrame { octets }
}
