//! The frame of a request.

ghost use Rattle.std.specs.Prelude.{◌≡◌, ◌≤◌, IfOk, length};
ghost use Rattle.fp_q773.specs.Tid.{octets_of};
ghost use Rattle.fp_reply.specs.Reply.{IsFrameOf, frame_of, reply};

use crate::message::reply_to;
use fp_ber::canonical_spelling_spells;
use fp_frames::frame_head;
use fp_q773::Tid;
use fp_service::Request;
use std::alloc::{AllocError, Global};

/// The number of octets of the head of a frame.
pub(crate) const HEAD: usize = 4;

/// The most octets of a frame with its head: its message has at most 219. The longest message is a Continue with an
/// AARE for a name of 64 octets, an Invoke of RequestReportBCSMEvent, and an Invoke of Connect to 15 digits.
///
/// A message of MTP has room for 272 octets. A unitdata message (UDT) of SCCP (ITU-T Q.713, 4.10) with two addresses of
/// 18 octets fits if its data has at most 224 octets. So each message fits.
pub const MOST_OCTETS: usize = 223;

/// The frame of a request (Q.773, 4.2): a head and the message in canonical spelling.
///
/// `local` is this end's transaction identifier of the dialogue and `peer` the other end's. A Continue has both, the
/// local one in four octets; an End and an Abort have only the peer's. The peer's identifier is written as it was
/// received.
#[tactic(auto, using(crate::proofs::Frames::canon_some, crate::proofs::Frames::frame_says), unfolding(crate::specs::Reply::frame_of))]
pub fn bytes_of(
    alloc: Global,
    request: &Request,
    local: u32,
    peer: &Tid,
) -> Result<Vec<u8>, AllocError>
    ensures frame { IfOk result (λ octets. octets.items ≡ frame_of request.now local (octets_of peer.now)) }

    // The frame is read as the message of the request.
    ensures says { IfOk result (λ octets. IsFrameOf octets.items (reply request.now local (octets_of peer.now))) }

    // The message fits a unitdata message of SCCP.
    ensures most { IfOk result (λ octets. length octets.items ≤ MOST_OCTETS) }
{
    canonical_spelling_spells();
    let mut out = reply_to(alloc, request, local, peer)?;
    let head = frame_head(out.len() as u16);
    out.put(&head)?;
    Ok(out.into_octets())
}
