//! The content that is being sent.

ghost use Rattle.std.specs.Prelude.{◌≡◌, ◌↔◌, Some, None, IfOk, IsTrue, is_some};
ghost use Rattle.fp_book.specs.declared.parcel.Content.TheVariants as contents;
ghost use Rattle.fp_book.specs.Parcel.{is_frame_of};
ghost use Rattle.fp_book.specs.proof_only.Sending.{dialogue_out, is_frame, is_frame_under};

use crate::parcel::Content;
use fp_reply::{AbortFrame, MOST_OCTETS};
use std::alloc::{AllocError, Global};
use std::marker::Model;

/// The content that is being sent on a link, if there is one: a copy of its parcel's, with memory for every frame.
/// Contracts see that content.
#[derive(Debug, Drop)]
pub(crate) struct Sending {
    kind: Option<Kind>,
    // The frame, if it is a dialogue's.
    octets: Vec<u8>,
}

/// The kind of the content.
#[derive(Debug, Drop)]
enum Kind {
    /// An Abort of the provider.
    Abort(AbortFrame),
    /// The frame of the dialogue with this local transaction identifier and this birth.
    Frame { local: u32, birth: u64 },
}

impl Model for Sending {
    ghost use Rattle.std.specs.Prelude.{◌≤◌, Option, vec_capacity};
    ghost use Rattle.fp_book.specs.declared.parcel.Content.{Content};
    ghost use Rattle.fp_reply.specs.declared.frame.TheConstants.{MOST_OCTETS};

    ghost Value = { Option Content };

    ghost use Rattle.fp_book.specs.proof_only.Sending.{content_of};

    ghost view = { λ sending. content_of sending.kind sending.octets.items };

    ghost invariant = { λ sending. MOST_OCTETS ≤ vec_capacity sending.octets };
}

impl Sending {
    /// No content, with memory for every frame.
    pub(crate) fn new(alloc: Global) -> Result<Sending, AllocError>
        ensures { IfOk result (λ sending. sending ≡ None) }
    {
        Ok(Sending {
            kind: None,
            octets: Vec::with_capacity(alloc, MOST_OCTETS)?,
        })
    }

    /// Starts sending this content. Takes no memory.
    #[inline(always)]
    pub(crate) fn start(&mut self, content: &Content)
        ensures { self.new ≡ Some content.now }
    {
        match content {
            Content::Abort(frame) => self.kind = Some(Kind::Abort(*frame)),
            Content::Frame(waiting) => {
                self.octets.clear();
                // There is room, so this takes no memory and succeeds.
                drop(self.octets.extend_from_slice(waiting.frame.octets()));
                self.kind = Some(Kind::Frame {
                    local: waiting.local,
                    birth: waiting.birth,
                });
            }
        }
    }

    /// Ends sending: there is no content from now on. Takes no memory.
    pub(crate) fn end(&mut self)
        ensures { self.new ≡ None }
    {
        self.kind = None;
    }

    /// Whether anything is being sent.
    pub(crate) fn is_busy(&self) -> bool
        ensures { result ≡ is_some self.now }
    {
        self.kind.is_some()
    }

    /// Whether a frame of a dialogue is being sent.
    pub(crate) fn is_frame(&self) -> bool
        ensures { result ≡ is_frame self.now }
    {
        match &self.kind {
            Some(Kind::Frame { .. }) => true,
            Some(Kind::Abort(_)) => false,
            None => false,
        }
    }

    /// The local transaction identifier of the dialogue whose frame is being sent, if one is.
    pub(crate) fn dialogue(&self) -> Option<u32>
        ensures { result ≡ dialogue_out self.now }
    {
        match &self.kind {
            Some(Kind::Frame { local, .. }) => Some(*local),
            Some(Kind::Abort(_)) => None,
            None => None,
        }
    }

    /// Whether a frame of the dialogue with this local transaction identifier is being sent.
    pub(crate) fn is_frame_of(&self, local: u32) -> bool
        ensures { result ≡ is_frame_of local self.now }
    {
        match &self.kind {
            Some(Kind::Frame { local: own, .. }) => *own == local,
            Some(Kind::Abort(_)) => false,
            None => false,
        }
    }

    /// Whether this very content is being sent: the same Abort, or the same frame of the same dialogue.
    #[inline(always)]
    pub(crate) fn is(&self, content: &Content) -> bool
        ensures { IsTrue result ↔ (self.now ≡ Some content.now) }
    {
        match content {
            Content::Abort(frame) => self.is_abort(frame),
            Content::Frame(waiting) => {
                self.is_frame_under(waiting.local, waiting.birth)
                    && self.octets.as_slice() == waiting.frame.octets()
            }
        }
    }

    /// Whether a frame of the dialogue with this local transaction identifier and this birth is being sent.
    fn is_frame_under(&self, local: u32, birth: u64) -> bool
        ensures { result ≡ is_frame_under local birth self.now }
    {
        match &self.kind {
            Some(
                Kind::Frame {
                    local: own,
                    birth: own_birth,
                },
            ) => *own == local && *own_birth == birth,
            Some(Kind::Abort(_)) => false,
            None => false,
        }
    }

    /// Whether this Abort of the provider is being sent.
    fn is_abort(&self, frame: &AbortFrame) -> bool
        ensures { IsTrue result ↔ (self.now ≡ Some (contents.Abort frame.now)) }
    {
        match &self.kind {
            Some(Kind::Abort(own)) => own == frame,
            Some(Kind::Frame { .. }) => false,
            None => false,
        }
    }
}
