//! The frames of a turn's requests.

ghost use Rattle.std.specs.Prelude.{◌≡◌, ◌∷◌, ◌++◌, [], IsOk, IsTrue, IfErr, IfOk, ◌↔◌, OnOk, OnErr, length};

use crate::RequestFrame;
use std::alloc::{AllocError, Global};
use std::marker::Model;
use std::{mem, slice};

/// Frames of requests, in order. A single frame, as most turns request it, is held without a `Vec`. Contracts see the
/// list of their octets.
#[derive(Debug, Drop)]
pub struct RequestFrames {
    list: FrameList,
    alloc: Global,
}

/// A list of frames in its shortest form.
#[derive(Debug, Drop)]
enum FrameList {
    /// No frame.
    None,
    /// One frame, without a `Vec`.
    One(RequestFrame),
    /// Two frames or more, in order.
    Many(Vec<RequestFrame>),
}

impl Model for RequestFrames {
    ghost use Rattle.std.specs.Prelude.{ℕ, List};
    ghost use Rattle.fp_row.specs.proof_only.FrameList.{IsShortest, frames_at};

    ghost Value = { List (List ℕ) };

    ghost view = { λ own. frames_at own.list };

    ghost invariant = { λ own. IsShortest own.list };
}

impl RequestFrames {
    /// The room of a new `Vec`, in frames. It begins with two.
    const FIRST_ROOM: usize = 4;

    /// No frame. Takes no memory.
    pub(crate) fn new(alloc: Global) -> RequestFrames
        ensures { result ≡ [] }
    {
        RequestFrames {
            list: FrameList::None,
            alloc,
        }
    }

    /// Puts a frame after the others. If memory runs out, the list is unchanged.
    pub(crate) fn push(&mut self, frame: RequestFrame) -> Result<(), AllocError>
        ensures ok { OnOk result (self.new ≡ self.old ++ frame ∷ []) }
        ensures err { OnErr result (self.new ≡ self.old) }
    {
        match mem::replace(&mut self.list, FrameList::None) {
            FrameList::None => {
                self.list = FrameList::One(frame);
                Ok(())
            }
            FrameList::One(first) => {
                let Ok(mut frames) = Vec::with_capacity(self.alloc, Self::FIRST_ROOM) else {
                    self.list = FrameList::One(first);
                    return Err(AllocError);
                };
                frames.push_reserved(first);
                frames.push_reserved(frame);
                self.list = FrameList::Many(frames);
                Ok(())
            }
            FrameList::Many(mut frames) => {
                let pushed = frames.push(frame);
                self.list = FrameList::Many(frames);
                pushed?;
                Ok(())
            }
        }
    }

    /// The number of frames.
    pub fn len(&self) -> usize
        ensures { result ≡ length self.now }
    {
        self.as_slice().len()
    }

    /// Whether there is no frame.
    pub fn is_empty(&self) -> bool
        ensures { IsTrue result ↔ (self.now ≡ []) }
    {
        self.as_slice().is_empty()
    }

    /// The frames.
    pub fn as_slice(&self) -> &[RequestFrame]
        ensures { result.now ≡ self.now }
    {
        match &self.list {
            FrameList::None => &[],
            FrameList::One(frame) => slice::from_ref(frame),
            FrameList::Many(frames) => frames.as_slice(),
        }
    }

    /// The only frame. If there are none or several, `Err` has their list. Takes no memory.
    pub fn into_only(self) -> Result<RequestFrame, Vec<RequestFrame>>
        ensures ok { IfOk result (λ frame. self ≡ frame ∷ []) }
        ensures err { IfErr result (λ frames. frames.items ≡ self) }
        ensures only { IsOk result ↔ (length self ≡ 1) }
    {
        match self.list {
            FrameList::None => Err(Vec::new(self.alloc)),
            FrameList::One(frame) => Ok(frame),
            FrameList::Many(frames) => Err(frames),
        }
    }
}
