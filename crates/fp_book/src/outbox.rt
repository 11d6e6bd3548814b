//! The frames that wait to be sent on a link.

ghost use Rattle.std.specs.Prelude.{◌≡◌, ◌+◌, [], ◌∷◌, ◌++◌, ◌<◌, ◌≤◌, ◌↔◌, Some, IfErr, IfOk, IsOk, IsTrue, length, nat_le, nat_lt};
ghost use Rattle.std.specs.VecDeque.{deque_capacity};
ghost use Rattle.fp_book.specs.Parcel.{is_frame_of};
ghost use Rattle.fp_book.specs.proof_only.Sending.{dialogue_out};
ghost use Rattle.fp_book.specs.Outbox.{Picks, TakesNext, abort_added, frames_held, nothing, waiting_frames, with_frames, with_nothing_out, without_frames_of, without_waiting};

use crate::parcel::{Content, Waiting};
use crate::sending::Sending;
use crate::{Parcel, Picked};
use fp_reply::AbortFrame;
use fp_row::{RequestFrame, RequestFrames};
use std::alloc::{AllocError, Global};
use std::collections::VecDeque;
use std::marker::Model;

/// The frames that wait to be sent on a link, the oldest first: at most [`Outbox::MOST_ABORTS`] Aborts of the provider,
/// which go first, and [`Outbox::MOST_FRAMES`] frames of dialogues; and the content that is being sent. Contracts see
/// the two lists, and the content of the parcel that is out.
#[derive(Debug, Drop)]
pub struct Outbox {
    aborts: VecDeque<AbortFrame>,
    frames: VecDeque<Waiting>,
    sending: Sending,
}

impl Model for Outbox {
    ghost use Rattle.std.specs.VecDeque.{deque_capacity};
    ghost use Rattle.fp_book.specs.Outbox.{IsKept};
    ghost use Rattle.fp_book.specs.Outbox as outboxes;

    ghost Value = { outboxes.Outbox };

    ghost view = { λ own. record { aborts = own.aborts.items; frames = own.frames.items; out = own.sending } };

    ghost invariant = { λ own. IsKept own.aborts.items (deque_capacity own.aborts) own.frames.items (deque_capacity own.frames) };
}

/// Puts frames of a dialogue after those that wait, in their order. There must be memory for them.
fn push_all(waiting: &mut VecDeque<Waiting>, local: u32, birth: u64, frames: Vec<RequestFrame>)
    requires { length waiting.old.items + length frames.items ≤ deque_capacity waiting.old }
    ensures items { waiting.new.items
        ≡ waiting.old.items ++ waiting_frames local birth frames.items }
    ensures capacity { deque_capacity waiting.new ≡ deque_capacity waiting.old }
{
    for frame in frames {
        waiting.push_back_reserved(Waiting {
            local,
            birth,
            frame,
        });
    }
}

/// Puts a frame of a dialogue after those that wait. There must be memory for it.
fn push_one(waiting: &mut VecDeque<Waiting>, local: u32, birth: u64, frame: RequestFrame)
    requires { length waiting.old.items < deque_capacity waiting.old }
    ensures items { waiting.new.items ≡ waiting.old.items ++ waiting_frames local birth (frame ∷ []) }
    ensures capacity { deque_capacity waiting.new ≡ deque_capacity waiting.old }
{
    waiting.push_back_reserved(Waiting {
        local,
        birth,
        frame,
    });
}

impl Outbox {
    /// The most Aborts of the provider that may wait.
    pub const MOST_ABORTS: usize = 64;

    /// The most frames of dialogues that may wait.
    pub const MOST_FRAMES: usize = 8192;

    /// An outbox in which no frame waits or is being sent. Reserves memory for all frames that may wait, and for the
    /// one that is being sent.
    pub fn new(alloc: Global) -> Result<Outbox, AllocError>
        ensures { IfOk result (λ outbox. outbox ≡ nothing) }
    {
        Ok(Outbox {
            aborts: VecDeque::with_capacity(alloc, Self::MOST_ABORTS)?,
            frames: VecDeque::with_capacity(alloc, Self::MOST_FRAMES)?,
            sending: Sending::new(alloc)?,
        })
    }

    /// How many places for frames are held: one by each frame that waits, and one by a dialogue's frame that is being
    /// sent. An Abort holds none.
    pub fn frames_held(&self) -> usize
        ensures held { result ≡ frames_held self.now }
        ensures most { result ≤ Self.MOST_FRAMES + 1 }
    {
        self.frames.len() + usize::from(self.sending.is_frame())
    }

    /// Whether no frame waits or is being sent.
    pub fn is_empty(&self) -> bool
        ensures { IsTrue result ↔ (self.now ≡ nothing) }
    {
        self.aborts.is_empty() && self.frames.is_empty() && !self.sending.is_busy()
    }

    /// Whether [`Outbox::MOST_ABORTS`] of the provider wait.
    pub fn has_all_aborts(&self) -> bool
        ensures { result ≡ nat_le Self.MOST_ABORTS (length self.now.aborts) }
    {
        self.aborts.len() >= Self::MOST_ABORTS
    }

    /// Puts an Abort of the provider after the others that wait, and answers true. If [`Outbox::MOST_ABORTS`] wait, it
    /// answers false and nothing changes. Takes no memory.
    pub fn add_abort(&mut self, frame: AbortFrame) -> bool
        ensures added { result ≡ nat_lt (length self.old.aborts) Self.MOST_ABORTS }
        ensures value { self.new ≡ abort_added self.old frame }
    {
        if self.aborts.len() == Self::MOST_ABORTS {
            return false;
        }
        self.aborts.push_back_reserved(frame);
        true
    }

    /// Puts frames of the dialogue with this local transaction identifier and this birth after the others that wait, in
    /// their order. With them at most [`Outbox::MOST_FRAMES`] may wait. Takes no memory.
    pub fn add_frames(&mut self, local: u32, birth: u64, frames: RequestFrames)
        requires room { length self.old.frames + length frames ≤ Self.MOST_FRAMES }
        ensures { self.new ≡ with_frames self.old (waiting_frames local birth frames) }
    {
        match frames.into_only() {
            Ok(frame) => push_one(&mut self.frames, local, birth, frame),
            Err(frames) => push_all(&mut self.frames, local, birth, frames),
        }
    }

    /// Drops the waiting frames of a dialogue. A frame that is being sent stays. Takes no memory.
    pub fn drop_frames(&mut self, local: u32)
        ensures { self.new ≡ without_frames_of local self.old }
    {
        self.frames.retain(|waiting| waiting.local != local);
    }

    /// Drops all waiting frames and Aborts. One that is being sent stays. Takes no memory.
    pub fn clear(&mut self)
        ensures { self.new ≡ without_waiting self.old }
    {
        self.aborts.clear();
        self.frames.clear();
    }

    /// The dialogue whose frame is being sent, if one is.
    pub(crate) fn sending(&self) -> Option<u32>
        ensures { result ≡ dialogue_out self.now.out }
    {
        self.sending.dialogue()
    }

    /// Whether a frame of this dialogue is being sent.
    pub fn is_sending(&self, local: u32) -> bool
        ensures { result ≡ is_frame_of local self.now.out }
    {
        self.sending.is_frame_of(local)
    }

    /// Hands out the next parcel of this link, 0 to 7: the oldest Abort of the provider, or, if none waits, the oldest
    /// frame. While a parcel is out there is no other. Takes no memory.
    #[inline(always)]
    pub fn pick(&mut self, link: u8) -> Picked
        ensures { Picks link self.old result self.new }
    {
        if self.sending.is_busy() {
            return Picked::Busy;
        }
        let Some(content) = self.take_next() else {
            return Picked::Nothing;
        };
        self.sending.start(&content);
        Picked::Parcel(Parcel { link, content })
    }

    /// Takes back the parcel of this link that is out: nothing is being sent from now on, and the waiting frames stay.
    /// A foreign parcel is returned, and nothing changes: it is of another link, or its content isn't the one that is
    /// being sent. Takes no memory.
    #[inline(always)]
    pub fn take_back(&mut self, link: u8, parcel: Parcel) -> Result<(), Parcel>
        ensures ok { IfOk result (λ _. self.new ≡ with_nothing_out self.old) }
        ensures err { IfErr result (λ back. (back ≡ parcel) × (self.new ≡ self.old)) }
        ensures known { IsOk result ↔ ((parcel.link ≡ link) × (self.old.out ≡ Some parcel.content)) }
    {
        if parcel.link != link || !self.sending.is(&parcel.content) {
            return Err(parcel);
        }
        parcel.abandon();
        self.sending.end();
        Ok(())
    }

    /// Takes the next content to send off the lists, if anything waits.
    fn take_next(&mut self) -> Option<Content>
        ensures { TakesNext self.old result self.new }
    {
        if let Some(frame) = self.aborts.pop_front() {
            return Some(Content::Abort(frame));
        }
        let waiting = self.frames.pop_front()?;
        Some(Content::Frame(waiting))
    }
}
