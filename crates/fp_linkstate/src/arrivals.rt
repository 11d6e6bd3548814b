//! The frames of a link between their receipt and their post to the book.

ghost use Rattle.std.specs.Prelude.{◌≡◌, ◌⊎◌, ◌≤◌, [], ◌++◌, ◌==◌, true, nat_le, length, max, ◌+◌, IfOk, OnOk, OnErr};
ghost use Rattle.std.specs.VecDeque.{deque_capacity, deque_len};
ghost use Rattle.fp_entry.specs.declared.prepared.Prepared.{Prepared};
ghost use Rattle.fp_entry.specs.Prepared.{arrival_of};
ghost use Rattle.fp_linkstate.specs.Arrivals.{Adds, IsReadBy, KeepsOrder, frames_of, no_arrivals, quit, with_frame, with_frames_back};

use fp_apdu::Name;
use fp_digits::Moment;
use fp_entry::{Lookup, Prepared};
use fp_frames::Frame;
use std::alloc::{AllocError, Global};
use std::collections::VecDeque;
use std::marker::Model;

/// The settings to prepare frames with.
#[derive(Drop)]
pub struct Reading<'x> {
    /// The allocator for the messages.
    pub alloc: Global,
    /// The table that the frames are read with. `None`: memory ran out for it, and the frames are prepared as lost.
    pub lookup: Option<Lookup<'x>>,
    /// The accepted application context names.
    pub contexts: &'x [Name],
    /// The moment of the post.
    pub moment: Moment,
}

impl Reading<'_> {
    /// Prepares a frame.
    fn prepare(&mut self, frame: Frame) -> Prepared
        ensures frame { (arrival_of result).frame ≡ frame }
        ensures read { IsReadBy self.old result }
        ensures same { self.new ≡ self.old }
    {
        match &mut self.lookup {
            Some(lookup) => Prepared::read_with(
                self.alloc,
                lookup,
                self.contexts,
                frame,
                self.moment,
            ),
            None => Prepared::lost(frame, self.moment),
        }
    }
}

/// The received frames of a link that aren't posted yet, in their order.
///
/// Frames are fed at the back. The first ones are prepared for a post, into a list of the caller. After the post you
/// must give the remaining messages of that list back with [`ArrivalQueue::take_back`]; they return to the front, to be
/// prepared again later. After [`ArrivalQueue::quit`] the queue holds only such frames.
#[derive(Drop)]
pub struct ArrivalQueue {
    // The frames that aren't prepared.
    frames: VecDeque<Frame>,
    // The number of frames to prepare for one post: 1 after a post that was held back.
    portion: usize,
    // Whether new frames are dropped.
    is_over: bool,
}

impl Model for ArrivalQueue {
    ghost use Rattle.std.specs.Prelude.{◌<◌, ◌≤◌};
    ghost use Rattle.fp_linkstate.specs.Arrivals.{Arrivals};

    ghost Value = { Arrivals };

    ghost view = { λ q. record { frames = q.frames.items; portion = q.portion; is_over = q.is_over } };

    ghost invariant = { λ q. (0 < q.portion) × (q.portion ≤ 64) };
}

/// Prepares frames from the front of a list and moves them to the back of another one, until that has `portion`
/// messages or no frame is left. You must leave room for them.
#[tactic(auto, using(crate::proofs::Adding::adds_none))]
fn prepare_front(
    frames: &mut VecDeque<Frame>,
    messages: &mut VecDeque<Prepared>,
    portion: usize,
    reading: &mut Reading<'_>,
)
    requires room { length messages.old.items + portion ≤ deque_capacity messages.old }
    ensures order { frames_of messages.new.items ++ frames.new.items
        ≡ frames_of messages.old.items ++ frames.old.items }
    ensures read { Adds (IsReadBy reading.old) messages.old.items messages.new.items }
    ensures few { length messages.new.items ≤ max portion (length messages.old.items) }
    ensures all { (frames.new.items ≡ []) ⊎ (portion ≤ length messages.new.items) }
    ensures reading { reading.new ≡ reading.old }
{
    for _count in messages.len()..portion {
        let Some(frame) = frames.pop_front() else {
            return;
        };
        messages.push_back_reserved(reading.prepare(frame));
    }
}

/// Moves the frames of messages to the front of a list. You must leave room for them.
fn return_frames(frames: &mut VecDeque<Frame>, messages: &mut VecDeque<Prepared>)
    requires room { deque_len frames.old + deque_len messages.old ≤ deque_capacity frames.old }
    ensures order { frames.new.items ≡ frames_of messages.old.items ++ frames.old.items }
    ensures none { messages.new.items ≡ [] }
{
    while let Some(last) = messages.pop_back() {
        frames.push_front_reserved(last.into_arrival().frame);
    }
}

impl ArrivalQueue {
    /// The most messages of one post.
    pub const MOST: usize = 64;

    /// An empty queue.
    pub fn new(alloc: Global) -> Result<ArrivalQueue, AllocError>
        ensures { IfOk result (λ queue. queue ≡ no_arrivals) }
    {
        Ok(ArrivalQueue {
            frames: VecDeque::with_capacity(alloc, ArrivalQueue::MOST)?,
            portion: ArrivalQueue::MOST,
            is_over: false,
        })
    }

    /// Whether the queue is empty.
    pub fn is_empty(&self) -> bool
        ensures { result ≡ (length self.now.frames == 0) }
    {
        self.frames.is_empty()
    }

    /// Whether there are enough frames for a post.
    pub fn is_full(&self) -> bool
        ensures { result ≡ nat_le Self.MOST (length self.now.frames) }
    {
        self.frames.len() >= ArrivalQueue::MOST
    }

    /// Adds a received frame. If an allocation fails, this frame and all later ones are dropped.
    pub fn feed(&mut self, frame: Frame) -> Result<(), AllocError>
        ensures ok { OnOk result (self.new ≡ with_frame self.old frame) }
        ensures err { OnErr result (self.new ≡ record self.old { is_over = true }) }
    {
        if self.is_over {
            return Ok(());
        }
        if self.frames.push_back(frame).is_err() {
            self.is_over = true;
            return Err(AllocError);
        }
        Ok(())
    }

    /// Drops the frames in the queue, and all later ones.
    pub fn quit(&mut self)
        ensures { self.new ≡ quit self.old }
    {
        self.frames.clear();
        self.is_over = true;
    }

    /// Prepares frames for the next post, and appends them to these messages, up to the portion in all. If an
    /// allocation fails, nothing changes.
    pub fn prepare(
        &mut self,
        reading: &mut Reading<'_>,
        messages: &mut VecDeque<Prepared>,
    ) -> Result<(), AllocError>
        ensures order { frames_of messages.new.items ++ self.new.frames
            ≡ frames_of messages.old.items ++ self.old.frames }
        ensures read { Adds (IsReadBy reading.old) messages.old.items messages.new.items }
        ensures few { length messages.new.items ≤ max self.old.portion (length messages.old.items) }
        ensures most { self.old.portion ≤ Self.MOST }
        ensures all { OnOk result ((self.new.frames ≡ []) ⊎ (self.old.portion ≤ length messages.new.items)) }
        ensures err { OnErr result ((messages.new.items ≡ messages.old.items) × (self.new ≡ self.old)) }
        ensures same { self.new ≡ record self.old { frames = self.new.frames } }
        ensures reading { reading.new ≡ reading.old }
    {
        messages.reserve(self.portion)?;
        prepare_front(&mut self.frames, messages, self.portion, reading);
        Ok(())
    }

    /// Takes back messages that weren't posted, to be prepared again. If there are some, the first of them was held
    /// back, and the next portion is one message. Otherwise it is twice the last portion, up to the most. For example,
    /// after a post that was held back it is 1, and then 2, 4, up to 64. If an allocation fails, nothing changes.
    pub fn take_back(&mut self, messages: &mut VecDeque<Prepared>) -> Result<(), AllocError>
        ensures ok { OnOk result ((self.new ≡ with_frames_back messages.old.items self.old)
            × (messages.new.items ≡ [])) }
        ensures err { OnErr result ((self.new ≡ self.old) × (messages.new.items ≡ messages.old.items)) }
    {
        self.frames.reserve(messages.len())?;
        self.portion = if messages.is_empty() {
            (self.portion * 2).min(ArrivalQueue::MOST)
        } else {
            1
        };
        return_frames(&mut self.frames, messages);
        Ok(())
    }
}

/// The queue keeps the order of the frames.
pub fn queue_keeps_order()
    ensures { KeepsOrder }
{}
