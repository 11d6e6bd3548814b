//! Calls of a link's book that make several steps, a bounded number of them.

ghost use Rattle.std.specs.Prelude.{◌≡◌, ◌↔◌, false, IfErr, IfOk, IsOk, length};
ghost use Rattle.std.specs.VecDeque.{deque_capacity};
ghost use Rattle.fp_book.specs.Calls.{IsOut};
ghost use Rattle.fp_book.specs.Shelf.{Sound};
ghost use Rattle.fp_hub.specs.Holds.{GivesAndTakes, PostsFront, ReturnsFront, ReturnsIn, SendsAndFinds, ServesIn, ServesNone, ServesSome, ServesTurns, TakesTurns, gave, is_aborted, is_queued, share};
ghost use Rattle.fp_hub.specs.Shares.{Within, after_sent};

use crate::next::SentAndNext;
use crate::work::{Stopped, Work, Worked};
use crate::{Kept, Seat};
use fp_book::{Given, InPlace, Parcel, Posted, Taken};
use fp_entry::Prepared;
use std::alloc::Global;
use std::collections::VecDeque;
use std::sync::ledger::Ledger;

/// The most messages that are posted in one hold.
const MOST_POSTS: usize = 64;

/// The most turns that are taken back, handed out or served in one hold.
pub(crate) const MOST_TURNS: usize = 32;

/// Whether an Abort of the provider answers a message.
fn is_aborted(answer: Posted) -> bool
    ensures { result ≡ is_aborted answer }
{
    matches!(answer, Posted::Aborted(_))
}

/// Whether the frame of the request of a turn that was given waits to be sent.
fn is_queued(given: Given) -> bool
    ensures { result ≡ is_queued (gave given) }
{
    matches!(given, Given::Queued(_))
}

impl<A: Ledger, B: Ledger, C: Ledger> Kept<A, B, C> {
    /// Posts messages from the front of a list in their order, each as [`Kept::post_unless_held_back`]: at most 64, and
    /// none from the first one on that is held back. That one is put back at the front, where the list has room for it,
    /// and the others stay in the list. Returns whether an Abort of the provider answers one of them.
    pub fn post_front(
        &mut self,
        alloc: Global,
        seat: &mut Seat<A, B, C>,
        came: &mut VecDeque<Prepared>,
    ) -> bool
        ensures posts { PostsFront self.old self.new came.old.items came.new.items seat.old seat.new result }
        ensures sound { Sound self.new }
        ensures within { Within seat.old self.old.totals }
    {
        self.compare(seat);
        let mut has_aborted = false;
        for _count in 0..MOST_POSTS {
            let Some(next) = came.pop_front() else {
                return has_aborted;
            };
            match self.post_unless_held_back(alloc, seat, next) {
                Ok(answer) => has_aborted = has_aborted | is_aborted(answer),
                Err(held_back) => {
                    came.push_front_reserved(held_back);
                    return has_aborted;
                }
            }
        }
        has_aborted
    }

    /// Takes back a turn, as [`Kept::give`] if it was served and else as [`Kept::put_back`]. A stale or foreign turn is
    /// abandoned. Returns whether the frame of its request was queued.
    fn return_one(&mut self, seat: &mut Seat<A, B, C>, work: Work) -> bool
        ensures returns { ReturnsIn self.old self.new work seat.old seat.new result }
        ensures sound { Sound self.new }
    {
        match work {
            Work::Served(done) => match self.give(seat, done) {
                Ok(given) => is_queued(given),
                Err(foreign) => {
                    foreign.abandon();
                    false
                }
            },
            Work::Unserved(turn) => {
                if let Err(foreign) = self.put_back(turn) {
                    foreign.abandon();
                }
                false
            }
        }
    }

    /// Takes back turns from the front of a list in their order, at most 32: those that were served as [`Kept::give`],
    /// the others as [`Kept::put_back`]. Stale or foreign ones are abandoned. Returns whether the frame of a request
    /// was queued.
    pub fn return_front(&mut self, seat: &mut Seat<A, B, C>, work: &mut VecDeque<Work>) -> bool
        ensures returns { ReturnsFront self.old self.new work.old.items work.new.items seat.old seat.new result }
        ensures capacity { deque_capacity work.new ≡ deque_capacity work.old }
        ensures sound { Sound self.new }
        ensures within { Within seat.old self.old.totals }
    {
        self.compare(seat);
        let mut has_queued = false;
        for _count in 0..MOST_TURNS {
            let Some(first) = work.pop_front() else {
                return has_queued;
            };
            let queues = self.return_one(seat, first);
            has_queued = has_queued | queues;
        }
        has_queued
    }

    /// Takes turns as [`Kept::take`], and puts them at the end of a list, as far as that has room: the share that one
    /// of this number of workers has of the ready dialogues. It is at least one turn, and at most `most` and 32. For
    /// example, with 3 workers, 20 ready dialogues and a `most` of 32 it is 6 turns.
    pub fn take_share(&mut self, workers: usize, most: usize, work: &mut VecDeque<Work>) -> Stopped
        ensures takes { TakesTurns self.old self.new work.old.items work.new.items
            (share (length self.old.ready) workers most) (deque_capacity work.old) result }
        ensures sound { Sound self.new }
    {
        self.say_sound();
        let most = (self.book.ready_count() / workers.max(1))
            .max(1)
            .min(most.min(MOST_TURNS));
        for _count in 0..most {
            if work.len() >= work.capacity() {
                return Stopped::Enough;
            }
            match self.take() {
                Taken::Turn(turn) => work.push_back_reserved(Work::Unserved(turn)),
                Taken::Nothing => return Stopped::Nothing,
                Taken::NoRoom => return Stopped::NoRoom,
                Taken::Memory => return Stopped::Memory,
            }
        }
        Stopped::Enough
    }

    /// Takes back the turns of a list, as [`Kept::return_front`], and then takes others, as [`Kept::take_share`].
    pub fn give_and_take(
        &mut self,
        seat: &mut Seat<A, B, C>,
        work: &mut VecDeque<Work>,
        workers: usize,
        most: usize,
    ) -> Worked
        ensures works { GivesAndTakes self.old self.new work.old.items work.new.items seat.old seat.new
            workers most (deque_capacity work.old) result }
        ensures sound { Sound self.new }
        ensures within { Within seat.old self.old.totals }
    {
        let is_queued = self.return_front(seat, work);
        let stopped = self.take_share(workers, most, work);
        Worked {
            is_queued,
            stopped,
            ready_count: self.book.ready_count(),
        }
    }

    /// Serves a turn in its place, as [`Kept::serve`], and returns whether a frame of its requests was queued; or why
    /// none was served, and then nothing changes.
    fn serve_one(&mut self, seat: &mut Seat<A, B, C>) -> Result<bool, Stopped>
        ensures ok { IfOk result (λ queued. ServesIn self.old self.new seat.old seat.new queued) }
        ensures err { IfErr result (λ stopped. ServesNone stopped self.old self.new seat.old seat.new) }
        ensures sound { Sound self.new }
    {
        match self.serve(seat) {
            InPlace::Served { given, .. } => Ok(is_queued(given)),
            InPlace::Nothing => Err(Stopped::Nothing),
            InPlace::NoRoom => Err(Stopped::NoRoom),
            InPlace::Memory => Err(Stopped::Memory),
        }
    }

    /// Serves turns in their places, at most this number of them. Sets `has_queued` if a frame of their requests was
    /// queued. Returns why no more were served.
    fn serve_some(
        &mut self,
        seat: &mut Seat<A, B, C>,
        most: usize,
        has_queued: &mut bool,
    ) -> Stopped
        requires none { has_queued.old ≡ false }
        ensures serves { ServesSome self.old self.new seat.old seat.new most has_queued.new result }
        ensures sound { Sound self.new }
    {
        self.say_sound();
        for _count in 0..most {
            match self.serve_one(seat) {
                Ok(queues) => *has_queued = *has_queued | queues,
                Err(stopped) => return stopped,
            }
        }
        Stopped::Enough
    }

    /// Serves turns in their places, each as [`Kept::serve`], as long as a dialogue is ready: at most `most`, and at
    /// most 32.
    pub fn serve_front(&mut self, seat: &mut Seat<A, B, C>, most: usize) -> Worked
        ensures serves { ServesTurns self.old self.new seat.old seat.new most result }
        ensures sound { Sound self.new }
        ensures within { Within seat.old self.old.totals }
    {
        self.compare(seat);
        let mut is_queued = false;
        let stopped = self.serve_some(seat, most.min(MOST_TURNS), &mut is_queued);
        Worked {
            is_queued,
            stopped,
            ready_count: self.book.ready_count(),
        }
    }

    /// Takes back the parcel that was sent, as [`Kept::sent`], and then hands out the next one, unless the link is
    /// down.
    pub fn sent_and_next(&mut self, seat: &mut Seat<A, B, C>, parcel: Parcel) -> SentAndNext
        ensures sends { SendsAndFinds self.old parcel result.sent result.next self.new }
        ensures known { IsOk result.sent ↔ IsOut self.old parcel }
        ensures sound { Sound self.new }
        ensures grows { seat.new ≡ after_sent seat.old parcel result.sent }
        ensures within { Within seat.old self.old.totals }
    {
        let sent = self.sent(seat, parcel);
        let next = self.next();
        SentAndNext { sent, next }
    }
}
