//! The hub of a link.

ghost use Rattle.std.specs.Prelude.{◌≡◌, [], ◌<◌, ◌≤◌, IfErr, IfOk, vec_capacity};
ghost use Rattle.fp_hub.specs.Lines.{KeepsFront};
ghost use Rattle.fp_hub.specs.Shares.{AreBlanks, after_give, after_post, after_sent, blank};

mod awaiting;
mod reports;
mod several;

use crate::hints::HintChannel;
use crate::hold::Hold;
use crate::resting::{
    LINES_OF_A_FILLING_LOG, LINES_OF_A_LONG_LOG, LINES_OF_A_NEARLY_FULL_LOG, LINES_OF_A_TEXT,
    Resting,
};
use crate::{AfterTick, Hints, Kept, Seat};
use crossbeam_utils::CachePadded;
use fp_book::{Given, Line, Log, Parcel, Picked, Posted, Status, Taken, Ticked};
use fp_digits::Moment;
use fp_entry::Prepared;
use fp_row::{Done, Turn};
use fp_tids::LocalIds;
pub use reports::Reports;
use std::alloc::{AllocError, Global};
use std::sync::atomic::{AtomicBool, Ordering};
use std::sync::ledger::{Blank, Ledger};
use std::sync::{Condvar, Mutex, Wait};
use std::time::Duration;

/// The book of a link under its lock, which all threads of the link share.
///
/// After it was made, only these calls take memory: [`Hub::post`], [`Hub::post_front`], [`Hub::tick`],
/// [`Hub::tick_and_look`], [`Hub::take`], [`Hub::give_and_take`], [`Hub::serve_front`], [`Hub::help`], [`Hub::worker`],
/// [`Hub::hints`] and [`Hub::hint`]; and [`Hub::hint_after_no_room`] and [`Hub::await_parcel`] if they hint.
#[derive(Drop)]
pub struct Hub<A: Ledger, B: Ledger, C: Ledger> {
    kept: Mutex<Kept<A, B, C>>,
    // The sending thread sleeps here until there may be a parcel to pick, or the link goes down. Each field that threads
    // write without the lock has cache lines of its own, so that they don't wait for each other's.
    moved: CachePadded<Condvar>,
    // Set while a thread may sleep until there is room, or quiet. It is set and cleared under the lock, so that a
    // thread that looked and found neither misses no call after its look.
    awaits_room: CachePadded<AtomicBool>,
    // The threads that await room or quiet sleep here until a turn is given or put back, a parcel is handed out or
    // reported, or the link goes down.
    room_came: CachePadded<Condvar>,
    hints: CachePadded<HintChannel>,
    // Set when a take found no place for a frame, until a worker is hinted for it.
    lacks_room: CachePadded<AtomicBool>,
    resting: CachePadded<Resting>,
}

/// Whether a mark is set; clears it. It is read before it is written, since it is mostly not set.
fn take_mark(mark: &AtomicBool) -> bool {
    mark.load(Ordering::SeqCst) && mark.swap(false, Ordering::SeqCst)
}

impl<A: Ledger, B: Ledger, C: Ledger> Hub<A, B, C> {
    /// The hub of a link, 0 to 7, which is up, and its first seat, which has all parts. If memory runs out, the
    /// blanks are spent. The run has no tag.
    pub fn new(
        alloc: Global,
        link: u8,
        blanks: (Blank, Blank, Blank),
    ) -> Result<(Hub<A, B, C>, Seat<A, B, C>), AllocError>
        requires link { link < LocalIds.LINKS }
        requires blanks { AreBlanks blanks A.name A.parts B.name B.parts C.name C.parts }
        ensures { IfOk result (λ made. made.1 ≡ blank 64) }
    {
        Self::with_tag(alloc, link, 0, blanks)
    }

    /// The hub of a link, as [`Hub::new`], in a run with this tag, 0 to 4,094.
    pub fn with_tag(
        alloc: Global,
        link: u8,
        tag: u16,
        blanks: (Blank, Blank, Blank),
    ) -> Result<(Hub<A, B, C>, Seat<A, B, C>), AllocError>
        requires link { link < LocalIds.LINKS }
        requires tags { tag ≤ LocalIds.LAST_TAG }
        requires blanks { AreBlanks blanks A.name A.parts B.name B.parts C.name C.parts }
        ensures { IfOk result (λ made. made.1 ≡ blank 64) }
    {
        let hints = HintChannel::new(alloc)?;
        let (kept, seat) = Kept::new(alloc, link, tag, blanks)?;
        let hub = Hub {
            kept: Mutex::new(kept),
            moved: CachePadded::new(Condvar::new()),
            awaits_room: CachePadded::new(AtomicBool::new(false)),
            room_came: CachePadded::new(Condvar::new()),
            hints: CachePadded::new(hints),
            lacks_room: CachePadded::new(AtomicBool::new(false)),
            resting: CachePadded::new(Resting::new()),
        };
        Ok((hub, seat))
    }

    /// Takes the lock of the link.
    fn hold<R: Wait>(&self, rt: &R) -> Hold<'_, A, B, C> {
        Hold::new(self.kept.lock(rt), &*self.resting)
    }

    /// Releases the lock after a call that may have made room, or quiet, and wakes the threads that await it.
    fn release_and_wake(&self, hold: Hold<'_, A, B, C>) {
        let is_awaited = take_mark(&self.awaits_room);
        drop(hold);
        if is_awaited {
            self.room_came.notify_all();
        }
    }

    /// Wakes the sending thread: there may be a parcel to pick, or the link went down.
    pub fn tell_sender(&self) {
        self.moved.notify_all();
    }

    /// Wakes the sending thread and the resting one: the link went down.
    fn notify_down(&self) {
        self.tell_sender();
        self.resting.wake();
    }

    /// Posts a message, as [`Kept::post`]: if it is accepted, the seat grows by its components.
    pub fn post<R: Wait>(
        &self,
        rt: &R,
        alloc: Global,
        seat: &mut Seat<A, B, C>,
        came: Prepared,
    ) -> Posted
        ensures grows { seat.new ≡ after_post seat.old came result }
    {
        let answer = self.hold(rt).kept.post(alloc, seat, came);
        if let Posted::Aborted(_) = answer {
            self.tell_sender();
        }
        answer
    }

    /// Advances the clock, as [`Kept::tick`].
    pub fn tick<R: Wait>(&self, rt: &R, moment: Moment) -> Ticked {
        self.hold(rt).kept.tick(moment)
    }

    /// Advances the clock, as [`Hub::tick`], and returns the state of the book after that, in the same hold.
    pub fn tick_and_look<R: Wait>(&self, rt: &R, moment: Moment) -> AfterTick {
        let mut hold = self.hold(rt);
        let _ = hold.kept.tick(moment);
        let book = hold.kept.book();
        AfterTick {
            status: book.status(),
            entry_count: book.entry_count(),
        }
    }

    /// Hands out a turn, as [`Kept::take`]. After `NoRoom` a worker is hinted when a parcel is awaited next.
    pub fn take<R: Wait>(&self, rt: &R) -> Taken {
        let mut hold = self.hold(rt);
        let taken = hold.kept.take();
        if let Taken::NoRoom = &taken {
            self.lacks_room.store(true, Ordering::SeqCst);
        }
        taken
    }

    /// Takes back a turn that was served, as [`Kept::give`]: the seat grows by the entries that were served. A stale or
    /// foreign turn is returned, and nothing changes; you must spend it, as by [`Done::abandon`]. Takes no memory.
    pub fn give<R: Wait>(&self, rt: &R, seat: &mut Seat<A, B, C>, done: Done) -> Result<Given, Done>
        ensures same { IfErr result (λ back. back ≡ done) }
        ensures grows { seat.new ≡ after_give seat.old done result }
    {
        let mut hold = self.hold(rt);
        let given = hold.kept.give(seat, done);
        self.release_and_wake(hold);
        if let Ok(Given::Queued(_)) = &given {
            self.tell_sender();
        }
        given
    }

    /// Takes back a turn that wasn't served, as [`Kept::put_back`]. A stale or foreign turn is returned, and nothing
    /// changes; you must spend it, as by [`Turn::abandon`]. Takes no memory.
    pub fn put_back<R: Wait>(&self, rt: &R, turn: Turn) -> Result<(), Turn>
        ensures { IfErr result (λ back. back ≡ turn) }
    {
        let mut hold = self.hold(rt);
        let back = hold.kept.put_back(turn);
        self.release_and_wake(hold);
        back
    }

    /// Hands out the next parcel, as [`Kept::pick`]. Takes no memory.
    pub fn pick<R: Wait>(&self, rt: &R) -> Picked {
        let mut hold = self.hold(rt);
        let picked = hold.kept.pick();
        if let Picked::Parcel(_) = &picked {
            self.release_and_wake(hold);
        }
        picked
    }

    /// Takes back the parcel that was sent, as [`Kept::sent`]: the seat grows by one sent frame if the parcel is a
    /// dialogue's; an Abort of the provider isn't counted. A stale or foreign parcel is returned, and nothing changes;
    /// you must spend it, as by [`Parcel::abandon`]. Takes no memory.
    pub fn sent<R: Wait>(
        &self,
        rt: &R,
        seat: &mut Seat<A, B, C>,
        parcel: Parcel,
    ) -> Result<(), Parcel>
        ensures same { IfErr result (λ back. back ≡ parcel) }
        ensures grows { seat.new ≡ after_sent seat.old parcel result }
    {
        let mut hold = self.hold(rt);
        let sent = hold.kept.sent(seat, parcel);
        self.release_and_wake(hold);
        if sent.is_ok() {
            self.tell_sender();
        }
        sent
    }

    /// Takes back the parcel that couldn't be sent, as [`Kept::unsent`]: the link goes down. A stale or foreign parcel
    /// is returned, and nothing changes; you must spend it, as by [`Parcel::abandon`]. Takes no memory.
    pub fn unsent<R: Wait>(&self, rt: &R, parcel: Parcel) -> Result<(), Parcel>
        ensures { IfErr result (λ back. back ≡ parcel) }
    {
        let mut hold = self.hold(rt);
        let unsent = hold.kept.unsent(parcel);
        self.release_and_wake(hold);
        if unsent.is_ok() {
            self.notify_down();
        }
        unsent
    }

    /// Takes the link down, as [`Kept::down`]. Takes no memory.
    pub fn down<R: Wait>(&self, rt: &R) {
        let mut hold = self.hold(rt);
        hold.kept.down();
        self.release_and_wake(hold);
        self.notify_down();
    }

    /// Moves the oldest lines of the log to the end of `lines`, as [`Kept::drain`]. Takes no memory.
    pub fn drain<R: Wait>(&self, rt: &R, lines: &mut Vec<Line>)
        ensures behind { KeepsFront lines.old.items lines.new.items }
        ensures capacity { vec_capacity lines.new ≡ vec_capacity lines.old }
    {
        self.hold(rt).kept.drain(lines);
    }

    /// Exchanges the log for an empty one, as [`Kept::exchange_log`], and returns the link. Takes no memory.
    pub fn exchange_log<R: Wait>(&self, rt: &R, log: &mut Log) -> u8
        requires empty { log.old ≡ [] }
    {
        self.hold(rt).kept.exchange_log(log)
    }

    /// Whether the link is down.
    pub fn is_down<R: Wait>(&self, rt: &R) -> bool {
        self.hold(rt).kept.book().is_down()
    }

    /// The status of the link.
    pub fn status<R: Wait>(&self, rt: &R) -> Status {
        self.hold(rt).kept.book().status()
    }

    /// Rests for this time, or until [`LINES_OF_A_REST`](crate::LINES_OF_A_REST) lines of the log wait, or the link
    /// goes down. It may return sooner. It is woken only by the line that brings the log to that length: if a drain
    /// leaves as many lines, no later line wakes it. One thread at a time may rest, the one that runs the clock and
    /// drains the log; if it isn't resting then, its next rest ends at once. Doesn't take the lock of the link.
    pub fn rest<R: Wait>(&self, rt: &R, time: Duration) {
        self.resting.rest(rt, time);
    }

    /// Whether five eighths of the places for log lines are taken, so that a thread that adds lines should drain some
    /// if that needs no wait. This and the next three calls don't take the lock of the link: they say how full the log
    /// was when the lock was last released.
    pub fn is_log_filling(&self) -> bool {
        self.resting.has_reached(LINES_OF_A_FILLING_LOG)
    }

    /// Whether seven eighths of the places for log lines are taken, so that a thread that adds lines should drain some,
    /// even if it has to wait for that.
    pub fn is_log_nearly_full(&self) -> bool {
        self.resting.has_reached(LINES_OF_A_NEARLY_FULL_LOG)
    }

    /// Whether at least [`LINES_OF_A_TEXT`] log lines wait, so that a thread that adds lines should make their text.
    pub fn has_log_lines(&self) -> bool {
        self.resting.has_reached(LINES_OF_A_TEXT)
    }

    /// Whether at least 1,024 log lines wait. Then they are moved in portions instead of exchanged.
    pub fn is_log_long(&self) -> bool {
        self.resting.has_reached(LINES_OF_A_LONG_LOG)
    }

    /// A worker's end of the hint channel. You must take the ends of all workers before the first hint: at most as many
    /// hints wait as there are workers then.
    pub fn hints(&self) -> Result<Hints, AllocError> {
        self.hints.listen()
    }

    /// How many workers have an end of the hint channel, at least one.
    pub(crate) fn worker_count(&self) -> usize {
        self.hints.worker_count()
    }

    /// Hints to a worker that there may be a turn to take. No hint is added if one already waits for each worker of the
    /// link. `false` if the hub is closed, or memory ran out. Doesn't take the lock of the link.
    pub fn hint<R: Wait>(&self, rt: &R) -> bool {
        self.hints.hint(rt)
    }

    /// Hints as [`Hub::hint`], once for each of this number of dialogues, and at most once for each worker.
    pub(crate) fn hint_for<R: Wait>(&self, rt: &R, dialogues: usize) {
        for _ in 0..dialogues.min(self.worker_count()) {
            self.hint(rt);
        }
    }

    /// Stops the hints: each worker ends once it has taken the waiting hints. Doesn't take the lock of the link.
    pub fn close<R: Wait>(&self, rt: &R) {
        self.hints.close(rt);
    }

    /// If a take found no place for a frame, hints to a worker: a frame sent since may have freed one.
    pub fn hint_after_no_room<R: Wait>(&self, rt: &R) {
        if take_mark(&self.lacks_room) {
            self.hint(rt);
        }
    }

    /// The guarded state, once no thread shares the hub any more.
    pub(crate) fn into_kept(self) -> Kept<A, B, C> {
        let Hub { kept, .. } = self;
        kept.into_inner()
    }
}
