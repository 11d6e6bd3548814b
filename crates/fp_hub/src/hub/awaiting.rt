//! Calls of a hub that wait: for room, for quiet, or for a parcel to send.

use crate::hold::Hold;
use crate::{Hub, Next};
use fp_book::Parcel;
use fp_entry::Prepared;
use std::rt::Clock;
use std::sync::Wait;
use std::sync::atomic::Ordering;
use std::sync::ledger::Ledger;
use std::time::{Duration, Instant};

/// The longest sleep of a thread that awaits room, in seconds, before it looks again.
const SECONDS_FOR_ROOM: u64 = 1;

/// The rest of the time `most` since `start`. `None` if nothing is left, or the clock gives no time.
fn time_left<R: Clock>(rt: &R, start: Option<Instant>, most: Duration) -> Option<Duration> {
    let left = most.checked_sub(start?.elapsed(rt).ok()?)?;
    if left.is_zero() { None } else { Some(left) }
}

impl<A: Ledger, B: Ledger, C: Ledger> Hub<A, B, C> {
    /// Waits until this message isn't held back any more, or, if there is none, until the book is quiet; or until the
    /// link is down. `false` if the time `most`, if there is one, went by first.
    fn await_calls<R: Wait + Clock>(
        &self,
        rt: &R,
        came: Option<&Prepared>,
        most: Option<Duration>,
    ) -> bool {
        let start = Instant::now(rt).ok();
        let mut hold = self.hold(rt);
        for _ in rt.forever() {
            let book = hold.kept.book();
            let is_over = match came {
                Some(came) => !book.holds_back(came),
                None => book.is_quiet() || book.is_down(),
            };
            if is_over {
                return true;
            }
            let left = match most {
                Some(most) => time_left(rt, start, most),
                None => Some(Duration::from_secs(SECONDS_FOR_ROOM)),
            };
            let Some(left) = left else {
                return false;
            };
            self.awaits_room.store(true, Ordering::SeqCst);
            hold = hold.wait_timeout(rt, &*self.room_came, left);
        }
        unreachable!()
    }

    /// Waits until this message isn't held back any more, or the link is down. It looks under the lock before each
    /// sleep, and again each second. Each call that gives or puts back a turn, hands out or reports a parcel, or takes
    /// the link down wakes it, so it misses none of them. A post, which may also make room, doesn't: only the thread
    /// that posts awaits room. You must not hold a turn or a parcel meanwhile: the call might wait for it.
    pub fn await_room<R: Wait + Clock>(&self, rt: &R, came: &Prepared) {
        self.await_calls(rt, Some(came), None);
    }

    /// Waits as [`Hub::await_room`], at most for this time. `false` if the message is still held back.
    pub fn await_room_within<R: Wait + Clock>(
        &self,
        rt: &R,
        came: &Prepared,
        most: Duration,
    ) -> bool {
        self.await_calls(rt, Some(came), Some(most))
    }

    /// Waits until the book is quiet or the link is down, at most for this time. Returns whether it is. It is woken as
    /// [`Hub::await_room`] is.
    pub fn await_quiet<R: Wait + Clock>(&self, rt: &R, most: Duration) -> bool {
        self.await_calls(rt, None, Some(most))
    }

    /// Waits until there is a parcel to send, and hands it out. `None` if the link is down. Before that it hints as
    /// [`Hub::hint_after_no_room`].
    pub fn await_parcel<R: Wait>(&self, rt: &R) -> Option<Parcel> {
        self.hint_after_no_room(rt);
        let mut hold = self.hold(rt);
        for _ in rt.forever() {
            match self.hand_out(hold) {
                Ok(next) => return next,
                Err(held) => hold = held.wait(rt, &*self.moved),
            }
        }
        unreachable!()
    }

    /// Hands out the next parcel, and releases the lock. `None` if the link is down. `Err` if there is no parcel to
    /// send, with the lock still held.
    fn hand_out<'x>(&self, hold: Hold<'x, A, B, C>) -> Result<Option<Parcel>, Hold<'x, A, B, C>> {
        let mut hold = hold;
        match hold.kept.next() {
            Next::Parcel(parcel) => {
                self.release_and_wake(hold);
                Ok(Some(parcel))
            }
            Next::Down => Ok(None),
            Next::Nothing => Err(hold),
        }
    }
}
