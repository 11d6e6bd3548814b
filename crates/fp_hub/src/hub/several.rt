//! Calls of a hub that make several steps in one hold, a bounded number of them.

ghost use Rattle.std.specs.Prelude.{◌≡◌, ◌≤◌};
ghost use Rattle.fp_hub.specs.Holds.{CountsPosts, CountsWork};

use crate::{Hub, Seat, Stopped, Work, Worked};
use fp_entry::Prepared;
use std::alloc::Global;
use std::collections::VecDeque;
use std::sync::Wait;
use std::sync::atomic::Ordering;
use std::sync::ledger::Ledger;

impl<A: Ledger, B: Ledger, C: Ledger> Hub<A, B, C> {
    /// Posts messages from the front of a list in their order, as [`Kept::post_front`]: at most 64, and none from the
    /// first one on that is held back. The others stay in the list. `true` if an Abort of the provider answers one of
    /// them: then you must wake the sending thread by [`Hub::tell_sender`].
    pub fn post_front<R: Wait>(
        &self,
        rt: &R,
        alloc: Global,
        seat: &mut Seat<A, B, C>,
        came: &mut VecDeque<Prepared>,
    ) -> bool
        ensures grows { CountsPosts came.old.items came.new.items seat.old seat.new }
    {
        self.hold(rt).kept.post_front(alloc, seat, came)
    }

    /// Takes back the turns of a list, at most 32, and then hands out others, which are put at its end, as
    /// [`Kept::give_and_take`]: the share of one of this number of workers, at most `most` turns. You must wake the
    /// sending thread for frames that were queued, by [`Hub::tell_sender`]. After a take that finds no place for a
    /// frame, the next wait for a parcel hints to a worker.
    pub fn give_and_take<R: Wait>(
        &self,
        rt: &R,
        seat: &mut Seat<A, B, C>,
        work: &mut VecDeque<Work>,
        workers: usize,
        most: usize,
    ) -> Worked
        ensures works { CountsWork work.old.items work.new.items most seat.old seat.new }
        ensures same { seat.new ≡ record seat.old { served = seat.new.served } }
        ensures grows { seat.old.served ≤ seat.new.served }
    {
        let brings_room = !work.is_empty();
        let mut hold = self.hold(rt);
        let worked = hold.kept.give_and_take(seat, work, workers, most);
        if worked.stopped == Stopped::NoRoom {
            self.lacks_room.store(true, Ordering::SeqCst);
        }
        if brings_room {
            self.release_and_wake(hold);
        }
        worked
    }

    /// Serves turns in their places, at most `most` and at most 32, as [`Kept::serve_front`]. You must wake the sending
    /// thread for frames that were queued, by [`Hub::tell_sender`]. If a turn finds no place for a frame, the next wait
    /// for a parcel hints to a worker.
    pub fn serve_front<R: Wait>(&self, rt: &R, seat: &mut Seat<A, B, C>, most: usize) -> Worked
        ensures same { seat.new ≡ record seat.old { served = seat.new.served } }
        ensures grows { seat.old.served ≤ seat.new.served }
    {
        let mut hold = self.hold(rt);
        let worked = hold.kept.serve_front(seat, most);
        if worked.stopped == Stopped::NoRoom {
            self.lacks_room.store(true, Ordering::SeqCst);
        }
        self.release_and_wake(hold);
        worked
    }
}
