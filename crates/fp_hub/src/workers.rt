//! Workers.

ghost use Rattle.std.specs.Prelude.{◌≡◌, ◌≤◌, [], map};
ghost use Rattle.fp_hub.specs.Holds.{turn_in};

use crate::kept::MOST_TURNS;
use crate::{Gate, Hints, Hub, Seat, Stopped, Work};
use std::alloc::Global;
use std::collections::VecDeque;
use std::sync::Wait;
use std::sync::ledger::Ledger;

/// Serves a turn unless it was served before. If memory runs out it stays unserved.
fn serve_one<G: Gate>(alloc: Global, gate: &G, work: Work) -> Work
    ensures { turn_in result ≡ turn_in work }
{
    match work {
        Work::Unserved(turn) => {
            gate.pass(turn.link(), turn.birth(), turn.position());
            match turn.serve(alloc) {
                Ok(done) => Work::Served(done),
                Err(turn) => Work::Unserved(turn),
            }
        }
        Work::Served(done) => Work::Served(done),
    }
}

/// Serves the turns of a list, which keep their order. `false` if an allocation failed, so that one stayed unserved.
fn serve_each<G: Gate>(alloc: Global, gate: &G, work: &mut VecDeque<Work>) -> bool
    ensures { map turn_in work.new.items ≡ map turn_in work.old.items }
{
    let mut are_served = true;
    for _count in 0..work.len() {
        let Some(first) = work.pop_front() else {
            unreachable!();
        };
        let served = serve_one(alloc, gate, first);
        if let Work::Unserved(_) = &served {
            are_served = false;
        }
        work.push_back_reserved(served);
    }
    are_served
}

/// Gives up the turns of a list, and drops it.
pub fn abandon_all(work: VecDeque<Work>) {
    let mut work = work;
    while let Some(left) = work.pop_front() {
        left.abandon();
    }
    work.destroy_empty();
}

impl<A: Ledger, B: Ledger, C: Ledger> Hub<A, B, C> {
    /// Serves ready turns in their places, at most this number, and 32 in each hold, on a thread that also has other
    /// duties; they count in its seat. None of these turns passes the gate, which is called after each hold
    /// ([`Gate::after_hold`]). After a hold, workers are hinted for the ready dialogues beyond the number that the next
    /// holds may serve; for all of them if memory ran out; for none if there was no place for a frame: the sending
    /// thread hints then. `true` if a frame was queued: then you must wake the sending thread.
    pub fn help<R: Wait, G: Gate>(
        &self,
        rt: &R,
        gate: &G,
        seat: &mut Seat<A, B, C>,
        most: usize,
    ) -> bool
        ensures same { seat.new ≡ record seat.old { served = seat.new.served } }
        ensures grows { seat.old.served ≤ seat.new.served }
    {
        let mut left = most;
        let mut is_queued = false;
        for _ in rt.forever() {
            let worked = self.serve_front(rt, seat, left);
            is_queued = is_queued || worked.is_queued;
            left = if worked.stopped == Stopped::Enough {
                left.saturating_sub(MOST_TURNS)
            } else {
                0
            };
            if worked.stopped != Stopped::NoRoom {
                self.hint_for(rt, worked.ready_count.saturating_sub(left));
            }
            gate.after_hold();
            if left == 0 {
                return is_queued;
            }
        }
        unreachable!()
    }

    /// Takes and serves turns until none is ready, or places or memory run out: in each hold it gives back the turns
    /// that it served and takes its share of the ready ones. If it leaves some it hints before a turn passes the gate.
    /// No turn is left in the list.
    fn serve_ready<R: Wait, G: Gate>(
        &self,
        rt: &R,
        alloc: Global,
        gate: &G,
        seat: &mut Seat<A, B, C>,
        work: &mut VecDeque<Work>,
    )
        ensures same { seat.new ≡ record seat.old { served = seat.new.served } }
        ensures grows { seat.old.served ≤ seat.new.served }
        ensures back { work.new.items ≡ [] }
    {
        let mut has_memory = work.reserve(MOST_TURNS).is_ok();
        for _ in rt.forever() {
            let most = if has_memory { MOST_TURNS } else { 0 };
            let worked = self.give_and_take(rt, seat, work, self.worker_count(), most);
            if worked.is_queued {
                self.tell_sender();
            }
            if work.is_empty() {
                return;
            }
            if worked.ready_count > 0 {
                self.hint(rt);
            }
            has_memory = serve_each(alloc, gate, work) && has_memory;
        }
        unreachable!()
    }

    /// Serves turns of a link: at each hint takes and serves turns until none is ready, or places or memory run out.
    /// Returns its seat once the hub is closed and no hint waits.
    pub fn worker<R: Wait, G: Gate>(
        &self,
        rt: &R,
        alloc: Global,
        hints: Hints,
        gate: &G,
        seat: Seat<A, B, C>,
    ) -> Seat<A, B, C>
        ensures same { result ≡ record seat { served = result.served } }
        ensures grows { seat.served ≤ result.served }
    {
        let mut seat = seat;
        let mut work = VecDeque::new(alloc);
        for _ in rt.forever() {
            if !hints.wait(rt) {
                break;
            }
            self.serve_ready(rt, alloc, gate, &mut seat, &mut work);
        }
        abandon_all(work);
        seat
    }
}
