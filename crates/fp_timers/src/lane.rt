//! Some of the timers, in the order of their deadlines.

ghost use Rattle.std.specs.Prelude.{◌≡◌, ◌≢◌, ◌<◌, [], length, false, IfOk, IsTrue, All};
ghost use Rattle.fp_timers.specs.Timers.{IsEarliestAfter, IsWith};

use crate::Deadlines;
use crate::timers::{Timer, comes_last, place_after, place_if_there, place_in_time, take_away};
use std::alloc::{AllocError, Global};
use std::collections::VecDeque;
use std::marker::Model;

/// At most [`Deadlines::MOST`] timers in the order of their deadlines, and of their identifiers if those are the same.
/// Contracts see them as a list.
#[derive(Debug, Drop)]
pub(crate) struct Lane {
    timers: VecDeque<Timer>,
}

impl Model for Lane {
    ghost use Rattle.std.specs.Prelude.{List};
    ghost use Rattle.std.specs.VecDeque.{deque_capacity};
    ghost use Rattle.fp_timers.specs.declared.timers.Timer.{Timer};
    ghost use Rattle.fp_timers.specs.Timers.{IsKeptInTime};

    ghost Value = { List Timer };

    ghost view = { λ lane. lane.timers.items };

    ghost invariant = { λ lane. IsKeptInTime lane.timers.items (deque_capacity lane.timers) };
}

impl Lane {
    /// A lane without timers. Reserves memory for [`Deadlines::MOST`] of them.
    pub(crate) fn new(alloc: Global) -> Result<Lane, AllocError>
        ensures { IfOk result (λ lane. lane ≡ []) }
    {
        Ok(Lane {
            timers: VecDeque::with_capacity(alloc, Deadlines::MOST)?,
        })
    }

    /// Adds the timer at the end, if it is after all others, and returns whether it is. Takes no memory.
    pub(crate) fn push(&mut self, timer: Timer) -> bool
        requires { length self.old < Deadlines.MOST }
        ensures added { IsTrue result → IsWith self.old timer self.new }
        ensures refused { result ≡ false → self.new ≡ self.old }
    {
        if !comes_last(&self.timers, timer) {
            return false;
        }
        self.timers.push_back_reserved(timer);
        true
    }

    /// Adds the timer of an identifier that has none here. Takes no memory.
    pub(crate) fn add(&mut self, timer: Timer)
        requires absent { All (λ other. other.local ≢ timer.local) self.old }
        requires room { length self.old < Deadlines.MOST }
        ensures { IsWith self.old timer self.new }
    {
        let place = place_in_time(&self.timers, timer);
        // There is room, so this takes no memory and succeeds.
        drop(self.timers.insert(place, timer));
    }

    /// Removes the timer, if it is here, and returns whether it was. Takes no memory.
    #[inline(always)]
    pub(crate) fn remove(&mut self, timer: Timer) -> bool
        ensures removed { IsTrue result → IsWith self.new timer self.old }
        ensures kept { result ≡ false → self.new ≡ self.old }
        ensures absent { result ≡ false → All (λ other. other ≢ timer) self.old }
    {
        let Some(place) = place_if_there(&self.timers, timer) else {
            return false;
        };
        take_away(&mut self.timers, place);
        true
    }

    /// The first timer after `last`, or the first of all for `None`.
    pub(crate) fn first_after(&self, last: Option<Timer>) -> Option<Timer>
        ensures { IsEarliestAfter last self.now result }
    {
        let place = place_after(&self.timers, last);
        let Some(first) = self.timers.get(place) else {
            return None;
        };
        Some(*first)
    }

    /// Removes all timers. Takes no memory.
    pub(crate) fn clear(&mut self)
        ensures { self.new ≡ [] }
    {
        self.timers.clear();
    }
}
