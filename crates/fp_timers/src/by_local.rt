//! Timers in the order of their identifiers.

ghost use Rattle.std.specs.Prelude.{◌≡◌, ◌≤◌, ℕ, IfOk};
ghost use Rattle.std.specs.Ordering.{nat_cmp};
ghost use Rattle.std.specs.FinMap as map;
ghost use Rattle.fp_timers.specs.Deadlines.{HasRoom};

use crate::Deadlines;
use crate::timers::{Timer, place_of, put_at, take_away};
use std::alloc::{AllocError, Global};
use std::collections::VecDeque;
use std::marker::Model;

/// At most [`Deadlines::MOST`] timers in the order of their identifiers. Contracts see them as a finite map.
#[derive(Debug, Drop)]
pub(crate) struct ByLocal {
    timers: VecDeque<Timer>,
}

impl Model for ByLocal {
    ghost use Rattle.std.specs.Prelude.{ℕ};
    ghost use Rattle.std.specs.Ordering.{nat_cmp};
    ghost use Rattle.std.specs.VecDeque.{deque_capacity};
    ghost use Rattle.std.specs.FinMap as map;
    ghost use Rattle.std.specs.Coded.{coded_ℕ};
    ghost use Rattle.fp_timers.specs.Timers.{entries, IsKept};

    ghost Value = { map.FinMap nat_cmp ℕ };

    ghost coded = { map.code coded_ℕ coded_ℕ };

    ghost view = { λ own. map.from_entries (entries own.timers.items) };

    ghost invariant = { λ own. IsKept own.timers.items (deque_capacity own.timers) };
}

impl ByLocal {
    /// A map without timers. Reserves memory for [`Deadlines::MOST`] of them.
    pub(crate) fn new(alloc: Global) -> Result<ByLocal, AllocError>
        ensures { IfOk result (λ own. own ≡ map.empty) }
    {
        Ok(ByLocal {
            timers: VecDeque::with_capacity(alloc, Deadlines::MOST)?,
        })
    }

    /// The number of timers.
    pub(crate) fn len(&self) -> usize
        ensures count { result ≡ map.len self.now }
        ensures most { result ≤ Deadlines.MOST }
    {
        self.timers.len()
    }

    /// Replaces the timer of this identifier, or adds one, and returns the deadline that the identifier had. Takes no
    /// memory.
    #[inline(always)]
    pub(crate) fn set(&mut self, timer: Timer) -> Option<u64>
        requires { HasRoom self.old timer.local }
        ensures before { result ≡ map.get self.old timer.local }
        ensures after { self.new ≡ map.insert self.old timer.local timer.deadline }
    {
        match place_of(&self.timers, timer.local) {
            Ok(place) => {
                let before = self.timers[place].deadline;
                self.timers[place] = timer;
                Some(before)
            }
            Err(place) => {
                put_at(&mut self.timers, place, timer);
                None
            }
        }
    }

    /// Removes the identifier's timer, if it has one, and returns the deadline that it had. Takes no memory.
    pub(crate) fn clear(&mut self, local: u32) -> Option<u64>
        ensures before { result ≡ map.get self.old local }
        ensures after { self.new ≡ map.remove self.old local }
    {
        match place_of(&self.timers, local) {
            Ok(place) => {
                let before = self.timers[place].deadline;
                take_away(&mut self.timers, place);
                Some(before)
            }
            Err(_) => None,
        }
    }

    /// Removes all timers. Takes no memory.
    pub(crate) fn clear_all(&mut self)
        ensures { self.new ≡ map.empty }
    {
        self.timers.clear();
    }
}
