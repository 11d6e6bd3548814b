//! Timers in the order of their deadlines.

ghost use Rattle.std.specs.Prelude.{◌≡◌, ◌<◌, ℕ, None, IfOk};
ghost use Rattle.std.specs.Ordering.{nat_cmp};
ghost use Rattle.std.specs.FinMap as map;
ghost use Rattle.fp_timers.specs.Deadlines.{HasRoom, IsEarliestDueAfter};

use crate::Deadlines;
use crate::lane::Lane;
use crate::timers::{Timer, earlier};
use fp_digits::Moment;
use std::alloc::{AllocError, Global};
use std::marker::Model;

/// At most [`Deadlines::MOST`] timers in four lanes, each in the order of deadlines, and of identifiers if those are
/// the same. Contracts see them as a finite map.
#[derive(Debug, Drop)]
pub(crate) struct ByDeadline {
    // A deadline is a fixed time after a message, and there are few such times. Deadlines of one kind are set in order,
    // so up to four kinds each get a lane to whose end they are added. A deadline that is last in no lane goes into the
    // fourth: for example, a deadline of a fifth kind, or one after a clock was set back.
    first: Lane,
    second: Lane,
    third: Lane,
    fourth: Lane,
}

impl Model for ByDeadline {
    ghost use Rattle.std.specs.Prelude.{ℕ};
    ghost use Rattle.std.specs.Ordering.{nat_cmp};
    ghost use Rattle.std.specs.FinMap as map;
    ghost use Rattle.std.specs.Coded.{coded_ℕ};
    ghost use Rattle.fp_timers.specs.Timers.{entries, joined, AreFew};

    ghost Value = { map.FinMap nat_cmp ℕ };

    ghost coded = { map.code coded_ℕ coded_ℕ };

    ghost view = { λ own. map.from_entries (entries (joined own.first own.second own.third own.fourth)) };

    ghost invariant = { λ own. AreFew (joined own.first own.second own.third own.fourth) };
}

impl ByDeadline {
    /// A map without timers. Reserves memory for [`Deadlines::MOST`] of them.
    pub(crate) fn new(alloc: Global) -> Result<ByDeadline, AllocError>
        ensures { IfOk result (λ own. own ≡ map.empty) }
    {
        Ok(ByDeadline {
            first: Lane::new(alloc)?,
            second: Lane::new(alloc)?,
            third: Lane::new(alloc)?,
            fourth: Lane::new(alloc)?,
        })
    }

    /// Adds a timer of an identifier that has none: at the end of the first lane where it is last, and else into the
    /// fourth lane. Takes no memory.
    #[inline(always)]
    pub(crate) fn add(&mut self, timer: Timer)
        requires absent { map.get self.old timer.local ≡ None }
        requires room { map.len self.old < Deadlines.MOST }
        ensures { self.new ≡ map.insert self.old timer.local timer.deadline }
    {
        if self.first.push(timer) {
            return;
        }
        if self.second.push(timer) {
            return;
        }
        if self.third.push(timer) {
            return;
        }
        self.fourth.add(timer);
    }

    /// Removes the identifier's timer, if it has one: its deadline is handed in. Then there is room for another one.
    /// Takes no memory.
    #[inline(always)]
    pub(crate) fn remove(&mut self, local: u32, deadline: Option<u64>)
        requires { deadline ≡ map.get self.old local }
        ensures removed { self.new ≡ map.remove self.old local }
        ensures room { HasRoom self.old local → map.len self.new < Deadlines.MOST }
    {
        let Some(deadline) = deadline else {
            return;
        };
        let timer = Timer { local, deadline };
        if self.first.remove(timer) {
            return;
        }
        if self.second.remove(timer) {
            return;
        }
        if self.third.remove(timer) {
            return;
        }
        let _removed = self.fourth.remove(timer);
    }

    /// The first timer after `last`, the first of all for `None`, if its deadline is at or before the moment.
    pub(crate) fn due_after(&self, last: Option<Timer>, moment: Moment) -> Option<Timer>
        ensures { IsEarliestDueAfter self.now last moment result }
    {
        let late = earlier(self.third.first_after(last), self.fourth.first_after(last));
        let rest = earlier(self.second.first_after(last), late);
        let Some(first) = earlier(self.first.first_after(last), rest) else {
            return None;
        };
        if first.deadline > moment.milliseconds() {
            return None;
        }
        Some(first)
    }

    /// Removes all timers. Takes no memory.
    pub(crate) fn clear_all(&mut self)
        ensures { self.new ≡ map.empty }
    {
        self.first.clear();
        self.second.clear();
        self.third.clear();
        self.fourth.clear();
    }
}
