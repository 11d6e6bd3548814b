//! Deadlines by local identifier.

ghost use Rattle.std.specs.Prelude.{◌≡◌, ◌≤◌, ℕ, IfOk};
ghost use Rattle.std.specs.Ordering.{nat_cmp};
ghost use Rattle.std.specs.FinMap as map;
ghost use Rattle.fp_timers.specs.Deadlines.{HasRoom, IsEarliestDue, IsEarliestDueAfter};

use crate::by_deadline::ByDeadline;
use crate::by_local::ByLocal;
use crate::timers::Timer;
use fp_digits::Moment;
use std::alloc::{AllocError, Global};
use std::marker::Model;

/// Deadlines in milliseconds, each under its local identifier, at most [`Deadlines::MOST`]. Contracts see them as a
/// finite map.
#[derive(Debug, Drop)]
pub struct Deadlines {
    // The same pairs in two orders.
    by_local: ByLocal,
    by_deadline: ByDeadline,
}

impl Model for Deadlines {
    ghost use Rattle.std.specs.Prelude.{◌≡◌, ℕ};
    ghost use Rattle.std.specs.Ordering.{nat_cmp};
    ghost use Rattle.std.specs.FinMap as map;
    ghost use Rattle.std.specs.Coded.{coded_ℕ};

    ghost Value = { map.FinMap nat_cmp ℕ };

    ghost coded = { map.code coded_ℕ coded_ℕ };

    ghost view = { λ deadlines. deadlines.by_local };

    ghost invariant = { λ deadlines. deadlines.by_deadline ≡ deadlines.by_local };
}

impl Deadlines {
    /// The most deadlines at once.
    pub const MOST: usize = 4096;

    /// A map without deadlines. Reserves memory for [`Deadlines::MOST`] of them.
    pub fn new(alloc: Global) -> Result<Deadlines, AllocError>
        ensures { IfOk result (λ deadlines. deadlines ≡ map.empty) }
    {
        Ok(Deadlines {
            by_local: ByLocal::new(alloc)?,
            by_deadline: ByDeadline::new(alloc)?,
        })
    }

    /// The number of deadlines, at most [`Deadlines::MOST`].
    pub fn len(&self) -> usize
        ensures count { result ≡ map.len self.now }
        ensures most { result ≤ Self.MOST }
    {
        self.by_local.len()
    }

    /// Gives an identifier a deadline, in place of any that it had. The identifier must have one, or there must be
    /// fewer than [`Deadlines::MOST`]. Takes no memory.
    #[inline(always)]
    pub fn set(&mut self, local: u32, deadline: u64)
        requires { HasRoom self.old local }
        ensures { self.new ≡ map.insert self.old local deadline }
    {
        let timer = Timer { local, deadline };
        let before = self.by_local.set(timer);
        if before == Some(deadline) {
            return;
        }
        self.by_deadline.remove(local, before);
        self.by_deadline.add(timer);
    }

    /// Removes an identifier's deadline, if it has one. Takes no memory.
    #[inline(always)]
    pub fn clear(&mut self, local: u32)
        ensures { self.new ≡ map.remove self.old local }
    {
        let before = self.by_local.clear(local);
        self.by_deadline.remove(local, before);
    }

    /// Removes all deadlines. Takes no memory.
    pub fn clear_all(&mut self)
        ensures { self.new ≡ map.empty }
    {
        self.by_local.clear_all();
        self.by_deadline.clear_all();
    }

    /// The identifier with the earliest deadline, if that is at or before the moment: the smallest if several have it.
    /// Takes no memory.
    pub fn due(&self, moment: Moment) -> Option<u32>
        ensures { IsEarliestDue self.now moment result }
    {
        let first = self.due_after(None, moment)?;
        Some(first.local)
    }

    /// The first deadline after `last`, the first of all for `None`, with its identifier, if it is at or before the
    /// moment. Deadlines are in ascending order, equal ones in the order of their identifiers. `last` needn't be there
    /// any more, and isn't given itself. Takes no memory.
    pub fn due_after(&self, last: Option<Timer>, moment: Moment) -> Option<Timer>
        ensures { IsEarliestDueAfter self.now last moment result }
    {
        self.by_deadline.due_after(last, moment)
    }
}
