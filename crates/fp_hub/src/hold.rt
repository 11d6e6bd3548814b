//! A hold of the lock of a link.

use crate::Kept;
use crate::resting::Resting;
use std::rt::Clock;
use std::sync::ledger::Ledger;
use std::sync::{Condvar, CondvarTimeouts, MutexGuard, Wait};
use std::time::Duration;

/// The lock of a link, held. Its release publishes how full the log is, and wakes the resting thread if this hold
/// brought the log to [`LINES_OF_A_REST`](crate::LINES_OF_A_REST) lines.
pub(crate) struct Hold<'a, A: Ledger, B: Ledger, C: Ledger> {
    pub(crate) kept: MutexGuard<'a, Kept<A, B, C>>,
    // How many lines the log had when the lock was taken.
    line_count: usize,
    resting: &'a Resting,
}

impl<'a, A: Ledger, B: Ledger, C: Ledger> Hold<'a, A, B, C> {
    /// The hold of a lock that was just taken.
    pub(crate) fn new(
        kept: MutexGuard<'a, Kept<A, B, C>>,
        resting: &'a Resting,
    ) -> Hold<'a, A, B, C> {
        let line_count = kept.book().line_count();
        Hold {
            kept,
            line_count,
            resting,
        }
    }

    /// Releases the lock until the next notification, and takes it again. This hold must not have added a log line.
    pub(crate) fn wait<R: Wait>(self, rt: &R, moved: &Condvar) -> Hold<'a, A, B, C> {
        let Hold {
            kept,
            line_count: _,
            resting,
        } = self;
        Hold::new(moved.wait(rt, kept), resting)
    }

    /// Releases the lock until the next notification, for this time at most, and takes it again. This hold must not
    /// have added a log line.
    pub(crate) fn wait_timeout<R: Wait + Clock>(
        self,
        rt: &R,
        moved: &Condvar,
        most: Duration,
    ) -> Hold<'a, A, B, C> {
        let Hold {
            kept,
            line_count: _,
            resting,
        } = self;
        let (kept, _) = moved.wait_timeout(rt, kept, most);
        Hold::new(kept, resting)
    }
}

impl<A: Ledger, B: Ledger, C: Ledger> Drop for Hold<'_, A, B, C> {
    fn drop(self) {
        let Hold {
            kept,
            line_count,
            resting,
        } = self;
        let is_to_wake = resting.publish(line_count, kept.book().line_count());
        // Nobody waits for the lock while the resting thread is woken.
        drop(kept);
        if is_to_wake {
            resting.wake();
        }
    }
}
