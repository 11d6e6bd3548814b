//! The request to take all links down, or to end them.

use crate::run::ServeFault;
use fp_tally::time_since;
use std::alloc::{AllocError, Global};
use std::rt::Clock;
use std::sync::atomic::{AtomicU64, Ordering};
use std::sync::{Arc, Mutex, Wait};
use std::time::Instant;

/// The value of `quit_at` before the command `quit`.
const NOT_YET: u64 = u64::MAX;

/// The run's stop request: a fault, which takes all links down at their next tick, or the time of `quit`. Times are
/// milliseconds since the run began.
#[derive(Drop)]
pub(crate) struct Stop {
    // The first fault.
    fault: Mutex<Option<ServeFault>>,
    start: Option<Instant>,
    // When the links were asked to end as at the end of their input.
    quit_at: AtomicU64,
}

impl Stop {
    /// No fault, and no request to end.
    pub(crate) fn new<R: Clock>(rt: &R, alloc: Global) -> Result<Arc<Stop>, AllocError> {
        let stop = Stop {
            fault: Mutex::new(None),
            start: Instant::now(rt).ok(),
            quit_at: AtomicU64::new(NOT_YET),
        };
        Ok(Arc::new(alloc, stop)?)
    }

    /// The present time. `None` if the clock gives none.
    pub(crate) fn elapsed<R: Clock>(&self, rt: &R) -> Option<u64> {
        let since = time_since(rt, self.start)?;
        u64::try_from(since.as_millis()).ok()
    }

    /// The present time. If the clock gives none, the greatest number: then links that are to end do so at once.
    pub(crate) fn time<R: Clock>(&self, rt: &R) -> u64 {
        self.elapsed(rt).unwrap_or(u64::MAX)
    }

    /// Notes a fault, which takes all links down.
    pub(crate) fn ask_for<R: Wait>(&self, rt: &R, fault: ServeFault) {
        let mut first = self.fault.lock(rt);
        if first.is_none() {
            *first = Some(fault);
        }
    }

    /// The first fault. `None` if there was none.
    pub(crate) fn fault<R: Wait>(&self, rt: &R) -> Option<ServeFault> {
        *self.fault.lock(rt)
    }

    /// Asks the links to end as at the end of their input. The first call sets the time.
    pub(crate) fn quit<R: Clock>(&self, rt: &R) {
        let at = self.time(rt).min(NOT_YET - 1);
        let _ = self
            .quit_at
            .compare_exchange(NOT_YET, at, Ordering::SeqCst, Ordering::SeqCst);
    }

    /// When the links were asked to end as at the end of their input. `None` if they weren't.
    pub(crate) fn quit_time(&self) -> Option<u64> {
        match self.quit_at.load(Ordering::SeqCst) {
            NOT_YET => None,
            at => Some(at),
        }
    }

    /// Whether the links are to end as at the end of their input: no further message is posted.
    pub(crate) fn is_quitting(&self) -> bool {
        self.quit_time().is_some()
    }

    /// Whether no more connections are wanted.
    pub(crate) fn refuses_connections<R: Wait>(&self, rt: &R) -> bool {
        self.is_quitting() || self.fault(rt).is_some()
    }
}
