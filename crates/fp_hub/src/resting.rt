//! The rest of the thread that runs the clock of a link and drains its log.

ghost use Rattle.std.specs.Prelude.{◌↔◌, ◌<◌, ◌≤◌, IsTrue};

use fp_book::Log;
use std::sync::Wait;
use std::sync::atomic::{AtomicUsize, Ordering};
use std::thread::Parker;
use std::time::Duration;

/// The number of log lines that wakes the resting thread, so that few wait and it hands on few at a time.
pub const LINES_OF_A_REST: usize = 512;

/// The fewest log lines that are worth making text of.
pub const LINES_OF_A_TEXT: usize = 64;

/// The fewest lines of a long log.
pub(crate) const LINES_OF_A_LONG_LOG: usize = 1_024;

/// The fewest lines of a filling log: five eighths of its places.
pub(crate) const LINES_OF_A_FILLING_LOG: usize = Log::MOST / 8 * 5;

/// The fewest lines of a nearly full log: seven eighths of its places.
pub(crate) const LINES_OF_A_NEARLY_FULL_LOG: usize = Log::MOST / 8 * 7;

/// The resting place of the thread that runs the clock of a link and drains its log, and how full that log is.
#[derive(Drop)]
pub(crate) struct Resting {
    // The last mark that the log had reached when the lock of the link was last released. 0 if there is none.
    mark: AtomicUsize,
    parker: Parker,
}

/// The last mark that a log of this number of lines has reached. 0 if there is none.
fn last_mark(lines: usize) -> usize {
    match lines {
        LINES_OF_A_NEARLY_FULL_LOG.. => LINES_OF_A_NEARLY_FULL_LOG,
        LINES_OF_A_FILLING_LOG.. => LINES_OF_A_FILLING_LOG,
        LINES_OF_A_LONG_LOG.. => LINES_OF_A_LONG_LOG,
        LINES_OF_A_TEXT.. => LINES_OF_A_TEXT,
        _ => 0,
    }
}

impl Resting {
    /// A place where nobody rests, for an empty log.
    pub(crate) fn new() -> Resting {
        Resting {
            mark: AtomicUsize::new(0),
            parker: Parker::new(),
        }
    }

    /// Publishes how full the log is, before the lock of the link is released: it had `before` lines when the lock was
    /// taken, and has `now`. `true` if it has [`LINES_OF_A_REST`] now, and hadn't before, so that you must wake the
    /// resting thread. The mark is written only if it changes.
    pub(crate) fn publish(&self, before: usize, now: usize) -> bool
        ensures { IsTrue result ↔ ((before < 512) × (512 ≤ now)) }
    {
        let mark = last_mark(now);
        if mark != self.mark.load(Ordering::SeqCst) {
            self.mark.store(mark, Ordering::SeqCst);
        }
        before < LINES_OF_A_REST && now >= LINES_OF_A_REST
    }

    /// Whether the log had this number of lines; the number must be one of the marks.
    pub(crate) fn has_reached(&self, mark: usize) -> bool {
        self.mark.load(Ordering::SeqCst) >= mark
    }

    /// Wakes the resting thread, or the next one that rests.
    pub(crate) fn wake(&self) {
        self.parker.unpark();
    }

    /// Rests for this time, or until it is woken, or for a shorter time. One thread at a time may rest.
    pub(crate) fn rest<R: Wait>(&self, rt: &R, time: Duration) {
        self.parker.park_timeout(rt, time);
    }
}
