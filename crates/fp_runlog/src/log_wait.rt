//! The wait of a receiving thread for places for log lines.

use crate::{Left, LogRun, LogSide, RunLog};
use fp_tally::time_since;
use std::rt::Clock;
use std::sync::Wait;
use std::sync::ledger::Ledger;
use std::thread;
use std::time::{Duration, Instant};

/// The time between two looks whether there are places, in milliseconds.
const LOOK_MILLISECONDS: u64 = 1;

/// The octets that the device must take to count as making progress: the most that are written at once.
const OCTETS_OF_PROGRESS: u64 = 16_384;

/// The thread waits this part of a read's time, a quarter, for a device that makes no progress.
const IDLE_PART: u32 = 4;

/// How a receiving thread waits for places for log lines: before it posts more messages it makes text itself, or, if
/// there is no room for that, waits for the writing thread. It waits for a bounded time in each read, and only as long
/// as the device of the log makes progress. If the device takes fewer than 16,384 octets in a quarter of that time, the
/// thread doesn't wait for it again until it has taken that many.
///
/// For example, for a device that takes an octet a second the thread waits once in four hours, and for one that hangs
/// only once. A disk that pauses for a tenth of a second leaves no gap.
#[derive(Drop)]
pub struct LogWait {
    // How much longer the thread may wait in this read.
    left: Duration,
    // How many octets the device had taken when it last made no progress; `None` if it has made progress since.
    stalled_at: Option<u64>,
}

impl LogWait {
    /// The state before the first wait.
    pub fn new<N: LogRun + Drop>(log: &RunLog<N>) -> LogWait {
        LogWait {
            left: log.patience,
            stalled_at: None,
        }
    }

    /// Begins the next read.
    pub fn renew<N: LogRun + Drop>(&mut self, log: &RunLog<N>) {
        self.left = log.patience;
    }

    /// Whether to wait for the device: it has made progress since it last made none.
    fn may_get_on<N: LogRun + Drop>(&mut self, log: &RunLog<N>) -> bool {
        match self.stalled_at {
            Some(at) if log.written().saturating_sub(at) < OCTETS_OF_PROGRESS => false,
            Some(_) | None => {
                self.stalled_at = None;
                true
            }
        }
    }
}

/// The progress of a log's device while a thread waits for it.
#[derive(Clone, Copy)]
struct DeviceProgress {
    // How many octets the device had taken at the instant `at`.
    written: u64,
    at: Option<Instant>,
}

impl DeviceProgress {
    /// The progress from now on.
    fn new<R: Clock, N: LogRun + Drop>(rt: &R, log: &RunLog<N>) -> DeviceProgress {
        DeviceProgress {
            written: log.written(),
            at: Instant::now(rt).ok(),
        }
    }

    /// Whether the device took too little for too long. `true` if the clock gives no time.
    fn is_idle<R: Clock, N: LogRun + Drop>(&mut self, rt: &R, log: &RunLog<N>) -> bool {
        if log.written().saturating_sub(self.written) >= OCTETS_OF_PROGRESS {
            *self = DeviceProgress::new(rt, log);
        }
        let most = log.patience / IDLE_PART;
        time_since(rt, self.at).unwrap_or(most) >= most
    }
}

impl<R: Wait + Clock, N: LogRun + Drop, A: Ledger, B: Ledger, C: Ledger> LogSide<
    '_,
    R,
    N,
    A,
    B,
    C,
> {
    /// Whether no more messages are posted: the link is down, or the links are to end.
    fn is_ending(&self) -> bool {
        self.log.run.is_quitting() || self.hub.is_down(self.rt)
    }

    /// Makes text of lines until places for lines are free, and waits while there is no room for their text and the
    /// device of the log makes progress.
    pub fn await_places(&self, wait: &mut LogWait) {
        let LogSide { rt, log, .. } = *self;
        let start = Instant::now(rt).ok();
        let mut progress = DeviceProgress::new(rt, log);
        for _ in rt.forever() {
            let left = self.make_text();
            self.move_lines_if_many();
            let since = time_since(rt, start).unwrap_or(wait.left);
            if since >= wait.left || !self.lacks_places() || self.is_ending() {
                break;
            }
            if left == Left::Nothing || left == Left::Lines {
                continue;
            }
            if !wait.may_get_on(log) {
                break;
            }
            if progress.is_idle(rt, log) {
                wait.stalled_at = Some(log.written());
                break;
            }
            thread::sleep(rt, Duration::from_millis(LOOK_MILLISECONDS));
        }
        let since = time_since(rt, start).unwrap_or(wait.left);
        wait.left = wait.left.saturating_sub(since);
    }
}
