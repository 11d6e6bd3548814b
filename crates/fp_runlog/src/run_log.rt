//! The log of a run, as its links and the run itself see it. One thread writes it (`log_writer.rt`).
//!
//! | Thread | Waits for | Is woken by | At most |
//! |---|---|---|---|
//! | the run, before it accepts connections | the first line, written or failed | the writing thread | a second |
//! | the writing thread | text, or the end of the log | a receiving thread that made 64 KB of it, the clock of a link that made or found some; the run | a second |
//! | the writing thread | the device | the device | without a limit |
//! | the writing thread, with gaps, after a write that failed | the next try | nobody | a second |
//! | a receiving thread without places for lines | the device, while it gets on (`log_wait.rt`) | nobody | two seconds in a read, with gaps a tenth of one |
//! | the run, at its end | the last line, written or failed | the writing thread | five idle seconds, a minute in all |

use crate::{LinkLog, LogRun, WhenLogFails};
use crossbeam_channel::{Receiver, Sender, bounded};
use std::alloc::{AllocError, Global};
use std::rt::Clock;
use std::sync::atomic::{AtomicBool, AtomicU64, Ordering};
use std::sync::{Arc, Wait};
use std::time::Duration;

/// The longest wait for the first line to be written before the run accepts connections all the same, in seconds.
const SECONDS_FOR_THE_HEAD: u64 = 1;

/// How long an ending run waits for the last lines although none is written meanwhile, in seconds.
const SECONDS_WITHOUT_PROGRESS: u64 = 5;

/// How long an ending run waits for the last lines in all, in seconds.
const SECONDS_FOR_THE_END: u64 = 60;

/// How long a receiving thread waits for the device in one read, in milliseconds, if the log is to have no gaps.
const MILLISECONDS_WITHOUT_GAPS: u64 = 2_000;

/// How long a receiving thread waits for the device in one read, in milliseconds, if the log may have gaps.
const MILLISECONDS_WITH_GAPS: u64 = 100;

/// How long a receiving thread of a run with this reaction waits for the device in one read, in milliseconds.
fn patience_of(when_log_fails: WhenLogFails) -> u64 {
    match when_log_fails {
        WhenLogFails::EndRun => MILLISECONDS_WITHOUT_GAPS,
        WhenLogFails::LeaveGap => MILLISECONDS_WITH_GAPS,
    }
}

/// The state that the links of a run, the run and the thread that writes its log share.
#[derive(Drop)]
pub struct RunLog<N: LogRun + Drop> {
    // The run.
    pub(crate) run: N,
    pub(crate) when_log_fails: WhenLogFails,
    // The waiting lines of each link, in their order.
    links: Vec<LinkLog>,
    // How many lines have their text and aren't written yet, including the head. The number may be less for a moment,
    // and wrap: lines are counted after they got their text. It is looked at only once all lines were counted.
    unwritten: AtomicU64,
    // How many octets the device took.
    written: AtomicU64,
    // When the writing thread moved last, in milliseconds since the run began.
    moved_at: AtomicU64,
    // The longest wait of a receiving thread for the device before it reads on.
    pub(crate) patience: Duration,
    // Wakes the writing thread: text waits for it, or the log is over.
    came: Sender<()>,
    // No more lines are added.
    is_over: AtomicBool,
    // The run no longer waits for the last lines.
    is_given_up: AtomicBool,
    // Says that the writing thread has written the head. Disconnected once it writes no more.
    begun: Receiver<()>,
}

/// The ends of the channels of a [`RunLog`] that its writing thread has.
#[derive(Drop)]
pub struct WriterEnds {
    /// Says that text waits, or that the log is over.
    pub(crate) came: Receiver<()>,
    /// Gets a message when the head is written, and is dropped when nothing more is.
    pub(crate) begun: Sender<()>,
}

impl<N: LogRun + Drop> RunLog<N> {
    /// A log for the `count` links of a run, and the ends for its [`LogWriter`](crate::LogWriter). Its head is still to
    /// be written. If memory runs out, there is none.
    pub fn new(
        alloc: Global,
        count: u8,
        when_log_fails: WhenLogFails,
        run: N,
    ) -> Result<(Arc<RunLog<N>>, WriterEnds), AllocError> {
        let mut links = Vec::with_capacity(alloc, usize::from(count))?;
        for _ in 0..count {
            links.push(LinkLog::new(alloc)?)?;
        }
        let (came, wakes) = bounded(alloc, 1)?;
        let (begins, begun) = bounded(alloc, 1)?;
        let log = RunLog {
            run,
            when_log_fails,
            links,
            unwritten: AtomicU64::new(1),
            written: AtomicU64::new(0),
            moved_at: AtomicU64::new(0),
            patience: Duration::from_millis(patience_of(when_log_fails)),
            came,
            is_over: AtomicBool::new(false),
            is_given_up: AtomicBool::new(false),
            begun,
        };
        let ends = WriterEnds {
            came: wakes,
            begun: begins,
        };
        Ok((Arc::new(alloc, log)?, ends))
    }

    /// The waiting lines of the link in this place. `None` if the run has no such link.
    pub fn lines_of(&self, place: usize) -> Option<&LinkLog> {
        self.links.get(place)
    }

    /// How many links the run has.
    pub(crate) fn link_count(&self) -> usize {
        self.links.len()
    }

    /// Adds this number of lines that got their text.
    pub(crate) fn add(&self, count: u64) {
        if count > 0 {
            self.unwritten.fetch_add(count, Ordering::SeqCst);
        }
    }

    /// Wakes the writing thread: text waits for it. Doesn't wait.
    pub(crate) fn wake<R: Wait>(&self, rt: &R) {
        let _ = self.came.try_send(rt, ());
    }

    /// Notes that the device took this number of octets, with the ends of this number of lines.
    pub(crate) fn take_off(&self, octets: usize, lines: usize) {
        // These are counts of octets and lines in memory, so both fit.
        let lines = u64::try_from(lines).unwrap_or(u64::MAX);
        self.unwritten.fetch_sub(lines, Ordering::SeqCst);
        let octets = u64::try_from(octets).unwrap_or(u64::MAX);
        self.written.fetch_add(octets, Ordering::SeqCst);
    }

    /// Notes that the writing thread looked for text just now, or that the device took some.
    pub(crate) fn note_moved<R: Clock>(&self, rt: &R) {
        let time = self.run.time(rt);
        self.moved_at.store(time, Ordering::SeqCst);
    }

    /// The time of the run when the writing thread moved last, in milliseconds since the run began.
    pub fn moved_at(&self) -> u64 {
        self.moved_at.load(Ordering::SeqCst)
    }

    /// How many octets the device took.
    pub(crate) fn written(&self) -> u64 {
        self.written.load(Ordering::SeqCst)
    }

    /// Whether no more lines are added.
    pub(crate) fn is_over(&self) -> bool {
        self.is_over.load(Ordering::SeqCst)
    }

    /// Whether no thread waits for the lines that aren't written.
    pub(crate) fn is_given_up(&self) -> bool {
        self.is_given_up.load(Ordering::SeqCst)
    }

    /// Waits until the head was written, or couldn't be, at most a second: a log that can't be written is known before
    /// a connection is accepted, unless its device hangs.
    pub fn await_head<R: Wait + Clock>(&self, rt: &R) {
        let patience = Duration::from_secs(SECONDS_FOR_THE_HEAD);
        let _ = self.begun.recv_timeout(rt, patience);
    }

    /// Waits until the writing thread writes no more, at most a second. `false` if it goes on.
    fn await_end<R: Wait + Clock>(&self, rt: &R) -> bool {
        match self.begun.recv_timeout(rt, Duration::from_secs(1)) {
            Ok(()) => false,
            Err(error) => error.is_disconnected(),
        }
    }

    /// Waits until the writing thread writes no more, or has written nothing for five seconds; at most a minute.
    fn await_last_lines<R: Wait + Clock>(&self, rt: &R) {
        let mut unwritten = self.unwritten.load(Ordering::SeqCst);
        let mut idle_seconds: u64 = 0;
        for _ in 0..SECONDS_FOR_THE_END {
            if self.await_end(rt) {
                return;
            }
            let lines = self.unwritten.load(Ordering::SeqCst);
            idle_seconds = if lines < unwritten {
                0
            } else {
                idle_seconds.saturating_add(1)
            };
            if idle_seconds >= SECONDS_WITHOUT_PROGRESS {
                return;
            }
            unwritten = lines;
        }
    }

    /// Ends the log, once the last lines of all links have their text: waits until these were written, or none of them
    /// for five seconds, at most a minute. Returns how many weren't written then: they are lost.
    pub fn finish<R: Wait + Clock>(&self, rt: &R) -> u64 {
        self.is_over.store(true, Ordering::SeqCst);
        let _ = self.came.try_send(rt, ());
        self.await_last_lines(rt);
        self.is_given_up.store(true, Ordering::SeqCst);
        self.unwritten.load(Ordering::SeqCst)
    }
}
