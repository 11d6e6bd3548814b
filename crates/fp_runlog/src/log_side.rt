//! The calls of a link's threads on its log: lines leave the book, are counted, and get their text.

use crate::link_log::Moved;
use crate::{LinkLog, LogEvent, LogFault, LogRun, RunLog};
use fp_book::{Line, LoggedStep};
use fp_hub::{Hub, Tables};
use fp_logtext::{MadeText, WaitingLines};
use fp_tally::{LineCounts, LinkMetrics, StepCounts};
use std::alloc::{AllocError, Global};
use std::rt::Clock;
use std::sync::ledger::Ledger;
use std::sync::{MutexGuard, Wait};
use std::thread;
use std::time::Duration;

/// The most moves of lines in one turn: enough for all that may wait.
const MOST_MOVES: usize = WaitingLines::MOST / WaitingLines::MOST_AT_ONCE;

/// The most moves of lines in one turn of a thread that also has other duties.
const MOST_MOVES_ASIDE: usize = 4;

/// The most times that text is made in one turn.
const MOST_ROUNDS: usize = 64;

/// The octets of text after which a turn ends, so that no thread waits long for the next one.
const OCTETS_OF_A_TURN: usize = 1 << 20;

/// The time between two tries to make the last text of a link after memory ran out for it, in milliseconds.
const MILLISECONDS_WITHOUT_MEMORY: u64 = 10;

/// The most such tries: one minute's.
const MOST_TRIES: u32 = 6_000;

/// The octets of text after which a turn of the receiving thread ends.
const OCTETS_OF_AN_OWN_TURN: usize = 1 << 16;

/// The octets of text that make the receiving thread wake the writing one.
const OCTETS_OF_A_WRITE: usize = 1 << 16;

/// The lines that are left when a turn of making text ends.
#[derive(Clone, Copy, PartialEq, Eq)]
pub enum Left {
    /// No line is left.
    Nothing,
    /// Lines may wait, with room for their text.
    Lines,
    /// Lines may wait, with no room for their text until the writing thread takes the text made so far.
    NoRoom,
    /// Lines wait, and memory ran out for their text: you may try again.
    NoMemory,
}

/// Reports a gap of this number of lines in the log of a link. It stays out of the loop over lines, which else fills a
/// place for an event at each line.
#[inline(never)]
fn report<R: Wait + Clock, N: LogRun>(rt: &R, run: &N, link: u8, lines: u64) {
    run.report(rt, LogEvent::Gap { link, lines });
}

/// Reports a gap in the log of a link, if a step is one.
fn report_gap<R: Wait + Clock, N: LogRun>(rt: &R, run: &N, link: u8, step: &LoggedStep) {
    if let LoggedStep::Gap { lost } = step {
        report(rt, run, link, *lost);
    }
}

/// The counts of a link's lines, if the run has counters.
fn steps_of<'x, R: Wait>(
    rt: &R,
    metrics: Option<&'x LinkMetrics>,
) -> Option<MutexGuard<'x, StepCounts>> {
    match metrics {
        Some(metrics) => Some(metrics.steps(rt)),
        None => None,
    }
}

/// Counts a line, if the run has counters.
#[inline(always)]
fn count(steps: &mut Option<MutexGuard<'_, StepCounts>>, step: &LoggedStep) {
    if let Some(steps) = steps {
        steps.count(step);
    }
}

/// A link, as its log sees it: the book whose lines leave it, the lines that wait, and the counters of the lines. Each
/// thread of the link has a copy.
#[derive_where(Clone, Copy)]
pub struct LogSide<'x, R, N: LogRun + Drop, A: Ledger, B: Ledger, C: Ledger> {
    /// The clock, and the leave to wait.
    pub rt: &'x R,
    /// The allocator of the counters of called numbers.
    pub alloc: Global,
    /// The log of the run.
    pub log: &'x RunLog<N>,
    /// The lines of the link that wait for the thread that writes the log.
    pub lines: &'x LinkLog,
    /// The book of the link.
    pub hub: &'x Hub<A, B, C>,
    /// The records of the run: a called number is counted if the newest table has it.
    pub tables: &'x Tables,
    /// The counters of the link, if the run has counters.
    pub metrics: Option<&'x LinkMetrics>,
}

impl<'x, R: Wait + Clock, N: LogRun + Drop, A: Ledger, B: Ledger, C: Ledger> LogSide<
    'x,
    R,
    N,
    A,
    B,
    C,
> {
    /// Begins to take lines out of the book of the link, to count them for each called number. `None` if the run doesn't
    /// count numbers, or there is no memory for a share of the records.
    fn line_counts(&self) -> Option<LineCounts<'x, R>> {
        let counts = self.metrics?.number_counts()?;
        let table = self.tables.table(self.rt).ok()?;
        Some(LineCounts::begin(self.rt, self.alloc, counts, table))
    }

    /// Notes that this number of lines of the book were counted, and the status of the book.
    fn note_counted(&self, count: usize) {
        let Some(metrics) = self.metrics else {
            return;
        };
        metrics.note_lines(self.rt, count, self.lines.written());
        metrics.note_status(self.rt, self.hub.status(self.rt));
    }

    /// Moves the next lines of the book to `lines.moved`, counts them, and reports the gaps among them.
    fn drain(&self, lines: &mut Moved) {
        let numbers = self.line_counts();
        self.hub.drain(self.rt, &mut lines.moved);
        {
            let mut steps = steps_of(self.rt, self.metrics);
            for line in lines.moved.iter() {
                if let Line::Step { link, step } = line {
                    report_gap(self.rt, &self.log.run, *link, step);
                    count(&mut steps, step);
                }
            }
        }
        if let Some(numbers) = numbers {
            numbers.count_lines(lines.moved.as_slice());
        }
        self.note_counted(lines.moved.len());
    }

    /// Moves lines of the book here, at most `most` times, while there is room. If memory runs out, they stay where
    /// they are.
    fn move_lines(&self, lines: &mut Moved, most: usize) -> Result<(), AllocError> {
        for _ in 0..most {
            if !lines.waiting.has_room() {
                break;
            }
            if lines.moved.is_empty() {
                self.drain(lines);
            }
            let leaves_none = lines.moved.len() < WaitingLines::MOST_AT_ONCE;
            lines.waiting.take_in(&mut lines.moved)?;
            if leaves_none {
                break;
            }
        }
        Ok(())
    }

    /// Exchanges the log of the book for an empty one, to make the text of its lines, counts them, and reports the gaps
    /// among them.
    fn exchange(&self, lines: &mut Moved, making: &mut MadeText) {
        lines.exchanged.clear();
        let numbers = self.line_counts();
        let link = self.hub.exchange_log(self.rt, &mut lines.exchanged);
        {
            let mut steps = steps_of(self.rt, self.metrics);
            for place in 0..lines.exchanged.len() {
                if let Some(step) = lines.exchanged.get(place) {
                    report_gap(self.rt, &self.log.run, link, step);
                    count(&mut steps, step);
                }
            }
        }
        if let Some(numbers) = numbers {
            numbers.count_log(&lines.exchanged);
        }
        self.note_counted(lines.exchanged.len());
        making.take_log(link, &mut lines.exchanged);
    }

    /// Takes the waiting lines, to make their text, or, if there are none, all lines of the book. If the book has many,
    /// they are moved first.
    fn refill(&self, making: &mut MadeText) -> Result<(), AllocError> {
        let mut lines = self.lines.waiting.lock(self.rt);
        if self.hub.is_log_long() || !lines.moved.is_empty() {
            self.move_lines(&mut lines, MOST_MOVES)?;
        }
        making.refill(&mut lines.waiting);
        if making.has_all_text() {
            self.exchange(&mut lines, making);
        }
        Ok(())
    }

    /// Makes the text of lines, also of the book's, until there are `most` octets of it. `true` if no line is left.
    fn add_text(&self, making: &mut MadeText, most: usize) -> Result<bool, AllocError> {
        for _ in 0..MOST_ROUNDS {
            if making.has_all_text() {
                self.refill(making)?;
            }
            if making.has_all_text() {
                return Ok(true);
            }
            if making.len() >= most {
                break;
            }
            making.add_text(most)?;
        }
        Ok(false)
    }

    /// Makes text as [`LogSide::add_text`], counts the lines that got theirs, and returns what is left.
    fn make(&self, making: &mut MadeText, most: usize) -> Left {
        let before = making.line_count();
        let left = match self.add_text(making, most) {
            Ok(true) => Left::Nothing,
            Ok(false) if making.len() < MadeText::MOST => Left::Lines,
            Ok(false) => Left::NoRoom,
            Err(_) => Left::NoMemory,
        };
        let count = making.line_count().saturating_sub(before);
        self.log.add(count);
        left
    }

    /// Makes the text of lines in one turn, while there is room for it, and returns the rest.
    pub fn make_text(&self) -> Left {
        let mut making = self.lines.making.lock(self.rt);
        let most = making.len().saturating_add(OCTETS_OF_A_TURN);
        let left = self.make(&mut making, most.min(MadeText::MOST));
        if making.len() > 0 {
            self.log.wake(self.rt);
        }
        left
    }

    /// Makes the text of lines, if the book has enough of them, unless another thread does. Meant for the thread whose
    /// calls add most lines: it makes little text at a time.
    pub fn make_own_text(&self) {
        if !self.hub.has_log_lines() {
            return;
        }
        let Some(mut making) = self.lines.making.try_lock() else {
            return;
        };
        let before = making.len();
        let most = before.saturating_add(OCTETS_OF_AN_OWN_TURN);
        let _ = self.make(&mut making, most.min(MadeText::MOST));
        if before < OCTETS_OF_A_WRITE && making.len() >= OCTETS_OF_A_WRITE {
            self.log.wake(self.rt);
        }
    }

    /// Makes the text of all lines, once the link is down and its other threads have ended. If memory runs out, it
    /// tries again, for a minute or until the run is to end: then lines are lost, and all links are to go down.
    pub fn make_last_text(&self) {
        let LogSide { rt, log, .. } = *self;
        for _ in 0..MOST_TRIES {
            let left = self.make(&mut self.lines.making.lock(rt), usize::MAX);
            log.wake(rt);
            if left != Left::NoMemory {
                return;
            }
            if log.run.is_ending(rt) {
                break;
            }
            thread::sleep(rt, Duration::from_millis(MILLISECONDS_WITHOUT_MEMORY));
        }
        log.run.end(rt, LogFault::Memory);
    }

    /// Moves some lines out of the book if five eighths of their places there are taken, unless another thread moves
    /// some: it waits for that thread only if seven eighths are taken. So the book runs out of places for lines only if
    /// their list has no room either: between two such calls of each thread, fewer than 1,024 lines are added, the last
    /// eighth of the book's places. These are at most 64 lines from each of nine threads, which give back and take up
    /// to 32 turns, one for each of 64 messages, and two for each of 64 parcels. If memory runs out, the lines stay
    /// where they are.
    pub fn move_lines_if_many(&self) {
        if !self.hub.is_log_filling() {
            return;
        }
        let waiting = match self.lines.waiting.try_lock() {
            Some(waiting) => Some(waiting),
            None if self.hub.is_log_nearly_full() => Some(self.lines.waiting.lock(self.rt)),
            None => None,
        };
        if let Some(mut lines) = waiting {
            let _ = self.move_lines(&mut lines, MOST_MOVES_ASIDE);
        }
    }

    /// Whether there may soon be no place for lines: the book is nearly full, or their list is filling up.
    pub fn lacks_places(&self) -> bool {
        self.hub.is_log_nearly_full() || self.lines.is_filling()
    }
}
