//! The counts of the threads of a link for each called number.
//!
//! The thread that takes lines out of the book counts them, and then the frames that had been sent before it took the
//! lines: the line of the Begin that opened the dialogue of such a frame is among them, or was counted earlier. A
//! thread that sends notes each frame, in the order of sending, and doesn't wait until lines are counted.

use crate::called::CalledNumber;
use crate::frames::SentFrame;
use crate::number_rows::NumberRows;
use fp_book::{Line, Log, LoggedStep};
use fp_counters::Counters;
use fp_records::Table;
use std::alloc::{AllocError, Global};
use std::collections::VecDeque;
use std::sync::{Arc, Mutex, Wait};

/// The most frames that wait to be counted: as many as the book of a link has lines. Further frames aren't counted.
/// That happens only while no line leaves the book.
const MOST_FRAMES: usize = 8_192;

/// The counters of each called number of a link.
#[derive(Drop)]
pub struct NumberCounts {
    rows: Mutex<NumberRows>,
    // The sent frames that aren't counted yet. Taken after the lock of `rows`, or without it.
    sent: Mutex<VecDeque<SentFrame>>,
}

impl NumberCounts {
    /// Counters of 0 for all numbers.
    pub(crate) fn new(alloc: Global) -> Result<NumberCounts, AllocError> {
        Ok(NumberCounts {
            rows: Mutex::new(NumberRows::new(alloc)?),
            sent: Mutex::new(VecDeque::with_capacity(alloc, MOST_FRAMES)?),
        })
    }

    /// Notes a frame that is sent.
    pub(crate) fn note_sent<R: Wait>(&self, rt: &R, frame: SentFrame) {
        let mut sent = self.sent.lock(rt);
        if sent.len() < MOST_FRAMES {
            let _ = sent.push_back(frame);
        }
    }

    /// How many sent frames aren't counted yet.
    fn sent_count<R: Wait>(&self, rt: &R) -> usize {
        self.sent.lock(rt).len()
    }

    /// The first sent frame that isn't counted yet.
    fn next_sent<R: Wait>(&self, rt: &R) -> Option<SentFrame> {
        self.sent.lock(rt).pop_front()
    }

    /// Adds the counters of a number to other counters.
    pub fn add_to<R: Wait>(&self, rt: &R, number: CalledNumber, counters: &mut Counters) {
        self.rows.lock(rt).add_to(number.key(), counters);
    }
}

/// The lines that leave the book of a link at a time, while they are counted for each called number.
///
/// The caller begins before it takes lines out of the book, and counts all of them once it has them.
#[derive(Drop)]
pub struct LineCounts<'x, R> {
    rt: &'x R,
    alloc: Global,
    counts: &'x NumberCounts,
    // The newest records.
    table: Arc<Table>,
    // How many frames had been sent before the lines were taken.
    sent: usize,
}

impl<'x, R: Wait> LineCounts<'x, R> {
    /// Begins to take lines out of the book of a link with these counters. A number gets a row if this table, the
    /// newest, has it.
    pub fn begin(
        rt: &'x R,
        alloc: Global,
        counts: &'x NumberCounts,
        table: Arc<Table>,
    ) -> LineCounts<'x, R> {
        LineCounts {
            rt,
            alloc,
            counts,
            table,
            sent: counts.sent_count(rt),
        }
    }

    /// Counts a step.
    fn count(&self, rows: &mut NumberRows, step: &LoggedStep) {
        rows.count_step(self.alloc, &self.table, step);
    }

    /// Counts the frames that had been sent before, once all lines are counted.
    fn finish(&self, rows: &mut NumberRows) {
        for _ in 0..self.sent {
            let Some(frame) = self.counts.next_sent(self.rt) else {
                break;
            };
            rows.count_sent(&frame);
        }
    }

    /// Counts lines that were drained from the book, and then the frames that had been sent before. The counters stay
    /// locked meanwhile.
    pub fn count_lines(&self, lines: &[Line]) {
        let mut rows = self.counts.rows.lock(self.rt);
        for line in lines {
            if let Line::Step { step, .. } = line {
                self.count(&mut rows, step);
            }
        }
        self.finish(&mut rows);
    }

    /// Counts the lines of a log that was exchanged for an empty one, and then the frames that had been sent before.
    /// The counters stay locked meanwhile.
    pub fn count_log(&self, log: &Log) {
        let mut rows = self.counts.rows.lock(self.rt);
        for place in 0..log.len() {
            if let Some(step) = log.get(place) {
                self.count(&mut rows, step);
            }
        }
        self.finish(&mut rows);
    }
}
