//! The thread that writes the log of a run.
//!
//! The thread should belong to no scope, so that the run can end while the thread waits for a device that hangs. A
//! receiving thread waits for it for a bounded time (`log_wait.rt`), and no other thread of a link does.

use crate::{LinkLog, LogEvent, LogFault, LogRun, RunLog, WhenLogFails, WriterEnds};
use fp_book::Line;
use fp_logtext::UnwrittenText;
use fp_streams::LinkWrite;
use std::alloc::{AllocError, Global};
use std::rt::Clock;
use std::sync::{Arc, Wait};
use std::thread;
use std::time::Duration;

/// The time from a failed write to the next try, in seconds.
const SECONDS_TO_THE_NEXT_TRY: u64 = 1;

/// The longest sleep of the thread before it looks for lines by itself, in seconds.
const SECONDS_OF_A_REST: u64 = 1;

/// The state of the thread that writes the log.
#[derive(Drop)]
pub struct LogWriter<N: LogRun + Drop, L: LinkWrite + Drop> {
    log: Arc<RunLog<N>>,
    ends: WriterEnds,
    device: L,
    // The text that the device hasn't taken yet.
    text: UnwrittenText,
    // The place of the link whose text it is. `None` for the head.
    place: Option<usize>,
}

impl<N: LogRun + Drop, L: LinkWrite + Drop> LogWriter<N, L> {
    /// The state of the thread before it writes this head to this device, and then the lines of this log, whose ends
    /// these are. If memory runs out, there is none.
    pub fn new(
        alloc: Global,
        log: Arc<RunLog<N>>,
        ends: WriterEnds,
        head: &Line,
        device: L,
    ) -> Result<LogWriter<N, L>, AllocError> {
        let mut text = UnwrittenText::new(alloc)?;
        text.add(head)?;
        Ok(LogWriter {
            log,
            ends,
            device,
            text,
            place: None,
        })
    }

    /// The waiting lines of the link whose text it is.
    fn lines(&self) -> Option<&LinkLog> {
        self.log.lines_of(self.place?)
    }

    /// Writes the text that the device hasn't taken yet, or a part of it, and counts off the lines whose end the device
    /// took. `false` if a write failed.
    fn write_part<R: Clock>(&mut self, rt: &R) -> bool {
        let part = self.text.write_part(&mut self.device);
        self.log.take_off(part.octets, part.lines);
        if let Some(lines) = self.lines() {
            lines.note_written(u64::try_from(part.lines).unwrap_or(u64::MAX));
        }
        self.log.note_moved(rt);
        part.is_all
    }

    /// Writes the text that the device hasn't taken yet. `false` if a write failed.
    fn try_to_write<R: Wait + Clock>(&mut self, rt: &R) -> bool {
        for _ in rt.forever() {
            if self.text.is_empty() {
                break;
            }
            if !self.write_part(rt) {
                return false;
            }
        }
        self.device.flush().is_ok()
    }

    /// Writes the text. If that fails all links are to go down; with gaps it tries again each second, from the octet
    /// where it stopped, until the text was written or no thread waits for it. `false` if nothing more is to be
    /// written.
    fn write<R: Wait + Clock>(&mut self, rt: &R) -> bool {
        let mut has_failed = false;
        for _ in rt.forever() {
            if self.try_to_write(rt) {
                break;
            }
            if self.log.when_log_fails == WhenLogFails::EndRun {
                self.log.run.end(rt, LogFault::Unwritten);
                return false;
            }
            if !has_failed {
                self.log.run.report(rt, LogEvent::Fails);
                has_failed = true;
            }
            if self.log.is_given_up() {
                return false;
            }
            thread::sleep(rt, Duration::from_secs(SECONDS_TO_THE_NEXT_TRY));
        }
        if has_failed {
            self.log.run.report(rt, LogEvent::GoesOn);
        }
        true
    }

    /// Writes the waiting text, each link's in its order. `false` if nothing more is to be written.
    fn write_waiting<R: Wait + Clock>(&mut self, rt: &R) -> bool {
        for place in 0..self.log.link_count() {
            let Some(waiting) = self.log.lines_of(place) else {
                break;
            };
            waiting.take(rt, &mut self.text);
            self.place = Some(place);
            if !self.write(rt) {
                return false;
            }
        }
        true
    }

    /// Writes the head, and then lines as they are made, until the log is over or a write failed.
    fn write_all<R: Wait + Clock>(&mut self, rt: &R) {
        if !self.write(rt) {
            return;
        }
        let _ = self.ends.begun.try_send(rt, ());
        for _ in rt.forever() {
            // Asked before the lines are taken, so that all lines made before the end are among them.
            let is_over = self.log.is_over();
            self.log.note_moved(rt);
            if !self.write_waiting(rt) || is_over {
                break;
            }
            let rest = Duration::from_secs(SECONDS_OF_A_REST);
            let _ = self.ends.came.recv_timeout(rt, rest);
        }
    }

    /// Writes the head, and then lines as they are made, until the log is over or a write failed. The device is dropped
    /// before the run learns of the end: the next run may want its lock.
    pub fn run<R: Wait + Clock>(self, rt: &R) {
        let mut writer = self;
        writer.write_all(rt);
        let LogWriter { ends, device, .. } = writer;
        drop(device);
        drop(ends);
    }
}
